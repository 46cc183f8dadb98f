// An opening written down as its month and count.
ghost use Rattle.std.specs.Prelude.{◌≤◌};

// No book gives an opening of a month above 359; the count may be any.
#[derive(Clone, Copy, PartialEq, Eq, Debug)]
pub struct Written {
    pub(crate) month: u16,
    pub(crate) count: u16,
    ghost month_within: { month ≤ 359 },
}
