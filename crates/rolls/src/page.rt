// A page of lent bytes: text is laid into it piece by piece, each behind the last.
ghost use Rattle.std.specs.Prelude.{◌≡◌, ◌≤◌, length};

use itoa::{Buffer, Integer};

#[derive(Drop)]
pub(crate) struct Page<'a> {
    // As it is: a rule of the project: no heap, so the page is lent, and where its text ends stands beside it.
    bytes: &'a mut [u8],
    // How many bytes are laid.
    pub(crate) end: usize,
    ghost within: { end ≤ length bytes.now },
}

impl<'a> Page<'a> {
    ghost use Rattle.rolls.specs.Pages.{Fits, Lays};

    // A page on which nothing is laid yet.
    pub(crate) fn new(bytes: &'a mut [u8]) -> Page<'a>
        ensures lent { result.bytes.ghost_name ≡ bytes.entry.ghost_name }
        ensures bytes { result.bytes.now ≡ bytes.old }
        ensures begins { result.end ≡ 0 }
    {
        Page { bytes, end: 0 }
    }

    // Text as it stands.
    // As it is: a Result in place of the room that is required is no plainer: the page suffices, so no such error arises.
    pub(crate) fn text(&mut self, text: &[u8])
        requires { Fits self.old text.now }
        ensures { Lays self.old text.now self.new }
    {
        let end = self.end + text.len();
        self.bytes[self.end..end].copy_from_slice(text);
        self.end = end;
    }

    // A number in decimal, with a minus sign below 0.
    pub(crate) fn number<N: Integer>(&mut self, n: N)
        requires { Fits self.old (N.text n) }
        ensures { Lays self.old (N.text n) self.new }
    {
        self.text(Buffer::new().format(n).as_bytes());
    }
}
