// A month opened for billing: the month, and how many entries it was worked out from.
ghost use Rattle.std.specs.Prelude.{◌≡◌, ◌≤◌, true};

use crate::written::Written;

// An opening is owed a posting or a withdrawal: it may be let go only once one of them has spent it.
// As it is: a rule of the project: a promise of `open` speaks of `spent`, and a planted bug hands out a token that is spent already.
pub struct Opening {
    pub(crate) written: Written,
    pub(crate) spent: bool,
    ghost within: { written.count ≤ 8192 },
}

impl Drop for Opening {
    fn drop(self)
        requires { self.spent ≡ true }
    {
        let Opening {
            written: _,
            spent: _,
        } = self;
    }
}
