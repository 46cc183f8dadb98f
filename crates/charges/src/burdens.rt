// The owners' burdens.
ghost use Rattle.charges.specs.Amounts.{amounts_of, AllBelow};

use crate::amounts::Amounts;

// Dollars a year for each owner, column [30], and none too large to ease.
#[derive(Clone, Copy)]
pub(crate) struct Burdens {
    pub(crate) amounts: Amounts,
    ghost small: { AllBelow 500000000000 (amounts_of amounts) },
}
