// The nets of a month.
ghost use Rattle.charges.specs.Amounts.{amounts_of, AllBelow};

use charges::Amounts;

// In cents, owner by owner, and none so large that no line could hold what it changes by.
#[derive(Clone, Copy)]
pub(crate) struct Nets {
    pub(crate) amounts: Amounts,
    ghost small: { AllBelow 340000000000000 (amounts_of amounts) },
}
