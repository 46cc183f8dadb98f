// A charge's fault, passed up whole inside the book's own.
ghost use Rattle.std.specs.Prelude.{◌≡◌};
ghost use Rattle.book.specs.declared.fault.BookFault.TheVariants.{Charge};

use crate::fault::BookFault;
use charges::ChargeFault;

// As it is: a derived From is no plainer: it has no contract, and the clauses of the calls name the fault that `?` passes up.
impl From<ChargeFault> for BookFault {
    ghost from_gives = { λ f r. r ≡ Charge f };

    fn from(fault: ChargeFault) -> BookFault {
        BookFault::Charge(fault)
    }
}
