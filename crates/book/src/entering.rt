// Setting a book up, filing and reading.
ghost use Rattle.std.specs.Prelude.{◌≡◌, ℕ, ◌≤◌, false, [], length, take, IfOk, Some, None, vec_capacity, Vec, MatchResult, nat_lt, slice_index};
ghost use Rattle.std.specs.declared.alloc.Global.{Global};
ghost use Rattle.charges.specs.Checks.{first_fault, any_by};
ghost use Rattle.book.specs.Accounts.{Account};
ghost use Rattle.book.specs.Books.{areas_of, mark_of};
ghost use Rattle.book.specs.Checks.{set_up_checks};
ghost use Rattle.book.specs.Faults.{refusal};
ghost use Rattle.book.specs.Journals.{entries_of};
ghost use Rattle.book.specs.declared.entry.Entry.{Entry};

use crate::book::Book;
use crate::fault::BookFault;
use charges::{Charge, Owners};

// Whether an area is none of the three.
fn strays(areas: &[u8]) -> bool
    ensures { result ≡ any_by (λ a. nat_lt 2 a) areas.now }
{
    areas.iter().any(|area| *area > 2)
}

impl<C: Charge + Drop> Book<C> {
    // A book of owners in these areas, over one charge, with no month settled.
    pub fn new(areas: &[u8], charge: C) -> Result<Book<C>, BookFault>
        ensures book { MatchResult result (λ b. (first_fault (set_up_checks areas.now) ≡ None) × (areas_of b ≡ areas.now) × (b.charge ≡ charge) × ((month : ℕ) → mark_of b month ≡ None)) (λ e. first_fault (set_up_checks areas.now) ≡ Some (refusal e)) }
        ensures begins { IfOk result (λ b. (journal : Vec Entry Global) (free : ℕ) → entries_of journal ≡ [] → Account (C.meaning b.charge) (record { areas = areas.entry.now; meaning = C.meaning charge; room = vec_capacity journal; lines = free }) [] b journal [] free) }
    {
        let owners = Owners::new(areas).ok_or(BookFault::Owners)?;
        if areas.is_empty() || strays(areas) {
            return Err(BookFault::Owners);
        }
        Ok(Book {
            areas: owners,
            charge,
            marks: [None; 360],
        })
    }
}
