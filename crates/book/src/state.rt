// The state question.
ghost use Rattle.std.specs.Prelude.{◌≡◌, ℕ, List};
ghost use Rattle.rolls.specs.Rows.{Row};
ghost use Rattle.book.specs.Accounts.{Account, Follows};
ghost use Rattle.book.specs.Answers.{told};
ghost use Rattle.book.specs.Books.{mark_of};
ghost use Rattle.book.specs.Calls.{entries_in};
ghost use Rattle.book.specs.Checks.{verdict};
ghost use Rattle.book.specs.Histories.{Event, Terms, asks, entries_by, event_of, mark_by, stands};
ghost use Rattle.book.specs.States.{state_as, state_checks, state_of};

use crate::book::Book;
use crate::call::State;
use crate::current::{counted_entries, untouched};
use crate::entry::Entry;
use crate::fault::BookFault;
use crate::limits::LAST_MONTH;
use charges::Charge;

impl<C> Book<C> {
    // The mark of a month, if it is settled.
    pub(crate) fn mark(&self, month: u16) -> Option<u16>
        ensures { result ≡ mark_of self.now month }
    {
        self.marks.get(usize::from(month)).copied().flatten()
    }
}

impl<C: Charge> Book<C> {
    // Whether a month is unsettled, due or current, with its mark.
    pub fn state(&self, journal: &Vec<Entry>, month: u16) -> Result<State, BookFault>
        ensures answer { told state_as result ≡ verdict (state_of (mark_of self.now month) month (entries_in journal.now)) (state_checks month) }
        ensures law { Follows (C.meaning self.now.charge) (event_of (asks month) (told (λ s. stands (state_as s)) result)) self.now journal.now journal.now }
        ensures state_is_told_by_the_calls { (t : Terms) (h : List Event) (rows : List Row) (free : ℕ) → Account (C.meaning self.now.charge) t h self.now journal.now rows free → told state_as result ≡ verdict (state_of (mark_by month h) month (entries_by h)) (state_checks month) }
    {
        if month > LAST_MONTH {
            return Err(BookFault::Month);
        }
        let Some(mark) = self.mark(month) else {
            return Ok(State::Unsettled);
        };
        if untouched(mark, counted_entries(journal), month) {
            Ok(State::Current { mark })
        } else {
            Ok(State::Due { mark })
        }
    }
}
