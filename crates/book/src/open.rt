// Opening a month.
ghost use Rattle.std.specs.Prelude.{◌≡◌, ◌≤◌, false, ◌++◌, length, drop, IfOk};
ghost use Rattle.book.specs.Accounts.{Follows};
ghost use Rattle.book.specs.Answers.{nets_in, told};
ghost use Rattle.book.specs.Calls.{count_of, opening_in, opening_of, opened, drafted};
ghost use Rattle.book.specs.Histories.{drew, event_of, opens};

use crate::book::Book;
use crate::current::{counted, counted_entries, current};
use crate::entry::Entry;
use crate::fault::BookFault;
use crate::limits::LAST_MONTH;
use crate::nets::Nets;
use crate::opening::Opening;
use crate::written::Written;
use charges::Charge;

// Writes the nets into a list's first places.
fn draw(nets: &Nets, draft: &mut [i64])
    requires { length (nets_in nets.now) ≤ length draft.old }
    ensures { draft.new ≡ nets_in nets.now ++ drop (length (nets_in nets.now)) draft.old }
{
    draft[..nets.amounts.count()].copy_from_slice(nets.amounts.all());
}

impl<C: Charge> Book<C> {
    // Works a month out at the journal's length and writes its nets into the draft list's first places.
    // As it is: a rule of the project: the journal is lent as a Vec to each call, since the law over calls speaks of its room.
    pub fn open(
        &self,
        journal: &Vec<Entry>,
        month: u16,
        draft: &mut [i64],
    ) -> Result<Opening, BookFault>
        ensures answer { told opening_of result ≡ opened month (count_of journal.now) (opening_in (C.meaning self.now.charge) self.now journal.now month (length draft.old)) }
        ensures draft { draft.new ≡ drafted (opening_in (C.meaning self.now.charge) self.now journal.now month (length draft.old)) draft.old }
        ensures owed { IfOk result (λ o. o.spent ≡ false) }
        ensures law { Follows (C.meaning self.now.charge) (event_of (opens month draft.old) (told (λ o. drew o.written.month o.written.count draft.new) result)) self.now journal.now journal.now }
    {
        if month > LAST_MONTH {
            return Err(BookFault::Month);
        }
        if draft.len() < self.areas.count() {
            return Err(BookFault::ShortDraft);
        }
        let entries = counted_entries(journal);
        if current(self.mark(month), entries, month) {
            return Err(BookFault::Current);
        }
        let nets = self.work_out(entries, month)?;
        draw(&nets, draft);
        let count = counted(journal);
        Ok(Opening {
            written: Written { month, count },
            spent: false,
        })
    }
}
