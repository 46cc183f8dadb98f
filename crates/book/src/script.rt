// A script of calls, performed by a new book.
ghost use Rattle.std.specs.Prelude.{◌≡◌, List, [], ◌++◌, ◌<◌, length, drop, vec_capacity, MatchOption, OnErr, OnOk};
ghost use Rattle.charges.specs.Checks.{first_fault};
ghost use Rattle.rolls.specs.Rows.{Row};
ghost use Rattle.book.specs.Accounts.{Account, Follows, FollowsOnRoll};
ghost use Rattle.book.specs.Answers.{fault_of, told};
ghost use Rattle.book.specs.Checks.{set_up_checks};
ghost use Rattle.book.specs.Histories.{Terms, event_of, opens, posted, posts};
ghost use Rattle.book.specs.Postings.{lines_in};
ghost use Rattle.book.specs.Runs.{AnswersAreTheChecks, BurdensStayWithinCaps, EachPostingAddsOneLineAnOwner, JournalHoldsTheEntries, LinesAddUpToTheNet, PartsCoverTheRequirements, PostingsCancel, run_of};
ghost use Rattle.book.specs.Scripts.{empty_draft, grant_of, history_of, request_of};

use crate::book::Book;
use crate::call::{Call, Reply};
use crate::entry::Entry;
use crate::fault::BookFault;
use crate::limits::MOST_ENTRIES;
use crate::opening::Opening;
use crate::written::Written;
use charges::Charge;
use rolls::Roll;

impl Written {
    // The opening that was written down; there is none at more entries than a journal takes.
    fn opening(self) -> Option<Opening>
        ensures { MatchOption result (8192 < self.count) (λ o. o.written ≡ self) }
    {
        if self.count > MOST_ENTRIES {
            return None;
        }
        Some(Opening {
            written: self,
            spent: false,
        })
    }

    // Withdraws that opening.
    fn withdraw(self) {
        if let Some(opening) = self.opening() {
            opening.withdraw();
        }
    }
}

impl<C: Charge> Book<C> {
    // Opens a month, and writes the opening down by its month and count.
    fn open_written(&self, journal: &Vec<Entry>, month: u16) -> Result<Reply, BookFault>
        ensures { Follows (C.meaning self.now.charge) (event_of (opens month empty_draft) (told grant_of result)) self.now journal.now journal.now }
    {
        let mut draft = [0; 16];
        let opening = self.open(journal, month, &mut draft)?;
        let written = opening.written;
        opening.withdraw();
        Ok(Reply::Opened {
            opening: written,
            draft,
        })
    }

    // Posts an opening that was written down.
    // As it is: a rule of the project: journal and roll are the caller's, and each is lent by itself, here and in the calls below.
    fn post_written<R: Roll>(
        &mut self,
        journal: &Vec<Entry>,
        roll: &mut R,
        written: Written,
    ) -> Result<(), BookFault>
        ensures lines { R.lines roll.new ≡ R.lines roll.old ++ lines_in (C.meaning self.old.charge) self.old journal.now written.month written.count (R.spare roll.old) }
        ensures law { FollowsOnRoll (event_of (posts written.month written.count) (told (λ _. posted) result)) (C.meaning self.old.charge) self.old journal.now (R.lines roll.old) (R.spare roll.old) (C.meaning self.new.charge) self.new journal.now (R.lines roll.new) (R.spare roll.new) }
    {
        let Some(opening) = written.opening() else {
            return Err(BookFault::BeyondJournal);
        };
        self.post(journal, roll, opening)
    }

    // Performs one call.
    fn perform<R: Roll>(
        &mut self,
        journal: &mut Vec<Entry>,
        roll: &mut R,
        call: &Call,
    ) -> Result<Reply, BookFault>
        ensures kept { (earlier before : List Row) → R.lines roll.old ≡ earlier ++ before → R.lines roll.new ≡ earlier ++ drop (length earlier) (R.lines roll.new) }
        ensures law { FollowsOnRoll (event_of (request_of call.now) (told grant_of result)) (C.meaning self.old.charge) self.old journal.old (R.lines roll.old) (R.spare roll.old) (C.meaning self.new.charge) self.new journal.new (R.lines roll.new) (R.spare roll.new) }
    {
        match *call {
            Call::File(figures) => self
                .file(journal, figures)
                .map(|number| Reply::Entered { number }),
            Call::Read(figures) => self
                .read(journal, figures)
                .map(|number| Reply::Entered { number }),
            Call::Open { month } => self.open_written(journal, month),
            Call::Post(written) => self
                .post_written(journal, roll, written)
                .map(|()| Reply::Posted),
            Call::Withdraw(written) => {
                written.withdraw();
                Ok(Reply::Withdrawn)
            }
            Call::State { month } => self.state(journal, month).map(Reply::Stands),
        }
    }

    // Performs calls in order, and writes down the answer to each for which there is a place.
    fn perform_all<R: Roll>(
        &mut self,
        journal: &mut Vec<Entry>,
        roll: &mut R,
        calls: &[Call],
        answers: &mut [Result<Reply, BookFault>],
    )
        ensures kept { R.lines roll.new ≡ R.lines roll.old ++ drop (length (R.lines roll.old)) (R.lines roll.new) }
        ensures places { length answers.new ≡ length answers.old }
        ensures rest { drop (length calls.now) answers.new ≡ drop (length calls.now) answers.old }
        ensures law { (t : Terms) → Account (C.meaning self.old.charge) t [] self.old journal.old [] (R.spare roll.old) → Account (C.meaning self.new.charge) t (history_of calls.now answers.new) self.new journal.new (drop (length (R.lines roll.old)) (R.lines roll.new)) (R.spare roll.new) }
    {
        let count = calls.len().min(answers.len());
        // As it is: tried as answers.iter_mut().zip(calls), behind which nothing is known of what is written.
        for (i, call) in calls[0..count].iter().enumerate() {
            answers[i] = self.perform(journal, roll, call);
        }
    }
}

// Performs a script by a new book: the journal is emptied first, the roll's lines are added behind those it has.
// As it is: a rule of the project: each promise is a clause by its name, and a clause names no value for those after it.
pub fn replay<C: Charge + Drop, R: Roll>(
    areas: &[u8],
    charge: C,
    journal: &mut Vec<Entry>,
    roll: &mut R,
    calls: &[Call],
    answers: &mut [Result<Reply, BookFault>],
) -> Result<(), BookFault>
    ensures answer { fault_of (told (λ x. x) result) ≡ first_fault (set_up_checks areas.now) }
    ensures refused { OnErr result ((journal.new ≡ journal.old) × (roll.new ≡ roll.old) × (answers.new ≡ answers.old)) }
    ensures kept { R.lines roll.new ≡ R.lines roll.old ++ drop (length (R.lines roll.old)) (R.lines roll.new) }
    ensures rest { (length answers.new ≡ length answers.old) × (drop (length calls.now) answers.new ≡ drop (length calls.now) answers.old) }
    ensures journal_holds_the_entries { OnOk result (JournalHoldsTheEntries (run_of (C.meaning charge) areas.now (vec_capacity journal.old) (R.spare roll.old) calls.now answers.new journal.new (R.lines roll.old) (R.lines roll.new))) }
    ensures answers_are_the_checks { OnOk result (AnswersAreTheChecks (run_of (C.meaning charge) areas.now (vec_capacity journal.old) (R.spare roll.old) calls.now answers.new journal.new (R.lines roll.old) (R.lines roll.new))) }
    ensures lines_add_up_to_the_net { OnOk result (LinesAddUpToTheNet (run_of (C.meaning charge) areas.now (vec_capacity journal.old) (R.spare roll.old) calls.now answers.new journal.new (R.lines roll.old) (R.lines roll.new))) }
    ensures each_posting_adds_one_line_an_owner { OnOk result (EachPostingAddsOneLineAnOwner (run_of (C.meaning charge) areas.now (vec_capacity journal.old) (R.spare roll.old) calls.now answers.new journal.new (R.lines roll.old) (R.lines roll.new))) }
    ensures postings_cancel { OnOk result (PostingsCancel (run_of (C.meaning charge) areas.now (vec_capacity journal.old) (R.spare roll.old) calls.now answers.new journal.new (R.lines roll.old) (R.lines roll.new))) }
    ensures parts_cover_the_requirements { OnOk result (PartsCoverTheRequirements (run_of (C.meaning charge) areas.now (vec_capacity journal.old) (R.spare roll.old) calls.now answers.new journal.new (R.lines roll.old) (R.lines roll.new))) }
    ensures burdens_stay_within_caps { OnOk result (BurdensStayWithinCaps (run_of (C.meaning charge) areas.now (vec_capacity journal.old) (R.spare roll.old) calls.now answers.new journal.new (R.lines roll.old) (R.lines roll.new))) }
{
    let mut book = Book::new(areas, charge)?;
    journal.clear();
    book.perform_all(journal, roll, calls, answers);
    Ok(())
}
