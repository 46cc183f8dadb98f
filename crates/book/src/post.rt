// Posting an opening: one line for every owner, in order.
ghost use Rattle.charges.specs.Amounts.{amounts_of, AllBelow};
ghost use Rattle.std.specs.Prelude.{◌≡◌, ℕ, ◌+◌, ◌≤◌, List, [], ◌∷◌, ◌++◌, length, take, ◌-ℤ◌, IfOk, OnOk, unsigned_abs};
ghost use Rattle.rolls.specs.Rows.{Row, Within, row_of};
ghost use Rattle.book.specs.Accounts.{FollowsOnRoll};
ghost use Rattle.book.specs.Answers.{nets_in, nets_answer, told, fault_of};
ghost use Rattle.book.specs.Books.{areas_of, mark_of, Marked};
ghost use Rattle.book.specs.Calls.{entries_in};
ghost use Rattle.book.specs.Histories.{event_of, posted, posts};
ghost use Rattle.book.specs.Laws.{Balanced};
ghost use Rattle.book.specs.Postings.{lines_from, lines_in, mark_in, nets_before, posting_in};
ghost use Rattle.book.specs.Workings.{Figures, less, worked, worked_out};

use crate::book::Book;
use crate::current::{counted, current, first_entries};
use crate::entry::Entry;
use crate::fault::BookFault;
use crate::nets::Nets;
use crate::opening::Opening;
use crate::written::Written;
use charges::{Amounts, Charge};
use rolls::{Line, Roll};

// Adds one line, for which there is room.
fn add_line<R: Roll>(roll: &mut R, month: u16, owner: u8, mark: u16, cents: i64)
    requires line { Within month owner mark cents }
    requires room { 1 ≤ R.spare roll.old }
    ensures lines { R.lines roll.new ≡ R.lines roll.old ++ row_of month owner mark cents ∷ [] }
    ensures spare { R.spare roll.old ≡ R.spare roll.new + 1 }
{
    let line = Line::new(month, owner, mark, cents).unwrap();
    roll.add(line).unwrap();
}

// Adds a line for every owner, in order, of an opening, whose count is their mark.
fn add_lines<R: Roll>(roll: &mut R, written: Written, cents: &Amounts)
    requires mark { (1 ≤ written.count) × (written.count ≤ 8192) }
    requires small { AllBelow 800000000000000 (amounts_of cents.now) }
    requires room { length (amounts_of cents.now) ≤ R.spare roll.old }
    ensures lines { R.lines roll.new ≡ R.lines roll.old ++ lines_from written.month written.count 0 (amounts_of cents.now) }
    ensures spare { R.spare roll.old ≡ R.spare roll.new + length (amounts_of cents.now) }
{
    for (owner, cents) in cents.all().iter().enumerate() {
        add_line(roll, written.month, owner as u8, written.count, *cents);
    }
}

// What an owner's net changes by.
// As it is: a rule of the project: public functions ask for no limits, and the difference that charges has asks for some.
fn change(owner: &(i64, i64)) -> i64
    requires net { unsigned_abs owner.now.0 ≤ 340000000000000 }
    requires before { unsigned_abs owner.now.1 ≤ 340000000000000 }
    ensures value { result ≡ owner.now.0 -ℤ owner.now.1 }
    ensures bound { unsigned_abs result ≤ 800000000000000 }
{
    let (net, before) = *owner;
    net - before
}

impl<C: Charge> Book<C> {
    // The nets of a month at so many entries; from no entries there are none.
    fn nets_at(&self, journal: &Vec<Entry>, month: u16, count: u16) -> Result<Nets, BookFault>
        ensures value { told nets_in result ≡ nets_answer (worked_out (C.meaning self.now.charge) (areas_of self.now) month (take count (entries_in journal.now))) }
        ensures many { IfOk result (λ n. length (nets_in n) ≡ length (areas_of self.now)) }
        ensures some { OnOk result (1 ≤ count) }
        ensures balanced { OnOk result ((w : Figures) → worked_out (C.meaning self.now.charge) (areas_of self.now) month (take count (entries_in journal.now)) ≡ worked w → Balanced (length (areas_of self.now)) w) }
    {
        let entries = first_entries(journal, count);
        self.work_out(entries, month)
    }

    // The nets that were billed before: none of a month without a mark.
    fn nets_before(&self, journal: &Vec<Entry>, month: u16) -> Result<Nets, BookFault>
        ensures value { told nets_in result ≡ nets_before (λ k. worked_out (C.meaning self.now.charge) (areas_of self.now) month (take k (entries_in journal.now))) (length (areas_of self.now)) (mark_of self.now month) }
        ensures many { IfOk result (λ n. length (nets_in n) ≡ length (areas_of self.now)) }
    {
        let Some(mark) = self.mark(month) else {
            let amounts = self.areas.zeros();
            return Ok(Nets { amounts });
        };
        self.nets_at(journal, month, mark)
    }

    // Bills a month at so many entries: a line for every owner, its net less the one billed before.
    fn settle<R: Roll>(
        &mut self,
        journal: &Vec<Entry>,
        roll: &mut R,
        written: Written,
    ) -> Result<(), BookFault>
        ensures answer { fault_of (told (λ x. x) result) ≡ fault_of (posting_in (C.meaning self.old.charge) self.old journal.now written.month written.count (R.spare roll.old)) }
        ensures lines { R.lines roll.new ≡ R.lines roll.old ++ lines_in (C.meaning self.old.charge) self.old journal.now written.month written.count (R.spare roll.old) }
        ensures spare { R.spare roll.old ≡ R.spare roll.new + length (lines_in (C.meaning self.old.charge) self.old journal.now written.month written.count (R.spare roll.old)) }
        ensures book { Marked written.month (mark_in (C.meaning self.old.charge) self.old journal.now written.month written.count (R.spare roll.old)) self.old self.new }
        ensures balanced { OnOk result ((w : Figures) → worked_out (C.meaning self.old.charge) (areas_of self.old) written.month (take written.count (entries_in journal.now)) ≡ worked w → Balanced (length (areas_of self.old)) w) }
    {
        let Written { month, count } = written;
        if count > counted(journal) {
            return Err(BookFault::BeyondJournal);
        }
        let entries = first_entries(journal, count);
        if current(self.mark(month), entries, month) {
            return Err(BookFault::Untouched);
        }
        let nets = self.nets_at(journal, month, count)?;
        let before = self.nets_before(journal, month)?;
        if roll.free() < self.areas.count() {
            return Err(BookFault::RollFull);
        }
        let cents = nets.amounts.zip_map(&before.amounts, change);
        add_lines(roll, written, &cents);
        self.marks[usize::from(month)] = Some(count);
        Ok(())
    }

    // Posts an opening, and ends it in any case.
    pub fn post<R: Roll>(
        &mut self,
        journal: &Vec<Entry>,
        roll: &mut R,
        opening: Opening,
    ) -> Result<(), BookFault>
        ensures answer { fault_of (told (λ x. x) result) ≡ fault_of (posting_in (C.meaning self.old.charge) self.old journal.now opening.written.month opening.written.count (R.spare roll.old)) }
        ensures lines { R.lines roll.new ≡ R.lines roll.old ++ lines_in (C.meaning self.old.charge) self.old journal.now opening.written.month opening.written.count (R.spare roll.old) }
        ensures spare { R.spare roll.old ≡ R.spare roll.new + length (lines_in (C.meaning self.old.charge) self.old journal.now opening.written.month opening.written.count (R.spare roll.old)) }
        ensures book { Marked opening.written.month (mark_in (C.meaning self.old.charge) self.old journal.now opening.written.month opening.written.count (R.spare roll.old)) self.old self.new }
        ensures law { FollowsOnRoll (event_of (posts opening.written.month opening.written.count) (told (λ _. posted) result)) (C.meaning self.old.charge) self.old journal.now (R.lines roll.old) (R.spare roll.old) (C.meaning self.new.charge) self.new journal.now (R.lines roll.new) (R.spare roll.new) }
    {
        let written = opening.written;
        opening.withdraw();
        self.settle(journal, roll, written)
    }
}
