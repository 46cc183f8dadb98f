// Filing and reading: one entry more in the journal, or a refusal.
ghost use Rattle.std.specs.Prelude.{◌≡◌, ◌<◌, ◌≤◌, ◌||◌, [], ◌∷◌, length, vec_len, vec_capacity, MatchResult, nat_lt};
ghost use Rattle.book.specs.Accounts.{Follows};
ghost use Rattle.book.specs.Answers.{told};
ghost use Rattle.book.specs.Books.{areas_of};
ghost use Rattle.book.specs.Checks.{filing_limits, reading_limits, room_check, full, outside_filing, verdict};
ghost use Rattle.book.specs.Entries.{filed, metered};
ghost use Rattle.book.specs.Histories.{entered, event_of, files, reads};
ghost use Rattle.book.specs.Journals.{Enters, filing_in, reading_in};
ghost use Rattle.book.specs.Meaning.{filed_of, metered_of, noted};
ghost use Rattle.book.specs.declared.fault.BookFault.TheVariants.{UnknownOwner};

use crate::book::Book;
use crate::entry::{Entry, Filing, Reading};
use crate::fault::BookFault;
use crate::figures::{Filed, Metered};
use crate::limits::{LAST_MONTH, MOST_ENTRIES};
use charges::Charge;

// Whether the months are none, or the first comes after the last.
fn outside_months(first: u16, last: u16) -> bool
    ensures { result ≡ (nat_lt 359 first || (nat_lt 359 last || nat_lt last first)) }
{
    first > LAST_MONTH || last > LAST_MONTH || last < first
}

// Whether a figure of a filing is outside its limits.
fn outside_filing(f: &Filed) -> bool
    ensures { result ≡ outside_filing f.now }
{
    let far = f.ehv.unsigned_abs() > 2_000_000_000 || f.nhv.unsigned_abs() > 2_000_000_000;
    far || f.load > 180_000_000 || f.peak > 1_000_000
}

// Whether the journal takes no more entries.
fn is_full(journal: &Vec<Entry>) -> bool
    ensures { result ≡ full (vec_len journal.now) (vec_capacity journal.now) }
{
    journal.len() >= usize::from(MOST_ENTRIES) || journal.len() >= journal.capacity()
}

// Enters one entry, if the journal takes one more, and answers its number.
fn enter(journal: &mut Vec<Entry>, entry: Entry) -> Result<usize, BookFault>
    ensures answer { told (λ i. i) result ≡ verdict (vec_len journal.old) (room_check (vec_len journal.old) (vec_capacity journal.old) ∷ []) }
    ensures journal { Enters (noted entry) result journal.old journal.new }
{
    if is_full(journal) {
        return Err(BookFault::JournalFull);
    }
    let number = journal.len();
    journal.push_reserved(entry);
    Ok(number)
}

impl<C: Charge> Book<C> {
    // Turns away an owner that the book has not.
    fn known(&self, owner: u8) -> Result<(), BookFault>
        ensures { MatchResult result (λ _. owner < length (areas_of self.now)) (λ e. (length (areas_of self.now) ≤ owner) × (e ≡ UnknownOwner)) }
    {
        if usize::from(owner) >= self.areas.count() {
            return Err(BookFault::UnknownOwner);
        }
        Ok(())
    }

    // A filing of one of the owners, within its limits.
    fn filing(&self, figures: Filed) -> Result<Filing, BookFault>
        ensures { told filed_of result ≡ verdict figures (filing_limits (length (areas_of self.now)) figures) }
    {
        self.known(figures.owner)?;
        if outside_months(figures.first, figures.last) {
            return Err(BookFault::Month);
        }
        if outside_filing(&figures) {
            return Err(BookFault::Figure);
        }
        Ok(Filing { figures })
    }

    // A reading of one of the owners, within its limits.
    fn reading(&self, figures: Metered) -> Result<Reading, BookFault>
        ensures { told metered_of result ≡ verdict figures (reading_limits (length (areas_of self.now)) figures) }
    {
        self.known(figures.owner)?;
        if figures.month > LAST_MONTH {
            return Err(BookFault::Month);
        }
        if figures.load > 100_000_000 || figures.peak > 100_000 {
            return Err(BookFault::Figure);
        }
        Ok(Reading { figures })
    }

    // Enters an owner's filing from a first to a last month, and answers the entry's number.
    pub fn file(&self, journal: &mut Vec<Entry>, figures: Filed) -> Result<usize, BookFault>
        ensures answer { told (λ i. i) result ≡ filing_in self.now journal.old figures }
        ensures journal { Enters (filed figures) result journal.old journal.new }
        ensures law { Follows (C.meaning self.now.charge) (event_of (files figures) (told entered result)) self.now journal.old journal.new }
    {
        let filing = self.filing(figures)?;
        enter(journal, Entry::Filing(filing))
    }

    // Enters an owner's reading of a month, and answers the entry's number.
    pub fn read(&self, journal: &mut Vec<Entry>, figures: Metered) -> Result<usize, BookFault>
        ensures answer { told (λ i. i) result ≡ reading_in self.now journal.old figures }
        ensures journal { Enters (metered figures) result journal.old journal.new }
        ensures law { Follows (C.meaning self.now.charge) (event_of (reads figures) (told entered result)) self.now journal.old journal.new }
    {
        let reading = self.reading(figures)?;
        enter(journal, Entry::Reading(reading))
    }
}
