// Which entries touch a month, and whether a settled month is current.
ghost use Rattle.std.specs.Prelude.{◌≡◌, min, map, take, Some, vec_len};
ghost use Rattle.charges.specs.Checks.{any_by};
ghost use Rattle.book.specs.Calls.{entries_in};
ghost use Rattle.book.specs.Entries.{touches};
ghost use Rattle.book.specs.Meaning.{noted};
ghost use Rattle.book.specs.States.{is_current};

use crate::entry::Entry;
use crate::limits::MOST_ENTRIES;

// Whether an entry touches a month.
pub(crate) fn touches(entry: &Entry, month: u16) -> bool
    ensures { result ≡ touches month (noted entry.now) }
{
    match *entry {
        Entry::Filing(f) => f.figures.first <= month && month <= f.figures.last,
        Entry::Reading(r) => r.figures.month == month,
    }
}

// Whether one of the entries touches a month.
pub(crate) fn touched(entries: &[Entry], month: u16) -> bool
    ensures { result ≡ any_by (touches month) (map noted entries.now) }
{
    entries.iter().any(|entry| touches(entry, month))
}

// Whether no entry from a mark on touches a month.
pub(crate) fn untouched(mark: u16, entries: &[Entry], month: u16) -> bool
    ensures { result ≡ is_current (Some mark) month (map noted entries.now) }
{
    let mark = usize::from(mark);
    mark >= entries.len() || !touched(&entries[mark..], month)
}

// Whether a month with this mark, if it is settled, is current: no entry from the mark on touches it.
pub(crate) fn current(mark: Option<u16>, entries: &[Entry], month: u16) -> bool
    ensures { result ≡ is_current mark month (map noted entries.now) }
{
    mark.is_some_and(|mark| untouched(mark, entries, month))
}

// How many entries of a journal count.
pub(crate) fn counted(journal: &Vec<Entry>) -> u16
    ensures { result ≡ min (vec_len journal.now) 8192 }
{
    journal.len().min(usize::from(MOST_ENTRIES)) as u16
}

// The entries of a journal that count.
pub(crate) fn counted_entries(journal: &Vec<Entry>) -> &[Entry]
    ensures { map noted result.now ≡ entries_in journal.now }
{
    &journal.as_slice()[0..usize::from(counted(journal))]
}

// The first so many entries of a journal.
pub(crate) fn first_entries(journal: &Vec<Entry>, count: u16) -> &[Entry]
    ensures { map noted result.now ≡ take count (entries_in journal.now) }
{
    &journal.as_slice()[0..usize::from(count.min(counted(journal)))]
}
