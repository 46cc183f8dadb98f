// Which filing and which reading of each owner is in force for a month.
ghost use Rattle.std.specs.Prelude.{◌≡◌, List, [], ◌∷◌, ◌++◌, length, map};
ghost use Rattle.charges.specs.Owners.{items_of};
ghost use Rattle.book.specs.Entries.{Noted};
ghost use Rattle.book.specs.Forces.{InForce};
ghost use Rattle.book.specs.Meaning.{noted};

use crate::current::touches;
use crate::entry::Entry;
use crate::standings::Standing;
use charges::Owners;

// Takes one more entry into account.
fn note(standings: &mut [Standing; 16], month: u16, entry: &Entry)
    ensures { (entries : List Noted) → InForce standings.old month entries → InForce standings.new month (entries ++ noted entry.now ∷ []) }
{
    if !touches(entry, month) {
        return;
    }
    match *entry {
        Entry::Filing(f) => standings[usize::from(f.figures.owner)].filing = Some(f),
        Entry::Reading(r) => standings[usize::from(r.figures.owner)].reading = Some(r),
    }
}

// What is in force of each owner for a month, in one pass over the entries.
pub(crate) fn in_force(areas: &Owners<u8>, entries: &[Entry], month: u16) -> Owners<Standing>
    ensures force { InForce (items_of result) month (map noted entries.now) }
    ensures many { length (items_of result) ≡ length (items_of areas.now) }
{
    // As it is: a rule of the project: entries are of sixteen owner numbers, also of some that this book has not.
    let mut standings = [Standing::default(); 16];
    for entry in entries {
        note(&mut standings, month, entry);
    }
    Owners::new(&standings[..areas.count()]).unwrap()
}
