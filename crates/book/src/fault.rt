// Why the book turns a call away.
use charges::ChargeFault;

#[derive(Clone, Copy, PartialEq, Eq, Debug)]
pub enum BookFault {
    // An owner count or an area is outside its limits.
    Owners,
    UnknownOwner,
    // A month above 359, or a first month after the last.
    Month,
    // A figure is outside its limits.
    Figure,
    JournalFull,
    // The draft list has fewer places than there are owners.
    ShortDraft,
    // The month is settled and nothing touched it since.
    Current,
    NoFiling { owner: u8 },
    NoReading { owner: u8 },
    // The table's totals are over their limits.
    Totals,
    // What the charge refused, whole.
    Charge(ChargeFault),
    UtilityRate { owner: u8 },
    // An adjustment without an owner to bear it.
    NoWeight,
    // An opening of more entries than the journal has.
    BeyondJournal,
    // No entry since the mark touches the month.
    Untouched,
    RollFull,
}
