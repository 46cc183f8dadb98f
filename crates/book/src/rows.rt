// The month's table from the filings and readings in force.
ghost use Rattle.std.specs.Prelude.{◌≡◌, ℕ, ◌<◌, ◌≤◌, true, false, List, length, MatchResult, slice_index, slice_index_or};
ghost use Rattle.std.specs.Option.{option_map};
ghost use Rattle.charges.specs.Checks.{first_fault, each_from};
ghost use Rattle.charges.specs.Owners.{items_of};
ghost use Rattle.charges.specs.Rows.{RowWithin, nobody};
ghost use Rattle.charges.specs.Tables.{rows_of};
ghost use Rattle.book.specs.Answers.{fault_of, told};
ghost use Rattle.book.specs.Entries.{Noted};
ghost use Rattle.book.specs.Faults.{refusal};
ghost use Rattle.book.specs.Forces.{InForce};
ghost use Rattle.book.specs.Meaning.{filed_of, metered_of};
ghost use Rattle.book.specs.Workings.{filing_check, reading_check, row_for, rows_from, totals_check, plain};

use crate::fault::BookFault;
use crate::standings::Standing;
use charges::{OwnerRow, Owners, Table};

// Turns the month away where an owner has no filing in force, by the first such owner.
// As it is: one function for the three would take the fault as a closure, which is as long as this match; as map_or it gets no proof alone.
pub(crate) fn all_filed(standings: &Owners<Standing>) -> Result<(), BookFault>
    ensures { (month : ℕ) (entries : List Noted) (areas : List ℕ) → InForce (items_of standings.now) month entries → length areas ≡ length (items_of standings.now) → fault_of (told (λ x. x) result) ≡ first_fault (each_from (filing_check month entries) 0 areas) }
{
    match standings.all().iter().position(|s| s.filing.is_none()) {
        Some(owner) => Err(BookFault::NoFiling { owner: owner as u8 }),
        None => Ok(()),
    }
}

// The same of the readings.
// As it is: its own match, as all_filed.
pub(crate) fn all_read(standings: &Owners<Standing>) -> Result<(), BookFault>
    ensures { (month : ℕ) (entries : List Noted) (areas : List ℕ) → InForce (items_of standings.now) month entries → length areas ≡ length (items_of standings.now) → fault_of (told (λ x. x) result) ≡ first_fault (each_from (reading_check month entries) 0 areas) }
{
    match standings.all().iter().position(|s| s.reading.is_none()) {
        Some(owner) => Err(BookFault::NoReading { owner: owner as u8 }),
        None => Ok(()),
    }
}

// An owner's row, once both are in force.
fn row_for(owner: &(u8, Standing)) -> OwnerRow
    requires { owner.now.0 ≤ 2 }
    ensures value { result ≡ row_for owner.now.0 (option_map filed_of owner.now.1.filing) (option_map metered_of owner.now.1.reading) }
    ensures within { RowWithin result }
{
    let (area, standing) = *owner;
    let (Some(filing), Some(reading)) = (standing.filing, standing.reading) else {
        return OwnerRow::default();
    };
    let (filed, metered) = (filing.figures, reading.figures);
    OwnerRow {
        area,
        ehv: filed.ehv,
        nhv: filed.nhv,
        filed_load: filed.load,
        filed_peak: filed.peak,
        load: metered.load,
        peak: metered.peak,
    }
}

// The rows of all owners.
pub(crate) fn all_rows(areas: &Owners<u8>, standings: &Owners<Standing>) -> Owners<OwnerRow>
    requires many { length (items_of standings.now) ≡ length (items_of areas.now) }
    requires areas { (k : ℕ) → slice_index (items_of areas.now) k ≤ 2 }
    ensures value { (month : ℕ) (entries : List Noted) → InForce (items_of standings.now) month entries → items_of result ≡ rows_from month entries 0 (items_of areas.now) }
    ensures within { (k : ℕ) → RowWithin (slice_index_or (items_of result) k nobody) }
{
    areas.zip_map(standings, row_for)
}

// A table of the rows, unless their totals are over the limits.
pub(crate) fn table_of(rows: &Owners<OwnerRow>) -> Result<Table, BookFault>
    requires some { 1 ≤ length (items_of rows.now) }
    requires within { (k : ℕ) → RowWithin (slice_index_or (items_of rows.now) k nobody) }
    ensures { MatchResult result (λ t. ((totals_check (items_of rows.now)).fails ≡ false) × (rows_of t ≡ items_of rows.now)) (λ e. ((totals_check (items_of rows.now)).fails ≡ true) × (refusal e ≡ plain 11)) }
{
    Table::new(rows.all()).map_err(|_| BookFault::Totals)
}
