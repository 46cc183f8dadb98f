// Making a table, and reading it.
ghost use Rattle.std.specs.Prelude.{◌≡◌, ◌≤◌, false, length};
ghost use Rattle.std.specs.List.{slice_get};
ghost use Rattle.charges.specs.Owners.{items_of};
ghost use Rattle.charges.specs.Rows.{Good, ehv_size, nhv_size};
ghost use Rattle.charges.specs.Tables.{rows_of, TableAnswer, outside_areas, outside_figure, outside_figures, outside_requirement, outside_use};

use crate::fault::TableFault;
use crate::owners::Owners;
use crate::table::{OwnerRow, Table};

impl Table {
    // The table of these rows, in their order, if they keep all the limits.
    pub fn new(rows: &[OwnerRow]) -> Result<Table, TableFault>
        ensures { TableAnswer result rows.now }
    {
        let owners = Owners::new(rows).ok_or(TableFault::Owners)?;
        if rows.is_empty() || some_area_outside(rows) {
            return Err(TableFault::Owners);
        }
        if some_figure_outside(rows) {
            return Err(TableFault::Figure);
        }
        let (ehv, nhv) = sizes(rows);
        if ehv > 2_000_000_000 || ehv + nhv > 3_000_000_000 {
            return Err(TableFault::Totals);
        }
        Ok(Table { rows: owners })
    }

    // How many owners there are.
    pub fn count(&self) -> usize
        ensures { result ≡ length (rows_of self.now) }
    {
        self.rows.count()
    }

    // An owner's row.
    pub fn row(&self, owner: usize) -> Option<OwnerRow>
        ensures { result ≡ slice_get (rows_of self.now) owner }
    {
        self.rows.at(owner)
    }

    // All the rows.
    pub fn rows(&self) -> &[OwnerRow]
        ensures rows { result.now ≡ rows_of self.now }
        ensures good { Good result.now }
    {
        self.by_owner().all()
    }

    // The same rows as the owners' list, to reckon with owner by owner.
    pub fn by_owner(&self) -> &Owners<OwnerRow>
        ensures rows { items_of result.now ≡ rows_of self.now }
        ensures good { Good (items_of result.now) }
    {
        &self.rows
    }
}

// Whether an owner is in none of the three areas.
fn some_area_outside(rows: &[OwnerRow]) -> bool
    ensures { result ≡ outside_areas rows.now }
{
    rows.iter().any(|row| row.area > 2)
}

// Whether a row has a figure outside its limits.
fn some_figure_outside(rows: &[OwnerRow]) -> bool
    ensures { result ≡ outside_figures rows.now }
{
    rows.iter().any(figure_outside)
}

// Whether one of a row's figures is outside its limits.
fn figure_outside(row: &OwnerRow) -> bool
    ensures { result ≡ outside_figure row.now }
{
    requirement_outside(row) || use_outside(row)
}

// Whether one of the two requirements is.
fn requirement_outside(row: &OwnerRow) -> bool
    ensures { result ≡ outside_requirement row.now }
{
    row.ehv.unsigned_abs() > 2_000_000_000 || row.nhv.unsigned_abs() > 2_000_000_000
}

// Whether a load or a peak is.
fn use_outside(row: &OwnerRow) -> bool
    ensures { result ≡ outside_use row.now }
{
    row.filed_load > 180_000_000
        || row.filed_peak > 1_000_000
        || row.load > 100_000_000
        || row.peak > 100_000
}

// What the magnitudes of the two requirements add up to.
fn sizes(rows: &[OwnerRow]) -> (u64, u64)
    requires few { length rows.now ≤ 16 }
    requires within { outside_figures rows.now ≡ false }
    ensures ehv { result.0 ≡ ehv_size rows.now }
    ensures nhv { result.1 ≡ nhv_size rows.now }
    ensures ehv_bound { result.0 ≤ 32000000000 }
    ensures nhv_bound { result.1 ≤ 32000000000 }
{
    let ehv = rows.iter().map(|row| row.ehv.unsigned_abs()).sum();
    let nhv = rows.iter().map(|row| row.nhv.unsigned_abs()).sum();
    (ehv, nhv)
}
