// What the owners of a table require.
ghost use Rattle.std.specs.Prelude.{◌≡◌, ◌<◌, ◌≤◌, map, pos, ◌*ℤ◌, unsigned_abs};
ghost use Rattle.charges.specs.Amounts.{amounts_of};
ghost use Rattle.charges.specs.Pools.{rounded_down};
ghost use Rattle.charges.specs.Rows.{requirements, all_ehv, all_nhv, area_ehv, ehv_in};
ghost use Rattle.charges.specs.Tables.{rows_of};

use crate::amounts::Amounts;
use crate::table::{OwnerRow, Table};

// For existing facilities, owner by owner.
pub(crate) fn ehv_of(table: &Table) -> Amounts
    ensures { amounts_of result ≡ map (λ x. x.ehv) (rows_of table.now) }
{
    table.rows.map(|row| row.ehv)
}

// For existing facilities, of all owners.
pub(crate) fn all_ehv(table: &Table) -> i64
    ensures value { result ≡ all_ehv (rows_of table.now) }
    ensures bound { unsigned_abs result ≤ 2000000000 }
{
    table.rows.sum_of(|row| row.ehv) as i64
}

// For new facilities, of all owners.
pub(crate) fn all_nhv(table: &Table) -> i64
    ensures value { result ≡ all_nhv (rows_of table.now) }
    ensures bound { unsigned_abs result ≤ 3000000000 }
{
    table.rows.sum_of(|row| row.nhv) as i64
}

// For all facilities, of all owners.
pub(crate) fn all_required(table: &Table) -> i64
    ensures value { result ≡ requirements (rows_of table.now) }
    ensures bound { unsigned_abs result ≤ 5000000000 }
{
    all_ehv(table) + all_nhv(table)
}

// For existing facilities, of an area's owners.
pub(crate) fn area_ehv(area: u8, table: &Table) -> i64
    ensures value { result ≡ area_ehv area (rows_of table.now) }
    ensures bound { unsigned_abs result ≤ 2000000000 }
{
    table.rows.sum_of(|row| ehv_in(area, row)) as i64
}

// An owner's requirement for existing facilities, if it is in the area.
fn ehv_in(area: u8, row: &OwnerRow) -> i64
    ensures { result ≡ ehv_in area row.now }
{
    if row.area == area { row.ehv } else { 0 }
}

// So many of the equal parts of a sum, rounded down.
pub(crate) fn portion(sum: i64, taken: u8, parts: u8) -> i64
    requires sum { unsigned_abs sum ≤ 5000000000 }
    requires taken { taken ≤ parts }
    requires parts { 0 < parts }
    ensures value { result ≡ rounded_down (sum *ℤ pos taken) parts }
    ensures bound { unsigned_abs result ≤ unsigned_abs sum }
{
    (sum * i64::from(taken)).div_euclid(i64::from(parts))
}
