// A month's table: a row for each of one to sixteen owners.
ghost use Rattle.std.specs.Prelude.{ℕ, ◌<◌, ◌≤◌, take, slice_index_or};
ghost use Rattle.charges.specs.Rows.{RequiredWithin, UsedWithin, nobody, ehv_size, required_size};

use crate::owners::Owners;

// Areas are 0 North, 1 East and Central, 2 South; requirements are in whole dollars a year, loads in MWh and peaks in MW.
#[derive(Clone, Copy, PartialEq, Eq, Debug, Default)]
pub struct OwnerRow {
    // As it is: a rule of the project: areas go by their numbers 0 to 2, and a row may name one that is none: then no table is made of it.
    pub area: u8,
    pub ehv: i64,
    pub nhv: i64,
    pub filed_load: u32,
    pub filed_peak: u32,
    pub load: u32,
    pub peak: u32,
}

// Every table keeps all the limits, those on its totals too.
#[derive(Clone, Copy)]
pub struct Table {
    pub(crate) rows: Owners<OwnerRow>,
    ghost some: { 1 ≤ rows.count },
    ghost required_within: { (i : ℕ) → i < rows.count → RequiredWithin (slice_index_or rows.items i nobody) },
    ghost used_within: { (i : ℕ) → i < rows.count → UsedWithin (slice_index_or rows.items i nobody) },
    ghost existing: { ehv_size (take rows.count rows.items) ≤ 2000000000 },
    ghost required: { required_size (take rows.count rows.items) ≤ 3000000000 },
}
