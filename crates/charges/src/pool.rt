// Pools: sums of dollars that are divided over what the owners filed, and that set rates.
ghost use Rattle.std.specs.Prelude.{◌≡◌, ◌*◌, ◌≤◌, unsigned_abs};
ghost use Rattle.division.specs.Shares.{total};
ghost use Rattle.charges.specs.Owners.{items_of};
ghost use Rattle.charges.specs.Pools.{weight, weights, bears, basis_place, pool_of, pool_rate, rate_in, unfiled, SmallSum};
ghost use Rattle.charges.specs.Tables.{rows_of};

use crate::owners::Owners;
use crate::rounding::rate_for_each;
use crate::table::{OwnerRow, Table};

// What a pool is divided over: the filed loads of an area, all filed loads, or all filed peaks.
#[derive(Clone, Copy)]
pub(crate) enum Basis {
    // As it is: an enum of the areas is no plainer: the number is compared with a row's, which may be none of the three, so the enum would be turned back at each comparison.
    AreaLoad(u8),
    GridLoad,
    Peak,
}

// What an owner is metered by, and so what a rate is for.
// As it is: a function each in its place is no plainer: what a pool bears on goes by both the meter and the basis.
#[derive(Clone, Copy)]
pub(crate) enum Meter {
    Mwh,
    Mw,
}

// A sum in dollars, and all that is filed of what it is divided over.
// As it is: tried with the sum's bound as an invariant, where the definitions make no pools: what a charge means is said of any rows,
// whose sums may be of any size.
#[derive(Clone, Copy)]
pub(crate) struct Pool {
    pub(crate) sum: i64,
    pub(crate) basis: Basis,
    pub(crate) filed: u64,
}

impl Basis {
    // What an owner weighs.
    fn weight(self, row: &OwnerRow) -> u64
        ensures { result ≡ weight self row.now }
    {
        match self {
            Basis::AreaLoad(area) => {
                if row.area == area {
                    u64::from(row.filed_load)
                } else {
                    0
                }
            }
            Basis::GridLoad => u64::from(row.filed_load),
            Basis::Peak => u64::from(row.filed_peak),
        }
    }

    // What each owner weighs.
    pub(crate) fn weights(self, table: &Table) -> Owners<u64>
        ensures { items_of result ≡ weights self (rows_of table.now) }
    {
        table.rows.map(|row| self.weight(row))
    }

    // Whether a pool's rate is one for what a meter of the owner counts.
    fn bears(self, meter: Meter, row: &OwnerRow) -> bool
        ensures { result ≡ bears meter self row.now }
    {
        match (meter, self) {
            (Meter::Mwh, Basis::AreaLoad(area)) => row.area == area,
            (Meter::Mwh, Basis::GridLoad) => true,
            (Meter::Mwh, Basis::Peak) => false,
            (Meter::Mw, Basis::AreaLoad(_)) => false,
            (Meter::Mw, Basis::GridLoad) => false,
            (Meter::Mw, Basis::Peak) => true,
        }
    }

    // The place by which a fault names a pool.
    pub(crate) fn place(self) -> u8
        ensures { result ≡ basis_place self }
    {
        match self {
            Basis::AreaLoad(area) => area,
            Basis::GridLoad => 3,
            Basis::Peak => 4,
        }
    }
}

impl Pool {
    // The pool of a sum over what the owners filed.
    pub(crate) fn new(sum: i64, basis: Basis, table: &Table) -> Pool
        ensures { result ≡ pool_of sum basis (rows_of table.now) }
    {
        Pool {
            sum,
            basis,
            filed: filed(basis, table),
        }
    }

    // Whether there are dollars and nothing to divide them over.
    pub(crate) fn is_unfiled(&self) -> bool
        ensures { result ≡ unfiled self.now }
    {
        self.sum != 0 && self.filed == 0
    }

    // What the pool adds to an owner's rate for what a meter counts.
    pub(crate) fn rate_in(&self, meter: Meter, row: &OwnerRow) -> i64
        requires { SmallSum self.now }
        ensures value { result ≡ rate_in meter row.now self.now }
        ensures bound { unsigned_abs result ≤ 1000000000000000 }
    {
        if self.basis.bears(meter, row) {
            self.rate()
        } else {
            0
        }
    }

    // Hundredths of a cent for each unit, and 0 where nothing is filed.
    fn rate(&self) -> i64
        requires { SmallSum self.now }
        ensures value { result ≡ pool_rate self.now }
        ensures bound { unsigned_abs result ≤ 1000000000000000 }
    {
        rate_for_each(self.sum, self.filed)
    }
}

// All that the owners filed.
fn filed(basis: Basis, table: &Table) -> u64
    ensures { result ≡ total (weights basis (rows_of table.now)) }
{
    table.rows().iter().map(|row| basis.weight(row)).sum()
}
