// The volumetric charge: areas and the whole grid are charged by load.
ghost use Rattle.std.specs.Prelude.{◌≡◌, ◌<◌, ◌≤◌, MatchResult, unsigned_abs, refl};
ghost use Rattle.std.specs.List.{slice_get};
ghost use Rattle.std.specs.Option.{option_map};
ghost use Rattle.charges.specs.Charging.{rates_for};
ghost use Rattle.charges.specs.Pools.{PoolsWithin};
ghost use Rattle.charges.specs.Settings.{setting_number};
ghost use Rattle.charges.specs.Tables.{rows_of};
ghost use Rattle.charges.specs.Transition.{existing_pools};
ghost use Rattle.charges.specs.Volumetric.{area_pool, pools_with, volumetric_pools, volumetric};
ghost use Rattle.std.proofs.Common.{arith};
ghost use Rattle.std.proofs.lemmas.Int.{ints};
ghost use Rattle.charges.specs.Keeping.{keeps-cover, keeps-idle, keeps-bounded, keeps-one-of-each};

use crate::billing::{Billing, Rates};
use crate::charge::Charge;
use crate::fault::{ChargeFault, SettingFault};
use crate::pool::{Basis, Pool};
use crate::pools::Pools;
use crate::requirement::{all_ehv, all_nhv, area_ehv, portion};
use crate::table::Table;

// How many tenths of an area's requirement for existing facilities are carried grid-wide.
#[derive(Clone, Copy)]
pub struct Volumetric {
    tenths: u8,
    ghost within: { tenths ≤ 10 },
}

impl Volumetric {
    // The charge with this setting, if it is at most ten.
    pub fn new(tenths: u8) -> Result<Volumetric, SettingFault>
        ensures { MatchResult result (λ v. (tenths ≤ 10) × (v.tenths ≡ tenths)) (λ f. (10 < tenths) × (setting_number f ≡ 2)) }
    {
        if tenths > 10 {
            return Err(SettingFault::Outside);
        }
        Ok(Volumetric { tenths })
    }

    // What an area's load carries.
    fn area_pool(&self, area: u8, table: &Table) -> i64
        ensures value { result ≡ area_pool self.now.tenths area (rows_of table.now) }
        ensures bound { unsigned_abs result ≤ 2000000000 }
    {
        portion(area_ehv(area, table), 10 - self.tenths, 10)
    }

    // What an owner pays for each MWh and each MW, if there is such an owner.
    pub fn rates(&self, table: &Table, owner: usize) -> Option<Rates>
        ensures { result ≡ option_map (rates_for (volumetric_pools self.now.tenths (rows_of table.now))) (slice_get (rows_of table.now) owner) }
    {
        Pools::new(&self.pools(table)).owner_rates(table, owner)
    }

    // The pools of the three areas, and the grid's.
    fn pools(&self, table: &Table) -> [Pool; 4]
        ensures pools { result ≡ volumetric_pools self.now.tenths (rows_of table.now) }
        ensures within { PoolsWithin result }
    {
        self.pools_with(all_nhv(table), table)
    }

    // The pools, if nothing were required for new facilities.
    pub(crate) fn existing_pools(&self, table: &Table) -> [Pool; 4]
        ensures pools { result ≡ existing_pools self.now.tenths (rows_of table.now) }
        ensures within { PoolsWithin result }
    {
        self.pools_with(0, table)
    }

    // The pools, with so much required for new facilities, which the grid carries.
    fn pools_with(&self, new: i64, table: &Table) -> [Pool; 4]
        requires { unsigned_abs new ≤ 3000000000 }
        ensures pools { result ≡ pools_with new self.now.tenths (rows_of table.now) }
        ensures within { PoolsWithin result }
    {
        let north = self.area_pool(0, table);
        let east = self.area_pool(1, table);
        let south = self.area_pool(2, table);
        let grid = all_ehv(table) - (north + east + south) + new;
        [
            Pool::new(north, Basis::AreaLoad(0), table),
            Pool::new(east, Basis::AreaLoad(1), table),
            Pool::new(south, Basis::AreaLoad(2), table),
            Pool::new(grid, Basis::GridLoad, table),
        ]
    }
}

impl Charge for Volumetric {
    ghost meaning = { λ v. volumetric v.tenths };

    ghost parts_cover_the_requirements = { λ charge month rows good. keeps-cover (volumetric_pools charge.tenths rows) rows (refl, (refl, (refl, (refl, tt)))) (omega (arith, ints)) };

    ghost idle_owners_are_billed_nothing = { λ charge month rows good. keeps-idle (volumetric_pools charge.tenths rows) rows };

    ghost figures_stay_bounded = { λ charge month rows good. keeps-bounded (volumetric_pools charge.tenths rows) rows };

    ghost one_of_each_for_every_owner = { λ charge month rows good. keeps-one-of-each (volumetric_pools charge.tenths rows) rows };

    fn ask(&self, _month: u16, table: &Table) -> Result<Billing, ChargeFault> {
        Pools::new(&self.pools(table)).charge(table)
    }
}
