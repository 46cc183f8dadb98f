// The hybrid charge: the whole grid is charged by load and by peak.
ghost use Rattle.std.specs.Prelude.{◌≡◌, ◌<◌, ◌≤◌, MatchResult, refl};
ghost use Rattle.std.specs.List.{slice_get};
ghost use Rattle.std.specs.Option.{option_map};
ghost use Rattle.charges.specs.Charging.{rates_for};
ghost use Rattle.charges.specs.Hybrid.{hybrid_pools, hybrid};
ghost use Rattle.charges.specs.Pools.{PoolsWithin};
ghost use Rattle.charges.specs.Settings.{setting_number};
ghost use Rattle.charges.specs.Tables.{rows_of};
ghost use Rattle.std.proofs.Common.{arith};
ghost use Rattle.std.proofs.lemmas.Int.{ints};
ghost use Rattle.charges.specs.Keeping.{keeps-cover, keeps-idle, keeps-bounded, keeps-one-of-each};

use crate::billing::{Billing, Rates};
use crate::charge::Charge;
use crate::fault::{ChargeFault, SettingFault};
use crate::pool::{Basis, Pool};
use crate::pools::Pools;
use crate::requirement::{all_required, portion};
use crate::table::Table;

// What percentage of all requirements is carried by load.
// As it is: one generic type for both charges is no plainer: the settings and the pools differ, and `rates` and `ask` are each one call of the pools.
// One function for both `new`s would take the limit and the constructor, and is no plainer than the test in each.
#[derive(Clone, Copy)]
pub struct Hybrid {
    percent: u8,
    ghost within: { percent ≤ 100 },
}

impl Hybrid {
    // The charge with this setting, if it is at most a hundred.
    pub fn new(percent: u8) -> Result<Hybrid, SettingFault>
        ensures { MatchResult result (λ h. (percent ≤ 100) × (h.percent ≡ percent)) (λ f. (100 < percent) × (setting_number f ≡ 2)) }
    {
        if percent > 100 {
            return Err(SettingFault::Outside);
        }
        Ok(Hybrid { percent })
    }

    // What an owner pays for each MWh and each MW, if there is such an owner.
    pub fn rates(&self, table: &Table, owner: usize) -> Option<Rates>
        ensures { result ≡ option_map (rates_for (hybrid_pools self.now.percent (rows_of table.now))) (slice_get (rows_of table.now) owner) }
    {
        Pools::new(&self.pools(table)).owner_rates(table, owner)
    }

    // The pool of the loads, and that of the peaks.
    fn pools(&self, table: &Table) -> [Pool; 2]
        ensures pools { result ≡ hybrid_pools self.now.percent (rows_of table.now) }
        ensures within { PoolsWithin result }
    {
        let all = all_required(table);
        let by_load = portion(all, self.percent, 100);
        [
            Pool::new(by_load, Basis::GridLoad, table),
            Pool::new(all - by_load, Basis::Peak, table),
        ]
    }
}

impl Charge for Hybrid {
    ghost meaning = { λ h. hybrid h.percent };

    ghost parts_cover_the_requirements = { λ charge month rows good. keeps-cover (hybrid_pools charge.percent rows) rows (refl, (refl, tt)) (omega (arith, ints)) };

    ghost idle_owners_are_billed_nothing = { λ charge month rows good. keeps-idle (hybrid_pools charge.percent rows) rows };

    ghost figures_stay_bounded = { λ charge month rows good. keeps-bounded (hybrid_pools charge.percent rows) rows };

    ghost one_of_each_for_every_owner = { λ charge month rows good. keeps-one-of-each (hybrid_pools charge.percent rows) rows };

    fn ask(&self, _month: u16, table: &Table) -> Result<Billing, ChargeFault> {
        Pools::new(&self.pools(table)).charge(table)
    }
}
