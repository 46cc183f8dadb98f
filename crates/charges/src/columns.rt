// What a transition layer works out for the owners, column by column of the rate sheets.
ghost use Rattle.std.specs.Prelude.{◌≡◌};
ghost use Rattle.division.specs.Shares.{shares};
ghost use Rattle.charges.specs.Amounts.{amounts_of};
ghost use Rattle.charges.specs.Burdens.{along, excess, headroom, payments, mitigations, adjusted};
ghost use Rattle.charges.specs.Tables.{rows_of};
ghost use Rattle.charges.specs.Transition.{burdens, eased, final_burdens, transition_charges, transition_rates};

use crate::amounts::Amounts;
use crate::layer::rates_of;
use crate::pools::Pools;
use crate::table::Table;
use crate::transition::Transition;

// Dollars a year, and rates in hundredths of a cent for each MWh.
#[derive(Clone, Copy)]
pub struct Columns {
    // Column [30].
    pub burdens: Amounts,
    // Column [32].
    pub headroom: Amounts,
    // Column [33].
    pub excess: Amounts,
    // Column [34].
    pub payments: Amounts,
    // Column [35].
    pub mitigations: Amounts,
    // Column [36], the adjusted burdens.
    pub adjusted: Amounts,
    // Column [39], the final burdens.
    pub finals: Amounts,
    // Column [38], the transition charges.
    pub charges: Amounts,
    // Column [40], the rates of the charges.
    pub rates: Amounts,
}

impl<C> Transition<C> {
    // The layer's columns for the owners of a table, whatever its checks would say.
    pub fn columns(&self, table: &Table) -> Columns
        ensures burdens { amounts_of result.burdens ≡ burdens shares self.now.caps.existing.tenths (rows_of table.now) }
        ensures headroom { amounts_of result.headroom ≡ eased (along headroom) self.now.caps.existing.tenths self.now.caps.items (rows_of table.now) }
        ensures excess { amounts_of result.excess ≡ eased (along excess) self.now.caps.existing.tenths self.now.caps.items (rows_of table.now) }
        ensures payments { amounts_of result.payments ≡ eased (payments shares) self.now.caps.existing.tenths self.now.caps.items (rows_of table.now) }
        ensures mitigations { amounts_of result.mitigations ≡ eased (mitigations shares) self.now.caps.existing.tenths self.now.caps.items (rows_of table.now) }
        ensures adjusted { amounts_of result.adjusted ≡ eased (adjusted shares) self.now.caps.existing.tenths self.now.caps.items (rows_of table.now) }
        ensures finals { amounts_of result.finals ≡ final_burdens shares self.now.caps.existing.tenths self.now.caps.items (rows_of table.now) }
        ensures charges { amounts_of result.charges ≡ transition_charges shares self.now.caps.existing.tenths self.now.caps.items (rows_of table.now) }
        ensures rates { amounts_of result.rates ≡ transition_rates self.now.caps.existing.tenths self.now.caps.items (rows_of table.now) }
    {
        let caps = &self.caps;
        let pools = caps.existing.existing_pools(table);
        let burdens = caps.burdens(Pools::new(&pools), table);
        let headroom = caps.headroom(&burdens);
        let excess = caps.excess(&burdens);
        let payments = caps.payments(&burdens);
        let charges = caps.transitions(&burdens);
        Columns {
            burdens: burdens.amounts,
            headroom,
            excess,
            payments,
            mitigations: payments.less(&excess),
            adjusted: caps.adjusted(&burdens),
            finals: caps.finals(&burdens),
            charges,
            rates: rates_of(&charges, table),
        }
    }
}
