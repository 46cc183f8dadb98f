// What a charge is: what it means for each month and table, the laws that this keeps, and asking for it.
ghost use Rattle.std.specs.Prelude.{◌≡◌, ℕ, List};
ghost use Rattle.charges.specs.Meaning.{told};
ghost use Rattle.charges.specs.Outcomes.{Outcome, PartsCover, IdleBillsNothing, Bounded, OneOfEach};
ghost use Rattle.charges.specs.Rows.{Good};
ghost use Rattle.charges.specs.Tables.{rows_of};
ghost use Rattle.charges.specs.declared.table.OwnerRow.{OwnerRow};

use crate::billing::Billing;
use crate::fault::ChargeFault;
use crate::table::Table;

pub trait Charge {
    // What the charge means: for each month and its rows a refusal, or the parts and the bills.
    ghost meaning: { Self → ℕ → List OwnerRow → Outcome };

    // Gives what the charge means, and changes nothing.
    fn ask(&self, month: u16, table: &Table) -> Result<Billing, ChargeFault>
        ensures meant { told result ≡ meaning self.now month (rows_of table.now) };

    ghost parts_cover_the_requirements: { (charge : Self) (month : ℕ) (rows : List OwnerRow) → Good rows → PartsCover rows (meaning charge month rows) };

    ghost idle_owners_are_billed_nothing: { (charge : Self) (month : ℕ) (rows : List OwnerRow) → Good rows → IdleBillsNothing rows (meaning charge month rows) };

    ghost figures_stay_bounded: { (charge : Self) (month : ℕ) (rows : List OwnerRow) → Good rows → Bounded (meaning charge month rows) };

    ghost one_of_each_for_every_owner: { (charge : Self) (month : ℕ) (rows : List OwnerRow) → Good rows → OneOfEach rows (meaning charge month rows) };
}
