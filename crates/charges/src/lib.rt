// Charges: what each owner's part of the year's requirement is, and what a month's bill comes to.
#![tactic(auto)]

mod amounts;
mod billing;
mod burdens;
mod caps;
mod charge;
mod charging;
mod columns;
mod each;
mod easing;
mod fault;
mod gauge;
mod hybrid;
mod layer;
mod new_table;
mod owners;
mod pool;
mod pools;
mod requirement;
mod rounding;
mod table;
mod transition;
mod volumetric;
mod worked;

pub use amounts::Amounts;
pub use billing::{Billing, Rates};
pub use charge::Charge;
pub use columns::Columns;
pub use fault::{ChargeFault, SettingFault, TableFault};
pub use hybrid::Hybrid;
pub use owners::Owners;
pub use rounding::in_cents;
pub use table::{OwnerRow, Table};
pub use transition::Transition;
pub use volumetric::Volumetric;
pub use worked::worked_month;
