// The transition layer: it stands on any charge, itself included, and keeps the owners' burdens within their caps.
ghost use Rattle.std.specs.Prelude.{◌≡◌, true, false, MatchResult};
ghost use Rattle.charges.specs.Promises.{DividesExistingAlone, BurdensStayWithinCaps, TransitionChargesCancel};
ghost use Rattle.charges.specs.Settings.{setting_number};
ghost use Rattle.charges.specs.Transition.{outside_setting, outside_caps, raised, transition};
ghost use Rattle.std.proofs.Common.{arith};
ghost use Rattle.charges.specs.Layering.{keeps-cover, keeps-idle, keeps-bounded, keeps-one-of-each};

use crate::billing::Billing;
use crate::caps::Caps;
use crate::charge::Charge;
use crate::fault::{ChargeFault, SettingFault};
use crate::table::Table;
use crate::volumetric::Volumetric;

// The largest cap, in dollars.
const MOST_CAP: u32 = 60_000_000;

// The charge below, and how the layer is set.
#[derive(Drop)]
pub struct Transition<C> {
    below: C,
    pub(crate) caps: Caps,
}

impl<C: Charge + Drop> Transition<C> {
    // A layer on the charge below: tenths of the areas' requirements for existing facilities are carried grid-wide,
    // and the caps, in dollars, stand by owner number, 0 for an uncapped owner.
    pub fn new(below: C, tenths: u8, caps: [u32; 16]) -> Result<Transition<C>, SettingFault>
        ensures set { MatchResult result (λ t. (outside_setting tenths caps ≡ false) × (t.below ≡ below) × (t.caps.existing.tenths ≡ tenths) × (t.caps.items ≡ caps)) (λ f. (outside_setting tenths caps ≡ true) × (setting_number f ≡ 2)) }
        ensures divides_existing_alone { DividesExistingAlone tenths }
        ensures burdens_stay_within_caps { BurdensStayWithinCaps tenths caps }
        ensures transition_charges_cancel { TransitionChargesCancel tenths caps }
    {
        let existing = Volumetric::new(tenths)?;
        if some_cap_outside(&caps) {
            return Err(SettingFault::Outside);
        }
        Ok(Transition {
            below,
            caps: Caps {
                existing,
                items: caps,
            },
        })
    }
}

// Whether a cap is over its limit.
fn some_cap_outside(caps: &[u32]) -> bool
    ensures { result ≡ outside_caps caps.now }
{
    caps.iter().any(|cap| *cap > MOST_CAP)
}

impl<C: Charge> Charge for Transition<C> {
    ghost meaning = { λ t. transition t.caps.existing.tenths t.caps.items (C.Charge.meaning t.below) };

    ghost parts_cover_the_requirements = { λ charge month rows good.
        keeps-cover charge.caps.existing.tenths charge.caps.items rows (omega (arith, charge.caps.long, good.few)) (C.Charge.meaning charge.below month rows)
        (C.Charge.one_of_each_for_every_owner charge.below month rows good) (C.Charge.parts_cover_the_requirements charge.below month rows good) };

    ghost idle_owners_are_billed_nothing = { λ charge month rows good.
        keeps-idle charge.caps.existing.tenths charge.caps.items rows (omega (arith, charge.caps.long, good.few)) (C.Charge.meaning charge.below month rows)
        (C.Charge.one_of_each_for_every_owner charge.below month rows good) (C.Charge.idle_owners_are_billed_nothing charge.below month rows good) };

    ghost figures_stay_bounded = { λ charge month rows good.
        keeps-bounded charge.caps.existing.tenths charge.caps.items rows (omega (arith, charge.caps.long, good.few)) (C.Charge.meaning charge.below month rows)
        (C.Charge.one_of_each_for_every_owner charge.below month rows good) };

    ghost one_of_each_for_every_owner = { λ charge month rows good.
        keeps-one-of-each charge.caps.existing.tenths charge.caps.items rows (omega (arith, charge.caps.long, good.few)) (C.Charge.meaning charge.below month rows)
        (C.Charge.one_of_each_for_every_owner charge.below month rows good) };

    fn ask(&self, month: u16, table: &Table) -> Result<Billing, ChargeFault> {
        let billing = self.below.ask(month, table).map_err(risen)?;
        self.caps.add_to(&billing, table)
    }
}

// A fault from below, a level higher.
fn risen(fault: ChargeFault) -> ChargeFault
    ensures { result ≡ record { number = fault.number; place = fault.place; level = raised fault.level } }
{
    ChargeFault {
        level: fault.level.min(249) + 1,
        ..fault
    }
}
