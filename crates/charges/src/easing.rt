// How caps ease the owners' burdens, column by column of the rate sheets.
ghost use Rattle.std.specs.Prelude.{◌≡◌, take, zip};
ghost use Rattle.std.specs.Fn.{FnReturnsAt};
ghost use Rattle.std.specs.List.{All, AllZip};
ghost use Rattle.division.specs.Shares.{shares};
ghost use Rattle.charges.specs.Amounts.{amounts_of};
ghost use Rattle.charges.specs.Burdens.{along, benefit, excess, headroom, payments, adjusted, finals, transitions};
ghost use Rattle.charges.specs.Easing.{column};
ghost use Rattle.charges.specs.Owners.{items_of, FnTakesAt};

use crate::amounts::Amounts;
use crate::burdens::Burdens;
use crate::caps::Caps;
use crate::gauge::{above_cap, below_cap, below_nothing, of_capped, of_uncapped, weight};
use crate::owners::Owners;

impl Caps {
    // The transition charges, column [38]: the final burdens less the burdens.
    pub(crate) fn transitions(&self, burdens: &Burdens) -> Amounts
        ensures { amounts_of result ≡ column (transitions shares) self.now burdens.now }
    {
        self.finals(burdens).less(&burdens.amounts)
    }

    // The final burdens, column [39]: what capped owners bear is divided again by cap, and an uncapped owner keeps its own.
    pub(crate) fn finals(&self, burdens: &Burdens) -> Amounts
        ensures { amounts_of result ≡ column (finals shares) self.now burdens.now }
    {
        let adjusted = self.adjusted(burdens);
        let capped = self.beside(&adjusted, of_capped).total();
        let shared = self
            .beside(&adjusted, weight)
            .shares(capped as i64)
            .unwrap();
        shared.plus(&self.beside(&adjusted, of_uncapped))
    }

    // The adjusted burdens, column [36]: the mitigation, column [35], is the payment less the excess.
    pub(crate) fn adjusted(&self, burdens: &Burdens) -> Amounts
        ensures { amounts_of result ≡ column (adjusted shares) self.now burdens.now }
    {
        let excess = self.excess(burdens);
        let mitigations = self.payments(burdens).less(&excess);
        burdens.amounts.plus(&mitigations)
    }

    // The payments, column [34]: by headroom, or all of it and by benefit what it leaves.
    pub(crate) fn payments(&self, burdens: &Burdens) -> Amounts
        ensures { amounts_of result ≡ column (payments shares) self.now burdens.now }
    {
        let excess = self.excess(burdens).total();
        let headroom = self.headroom(burdens);
        let room = headroom.total();
        if room < excess {
            let benefit = self.benefit(burdens);
            headroom.plus(&benefit.divided((excess - room) as i64))
        } else {
            headroom.divided(excess as i64)
        }
    }

    // How far each burden is above its cap, column [33], or above 0 for an uncapped owner.
    pub(crate) fn excess(&self, burdens: &Burdens) -> Amounts
        ensures { amounts_of result ≡ column (along excess) self.now burdens.now }
    {
        self.beside(&burdens.amounts, above_cap)
    }

    // How far each burden is below its cap, column [32].
    pub(crate) fn headroom(&self, burdens: &Burdens) -> Amounts
        ensures { amounts_of result ≡ column (along headroom) self.now burdens.now }
    {
        self.beside(&burdens.amounts, below_cap)
    }

    // How far each burden of an uncapped owner is below 0.
    fn benefit(&self, burdens: &Burdens) -> Amounts
        ensures { amounts_of result ≡ column (along benefit) self.now burdens.now }
    {
        self.beside(&burdens.amounts, below_nothing)
    }

    // What a rule gives of each owner's cap beside an amount of its own.
    pub(crate) fn beside<U: Copy + Default, F: Fn(&(u32, i64)) -> U>(
        &self,
        amounts: &Amounts,
        rule: F,
    ) -> Owners<U>
        requires asked { All (λ x. FnTakesAt F.Fn rule x) (zip (take amounts.now.count self.now.items) (amounts_of amounts.now)) }
        ensures each { AllZip (FnReturnsAt F.Fn rule) (zip (take amounts.now.count self.now.items) (amounts_of amounts.now)) (items_of result) }
    {
        let caps = Owners {
            items: self.items,
            count: amounts.count(),
        };
        caps.zip_map(amounts, rule)
    }
}
