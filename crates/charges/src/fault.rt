// Why something is refused.
ghost use Rattle.std.specs.Prelude.{◌≡◌, ◌<◌, IfSome};
ghost use Rattle.std.specs.Option.{option_map};
ghost use Rattle.charges.specs.Charging.{fault_at};
ghost use Rattle.charges.specs.Meaning.{fault_in};
ghost use Rattle.charges.specs.Settings.{reason_number};

// Why rows make no table.
#[derive(Clone, Copy, PartialEq, Eq, Debug)]
pub enum TableFault {
    // There are not one to sixteen owners, or one is in no area.
    Owners,
    // A figure is outside its limits.
    Figure,
    // The totals are over the table's limits.
    Totals,
}

// Why a charge is not set up.
#[derive(Clone, Copy, PartialEq, Eq, Debug)]
pub enum SettingFault {
    // The setting is outside its limits.
    Outside,
}

// Why a month is not billed: the number of the reason, where it arose, and at which level of charges.
// As it is: a rule of the project: a refusal goes by its number; a charge of another crate may refuse with a number of its own, so an enum would ask more of it.
#[derive(Clone, Copy, PartialEq, Eq, Debug)]
pub struct ChargeFault {
    pub number: u8,
    pub place: u8,
    pub level: u8,
}

// What a month is refused for: a pool without filed use, an owner's rate, or an owner's amount.
#[derive(Clone, Copy, PartialEq, Eq, Debug)]
pub(crate) enum Reason {
    Unfiled,
    HighRate,
    LargeAmount,
}

impl Reason {
    fn number(self) -> u8
        ensures { result ≡ reason_number self }
    {
        match self {
            Reason::Unfiled => 12,
            Reason::HighRate => 13,
            Reason::LargeAmount => 14,
        }
    }

    // Refuses a month for what stands at a place, if there is such a place.
    pub(crate) fn refuses(self, place: Option<usize>) -> Result<(), ChargeFault>
        requires { IfSome place (λ k. k < 256) }
        ensures { fault_in result ≡ option_map (fault_at (reason_number self)) place }
    {
        place.map_or(Ok(()), |place| {
            Err(ChargeFault {
                number: self.number(),
                place: place as u8,
                level: 0,
            })
        })
    }
}
