// Refusals by their number.
ghost use Rattle.std.specs.Prelude.{◌≡◌};
ghost use Rattle.book.specs.Faults.{refusal};
ghost use Rattle.book.specs.Workings.{plain, placed};
ghost use Rattle.charges.specs.Settings.{setting_number};
ghost use Rattle.office.specs.Refusals.{refusal_in};

use book::BookFault;
use charges::SettingFault;
use std::fmt;

// The number, the place if one is named, and the level of a charge's own fault.
// As it is: a rule of the project: a refusal goes by its number on every page and in every script.
#[derive(Clone, Copy)]
pub struct Refusal {
    pub number: u8,
    pub place: Option<u8>,
    pub level: Option<u8>,
}

fn plain(number: u8) -> Refusal
    ensures { refusal_in result ≡ plain number }
{
    Refusal {
        number,
        place: None,
        level: None,
    }
}

fn placed(number: u8, place: u8) -> Refusal
    ensures { refusal_in result ≡ placed number place }
{
    Refusal {
        number,
        place: Some(place),
        level: None,
    }
}

// What a refusal of the book tells.
impl From<BookFault> for Refusal {
    ghost from_gives = { λ fault r. refusal_in r ≡ refusal fault };

    fn from(fault: BookFault) -> Refusal {
        match fault {
            BookFault::Owners => plain(1),
            BookFault::UnknownOwner => plain(3),
            BookFault::Month => plain(4),
            BookFault::Figure => plain(5),
            BookFault::JournalFull => plain(6),
            BookFault::ShortDraft => plain(7),
            BookFault::Current => plain(8),
            BookFault::NoFiling { owner } => placed(9, owner),
            BookFault::NoReading { owner } => placed(10, owner),
            BookFault::Totals => plain(11),
            BookFault::Charge(fault) => Refusal {
                number: fault.number,
                place: Some(fault.place),
                level: Some(fault.level),
            },
            BookFault::UtilityRate { owner } => placed(13, owner),
            BookFault::NoWeight => plain(15),
            BookFault::BeyondJournal => plain(16),
            BookFault::Untouched => plain(17),
            BookFault::RollFull => plain(18),
        }
    }
}

// The same by a name, for a caller who wants its promise as a clause.
pub fn refusal_of(fault: BookFault) -> Refusal
    ensures { refusal_in result ≡ refusal fault }
{
    Refusal::from(fault)
}

// What the refusal of a charge's setting tells.
impl From<SettingFault> for Refusal {
    ghost from_gives = { λ fault r. refusal_in r ≡ plain (setting_number fault) };

    fn from(fault: SettingFault) -> Refusal {
        match fault {
            SettingFault::Outside => plain(2),
        }
    }
}

impl fmt::Display for Refusal {
    fn fmt<W: fmt::Write>(&self, f: &mut fmt::Formatter<W>) -> fmt::Result {
        let number = self.number;
        write!(f, "refused {number}")?;
        if let Some(place) = self.place {
            write!(f, " place {place}")?;
        }
        if let Some(level) = self.level {
            write!(f, " level {level}")?;
        }
        Ok(())
    }
}
