// One line of a roll: an owner's bill for a month, or a correction of it.
ghost use Rattle.rolls.specs.Rows.{Within};

use std::fmt;

// The limits of a line's figures.
pub(crate) const LAST_MONTH: u16 = 359;

pub(crate) const LAST_OWNER: u8 = 15;

pub(crate) const LAST_MARK: u16 = 8192;

pub(crate) const MOST_CENTS: u64 = 800_000_000_000_000;

#[derive(Clone, Copy)]
pub struct Line {
    pub(crate) month: u16,
    pub(crate) owner: u8,
    pub(crate) mark: u16,
    pub(crate) cents: i64,
    ghost within: { Within month owner mark cents },
}

impl Line {
    ghost use Rattle.std.specs.Prelude.{◌≡◌, MatchOption};
    ghost use Rattle.rolls.specs.Meaning.{row};
    ghost use Rattle.rolls.specs.Rows.{row_of};

    // The line, if each figure is within its limits.
    pub fn new(month: u16, owner: u8, mark: u16, cents: i64) -> Option<Line>
        ensures { MatchOption result (Within month owner mark cents → ⊥) (λ l. row l ≡ row_of month owner mark cents) }
    {
        if month > LAST_MONTH
            || owner > LAST_OWNER
            || !(1..=LAST_MARK).contains(&mark)
            || cents.unsigned_abs() > MOST_CENTS
        {
            return None;
        }
        Some(Line {
            month,
            owner,
            mark,
            cents,
        })
    }

    pub fn month(&self) -> u16
        ensures { result ≡ (row self.now).month }
    {
        self.month
    }

    pub fn owner(&self) -> u8
        ensures { result ≡ (row self.now).owner }
    {
        self.owner
    }

    pub fn mark(&self) -> u16
        ensures { result ≡ (row self.now).mark }
    {
        self.mark
    }

    pub fn cents(&self) -> i64
        ensures { result ≡ (row self.now).cents }
    {
        self.cents
    }
}

impl fmt::Display for Line {
    ghost use Rattle.std.specs.Prelude.{Some};
    ghost use Rattle.rolls.specs.Meaning.{row};
    ghost use Rattle.rolls.specs.Texts.{row_text};

    ghost output = { λ l. Some (row_text (row l)) };

    fn fmt<W: fmt::Write>(&self, f: &mut fmt::Formatter<W>) -> fmt::Result {
        let Line {
            month,
            owner,
            mark,
            cents,
        } = *self;
        write!(f, "{month} {owner} {mark} {cents}")
    }
}
