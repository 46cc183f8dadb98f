// The sums of lines by month and owner.
ghost use Rattle.std.specs.Prelude.{List, [], ◌∷◌, ◌++◌};
ghost use Rattle.rolls.specs.Meaning.{row};
ghost use Rattle.rolls.specs.Rows.{Row};
ghost use Rattle.rolls.specs.Tallies.{Tallied, Room};

use crate::line::{LAST_MONTH, LAST_OWNER, Line};

pub(crate) const MONTHS: usize = LAST_MONTH as usize + 1;

pub(crate) const OWNERS: usize = LAST_OWNER as usize + 1;

// A month's sums by owner: none where a pair has no line.
#[derive(Drop)]
pub(crate) struct Sums {
    // As it is: a rule of the project: no heap, so there is a place for each pair.
    pub(crate) months: [[Option<i64>; OWNERS]; MONTHS],
}

impl Sums {
    pub(crate) fn new() -> Sums
        ensures { Tallied result [] }
    {
        Sums {
            months: [[None; OWNERS]; MONTHS],
        }
    }

    // Counts a line in.
    pub(crate) fn add(&mut self, line: Line)
        requires { Room self.old }
        ensures { (rows : List Row) → Tallied self.old rows → Tallied self.new (rows ++ row line ∷ []) }
    {
        let (month, owner) = (usize::from(line.month), usize::from(line.owner));
        let sum = self.months[month][owner].unwrap_or(0);
        self.months[month][owner] = Some(sum + line.cents);
    }
}
