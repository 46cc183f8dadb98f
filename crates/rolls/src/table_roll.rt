// The table of lines as a roll: it lies over lent lines.
ghost use Rattle.std.specs.Prelude.{◌≤◌, length};

use crate::fault::RollFault;
use crate::line::Line;
use crate::roll::{MOST_LINES, Roll};

#[derive(Drop)]
pub struct TableRoll<'a> {
    // As it is: a rule of the project: no heap, so the lines are lent, and how many of them are used stands beside them.
    slots: &'a mut [Line],
    used: usize,
    ghost fits: { used ≤ length slots.now },
    ghost few: { used ≤ 1000000 },
}

impl<'a> TableRoll<'a> {
    ghost use Rattle.std.specs.Prelude.{◌≡◌, min, []};
    ghost use Rattle.rolls.specs.Tables.{table_lines, table_spare};

    // An empty roll with as many free lines as fit.
    pub fn new(slots: &'a mut [Line]) -> TableRoll<'a>
        ensures empty { table_lines result ≡ [] }
        ensures room { table_spare result ≡ min (length slots.old) 1000000 }
    {
        TableRoll { slots, used: 0 }
    }
}

impl<'a> Roll for TableRoll<'a> {
    ghost use Rattle.rolls.specs.Tables.{table_lines, table_spare};

    ghost lines = { table_lines };

    ghost spare = { table_spare };

    fn add(&mut self, line: Line) -> Result<(), RollFault> {
        if self.free() == 0 {
            return Err(RollFault::Full);
        }
        self.slots[self.used] = line;
        self.used += 1;
        Ok(())
    }

    fn line(&self, place: usize) -> Option<Line> {
        self.slots[..self.used].get(place).copied()
    }

    fn free(&self) -> usize {
        self.slots.len().min(MOST_LINES) - self.used
    }
}
