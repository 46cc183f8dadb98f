// What keeps lines in order: a list of lines, and room for more.
ghost use Rattle.std.specs.Prelude.{◌≡◌, ℕ, List};
ghost use Rattle.std.specs.List.{slice_get};
ghost use Rattle.std.specs.Option.{option_map};
ghost use Rattle.rolls.specs.Meaning.{row};
ghost use Rattle.rolls.specs.Rolls.{Adds};
ghost use Rattle.rolls.specs.Rows.{Row};

use crate::fault::RollFault;
use crate::line::Line;

// A roll takes at most so many lines.
pub(crate) const MOST_LINES: usize = 1_000_000;

pub trait Roll {
    // The lines, the oldest first.
    ghost lines: { Self → List Row };

    // How many more can be added.
    ghost spare: { Self → ℕ };

    // Puts a line last, unless no line is free.
    fn add(&mut self, line: Line) -> Result<(), RollFault>
        ensures adds { Adds (row line) (lines self.old) (spare self.old) result (lines self.new) (spare self.new) };

    // The line at a place, counted from 0.
    fn line(&self, place: usize) -> Option<Line>
        ensures line { option_map row result ≡ slice_get (lines self.now) place };

    // The count of free lines.
    fn free(&self) -> usize
        ensures free { result ≡ spare self.now };
}
