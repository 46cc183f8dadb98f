// The archive as a roll: it lies over lent bytes, which hold the records of its lines one after the other.
ghost use Rattle.std.specs.Prelude.{◌≡◌, ◌*◌, ◌≤◌, length, take};
ghost use Rattle.rolls.specs.Archives.{AllWithin, archived, rows_in};

use crate::fault::RollFault;
use crate::line::Line;
use crate::record::{RECORD_LEN, read_record};
use crate::roll::{MOST_LINES, Roll};

// As it is: one generic type for both rolls is no plainer, since slots and bytes share only a count.
#[derive(Drop)]
pub struct ArchiveRoll<'a> {
    // As it is: a rule of the project: no heap, so the bytes are lent, and how many records they hold stands beside them.
    bytes: &'a mut [u8],
    used: usize,
    ghost fits: { used * 27 ≤ length bytes.now },
    ghost few: { used ≤ 1000000 },
    ghost lines: { take (used * 27) bytes.now ≡ archived (rows_in used bytes.now) },
    ghost within: { AllWithin used bytes.now },
}

impl<'a> ArchiveRoll<'a> {
    ghost use Rattle.std.specs.Prelude.{◌/◌, min, []};
    ghost use Rattle.rolls.specs.ArchiveRolls.{archive_lines, archive_spare};

    // An empty roll with as many free lines as fit.
    pub fn new(bytes: &'a mut [u8]) -> ArchiveRoll<'a>
        ensures empty { archive_lines result ≡ [] }
        ensures room { archive_spare result ≡ min (length bytes.old / 27) 1000000 }
        ensures untouched { result.bytes.now ≡ bytes.old }
    {
        ArchiveRoll { bytes, used: 0 }
    }

    // The bytes of all its lines.
    pub fn written(&self) -> &[u8]
        ensures { result.now ≡ archived (archive_lines self.now) }
    {
        &self.bytes[..self.used * RECORD_LEN]
    }
}

impl<'a> Roll for ArchiveRoll<'a> {
    ghost use Rattle.std.specs.Prelude.{◌++◌, drop};
    ghost use Rattle.rolls.specs.ArchiveRolls.{archive_lines, archive_spare};
    ghost use Rattle.rolls.specs.Meaning.{row};
    ghost use Rattle.rolls.specs.Rolls.{Adds};

    ghost lines = { archive_lines };

    ghost spare = { archive_spare };

    fn add(&mut self, line: Line) -> Result<(), RollFault>
        ensures adds { Adds (row line) (archive_lines self.old) (archive_spare self.old) result (archive_lines self.new) (archive_spare self.new) }
        ensures untouched { self.new.bytes.now ≡ archived (archive_lines self.new) ++ drop (length (archived (archive_lines self.new))) self.old.bytes.now }
    {
        if self.free() == 0 {
            return Err(RollFault::Full);
        }
        let at = self.used * RECORD_LEN;
        self.bytes[at..at + RECORD_LEN].copy_from_slice(&line.encode());
        self.used += 1;
        Ok(())
    }

    fn line(&self, place: usize) -> Option<Line> {
        if place >= self.used {
            return None;
        }
        let at = place * RECORD_LEN;
        read_record(&self.bytes[at..], place).ok()
    }

    fn free(&self) -> usize {
        (self.bytes.len() / RECORD_LEN).min(MOST_LINES) - self.used
    }
}
