// Adding up the lines of an archive.
ghost use Rattle.std.specs.Prelude.{◌≤◌, [], length};
ghost use Rattle.std.specs.List.{AllByRecursion};
ghost use Rattle.rolls.specs.Rows.{WithinRow};
ghost use Rattle.rolls.specs.Summaries.{contents};
ghost use Rattle.rolls.specs.Tallies.{Tallied, Ends};

use crate::fault::ArchiveFault;
use crate::record::{RECORD_LEN, read_record};
use crate::sums::Sums;

// Counts in each record up to the first that cannot be read.
pub(crate) fn tally(archive: &[u8], sums: &mut Sums) -> Result<usize, ArchiveFault>
    requires short { length archive.now ≤ 65529 }
    requires empty { Tallied sums.old [] }
    ensures ends { Ends result (contents archive.now) }
    ensures sums { Tallied sums.new (contents archive.now).rows }
    ensures within { AllByRecursion WithinRow (contents archive.now).rows }
    ensures few { length (contents archive.now).rows ≤ 2427 }
{
    for (place, record) in archive.chunks(RECORD_LEN).enumerate() {
        sums.add(read_record(record, place)?);
    }
    Ok(archive.len() / RECORD_LEN)
}
