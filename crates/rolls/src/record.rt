// A line as the 27 bytes of its archive record, and back.
ghost use Rattle.std.specs.Prelude.{◌≡◌, take, IfOk};
ghost use Rattle.rolls.specs.Meaning.{row, told};
ghost use Rattle.rolls.specs.Records.{encoded, reading, ReadsBack};

use crate::fault::ArchiveFault;
use crate::field::Field;
use crate::line::{LAST_MARK, LAST_MONTH, LAST_OWNER, Line};

// The bytes of a record.
pub const RECORD_LEN: usize = 27;

impl Line {
    // The line's record in an archive.
    pub fn encode(&self) -> [u8; RECORD_LEN]
        ensures bytes { result ≡ encoded (row self.now) }
        ensures reads_back { ReadsBack (row self.now) }
    {
        let [m0, m1] = self.month.to_be_bytes();
        let [k0, k1, k2, k3] = u32::from(self.mark).to_be_bytes();
        let [c0, c1, c2, c3, c4, c5, c6, c7] = self.cents.to_be_bytes();
        [
            1, 0, 2, m0, m1, 2, 0, 1, self.owner, 3, 0, 4, k0, k1, k2, k3, 4, 0, 8, c0, c1, c2, c3,
            c4, c5, c6, c7,
        ]
    }
}

// The line that bytes begin with: they are the record of that place in an archive.
pub fn read_record(bytes: &[u8], place: usize) -> Result<Line, ArchiveFault>
    ensures read { told row result ≡ reading place bytes.now }
    ensures only_its_own_bytes { IfOk result (λ l. take 27 bytes.now ≡ encoded (row l)) }
{
    if bytes.len() < RECORD_LEN {
        return Err(ArchiveFault::Short { place });
    }
    let month = Field::new(&bytes[0..5], place).bounded(1, 0, u64::from(LAST_MONTH))?;
    let owner = Field::new(&bytes[5..9], place).bounded(2, 0, u64::from(LAST_OWNER))?;
    let mark = Field::new(&bytes[9..16], place).bounded(3, 1, u64::from(LAST_MARK))?;
    let cents = Field::new(&bytes[16..27], place).amount()?;
    Ok(Line {
        month: month as u16,
        owner: owner as u8,
        mark: mark as u16,
        cents,
    })
}
