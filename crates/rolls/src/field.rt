// A field of a record: a tag, a length in two bytes, and a number, the high byte first.
ghost use Rattle.std.specs.Prelude.{◌≡◌, ◌≤◌, length};
ghost use Rattle.rolls.specs.Numerals.{number, bytes_of};

use crate::fault::ArchiveFault;
use crate::line::MOST_CENTS;

// The number that at most eight bytes write, the high byte first.
fn unsigned(bytes: &[u8]) -> u64
    requires { length bytes.now ≤ 8 }
    ensures value { result ≡ number bytes.now }
    ensures back { bytes_of (length bytes.now) result ≡ bytes.now }
{
    let mut n: u64 = 0;
    for b in bytes {
        n = n * 256 + u64::from(*b);
    }
    n
}

// The field's bytes, and the place of its record in an archive.
#[derive(Clone, Copy)]
pub(crate) struct Field<'a> {
    bytes: &'a [u8],
    place: usize,
    ghost long: { 3 ≤ length bytes.now },
    ghost short: { length bytes.now ≤ 11 },
}

impl<'a> Field<'a> {
    ghost use Rattle.std.specs.Prelude.{◌-◌, [], ◌∷◌, IfOk, unsigned_abs};
    ghost use Rattle.std.specs.Int.{w64};
    ghost use Rattle.std.proofs.Common.{of_z, to_z};
    ghost use Rattle.rolls.specs.Meaning.{told};
    ghost use Rattle.rolls.specs.Records.{held, answered, first_fault, head_check, field_checks, cents_checks, field_of};

    pub(crate) fn new(bytes: &'a [u8], place: usize) -> Field<'a>
        requires long { 3 ≤ length bytes.now }
        requires short { length bytes.now ≤ 11 }
        ensures bytes { result.bytes.now ≡ bytes.now }
        ensures place { result.place ≡ place }
    {
        Field { bytes, place }
    }

    // The number behind the tag and the length, if these are as they should be.
    fn number(&self, tag: u8) -> Result<u64, ArchiveFault>
        ensures answer { told (λ n. n) result ≡ answered self.now.place (held self.now.bytes.now) (first_fault (head_check tag (length self.now.bytes.now - 3) self.now.bytes.now ∷ [])) }
        ensures bytes { IfOk result (λ n. self.now.bytes.now ≡ field_of tag (length self.now.bytes.now - 3) n) }
    {
        match self.bytes {
            [first, 0, low, rest @ ..] if *first == tag && usize::from(*low) == rest.len() => {
                Ok(unsigned(rest))
            }
            _ => Err(ArchiveFault::Heading { place: self.place }),
        }
    }

    // The number, if it lies between two limits.
    pub(crate) fn bounded(&self, tag: u8, low: u64, high: u64) -> Result<u64, ArchiveFault>
        ensures answer { told (λ n. n) result ≡ answered self.now.place (held self.now.bytes.now) (first_fault (field_checks tag (length self.now.bytes.now - 3) low high self.now.bytes.now)) }
        ensures bytes { IfOk result (λ n. self.now.bytes.now ≡ field_of tag (length self.now.bytes.now - 3) n) }
        ensures within { IfOk result (λ n. (low ≤ n) × (n ≤ high)) }
    {
        let n = self.number(tag)?;
        if !(low..=high).contains(&n) {
            return Err(ArchiveFault::Value { place: self.place });
        }
        Ok(n)
    }

    // The cents of the last field, if they are within their limit.
    pub(crate) fn amount(&self) -> Result<i64, ArchiveFault>
        requires { length self.now.bytes.now ≡ 11 }
        ensures answer { told (λ z. z) result ≡ answered self.now.place (to_z w64 (held self.now.bytes.now)) (first_fault (cents_checks self.now.bytes.now)) }
        ensures bytes { IfOk result (λ z. self.now.bytes.now ≡ field_of 4 8 (of_z w64 z)) }
        ensures within { IfOk result (λ z. unsigned_abs z ≤ 800000000000000) }
    {
        let cents = self.number(4)?.cast_signed();
        if cents.unsigned_abs() > MOST_CENTS {
            return Err(ArchiveFault::Value { place: self.place });
        }
        Ok(cents)
    }
}
