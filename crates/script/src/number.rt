// Words as numbers.
ghost use Rattle.std.specs.Prelude.{◌≡◌};
ghost use Rattle.std.specs.Option.{option_map};
ghost use Rattle.script.specs.Widths.{KeptSuffices};
ghost use Rattle.script.specs.Numbers.{digits_of, clipped, kept, numeral};

// A number as it is written, but that its size is kept up to the largest that 64 bits hold. No place holds so large a
// number, so one that is beyond it is as far from fitting as that one.
#[derive(Clone, Copy)]
pub struct Number(pub(crate) i128);

// The value of decimal digits; none where there is no digit, or something else.
fn digits(word: &[u8]) -> Option<u64>
    ensures { result ≡ option_map clipped (digits_of word.now) }
{
    if word.is_empty() {
        return None;
    }
    let mut size: u64 = 0;
    for b in word {
        if !b.is_ascii_digit() {
            return None;
        }
        size = size.saturating_mul(10).saturating_add(u64::from(*b - b'0'));
    }
    Some(size)
}

// The number that a word writes.
pub fn read_number(word: &[u8]) -> Option<Number>
    ensures value { result ≡ option_map kept (numeral word.now) }
    ensures kept_suffices { KeptSuffices }
{
    match word {
        [b'-', rest @ ..] => digits(rest).map(|size| Number(-i128::from(size))),
        _ => digits(word).map(|size| Number(i128::from(size))),
    }
}
