// What the numbers behind a command mean.
ghost use Rattle.std.specs.Prelude.{◌≡◌, length, [], vec_items, Err, MatchResult};
ghost use Rattle.script.specs.Answers.{Says};
ghost use Rattle.script.specs.Drafts.{caps_of, layer_of, areas_from, charge_named};
ghost use Rattle.script.specs.Commands.{and_then, exactly, value_at, file_call, read_call, opening_of, told};
ghost use Rattle.book.specs.Scripts.{written_as};

use crate::fault::{Stop, Wrong};
use crate::number::Number;
use crate::script::{Layer, Plain};
use crate::width::Width;
use book::{Call, Filed, Metered, Written};
use std::alloc::Global;

// The numbers, of which so many are wanted, no fewer and no more.
fn exactly<const N: usize>(numbers: &[Number]) -> Result<&[Number; N], Wrong>
    ensures { MatchResult result (λ found. (found.now ≡ numbers.now) × (length numbers.now ≡ N)) (λ wrong. exactly N (length numbers.now) ≡ Err wrong) }
{
    if numbers.len() > N {
        return Err(Wrong::TooMany);
    }
    numbers.first_chunk().ok_or(Wrong::TooFew)
}

// The one number that is wanted.
pub(crate) fn only<T: Width>(numbers: &[Number]) -> Result<T, Wrong>
    ensures { result ≡ and_then (exactly 1 (length numbers.now)) (λ _. T.fitted (value_at numbers.now 0)) }
{
    let [number] = exactly::<1>(numbers)?;
    number.fit()
}

// The month and the count of an opening.
pub(crate) fn opening(numbers: &[Number]) -> Result<Written, Wrong>
    ensures { told written_as result ≡ opening_of numbers.now }
{
    let [month, count] = exactly::<2>(numbers)?;
    Written::new(month.fit()?, count.fit()?).ok_or(Wrong::NoOpening)
}

pub(crate) fn file_call(numbers: &[Number]) -> Result<Call, Wrong>
    ensures { result ≡ file_call numbers.now }
{
    let [owner, first, last, ehv, nhv, load, peak] = exactly::<7>(numbers)?;
    Ok(Call::File(Filed {
        owner: owner.fit()?,
        first: first.fit()?,
        last: last.fit()?,
        ehv: ehv.fit()?,
        nhv: nhv.fit()?,
        load: load.fit()?,
        peak: peak.fit()?,
    }))
}

pub(crate) fn read_call(numbers: &[Number]) -> Result<Call, Wrong>
    ensures { result ≡ read_call numbers.now }
{
    let [month, owner, load, peak] = exactly::<4>(numbers)?;
    Ok(Call::Read(Metered {
        month: month.fit()?,
        owner: owner.fit()?,
        load: load.fit()?,
        peak: peak.fit()?,
    }))
}

// A layer's caps by owner, 0 where none is written.
// As it is: a rule of the project: the charge takes sixteen caps, whatever the owners' count.
fn caps(numbers: &[Number]) -> Result<[u32; 16], Wrong>
    ensures { result ≡ caps_of numbers.now }
{
    if numbers.len() > 16 {
        return Err(Wrong::TooMany);
    }
    let mut caps = [0; 16];
    // As it is: tried as a zip of iter_mut, after which nothing is known of the caps that were written.
    for (i, number) in numbers.iter().enumerate() {
        caps[i] = number.fit()?;
    }
    Ok(caps)
}

pub(crate) fn layer(numbers: &[Number]) -> Result<Layer, Wrong>
    ensures { result ≡ layer_of numbers.now }
{
    let [tenths, rest @ ..] = numbers else {
        return Err(Wrong::TooFew);
    };
    Ok(Layer {
        tenths: tenths.fit()?,
        caps: caps(rest)?,
    })
}

// The areas of the owners.
pub(crate) fn areas(heap: Global, numbers: &[Number]) -> Result<Vec<u8>, Stop>
    ensures { Says vec_items result (areas_from [] numbers.now) }
{
    let mut areas = Vec::new(heap);
    for number in numbers {
        areas.push(number.fit()?)?;
    }
    Ok(areas)
}

// The charge of a kind, with its setting.
pub(crate) fn charge_named(kind: &[u8], setting: u8) -> Result<Plain, Wrong>
    ensures { result ≡ charge_named kind.now setting }
{
    match kind {
        b"volumetric" => Ok(Plain::Volumetric(setting)),
        b"hybrid" => Ok(Plain::Hybrid(setting)),
        _ => Err(Wrong::UnknownCharge),
    }
}
