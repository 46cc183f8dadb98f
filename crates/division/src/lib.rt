// Sums of money divided over owners by weights, and rounded.
#![tactic(auto)]

ghost use Rattle.std.specs.Prelude.{◌≡◌, ◌<◌, ◌≤◌, length, pos, ◌<ℤ◌, MatchResult};
ghost use Rattle.std.specs.Option.{SomeIff};
ghost use Rattle.std.specs.Int.{int_div_euclid};
ghost use Rattle.division.specs.Laws.{Divides, Rounds};
ghost use Rattle.division.specs.Nearest.{nearest};
ghost use Rattle.division.specs.Outcomes.{most_weight, Divided, Refused};
ghost use Rattle.division.specs.Shares.{total, running, shares};
ghost use Rattle.division.specs.Worked.{Worked};

// The largest total weight: up to it, every product on the way to a share fits 128 bits.
pub const MOST_WEIGHT: u64 = 1 << 62;

// Why a sum is not divided.
#[derive(Clone, Copy, PartialEq, Eq, Debug)]
pub enum Refusal {
    LengthsDiffer,
    TooMuchWeight,
}

// The whole number nearest to a ÷ b, where a half goes upward, or nothing where b is 0.
pub fn nearest(a: i64, b: u64) -> Option<i64>
    ensures value { SomeIff result (0 < b) (nearest a b) }
    ensures rounds { Rounds nearest }
{
    if b == 0 {
        return None;
    }
    let b = i128::from(b);
    let whole = floor_quotient(2 * i128::from(a) + b, 2 * b);
    Some(whole as i64)
}

// Writes each owner's share of the sum into `out`, or refuses and leaves `out` as it was.
pub fn divide(sum: i64, weights: &[u64], out: &mut [i64]) -> Result<(), Refusal>
    ensures cases { MatchResult result (λ _. Divided sum weights.now out.old out.new) (λ why. Refused why weights.now out.old out.new) }
    ensures divides { Divides shares }
{
    if weights.len() != out.len() {
        return Err(Refusal::LengthsDiffer);
    }
    let Some(all) = total_weight(weights) else {
        return Err(Refusal::TooMuchWeight);
    };
    write_shares(sum, all, weights, out);
    Ok(())
}

// The worked figures hold of the definitions; answers how many there are.
pub fn worked_figures() -> u8
    ensures count { result ≡ 3 }
    ensures worked { Worked }
{
    3
}

// All the weights together, or nothing where that passes the largest total weight.
// As it is: tried as try_fold over checked sums, where no proof is found of when it gives nothing.
fn total_weight(weights: &[u64]) -> Option<u64>
    ensures { SomeIff result (total weights.now ≤ most_weight) (total weights.now) }
{
    let mut all = 0;
    for weight in weights {
        if *weight > MOST_WEIGHT - all {
            return None;
        }
        all += *weight;
    }
    Some(all)
}

// Each share is the owner's running figure less the one before it.
// As it is: tried as a zip of iter_mut with the weights, after which nothing is known of the places.
fn write_shares(sum: i64, all: u64, weights: &[u64], out: &mut [i64])
    requires lengths { length weights.now ≡ length out.old }
    requires total { all ≡ total weights.now }
    requires bound { all ≤ most_weight }
    ensures { out.new ≡ shares sum weights.now }
{
    let mut upto = 0;
    let mut before = 0;
    for (i, weight) in weights.iter().enumerate() {
        upto += *weight;
        let figure = running_figure(sum, all, upto);
        out[i] = (figure - before) as i64;
        before = figure;
    }
}

// The running figure at the running weight `upto`; it is 0 where there is no weight at all.
fn running_figure(sum: i64, all: u64, upto: u64) -> i128
    requires bound { all ≤ most_weight }
    requires part { upto ≤ all }
    ensures { result ≡ running sum all upto }
{
    if all == 0 {
        return 0;
    }
    let sum = i128::from(sum);
    let all = i128::from(all);
    let upto = i128::from(upto);
    floor_quotient(sum, all) * upto + floor_quotient(sum.rem_euclid(all) * upto, all)
}

// The greatest whole number not above a ÷ b: downward for a negative a too, where `/` goes toward 0.
fn floor_quotient(a: i128, b: i128) -> i128
    requires { pos 0 <ℤ b }
    ensures { result ≡ int_div_euclid a b }
{
    a.div_euclid(b)
}

#[cfg(test)]
mod tests {
    use super::*;

    #[test]
    fn rounds_a_half_upward(rt: HostRuntime) {
        assert_eq!(rt; nearest(-150, 100), Some(-1));
        assert_eq!(rt; nearest(150, 100), Some(2));
        assert_eq!(rt; nearest(149, 100), Some(1));
        assert_eq!(rt; nearest(-151, 100), Some(-2));
        assert_eq!(rt; nearest(i64::MIN, 1), Some(i64::MIN));
        assert_eq!(rt; nearest(5, 0), None);
    }

    #[test]
    fn divides_by_running_figures(rt: HostRuntime) {
        let mut pair = [9; 2];
        assert_eq!(rt; divide(400, &[100, 50], &mut pair), Ok(()));
        assert_eq!(rt; pair, [266, 134]);
        let mut three = [9; 3];
        assert_eq!(rt; divide(-7, &[1, 1, 1], &mut three), Ok(()));
        assert_eq!(rt; three, [-3, -2, -2]);
        assert_eq!(rt; divide(5, &[1, 0, 2], &mut three), Ok(()));
        assert_eq!(rt; three, [1, 0, 4]);
        assert_eq!(rt; divide(5, &[0, 0, 0], &mut three), Ok(()));
        assert_eq!(rt; three, [0, 0, 0]);
    }

    #[test]
    fn refuses_and_leaves_the_places(rt: HostRuntime) {
        let mut pair = [8, 9];
        assert_eq!(rt; divide(400, &[100], &mut pair), Err(Refusal::LengthsDiffer));
        assert_eq!(rt;
            divide(400, &[MOST_WEIGHT, 1], &mut pair),
            Err(Refusal::TooMuchWeight)
        );
        assert_eq!(rt; pair, [8, 9]);
        assert_eq!(rt; divide(i64::MIN, &[MOST_WEIGHT, 0], &mut pair), Ok(()));
        assert_eq!(rt; pair, [i64::MIN, 0]);
    }
}
