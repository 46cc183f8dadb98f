// Amounts: what each owner gets, bears or pays.
ghost use Rattle.std.specs.Prelude.{◌≡◌, ◌<◌, ◌≤◌, ℤ, map, ◌+ℤ◌, ◌-ℤ◌, MatchResult, unsigned_abs};
ghost use Rattle.std.specs.Fn.{FnReturnsAt};
ghost use Rattle.std.specs.List.{All};
ghost use Rattle.division.specs.Outcomes.{most_weight};
ghost use Rattle.division.specs.Shares.{int_sum, shares, total};
ghost use Rattle.charges.specs.Amounts.{amounts_of, AllBelow};
ghost use Rattle.charges.specs.Burdens.{along};
ghost use Rattle.charges.specs.Charging.{added};
ghost use Rattle.charges.specs.Owners.{items_of, FnTakesAt};

use crate::owners::Owners;
use division::{Refusal, divide};

pub type Amounts = Owners<i64>;

// Two amounts of an owner together.
fn both(pair: &(i64, i64)) -> i64
    requires one { unsigned_abs pair.now.0 ≤ 1000000000000000 }
    requires other { unsigned_abs pair.now.1 ≤ 1000000000000000 }
    ensures { result ≡ pair.now.0 +ℤ pair.now.1 }
{
    pair.0 + pair.1
}

// An amount of an owner less another.
fn difference(pair: &(i64, i64)) -> i64
    requires one { unsigned_abs pair.now.0 ≤ 1000000000000000 }
    requires other { unsigned_abs pair.now.1 ≤ 1000000000000000 }
    ensures { result ≡ pair.now.0 -ℤ pair.now.1 }
{
    pair.0 - pair.1
}

impl<T: Copy> Owners<T> {
    // What a rule gives of each item, added up.
    // As it is: tried as map and sum, where no proof is found that the sum of signed numbers fits.
    pub(crate) fn sum_of<F: Fn(&T) -> i64>(&self, rule: F) -> i128
        requires asked { All (λ x. FnTakesAt F.Fn rule x) (items_of self.now) }
        ensures { (f : T → ℤ) → ((x : T) (r : ℤ) → FnReturnsAt F.Fn rule x r → r ≡ f x) → result ≡ int_sum (map f (items_of self.now)) }
    {
        let mut sum = 0;
        for item in self.all() {
            sum += i128::from(rule(item));
        }
        sum
    }
}

// As it is: one limit for all amounts in their type is no plainer: it would be the widest, and each sum needs its own.
impl Owners<i64> {
    // All the amounts together.
    pub fn total(&self) -> i128
        ensures { result ≡ int_sum (amounts_of self.now) }
    {
        // As it is: tried as map and sum, where no proof is found that the sum of signed numbers fits.
        let mut sum = 0;
        for amount in self.all() {
            sum += i128::from(*amount);
        }
        sum
    }

    // The amounts of both, owner by owner.
    pub(crate) fn plus(&self, more: &Amounts) -> Amounts
        requires bound { AllBelow 1000000000000000 (amounts_of self.now) }
        requires more_bound { AllBelow 1000000000000000 (amounts_of more.now) }
        ensures { amounts_of result ≡ added (amounts_of self.now) (amounts_of more.now) }
    {
        self.zip_map(more, both)
    }

    // These amounts less others, owner by owner.
    // As it is: a rule of the project: public functions ask for no limits, so this is for charges alone, and book has a `change`.
    pub(crate) fn less(&self, other: &Amounts) -> Amounts
        requires bound { AllBelow 1000000000000000 (amounts_of self.now) }
        requires other_bound { AllBelow 1000000000000000 (amounts_of other.now) }
        ensures { amounts_of result ≡ along ◌-ℤ◌ (amounts_of self.now) (amounts_of other.now) }
    {
        self.zip_map(other, difference)
    }

    // A sum divided over the owners by these amounts.
    pub(crate) fn divided(&self, sum: i64) -> Amounts
        requires { AllBelow 1000000000000000 (amounts_of self.now) }
        ensures { amounts_of result ≡ shares sum (map unsigned_abs (amounts_of self.now)) }
    {
        let weights = self.map(|amount| amount.unsigned_abs());
        weights.shares(sum).unwrap()
    }
}

impl Owners<u64> {
    // A sum divided over the owners by these weights, unless they are too large together.
    pub fn shares(&self, sum: i64) -> Result<Amounts, Refusal>
        ensures { MatchResult result (λ a. (total (items_of self.now) ≤ most_weight) × (amounts_of a ≡ shares sum (items_of self.now))) (λ _. most_weight < total (items_of self.now)) }
    {
        let mut items = [0; 16];
        divide(sum, self.all(), &mut items[..self.count])?;
        Ok(Owners {
            items,
            count: self.count,
        })
    }
}
