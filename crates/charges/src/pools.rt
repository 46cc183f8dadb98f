// What a charge divides.
ghost use Rattle.std.specs.Prelude.{◌≡◌, ◌≤◌, length, unsigned_abs};
ghost use Rattle.std.specs.List.{AllByRecursion, AllByRecursion-prop};
ghost use Rattle.charges.specs.Pools.{PoolsWithin, SmallSum};
ghost use Rattle.std.proofs.Props.{props};

use crate::pool::Pool;

// At most four pools, and none of a sum too large to reckon with.
#[derive(Clone, Copy)]
pub(crate) struct Pools<'a> {
    pub(crate) items: &'a [Pool],
    ghost few: { length items.now ≤ 4 },
    ghost sums: { AllByRecursion SmallSum items.now } by { AllByRecursion-prop SmallSum (λ p. Prim.hlevel props) items.now },
}

impl<'a> Pools<'a> {
    pub(crate) fn new(items: &'a [Pool]) -> Pools<'a>
        requires { PoolsWithin items.now }
        ensures { result.items.now ≡ items.now }
    {
        Pools { items }
    }
}
