// What is read off an owner's cap, 0 for none, and an amount of its own.
ghost use Rattle.std.specs.Prelude.{◌≡◌, ◌≤◌, unsigned_abs};
ghost use Rattle.charges.specs.Burdens.{benefit, excess, headroom, of_capped, of_uncapped};

// How far the amount is above the cap, or above 0 for an uncapped owner.
// As it is: a type for a cap beside a small amount is no plainer: a pair is made by zip_map, and read here alone.
pub(crate) fn above_cap(owner: &(u32, i64)) -> i64
    requires { unsigned_abs owner.now.1 ≤ 1000000000000000 }
    ensures { result ≡ excess owner.now.0 owner.now.1 }
{
    let (cap, amount) = *owner;
    (amount - i64::from(cap)).max(0)
}

// How far the amount of a capped owner is below its cap.
pub(crate) fn below_cap(owner: &(u32, i64)) -> i64
    requires { unsigned_abs owner.now.1 ≤ 1000000000000000 }
    ensures { result ≡ headroom owner.now.0 owner.now.1 }
{
    let (cap, amount) = *owner;
    if cap == 0 {
        return 0;
    }
    (i64::from(cap) - amount).max(0)
}

// How far the amount of an uncapped owner is below 0.
pub(crate) fn below_nothing(owner: &(u32, i64)) -> i64
    requires { unsigned_abs owner.now.1 ≤ 1000000000000000 }
    ensures { result ≡ benefit owner.now.0 owner.now.1 }
{
    let (cap, amount) = *owner;
    if cap == 0 { (-amount).max(0) } else { 0 }
}

// The amount of a capped owner.
pub(crate) fn of_capped(owner: &(u32, i64)) -> i64
    ensures { result ≡ of_capped owner.now.0 owner.now.1 }
{
    let (cap, amount) = *owner;
    if cap == 0 { 0 } else { amount }
}

// The amount of an uncapped owner.
pub(crate) fn of_uncapped(owner: &(u32, i64)) -> i64
    ensures { result ≡ of_uncapped owner.now.0 owner.now.1 }
{
    let (cap, amount) = *owner;
    if cap == 0 { amount } else { 0 }
}

// The cap, by which capped owners share again.
pub(crate) fn weight(owner: &(u32, i64)) -> u64
    ensures { result ≡ owner.now.0 }
{
    u64::from(owner.0)
}
