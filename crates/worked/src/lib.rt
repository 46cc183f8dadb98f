// The worked figures of the whole book, as one theorem.
#![tactic(auto)]

ghost use Rattle.std.specs.Prelude.{◌≡◌, Ok};
ghost use Rattle.charges.specs.Pools.{rounded_down, RoundsDown};
ghost use Rattle.worked.specs.Month.{WorkedMonth, correction};

// The cents of the worked month's correction, one for each owner; the worked figures follow from the definitions, and pools are rounded down.
pub fn worked_month() -> [i64; 3]
    ensures correction { correction ≡ Ok result }
    ensures worked { WorkedMonth }
    ensures rounds_down { RoundsDown rounded_down }
{
    [-784, 1_471, -687]
}
