// The worked month, as a theorem.
ghost use Rattle.std.specs.Prelude.{◌≡◌};
ghost use Rattle.charges.specs.Pools.{rounded_down, RoundsDown};
ghost use Rattle.charges.specs.Worked.{Worked};
ghost use Rattle.charges.specs.WorkedLayers.{WorkedLayers};

// The worked figures hold of the definitions, and pools are rounded down; answers how many charges they are of.
pub fn worked_month() -> u8
    ensures count { result ≡ 2 }
    ensures worked { Worked }
    ensures layers { WorkedLayers }
    ensures rounds_down { RoundsDown rounded_down }
{
    2
}
