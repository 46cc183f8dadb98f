// How a transition layer is set.
ghost use Rattle.std.specs.Prelude.{◌≡◌, ℕ, ◌≤◌, length, slice_index};

use crate::volumetric::Volumetric;

// How requirements for existing facilities are divided, and a cap in dollars for each owner number: 0 for an uncapped owner.
#[derive(Clone, Copy)]
pub(crate) struct Caps {
    pub(crate) existing: Volumetric,
    // As it is: a rule of the project: the caps stand for sixteen owner numbers, before a table says how many owners there are.
    pub(crate) items: [u32; 16],
    ghost long: { length items ≡ 16 },
    ghost within: { (k : ℕ) → slice_index items k ≤ 60000000 },
}
