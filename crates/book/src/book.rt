// The owners of a book, its charge, and the mark of each month that is settled.
ghost use Rattle.std.specs.Prelude.{ℕ, ◌≤◌, slice_index, take};

use charges::Owners;

#[derive(Drop)]
pub struct Book<C> {
    pub(crate) areas: Owners<u8>,
    pub(crate) charge: C,
    // How many entries the latest granted posting of each month was worked out from.
    // As it is: a rule of the project: no heap, and a mark for each of the 360 months.
    pub(crate) marks: [Option<u16>; 360],
    ghost some: { 1 ≤ areas.count },
    ghost areas_within: { (k : ℕ) → slice_index (take areas.count areas.items) k ≤ 2 },
}
