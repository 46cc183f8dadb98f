// What each owner has, in the owners' order: at most sixteen items, by value.
ghost use Rattle.std.specs.Prelude.{◌≡◌, ◌≤◌, length, ⊤};

use std::alloc::AllocError;

// As it is: a rule of the project: no heap, so the items stand in sixteen places, with their count beside them.
pub struct Owners<T> {
    pub(crate) items: [T; 16],
    pub(crate) count: usize,
    ghost few: { count ≤ 16 },
    ghost fits: { count ≤ length items },
}

// As it is: tried as derive(Clone, Copy), which is refused for a generic struct with a ghost field (derive-over-ghost-field).
impl<T: Copy> Copy for Owners<T> {}

impl<T: Copy> Clone for Owners<T> {
    ghost is_clone = { λ x y. y ≡ x };

    ghost is_infallible = { λ _. ⊤ };

    fn clone(&self) -> Result<Self, AllocError> {
        Ok(*self)
    }
}
