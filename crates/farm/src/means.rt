//! The solver, the gate and the clock of a run.

use std::alloc::AllocError;

/// The solver, the gate and the clock of a run. They may answer anything.
#[derive(Drop)]
pub struct Means<'a, S, G, C> {
    /// Searches for answers.
    pub solver: &'a S,
    /// Is called for each step of the work.
    pub gate: &'a G,
    /// Says what time it is.
    pub clock: &'a C,
}

impl<S, G, C> Copy for Means<'_, S, G, C> {}

impl<S, G, C> Clone for Means<'_, S, G, C> {
    ghost use Rattle.std.specs.Prelude.{◌≡◌, ⊤};

    ghost is_clone = { λ means copy. copy ≡ means };

    ghost is_infallible = { λ _. ⊤ };

    fn clone(&self) -> Result<Self, AllocError> {
        Ok(*self)
    }
}
