//! What tells the time.

/// A clock. It may stand still or go back.
pub trait Clock {
    ghost use Rattle.std.specs.Prelude.{ℕ, ⊤};

    /// The moments that may be told: any. A history names those alone.
    ghost may_tell: { Self → ℕ → Type 0 } = { λ _ _. ⊤ };

    /// The moment, in the unit of a lease's term.
    fn now(&self) -> u64
        ensures { may_tell self.now result };
}
