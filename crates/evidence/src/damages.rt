//! What is passed over of evidence.

ghost use Rattle.std.specs.Prelude.{◌≡◌, ◌-◌, ◌^◌, ◌++◌, ◌∷◌, [], ℕ, List, min};
ghost use Rattle.evidence.specs.Damages.{IsDamageOf};

/// The pieces of evidence that were passed over, since they are damaged.
#[derive(Clone, Copy, Debug, PartialEq, Eq)]
pub struct Damage {
    /// How many there are, at most 2 to the power of 64 less 1.
    pub count: u64,
    /// The byte where the first begins, counted from 0, at most 2 to the power of 64 less 1; 0 where there is none.
    pub first: u64,
}

impl Damage {
    /// Nothing was passed over.
    pub fn none() -> Damage
        ensures { IsDamageOf [] result }
    {
        Damage { count: 0, first: 0 }
    }

    /// With a piece more, which begins at this byte, or where that is the greatest number behind it.
    pub fn with(self, at: u64) -> Damage
        ensures { (damaged : List ℕ) (byte : ℕ) → min at (2 ^ 64 - 1) ≡ min byte (2 ^ 64 - 1)
            → IsDamageOf damaged self → IsDamageOf (damaged ++ byte ∷ []) result }
    {
        Damage {
            count: self.count.saturating_add(1),
            first: if self.count == 0 { at } else { self.first },
        }
    }
}
