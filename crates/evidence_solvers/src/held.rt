//! What a file held, and what may be added to it, as a name in types.

use std::marker::Brand;

/// What a file held when its evidence was opened, and which sections may be added to it. Nothing is known of a value
/// under a lock but its type: so the type of the end of a file names both. The caller that makes it picks them.
pub trait Held {
    ghost use Rattle.std.specs.Prelude.{ℕ, List, Option};
    ghost use Rattle.evidence.specs.Sections.{SectionShape};

    /// The bytes, if the file tells them.
    ghost held: { Option (List ℕ) };

    /// The sections.
    ghost may_be: { SectionShape → Type 0 };
}

impl Held for Brand {
    ghost use Rattle.std.specs.Prelude.{None, ⊤};

    ghost held = { None };

    ghost may_be = { λ _. ⊤ };
}
