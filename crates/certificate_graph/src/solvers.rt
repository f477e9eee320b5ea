//! What a solver is.

use crate::bundles::Bundle;
use cards::{Layout, Seat, Trump};
use std::alloc::{AllocError, Global};

/// Something that looks for the tricks of declarers of a denomination, and for the graphs that show them. Nothing is
/// promised of what it answers.
pub trait Solver {
    ghost use Rattle.std.specs.Prelude.{ℕ, List, Option, ⊤};
    ghost use Rattle.std.specs.Option.{option_flatten};
    ghost use Rattle.std.specs.Result.{result_ok};
    ghost use Rattle.cards.specs.Deal.{Deal};
    ghost use Rattle.cards.specs.declared.seats.Seat.{Seat};
    ghost use Rattle.cards.specs.declared.suits.Trump.{Trump};
    ghost use Rattle.certificate_graph.specs.declared.bundles.Bundle.{Bundle};

    /// What may be found for a deal, declarers and a denomination within a budget: anything. Who is to show that it may
    /// be found has to ask for it.
    ghost may_find: { Self → Deal → List Seat → Trump → ℕ → Option Bundle → Type 0 } = { λ _ _ _ _ _ _. ⊤ };

    /// Claims for those of the declarers whose tricks were found, with the seat at declarer's left to lead, if there
    /// are any. The declarers are distinct. The budget is a number of steps for each of them.
    fn solve(
        &self,
        alloc: Global,
        layout: &Layout,
        declarers: &[Seat],
        trump: Trump,
        budget: u64,
    ) -> Result<Option<Bundle>, AllocError>
        ensures { may_find self.now layout.now declarers.now trump budget (option_flatten (result_ok result)) };
}
