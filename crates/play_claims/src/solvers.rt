//! What a solver of plays is.

use crate::claims::PlayBundle;
use cards::{Card, Layout, Seat, Trump};
use std::alloc::{AllocError, Global};

/// Something that looks for the tricks that both sides take after each card of a play. Nothing is promised of what it
/// answers.
pub trait PlaySolver {
    ghost use Rattle.std.specs.Prelude.{⊤};
    ghost use Rattle.std.specs.Result.{result_ok};
    ghost use Rattle.play_claims.specs.Solvers.{MayFindPlay};

    /// What may be found for a deal, a leader, a denomination and the cards of a play, within a budget: anything.
    /// Whoever is to show that it may be found has to ask for it.
    ghost may_find_play: { Self → MayFindPlay } = { λ _ _ _ _ _ _ _. ⊤ };

    /// Claims for the first cards of each number, as long as a card is left. The cards may be played in turn. The
    /// budget is a number of steps for each claim.
    fn solve_play(
        &self,
        alloc: Global,
        layout: &Layout,
        leader: Seat,
        trump: Trump,
        cards: &[Card],
        budget: u64,
    ) -> Result<PlayBundle, AllocError>
        ensures { may_find_play self.now layout.now leader trump cards.now budget (result_ok result) };
}
