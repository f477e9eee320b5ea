//! What a solver answers of the cards that may be played: graphs that they share, and a claim for each card.

use crate::graphs::Graph;
use crate::nodes::Node;
use cards::{Card, Layout, Seat, Trump};
use std::alloc::{AllocError, Global};
use std::sync::Arc;

/// How many tricks the side of the seat to play takes after a card, and the begun nodes that are to show it. The cards
/// played to the trick, this one as the last, are the path in their trees.
#[derive(Drop)]
pub struct CardClaim {
    /// The card that the seat to play plays.
    pub card: Card,
    /// The tricks that its side takes, the trick in progress among them, 0 to 13.
    pub tricks: u8,
    /// Is to show that this side wins its tricks. It stands beside the side's graph. None if it wins none.
    pub player: Option<Node>,
    /// Is to show that the other side wins all others. It stands beside that side's graph. None if there are none.
    pub others: Option<Node>,
}

/// A graph for each side, and claims that they and the begun nodes are to show, all of one layout and denomination.
#[derive(Drop)]
pub struct CardBundle {
    /// What North and South can win.
    pub ns: Arc<Graph>,
    /// What East and West can win.
    pub ew: Arc<Graph>,
    pub claims: Vec<CardClaim>,
}

/// Something that looks for the tricks that each card leads to. Nothing is promised of what it answers.
pub trait CardSolver {
    ghost use Rattle.std.specs.Prelude.{⊤};
    ghost use Rattle.std.specs.Option.{option_flatten};
    ghost use Rattle.std.specs.Result.{result_ok};
    ghost use Rattle.certificate_graph.specs.Solvers.{MayFindCards};

    /// What may be found for a deal, leaders, a denomination and cards played, within a budget: anything. Whoever is to
    /// show that it may be found has to ask for it.
    ghost may_find_cards: { Self → MayFindCards } = { λ _ _ _ _ _ _ _. ⊤ };

    /// Claims for cards that may be played after these, the first cards of the layout's first trick, at most three. If
    /// none is played there may be several leaders: the claims for a leader's cards say what they lead to as its
    /// opening lead. The leaders are distinct. The budget is a number of steps for each card.
    fn solve_cards(
        &self,
        alloc: Global,
        layout: &Layout,
        leaders: &[Seat],
        trump: Trump,
        played: &[Card],
        budget: u64,
    ) -> Result<Option<CardBundle>, AllocError>
        ensures { may_find_cards self.now layout.now leaders.now trump played.now budget
            (option_flatten (result_ok result)) };
}
