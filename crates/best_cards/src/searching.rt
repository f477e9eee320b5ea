//! The cards that a solver finds, checked.

ghost use Rattle.best_cards.specs.Searches.{AreJudged, FindsBest};

use crate::cards_found::BestCards;
use crate::faults::BestFault;
use crate::judging::judge_best;
use card_values::{CardGraphs, TrickInProgress};
use cards::OutOfMemory;
use certificate_graph::{CardBundle, CardSolver};
use checker::CheckedGraph;
use std::alloc::Global;

/// Cards that lead to the most tricks, and the claims and graphs that show it.
#[derive(Drop)]
pub struct BestFound {
    pub cards: BestCards,
    pub bundle: CardBundle,
}

/// Returns the cards that a bundle shows to lead to the most tricks, or why it doesn't show it. Fails only if memory
/// runs out.
fn judge_bundle(
    trick: TrickInProgress,
    bundle: &CardBundle,
) -> Result<Result<BestCards, BestFault>, OutOfMemory>
    ensures { AreJudged trick bundle.now result }
{
    let ns = CheckedGraph::of(bundle.ns.clone()?);
    let ew = CheckedGraph::of(bundle.ew.clone()?);
    let graphs = CardGraphs { ns: &ns, ew: &ew };
    match judge_best(trick, &graphs, bundle.claims.as_slice()) {
        Ok(cards) => {
            cards.invariant();
            Ok(Ok(cards))
        }
        Err(fault) => Ok(Err(fault)),
    }
}

/// Has the solver look for a card that leads to the most tricks, and judges its answer. Returns `None` if there is no
/// answer, or if it shows that of no card. Fails only if memory runs out.
pub fn certified_best<P: CardSolver>(
    alloc: Global,
    trick: TrickInProgress,
    budget: u64,
    solver: &P,
) -> Result<Option<BestFound>, OutOfMemory>
    ensures { FindsBest (P.may_find_cards solver.now) trick budget result }
{
    let found = solver.solve_cards(
        alloc,
        trick.layout(),
        &[trick.leader()],
        trick.trump(),
        trick.played(),
        budget,
    );
    let bundle = match found {
        Ok(Some(bundle)) => bundle,
        Ok(None) => return Ok(None),
        Err(_) => return Err(OutOfMemory),
    };
    match judge_bundle(trick, &bundle) {
        Ok(Ok(cards)) => Ok(Some(BestFound { cards, bundle })),
        Ok(Err(_)) => Ok(None),
        Err(OutOfMemory) => Err(OutOfMemory),
    }
}
