//! The values that a solver finds, checked.

ghost use Rattle.certified_cards.specs.Searches.{FindsValues};

use crate::judging::judge_bundle;
use card_values::{CardValues, TrickInProgress};
use cards::OutOfMemory;
use certificate_graph::{CardBundle, CardSolver};
use std::alloc::Global;

/// The values of cards, and the claims and graphs that show them.
#[derive(Drop)]
pub struct CardsFound {
    pub values: CardValues,
    pub bundle: CardBundle,
}

/// Has the solver look for the tricks of each card that may be played to this trick, and judges its answer. Returns
/// `None` if there is no answer, or if the answer doesn't show all values. Fails only if memory runs out.
pub fn certified_cards<P: CardSolver>(
    alloc: Global,
    trick: TrickInProgress,
    budget: u64,
    solver: &P,
) -> Result<Option<CardsFound>, OutOfMemory>
    ensures { FindsValues (P.may_find_cards solver.now) trick budget result }
{
    let found = solver.solve_cards(
        alloc,
        trick.layout(),
        &[trick.leader()],
        trick.trump(),
        trick.played(),
        budget,
    );
    let bundle = match found {
        Ok(Some(bundle)) => bundle,
        Ok(None) => return Ok(None),
        Err(_) => return Err(OutOfMemory),
    };
    match judge_bundle(trick, &bundle) {
        Ok(Ok(values)) => Ok(Some(CardsFound { values, bundle })),
        Ok(Err(_)) => Ok(None),
        Err(OutOfMemory) => Err(OutOfMemory),
    }
}
