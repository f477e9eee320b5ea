//! The tricks of each card that may be played.

ghost use Rattle.deal_subcommands.specs.CardTricks.Valuing.{FindsCards, FindsOrRefuses, ValuesCards};

use crate::card_tricks::options::CardsOptions;
use crate::card_tricks::played::trick_of;
use crate::faults::{DealFault, write_failed};
use card_values::{TrickInProgress, write_values};
use cards::{OutOfMemory, Sink};
use certificate_graph::CardSolver;
use certified_cards::{CardsFound, certified_cards};
use std::alloc::Global;

/// Has the solver look for the tricks of each card that may be played to this trick, and judges its answer.
fn find_values<P: CardSolver>(
    alloc: Global,
    trick: TrickInProgress,
    budget: u64,
    solver: &P,
) -> Result<CardsFound, DealFault>
    ensures { FindsOrRefuses (P.may_find_cards solver.now) trick budget result }
{
    match certified_cards(alloc, trick, budget, solver) {
        Ok(Some(found)) => Ok(found),
        Ok(None) => Err(DealFault::NoAnswer),
        Err(OutOfMemory) => Err(DealFault::OutOfMemory),
    }
}

/// Returns the values of the cards that may be played, as the solver's certificates show them. Refuses bytes that spell
/// no layout, and words that name no card or one that may not be played, before the solver is asked.
pub fn find_cards<P: CardSolver>(
    alloc: Global,
    options: CardsOptions<'_>,
    solver: &P,
) -> Result<CardsFound, DealFault>
    ensures { FindsCards (P.may_find_cards solver.now) options.entry result }
{
    let trick = match trick_of(options) {
        Ok(trick) => trick,
        Err(fault) => return Err(fault),
    };
    find_values(alloc, trick, options.budget, solver)
}

/// Finds the values of the cards that may be played, as [`find_cards`] does, and writes them. Nothing was written after
/// any fault but a failed output, and after that one a beginning of the text.
pub fn value_cards<P: CardSolver, O: Sink>(
    alloc: Global,
    options: CardsOptions<'_>,
    solver: &P,
    output: &mut O,
) -> Result<(), DealFault>
    ensures { ValuesCards (P.may_find_cards solver.now) options.entry (O.state output.old) (O.state output.new)
        result }
{
    let found = match find_cards(alloc, options, solver) {
        Ok(found) => found,
        Err(fault) => return Err(fault),
    };
    match write_values(output, &found.values) {
        Ok(()) => Ok(()),
        Err(fault) => Err(write_failed(fault)),
    }
}
