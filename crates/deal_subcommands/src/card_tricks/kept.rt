//! The tricks of each card that may be played, with the text of their evidence.

ghost use Rattle.std.specs.Prelude.{IfOk};
ghost use Rattle.deal_subcommands.specs.CardTricks.Kept.{AsksSolver, FindsKept, KeepsValues};
ghost use Rattle.card_evidence.specs.SectionTexts.{IsTextOf};

use crate::card_tricks::options::CardsOptions;
use crate::card_tricks::played::trick_of;
use crate::faults::DealFault;
use card_evidence::{CardSection, write_card_section};
use card_values::{CardValues, TrickInProgress};
use cards::OutOfMemory;
use certificate_graph::{CardBundle, CardSolver};
use certified_cards::judge_bundle;
use evidence::VecSink;
use std::alloc::Global;

/// The values of cards, and the text of the section that shows them.
#[derive(Drop)]
pub struct KeptCards {
    pub values: CardValues,
    pub text: Vec<u8>,
}

/// Returns the text of a section. Fails only if memory runs out.
fn text_of(alloc: Global, section: &CardSection) -> Result<Vec<u8>, OutOfMemory>
    ensures { IfOk result (λ text. IsTextOf text.items section.now) }
{
    section.invariant();
    let mut sink = VecSink::new(alloc);
    match write_card_section(&mut sink, section) {
        Ok(()) => Ok(sink.into_bytes()),
        Err(_) => Err(OutOfMemory),
    }
}

/// Has the solver look for the tricks of each card that may be played to this trick.
fn ask_solver<P: CardSolver>(
    alloc: Global,
    trick: &TrickInProgress,
    budget: u64,
    solver: &P,
) -> Result<CardBundle, DealFault>
    ensures { AsksSolver (P.may_find_cards solver.now) trick.now budget result }
{
    let found = solver.solve_cards(
        alloc,
        trick.layout(),
        &[trick.leader()],
        trick.trump(),
        trick.played(),
        budget,
    );
    match found {
        Ok(Some(bundle)) => Ok(bundle),
        Ok(None) => Err(DealFault::NoAnswer),
        Err(_) => Err(DealFault::OutOfMemory),
    }
}

/// Has the solver look for the tricks of each card that may be played to this trick, makes a section of its answer, and
/// judges that.
fn find_section<P: CardSolver>(
    alloc: Global,
    trick: TrickInProgress,
    budget: u64,
    solver: &P,
) -> Result<KeptCards, DealFault>
    ensures { KeepsValues (P.may_find_cards solver.now) trick budget result }
{
    let bundle = match ask_solver(alloc, &trick, budget, solver) {
        Ok(bundle) => bundle,
        Err(fault) => return Err(fault),
    };
    let Ok(section) = CardSection::new(trick, bundle) else {
        return Err(DealFault::NoAnswer);
    };
    let Ok(text) = text_of(alloc, &section) else {
        return Err(DealFault::OutOfMemory);
    };
    let (trick, bundle) = section.into_parts();
    match judge_bundle(trick, &bundle) {
        Ok(Ok(values)) => Ok(KeptCards { values, text }),
        Ok(Err(_)) => Err(DealFault::NoAnswer),
        Err(OutOfMemory) => Err(DealFault::OutOfMemory),
    }
}

/// Returns the values of the cards that may be played, as [`find_cards`](crate::card_tricks::find_cards) does, with the
/// text of their evidence.
pub fn find_kept<P: CardSolver>(
    alloc: Global,
    options: CardsOptions<'_>,
    solver: &P,
) -> Result<KeptCards, DealFault>
    ensures { FindsKept (P.may_find_cards solver.now) options.entry result }
{
    let trick = match trick_of(options) {
        Ok(trick) => trick,
        Err(fault) => return Err(fault),
    };
    find_section(alloc, trick, options.budget, solver)
}
