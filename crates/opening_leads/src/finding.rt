//! The leads of a board in one denomination: a solver is asked, and its answer is judged.

ghost use Rattle.std.specs.Prelude.{◌≡◌, [], All, Some, Ok, MatchResult};
ghost use Rattle.cards.specs.declared.seats.Seat.{Seat};
ghost use Rattle.card_values.specs.declared.faults.CardFault.{CardFault};
ghost use Rattle.card_values.specs.CardValues.{AreCardValues};
ghost use Rattle.card_values.specs.Judging.{IsClaimed, IsCardFault};
ghost use Rattle.opening_leads.specs.Leads.{before_lead};
ghost use Rattle.opening_leads.specs.Answers.{AreFoundLeads, AreShownLeads, lack_by};
ghost use Rattle.opening_leads.specs.Tasks.{row_in};

use crate::rows::{DeclarerRows, Lack, Row};
use card_values::{CardFault, CardGraphs, TrickInProgress, judge_cards};
use cards::{Layout, Seat, Trump};
use certificate_graph::{CardBundle, CardClaim, CardSolver};
use checker::CheckedGraph;
use std::alloc::Global;

/// Why the leads are not known, if a claim for one of them has this fault.
fn lack_by(fault: CardFault) -> Lack
    ensures { result ≡ lack_by fault }
{
    match fault {
        CardFault::ClaimMissing(_) => Lack::Steps,
        _ => Lack::Refused,
    }
}

/// Judges the claims for the leads against a contract. There is no row if one of them is missing or is not shown.
fn judge_row(
    layout: &Layout,
    declarer: Seat,
    trump: Trump,
    graphs: &CardGraphs<'_>,
    claims: &[CardClaim],
) -> Row
    ensures { MatchResult result
        (λ values. AreCardValues (before_lead layout.now declarer trump) values.items
        × All (IsClaimed (before_lead layout.now declarer trump) graphs.now claims.now) values.items)
        (λ lack. (fault : CardFault) × (lack ≡ lack_by fault)
        × IsCardFault (before_lead layout.now declarer trump) graphs.now claims.now fault) }
{
    let trick = TrickInProgress::new(*layout, declarer.next(), trump);
    match judge_cards(trick, graphs, claims) {
        Ok(shown) => {
            shown.invariant();
            Ok(shown.into_values())
        }
        Err(fault) => Err(lack_by(fault)),
    }
}

/// Judges an answer for all declarers. Its graphs are checked once.
fn judge_answer(layout: &Layout, trump: Trump, bundle: CardBundle) -> DeclarerRows
    ensures { (declarer : Seat)
        → AreShownLeads (Ok (Some bundle)) layout.now declarer trump (row_in result declarer) }
{
    let CardBundle { ns, ew, claims } = bundle;
    let (ns, ew) = (CheckedGraph::of(ns), CheckedGraph::of(ew));
    let graphs = CardGraphs { ns: &ns, ew: &ew };
    let claims = claims.as_slice();
    DeclarerRows {
        north: judge_row(layout, Seat::North, trump, &graphs, claims),
        east: judge_row(layout, Seat::East, trump, &graphs, claims),
        south: judge_row(layout, Seat::South, trump, &graphs, claims),
        west: judge_row(layout, Seat::West, trump, &graphs, claims),
    }
}

/// Asks the solver for the leads of all seats, and returns the rows that its answer shows. There are none if nothing
/// was found within the budget, or if the solver had no memory.
pub(crate) fn find_rows<S: CardSolver>(
    alloc: Global,
    layout: &Layout,
    trump: Trump,
    budget: u64,
    solver: &S,
) -> DeclarerRows
    ensures { AreFoundLeads (S.may_find_cards solver.now) budget layout.now trump (row_in result) }
{
    match solver.solve_cards(alloc, layout, &Seat::ALL, trump, &[], budget) {
        Ok(Some(bundle)) => judge_answer(layout, trump, bundle),
        Ok(None) => DeclarerRows::lacking(Lack::Steps),
        Err(_) => DeclarerRows::lacking(Lack::Memory),
    }
}
