//! The check of a begun node against the claim that a side wins tricks after some cards.

ghost use Rattle.std.specs.Prelude.{◌≡◌, ◌≤◌, MatchResult, length, Some};
ghost use Rattle.std.specs.Option.{option_copied};
ghost use Rattle.checker.specs.Begun.{StandForCards};
ghost use Rattle.card_values.specs.AfterClaims.{IsAfterFault, IsBegunRoot, ShowsAfter};
ghost use Rattle.card_values.specs.BegunClaims.{claim_of};

use crate::faults::AfterFault;
use arrayvec::ArrayVec;
use cards::{Card, Layout, Seat, Side, Trump};
use certificate_graph::{Graph, Node};
use checker::{CheckedGraph, check_begun};
use pattern_step::{PatCard, pat_card_of};
use play_rules::holders;

/// The claim that a side wins `need` tricks of a layout after these cards, the first cards of its first trick.
#[derive(Drop)]
pub struct BegunClaim<'a> {
    /// The layout when the trick began.
    pub layout: &'a Layout,
    /// The seat that leads.
    pub leader: Seat,
    /// The trump suit, or none.
    pub trump: Trump,
    /// The cards played so far, at most four.
    pub cards: &'a [Card],
    /// The side that wins the tricks.
    pub side: Side,
    /// How many tricks it wins, the trick in progress among them.
    pub need: u8,
}

/// The pattern cards that stand for these cards of a layout.
fn path_of(layout: &Layout, node: &Node, cards: &[Card]) -> ArrayVec<PatCard, 4>
    requires { length cards.now ≤ 4 }
    ensures { StandForCards node.now.pattern layout.now result.items cards.now }
{
    let deal = holders(layout);
    let mut path = ArrayVec::new();
    for card in cards {
        path.push(pat_card_of(&deal, &node.pattern, *card));
    }
    path
}

/// Checks that the begun node makes the claim, otherwise returns a fault that it has.
fn check_root(claim: &BegunClaim<'_>, graph: &Graph, node: &Node) -> Result<(), AfterFault>
    requires { length claim.now.cards.now ≤ 4 }
    ensures { MatchResult result
        (λ _. IsBegunRoot graph.now (claim_of claim.now) node.now)
        (IsAfterFault graph.now (claim_of claim.now) (Some node.now)) }
{
    if !graph.admits(node) {
        return Err(AfterFault::RootForm);
    }
    if node.lead != claim.leader {
        return Err(AfterFault::RootLead);
    }
    if node.need != claim.need {
        return Err(AfterFault::RootNeed);
    }
    if !node.pattern.matches(claim.layout) {
        return Err(AfterFault::RootPattern);
    }
    let path = path_of(claim.layout, node, claim.cards);
    match check_begun(graph, node, path.as_slice()) {
        Ok(()) => Ok(()),
        Err(fault) => Err(AfterFault::Begun(fault)),
    }
}

/// Checks that the graph and the begun node show the claim, otherwise returns a fault that they have. If no tricks are
/// claimed, there must be no begun node. Takes no memory.
pub fn check_after(
    claim: &BegunClaim<'_>,
    checked: &CheckedGraph,
    root: Option<&Node>,
) -> Result<(), AfterFault>
    requires { length claim.now.cards.now ≤ 4 }
    ensures { MatchResult result
        (λ _. ShowsAfter checked.now (claim_of claim.now) (option_copied root.entry))
        (IsAfterFault checked.now (claim_of claim.now) (option_copied root.entry)) }
{
    let graph = checked.graph();
    if graph.trump() != claim.trump {
        return Err(AfterFault::RootTrump);
    }
    if graph.side() != claim.side {
        return Err(AfterFault::RootSide);
    }
    match root {
        None if claim.need > 0 => Err(AfterFault::RootMissing),
        None => Ok(()),
        Some(_) if claim.need == 0 => Err(AfterFault::RootNeedless),
        Some(node) => {
            if let Err(fault) = check_root(claim, graph, node) {
                return Err(fault);
            }
            match checked.verdict() {
                Ok(()) => Ok(()),
                Err(fault) => Err(AfterFault::Node(fault)),
            }
        }
    }
}
