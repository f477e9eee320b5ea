//! The walk over the tree of a node.

ghost use Rattle.std.specs.Prelude.{◌<◌, MatchResult, length};
ghost use Rattle.pattern_step.specs.declared.pat_cards.PatCard.{PatCard};
ghost use Rattle.certificate_graph.specs.Graphs.{NamesBelow, NameBelow};
ghost use Rattle.checker.specs.Places.{HasBranchOf};
ghost use Rattle.checker.specs.Steps.{MayComeNext, BeginLine};
ghost use Rattle.checker.specs.Faults.{HoldsFrom, HoldAmong, IsFirstFault, IsFirstFaultAmong};

use crate::ends::check_leaf;
use crate::faults::StepFault;
use crate::played::Played;
use crate::turns::{check_own, check_reply};
use certificate_graph::{Branches, Graph, Node, Place, PlaceView};

/// Checks a place of the tree, to which these cards led, and then everything below it.
#[cycle(walk)]
pub(crate) fn check_place(
    graph: &Graph,
    node: &Node,
    played: &Played,
    place: &Place<'_>,
) -> Result<(), StepFault>
    requires begun { BeginLine node.now played.now }
    requires named { NamesBelow (length graph.now.nodes) place.now }
    ensures { MatchResult result
        (λ _. HoldsFrom graph.now node.now played.now place.now)
        (IsFirstFault graph.now node.now played.now place.now) }
{
    match place.view() {
        PlaceView::Own(card, below) => {
            check_own(graph.side(), node, played, card)?;
            check_place(graph, node, &played.with(card), &below)
        }
        PlaceView::Reply(branches) => {
            check_reply(graph.version(), graph.side(), node, played, &branches)?;
            check_branches(graph, node, played, &branches)
        }
        PlaceView::Leaf(children) => check_leaf(graph, node, played, &children),
    }
}

/// Checks the trees below the branches, one after another.
#[cycle(walk)]
fn check_branches(
    graph: &Graph,
    node: &Node,
    played: &Played,
    branches: &Branches<'_>,
) -> Result<(), StepFault>
    requires begun { BeginLine node.now played.now }
    requires goes_on { length played.now < 4 }
    requires legal { (card : PatCard) → HasBranchOf branches.now card → MayComeNext node.now played.now card }
    requires named { NameBelow (length graph.now.nodes) branches.now }
    ensures { MatchResult result
        (λ _. HoldAmong graph.now node.now played.now branches.now)
        (IsFirstFaultAmong graph.now node.now played.now branches.now) }
{
    let mut next = branches.split_first();
    while let Some((card, below, rest)) = next {
        check_place(graph, node, &played.with(card), &below)?;
        next = rest.split_first();
    }
    Ok(())
}
