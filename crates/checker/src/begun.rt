//! The check of a begun node: the path in its tree that was played, and the step from there on.

ghost use Rattle.std.specs.Prelude.{◌≡◌, ◌∷◌, ◌≤◌, [], MatchOption, MatchResult, length};
ghost use Rattle.certificate_graph.specs.Trees.{TrickTree};
ghost use Rattle.certificate_graph.specs.Graphs.{IsNode, IsTree};
ghost use Rattle.checker.specs.Places.{HasBranch, HasBranchOf, LeadsTo};
ghost use Rattle.checker.specs.Steps.{BeginLine};
ghost use Rattle.checker.specs.Begun.{IsRightBegun, IsBegunFault};

use crate::faults::StepFault;
use crate::played::Played;
use crate::turns::may_come_next;
use crate::walks::check_place;
use certificate_graph::{Branches, Graph, Node, Place, PlaceView};
use pattern_step::PatCard;

/// Returns the place below the branch with this card, if there is one.
fn place_below<'a>(branches: &Branches<'a>, card: PatCard) -> Option<Place<'a>>
    ensures { MatchOption result (HasBranchOf branches.now card → ⊥) (HasBranch branches.now card) }
{
    match branches.split_first() {
        None => None,
        Some((first, below, _)) if first == card => Some(below),
        Some((_, _, rest)) => place_below(&rest, card),
    }
}

/// Returns the place to which one card leads, if there is one.
fn place_after<'a>(place: &Place<'a>, card: PatCard) -> Option<Place<'a>>
    ensures { MatchOption result ((below : TrickTree) → LeadsTo place.now (card ∷ []) below → ⊥)
        (LeadsTo place.now (card ∷ [])) }
{
    match place.view() {
        PlaceView::Own(own, below) if own == card => Some(below),
        PlaceView::Reply(branches) => place_below(&branches, card),
        PlaceView::Own(..) | PlaceView::Leaf(_) => None,
    }
}

/// Returns the place to which these cards lead, if there is one.
fn place_on_path<'a>(place: Place<'a>, cards: &[PatCard]) -> Option<Place<'a>>
    requires { IsTree place }
    ensures { MatchOption result ((there : TrickTree) → LeadsTo place.entry cards.now there → ⊥)
        (LeadsTo place.entry cards.now) }
{
    match cards.split_first() {
        None => Some(place),
        Some((card, rest)) => match place_after(&place, *card) {
            None => None,
            Some(below) => place_on_path(below, rest),
        },
    }
}

/// Returns the trick of these cards, if they are legal in turn.
fn trick_begun(node: &Node, cards: &[PatCard]) -> Option<Played>
    requires { length cards.now ≤ 4 }
    ensures { MatchOption result (BeginLine node.now cards.now → ⊥)
        (λ played. (played ≡ cards.now) × BeginLine node.now cards.now) }
{
    let mut played = Played::none();
    for card in cards {
        if !may_come_next(node, &played, *card) {
            return None;
        }
        played = played.with(*card);
    }
    Some(played)
}

/// Checks that a begun node is right beside the graph: these cards are a path in its tree, they are legal in turn, and
/// its step holds after them. Otherwise it returns the first fault: [`StepFault::TreeShape`] if they are no path in the
/// tree, [`StepFault::CardNotLegal`] if one of them is not legal, then the first fault of the place to which they lead.
/// The node need not be one of the graph's, but its leaves name these. Takes no memory.
pub fn check_begun(graph: &Graph, node: &Node, cards: &[PatCard]) -> Result<(), StepFault>
    requires { IsNode (length graph.now.nodes) node.now }
    ensures { MatchResult result
        (λ _. IsRightBegun graph.now node.now cards.now)
        (IsBegunFault graph.now node.now cards.now) }
{
    let Some(place) = place_on_path(node.tree.root(), cards) else {
        return Err(StepFault::TreeShape);
    };
    let Some(played) = trick_begun(node, cards) else {
        return Err(StepFault::CardNotLegal);
    };
    check_place(graph, node, &played, &place)
}
