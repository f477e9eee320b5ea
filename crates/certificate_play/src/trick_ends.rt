//! The end of a trick: who has won it, and the node that goes on.

ghost use Rattle.std.specs.Prelude.{◌≡◌, List, ◌∷◌, [], ◌++◌, MatchOption, Contains, length};
ghost use Rattle.pattern_step.specs.declared.pat_cards.PatCard.{PatCard};
ghost use Rattle.checker.specs.Steps.{IsListed};
ghost use Rattle.play_rules.specs.Left.{left_of};
ghost use Rattle.certificate_play.specs.Steps.{IsByNode, IsWayOf, IsKeptIn, promise_of};

use crate::steps::Step;
use cards::{Card, Seat};
use certificate_graph::{Child, Children, Place, PlaceView};
use play_rules::winner;

/// The child for this winner, if it is listed.
fn child_for(children: &Children<'_>, winner: Seat) -> Option<Child>
    ensures { MatchOption result
        (IsListed children.now winner → ⊥)
        (λ child. (child.winner ≡ winner) × Contains children.now child) }
{
    match children.split_first() {
        None => None,
        Some((child, rest)) => {
            if child.winner == winner {
                Some(child)
            } else {
                child_for(&rest, winner)
            }
        }
    }
}

/// Who holds each card when these four are gone.
fn without(deal: &[Option<Seat>; 52], a: Card, b: Card, c: Card, d: Card) -> [Option<Seat>; 52]
    ensures { result ≡ left_of deal.now (a ∷ b ∷ c ∷ d ∷ []) }
{
    let mut left = *deal;
    left[a.number()] = None;
    left[b.number()] = None;
    left[c.number()] = None;
    left[d.number()] = None;
    left
}

/// After the fourth card, which leads to this place: the next trick, by a node that keeps what is still promised, or
/// none once no more is promised.
pub(crate) fn next_trick<'a>(step: &Step<'a>, card: Card, leaf: &Place<'a>) -> Option<Step<'a>>
    requires by_node { IsByNode step.now }
    requires three { length step.now.trick.items ≡ 3 }
    requires way { (line : List PatCard) × IsWayOf step.now (step.now.trick.items ++ card ∷ []) line leaf.now }
    ensures { IsKeptIn (promise_of step.now (step.now.trick.items ++ card ∷ [])) result }
{
    let PlaceView::Leaf(children) = leaf.view() else {
        unreachable!();
    };
    let a = step.trick[0];
    let b = step.trick[1];
    let c = step.trick[2];
    let winner = winner(step.graph.trump(), step.node.lead, a, b, c, card);
    match child_for(&children, winner) {
        None => None,
        Some(child) => {
            let left = without(&step.start, a, b, c, card);
            let next = &step.graph.nodes()[child.number as usize];
            Some(Step::first(step.graph, next, left))
        }
    }
}
