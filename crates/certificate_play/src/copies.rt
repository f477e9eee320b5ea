//! Copies of a trick in progress. A place of a tree is found again by the cards that led to it.

ghost use Rattle.std.specs.Prelude.{◌≡◌};
ghost use Rattle.certificate_graph.specs.Graphs.{IsTree};
ghost use Rattle.certificate_graph.specs.Trees.{TrickTree};
ghost use Rattle.checker.specs.Places.{LeadsTo};
ghost use Rattle.certificate_play.specs.Steps.{IsByNode, IsCopyOf};

use crate::branches::below;
use crate::steps::Step;
use certificate_graph::{Place, PlaceView};
use pattern_step::PatCard;

/// The place to which these cards lead.
fn place_along<'a>(place: Place<'a>, line: &[PatCard]) -> Place<'a>
    requires tree { IsTree place }
    requires leads { (there : TrickTree) × LeadsTo place line.now there }
    ensures { (there : TrickTree) → LeadsTo place.entry line.now there → result ≡ there }
{
    let Some((first, rest)) = line.split_first() else {
        return place;
    };
    match place.view() {
        PlaceView::Own(_, next) => place_along(next, rest),
        PlaceView::Reply(branches) => {
            let Some(next) = below(&branches, *first) else {
                unreachable!();
            };
            place_along(next, rest)
        }
        PlaceView::Leaf(_) => unreachable!(),
    }
}

/// The same trick, with the same cards played.
pub(crate) fn copy<'a>(step: &Step<'a>) -> Step<'a>
    requires { IsByNode step.now }
    ensures { IsCopyOf step.now result }
{
    let root = step.node.tree.root();
    Step {
        graph: step.graph,
        node: step.node,
        place: place_along(root, step.line.as_slice()),
        start: step.start,
        trick: step.trick.clone().unwrap(),
        line: step.line.clone().unwrap(),
    }
}
