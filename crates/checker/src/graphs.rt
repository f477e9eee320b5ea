//! The check of a graph.

ghost use Rattle.std.specs.Prelude.{[], MatchResult, length, ◌<◌};
ghost use Rattle.certificate_graph.specs.Graphs.{NamesBelow};
ghost use Rattle.checker.specs.Steps.{StepHolds, StepsHold};
ghost use Rattle.checker.specs.Faults.{IsFirstFault, IsGraphFault, NodeTells};

use crate::faults::{NodeFault, StepFault};
use crate::played::Played;
use crate::walks::check_place;
use certificate_graph::{Graph, Node};

/// Checks the step of a node.
fn check_node(graph: &Graph, node: &Node) -> Result<(), StepFault>
    requires { NamesBelow (length graph.now.nodes) node.now.tree }
    ensures { MatchResult result
        (λ _. StepHolds graph.now node.now)
        (IsFirstFault graph.now node.now [] node.now.tree) }
{
    check_place(graph, node, &Played::none(), &node.tree.root())
}

/// Returns the fault of the node with this number, if its step does not hold.
pub(crate) fn fault_of(graph: &Graph, number: usize) -> Option<NodeFault>
    requires { number < length graph.now.nodes }
    ensures { NodeTells graph.now number result }
{
    graph.invariant();
    let node = &graph.nodes()[number];
    match check_node(graph, node) {
        Ok(()) => None,
        Err(fault) => Some(NodeFault {
            number: number as u32,
            fault,
        }),
    }
}

/// Checks that the steps of all nodes hold. Otherwise it returns the first fault: the fault of the least node that has
/// one, the first in its tree when the tree is read from the front.
pub fn check_graph(graph: &Graph) -> Result<(), NodeFault>
    ensures { MatchResult result (λ _. StepsHold graph.now) (IsGraphFault graph.now) }
{
    graph.invariant();
    let nodes = graph.nodes();
    for (number, node) in nodes.iter().enumerate() {
        if let Err(fault) = check_node(graph, node) {
            return Err(NodeFault {
                number: number as u32,
                fault,
            });
        }
    }
    Ok(())
}
