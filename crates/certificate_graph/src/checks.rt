//! Whether nodes make a graph.

ghost use Rattle.std.specs.Prelude.{◌≡◌, ◌↔◌, IsTrue, MatchResult, length};
ghost use Rattle.certificate_graph.specs.Graphs.{IsNode, AreNodes};
ghost use Rattle.certificate_graph.specs.GraphFaults.{IsNodeFault, IsGraphFault};

use crate::faults::GraphFault;
use crate::forms::{TRICK_CARDS, has_form, tree_fits};
use crate::nodes::Node;

/// The greatest number of nodes, so that a graph and its text stay within a bounded memory.
pub(crate) const GREATEST_COUNT: usize = 1_000_000;

/// The greatest need: the tricks of a deal.
const GREATEST_NEED: u8 = 13;

/// Whether this is a node of a graph with so many nodes.
pub(crate) fn is_node(node: &Node, count: u32) -> bool
    ensures { IsTrue result ↔ IsNode count node.now }
{
    node.pattern.invariant();
    node.need >= 1 && node.need <= GREATEST_NEED && tree_fits(node.tree.root(), TRICK_CARDS, count)
}

/// Whether this is a node of a graph with so many nodes, else its first fault.
pub(crate) fn check_node(node: &Node, count: u32) -> Result<(), GraphFault>
    ensures { MatchResult result (λ _. IsNode count node.now) (IsNodeFault count node.now) }
{
    node.pattern.invariant();
    if node.need < 1 || node.need > GREATEST_NEED {
        return Err(GraphFault::Need);
    }
    if tree_fits(node.tree.root(), TRICK_CARDS, count) {
        return Ok(());
    }
    if !has_form(&node.tree.root(), TRICK_CARDS) {
        return Err(GraphFault::TreeForm);
    }
    Err(GraphFault::ChildNumber)
}

/// Whether these are the nodes of a graph, else the first fault of the first that has one.
pub(crate) fn check_nodes(nodes: &[Node]) -> Result<(), GraphFault>
    ensures { MatchResult result (λ _. AreNodes nodes.now) (IsGraphFault nodes.now) }
{
    let are_too_many = nodes.len() > GREATEST_COUNT;
    if are_too_many {
        return Err(GraphFault::TooLarge);
    }
    let count = nodes.len() as u32;
    for node in nodes {
        check_node(node, count)?;
    }
    Ok(())
}
