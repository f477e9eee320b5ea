//! Copies of claims and nodes.

ghost use Rattle.std.specs.Prelude.{◌≡◌, IfOk};
ghost use Rattle.play_evidence.specs.Sections.{nodes_of};

use cards::OutOfMemory;
use certificate_graph::{Node, Tree};
use play_claims::{PlayClaim, PlayNodes};
use std::alloc::Global;

/// Copies a tree. Fails only if memory runs out.
fn copy_tree(alloc: Global, tree: &Tree) -> Result<Tree, OutOfMemory>
    ensures { IfOk result (λ copy. copy ≡ tree.now) }
{
    let row = Vec::from_slice(alloc, tree.tokens())?;
    match Tree::from_tokens(alloc, row)? {
        Some(copy) => Ok(copy),
        None => unreachable!(),
    }
}

/// Copies a node. Fails only if memory runs out.
fn copy_node(alloc: Global, node: &Node) -> Result<Node, OutOfMemory>
    ensures { IfOk result (λ copy. copy ≡ node.now) }
{
    let tree = copy_tree(alloc, &node.tree)?;
    Ok(Node {
        pattern: node.pattern,
        lead: node.lead,
        need: node.need,
        tree,
    })
}

/// Copies nodes. Fails only if memory runs out.
fn copy_each(alloc: Global, nodes: &[Node]) -> Result<Vec<Node>, OutOfMemory>
    ensures { IfOk result (λ copies. copies.items ≡ nodes.now) }
{
    let mut copies = Vec::new(alloc);
    for node in nodes {
        let copy = copy_node(alloc, node)?;
        copies.push(copy)?;
    }
    Ok(copies)
}

/// Copies the nodes of a side. Its graph is shared. Fails only if memory runs out.
pub(crate) fn copy_nodes(alloc: Global, nodes: &PlayNodes) -> Result<PlayNodes, OutOfMemory>
    ensures { IfOk result (λ copy. nodes_of copy ≡ nodes_of nodes.now) }
{
    let begun = copy_each(alloc, nodes.begun.as_slice())?;
    let graph = nodes.graph.clone()?;
    Ok(PlayNodes { graph, begun })
}
