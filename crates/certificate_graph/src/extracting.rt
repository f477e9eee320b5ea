//! The nodes of a graph that begins with another node.

ghost use Rattle.std.specs.Prelude.{◌≡◌, ◌<◌, IfOk, length};
ghost use Rattle.certificate_graph.specs.Extracts.{AreExchanged, exchanged, rename_tree, rename_node};
ghost use Rattle.certificate_graph.specs.Graphs.{AreNodes};
ghost use Rattle.certificate_graph.specs.RowNames.{rename_token};

use crate::graphs::Graph;
use crate::nodes::Node;
use crate::rows::Token;
use crate::trees::Tree;
use std::alloc::{AllocError, Global};

/// The number of a node where this one and the first are exchanged.
fn exchanged(root: u32, number: u32) -> u32
    ensures { result ≡ exchanged root number }
{
    if number == 0 {
        root
    } else if number == root {
        0
    } else {
        number
    }
}

/// The token, which names a node by its new number.
fn rename_token(token: Token, root: u32) -> Token
    ensures { result ≡ rename_token (exchanged root) token }
{
    match token {
        Token::Child(winner, number) => Token::Child(winner, exchanged(root, number)),
        token => token,
    }
}

/// A copy of a tree, whose leaves name the nodes by their new numbers.
fn rename_tree(alloc: Global, tree: &Tree, root: u32) -> Result<Tree, AllocError>
    ensures { IfOk result (λ renamed. renamed ≡ rename_tree (exchanged root) tree.now) }
{
    let row = tree.tokens();
    let mut renamed = Vec::with_capacity(alloc, row.len())?;
    for token in row {
        renamed.push(rename_token(*token, root))?;
    }
    let tree = Tree::of_row(alloc, renamed)?;
    Ok(tree)
}

/// A copy of a node, whose leaves name the nodes by their new numbers.
fn rename_node(alloc: Global, node: &Node, root: u32) -> Result<Node, AllocError>
    ensures { IfOk result (λ renamed. renamed ≡ rename_node (exchanged root) node.now) }
{
    let tree = rename_tree(alloc, &node.tree, root)?;
    Ok(Node {
        pattern: node.pattern,
        lead: node.lead,
        need: node.need,
        tree,
    })
}

/// The nodes with this one and the first exchanged.
pub(crate) fn exchange_nodes(
    alloc: Global,
    graph: &Graph,
    root: u32,
) -> Result<Vec<Node>, AllocError>
    requires { root < length graph.now.nodes }
    ensures exchanged { IfOk result (λ nodes. AreExchanged root graph.now.nodes nodes.items) }
    ensures nodes { IfOk result (λ nodes. AreNodes nodes.items) }
{
    graph.invariant();
    let nodes = graph.nodes();
    let mut other = Vec::with_capacity(alloc, nodes.len())?;
    for number in 0..nodes.len() {
        let from = exchanged(root, number as u32);
        other.push(rename_node(alloc, &nodes[from as usize], root)?)?;
    }
    Ok(other)
}
