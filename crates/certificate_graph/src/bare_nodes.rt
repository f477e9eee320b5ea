//! Nodes that are put together block by block, so that the trees of a block share their memory.

ghost use Rattle.std.specs.Prelude.{◌≡◌, ◌↔◌, ◌≤◌, List, [], IsTrue, IfOk, OnOk, take, drop, length};
ghost use Rattle.certificate_graph.specs.BareNodes.{IsWithRow, SomeAreOf, Gets, Holds, MayGet};
ghost use Rattle.certificate_graph.specs.Rows.{IsTreeRow};
ghost use Rattle.certificate_graph.specs.declared.nodes.Node.{Node};

use crate::nodes::Node;
use crate::rows::{Token, is_tree_row};
use crate::trees::Tree;
use cards::{OutOfMemory, Seat};
use patterns::Pattern;
use std::alloc::{AllocError, Global};
use std::sync::Arc;

/// A node without its tree, which stands in a row of tokens behind those of the nodes before it.
#[derive(Clone, Copy)]
pub struct BareNode {
    /// The layouts of which the node speaks.
    pub pattern: Pattern,
    /// The seat that leads.
    pub lead: Seat,
    /// How many tricks the side can win.
    pub need: u8,
    /// How many tokens its tree has.
    pub count: usize,
}

impl BareNode {
    /// A block of nodes is worth its memory once its trees have so many tokens.
    pub const BLOCK: usize = 512;

    /// The node with this tree, whose row is given.
    pub(crate) fn with_tree(self, alloc: Global, row: Vec<Token>) -> Result<Node, AllocError>
        requires { IsTreeRow row.items }
        ensures { IfOk result (IsWithRow self row.items) }
    {
        let tree = Tree::of_row(alloc, row)?;
        Ok(Node {
            pattern: self.pattern,
            lead: self.lead,
            need: self.need,
            tree,
        })
    }
}

/// Whether the row is that of trees with these numbers of tokens.
#[cycle(rows)]
fn are_rows(bares: &[BareNode], row: &[Token]) -> bool
    ensures { IsTrue result ↔ SomeAreOf bares.now row.now }
{
    let Some((first, others)) = bares.split_first() else {
        return row.is_empty();
    };
    let Some((tree, rest)) = row.split_at_checked(first.count) else {
        return false;
    };
    is_tree_row(tree) && are_rows(others, rest)
}

/// Puts nodes at the end of a list. Their trees are those that begin at this place of the rows, and share them.
#[cycle(push)]
fn push_from(
    bares: &[BareNode],
    rows: &Arc<Vec<Token>>,
    begin: usize,
    nodes: &mut Vec<Node>,
) -> Result<(), AllocError>
    requires within { begin ≤ length rows.now.value.items }
    requires some { SomeAreOf bares.now (drop begin rows.now.value.items) }
    ensures gets { OnOk result (Gets bares.now (drop begin rows.now.value.items) nodes.old.items nodes.new.items) }
    ensures kept { take (length nodes.old.items) nodes.new.items ≡ nodes.old.items }
{
    let Some((first, others)) = bares.split_first() else {
        return Ok(());
    };
    // the tree ends within the rows, so its end is a number too
    let _len = rows.len();
    let end = begin + first.count;
    nodes.push(Node {
        pattern: first.pattern,
        lead: first.lead,
        need: first.need,
        tree: Tree::of_rows(rows, begin, end)?,
    })?;
    push_from(others, rows, end, nodes)
}

/// Puts the nodes that these are without their trees at the end of a list. Their trees share a copy of the row.
pub(crate) fn push_nodes(
    alloc: Global,
    bares: &[BareNode],
    row: &[Token],
    nodes: &mut Vec<Node>,
) -> Result<(), AllocError>
    requires { SomeAreOf bares.now row.now }
    ensures gets { OnOk result (Gets bares.now row.now nodes.old.items nodes.new.items) }
    ensures kept { take (length nodes.old.items) nodes.new.items ≡ nodes.old.items }
{
    let rows = Arc::new(alloc, Vec::from_slice(alloc, row)?)?;
    push_from(bares, &rows, 0, nodes)
}

/// Gives all nodes in work their trees.
pub(crate) fn end_block(
    alloc: Global,
    bares: &mut Vec<BareNode>,
    row: &mut Vec<Token>,
    nodes: &mut Vec<Node>,
) -> Result<(), AllocError>
    requires { SomeAreOf bares.old.items row.old.items }
    ensures { OnOk result ((bares.new.items ≡ []) × (row.new.items ≡ [])
        × ((all : List Node) → Holds nodes.old.items bares.old.items row.old.items all → nodes.new.items ≡ all)) }
{
    push_nodes(alloc, bares.as_slice(), row.as_slice(), nodes)?;
    bares.clear();
    row.clear();
    Ok(())
}

/// Gives all nodes in work their trees once these have many tokens.
pub(crate) fn end_full_block(
    alloc: Global,
    bares: &mut Vec<BareNode>,
    row: &mut Vec<Token>,
    nodes: &mut Vec<Node>,
) -> Result<(), AllocError>
    requires { SomeAreOf bares.old.items row.old.items }
    ensures { OnOk result ((all : List Node) → Holds nodes.old.items bares.old.items row.old.items all
        → Holds nodes.new.items bares.new.items row.new.items all) }
{
    if row.len() < BareNode::BLOCK {
        return Ok(());
    }
    end_block(alloc, bares, row, nodes)
}

impl Node {
    /// Puts the nodes that these are without their trees at the end of a list, where the row is that of such trees.
    /// Else it puts none, and answers false. The trees share their memory. Calls lie as deep in one another as there
    /// are nodes. Fails only where memory runs out: then the list may have got some of them.
    pub fn push_all(
        alloc: Global,
        bares: &[BareNode],
        row: &[Token],
        nodes: &mut Vec<Node>,
    ) -> Result<bool, OutOfMemory>
        ensures gets { IfOk result (MayGet bares.now row.now nodes.old.items nodes.new.items) }
        ensures kept { take (length nodes.old.items) nodes.new.items ≡ nodes.old.items }
    {
        if !are_rows(bares, row) {
            return Ok(false);
        }
        push_nodes(alloc, bares, row, nodes)?;
        Ok(true)
    }
}
