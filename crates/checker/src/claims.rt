//! Claims of nodes of checked graphs.

use crate::checked_graphs::CheckedGraph;
use std::sync::Arc;

/// A checked graph, and its root: the node that is read as its first.
#[derive(Drop)]
pub struct Rooted {
    /// The graph. Others may share it.
    pub graph: Arc<CheckedGraph>,
    /// The number of the root, from 0. Without a root the graph is read as a graph of its trump and side that has no
    /// nodes.
    pub root: Option<u32>,
}

/// A claim that declarer's side takes `k` tricks, no more and no fewer, with the nodes that are to show it.
#[derive(Drop)]
pub struct Claimed {
    /// The tricks of declarer's side, 0 to the cards of a hand.
    pub k: u8,
    /// The root for declarer's side, which is to win `k` tricks.
    pub declarer: Rooted,
    /// The root for the defenders, who are to win the others.
    pub defenders: Rooted,
}
