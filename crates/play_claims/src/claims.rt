//! Claims of the tricks that both sides take after cards of a play, and the nodes that are to show them.

use certificate_graph::{Graph, Node};
use std::sync::Arc;

/// How many tricks both sides take after some first cards of a play, and the nodes that are to show it. A node's number
/// counts the nodes of its side's graph, and after them the begun nodes. The cards of the trick in progress are the
/// path in the node's tree. A node needs the tricks that are not won yet, so it may serve for several claims.
#[derive(Clone, Copy, Debug, PartialEq, Eq)]
pub struct PlayClaim {
    /// The tricks that North and South take in all, 0 to 13.
    pub tricks: u8,
    /// Is to show that North and South win those of them that they have not won yet. None if there are none.
    pub ns: Option<u32>,
    /// Is to show that East and West win those of the others that they have not won yet. None if there are none.
    pub ew: Option<u32>,
}

/// The nodes of a side.
#[derive(Drop)]
pub struct PlayNodes {
    /// What the side can win from the start of a trick.
    pub graph: Arc<Graph>,
    /// What it can win in the middle of a trick. They stand beside the graph.
    pub begun: Vec<Node>,
}

/// Nodes for both sides, and claims that they are to show, all of one play.
#[derive(Drop)]
pub struct PlayBundle {
    /// What North and South can win.
    pub ns: PlayNodes,
    /// What East and West can win.
    pub ew: PlayNodes,
    /// By the number of first cards, from 0. None if nothing is claimed.
    pub claims: Vec<Option<PlayClaim>>,
}
