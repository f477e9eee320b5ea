//! What a solver answers: graphs that the entries of a denomination share, and a claim for each declarer.

use crate::graphs::Graph;
use arrayvec::ArrayVec;
use cards::Seat;
use std::sync::Arc;

/// How many tricks declarer's side takes, and the nodes that are to show it.
#[derive(Clone, Copy, Debug, Default, PartialEq)]
pub struct Claim {
    pub declarer: Seat,
    /// The tricks that declarer's side takes, 0 to 13.
    pub k: u8,
    /// The number of the node of the graph of declarer's side that shows that it takes as many; none where it takes
    /// none.
    pub declarer_root: Option<u32>,
    /// The number of the node of the defenders' graph that shows that they take all others; none where there are none.
    pub defenders_root: Option<u32>,
}

/// A graph for each side, and the claims that they are to show, all of one layout and denomination.
#[derive(Drop)]
pub struct Bundle {
    /// What North and South can win.
    pub ns: Arc<Graph>,
    /// What East and West can win.
    pub ew: Arc<Graph>,
    pub claims: ArrayVec<Claim, 4>,
}
