//! What a solver answers.

use crate::graphs::Graph;

/// How many tricks declarer's side takes, with a graph for each side that is to show it: that of declarer's side, that
/// it takes as many, and that of the defenders, that it takes no more.
#[derive(Drop)]
pub struct Answer {
    /// The tricks that declarer's side takes, 0 to 13.
    pub k: u8,
    /// That declarer's side takes as many.
    pub declarer: Graph,
    /// That the defenders take all others.
    pub defenders: Graph,
}
