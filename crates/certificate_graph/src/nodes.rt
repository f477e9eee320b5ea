//! The nodes of a graph.

use crate::trees::Tree;
use cards::Seat;
use patterns::Pattern;

/// A node claims that from every layout that matches the pattern, with this seat to lead, the side of the graph can
/// win so many tricks.
#[derive(Drop)]
pub struct Node {
    /// The layouts of which the node speaks.
    pub pattern: Pattern,
    /// The seat that leads.
    pub lead: Seat,
    /// How many tricks the side can win, 1 to 13.
    pub need: u8,
    /// How the first of these tricks is played.
    pub tree: Tree,
}
