//! The nodes that go on after a trick.

use cards::Seat;

/// A seat that may win a trick, and the node that goes on where it does.
#[derive(Clone, Copy, Debug, Default, PartialEq, Eq)]
pub struct Child {
    /// The seat that may win.
    pub winner: Seat,
    /// The number of the node: its place in the list of the graph, from 0.
    pub number: u32,
}
