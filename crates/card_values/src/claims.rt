//! The graphs that are to show what is claimed of cards.

ghost use Rattle.std.specs.Prelude.{◌≡◌};
ghost use Rattle.card_values.specs.Judging.{graph_in};

use cards::Side;
use checker::CheckedGraph;

/// The graphs of both sides, each checked once.
#[derive(Drop)]
pub struct CardGraphs<'a> {
    /// What North and South can win.
    pub ns: &'a CheckedGraph,
    /// What East and West can win.
    pub ew: &'a CheckedGraph,
}

/// Returns the graph of a side.
pub fn graph_in<'a>(graphs: &CardGraphs<'a>, side: Side) -> &'a CheckedGraph
    ensures { result.now ≡ graph_in graphs.now side }
{
    match side {
        Side::NorthSouth => graphs.ns,
        Side::EastWest => graphs.ew,
    }
}
