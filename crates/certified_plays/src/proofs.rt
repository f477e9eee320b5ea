//! The nodes that are to show what is claimed of a play.

ghost use Rattle.std.specs.Prelude.{◌≡◌, ◌≤◌, MatchResult, length};
ghost use Rattle.std.specs.Option.{option_copied};
ghost use Rattle.card_values.specs.AfterClaims.{ShowsAfter, IsAfterFault};
ghost use Rattle.card_values.specs.BegunClaims.{claim_of};
ghost use Rattle.certified_plays.specs.Proofs.{begun_of, graph_of, node_named};

use card_values::{AfterFault, BegunClaim, check_after};
use cards::Side;
use certificate_graph::Node;
use checker::CheckedGraph;

/// The graphs of both sides, each checked once, and the begun nodes beside them.
#[derive(Drop)]
pub struct PlayProofs<'a> {
    /// What North and South can win from the start of a trick.
    pub ns_graph: &'a CheckedGraph,
    /// What East and West can win from the start of a trick.
    pub ew_graph: &'a CheckedGraph,
    /// What North and South can win in the middle of a trick.
    pub ns_begun: &'a [Node],
    /// What East and West can win in the middle of a trick.
    pub ew_begun: &'a [Node],
}

impl<'a> PlayProofs<'a> {
    /// Returns the graph of a side.
    fn graph(&self, side: Side) -> &'a CheckedGraph
        ensures { result.now ≡ graph_of self.now side }
    {
        match side {
            Side::NorthSouth => self.ns_graph,
            Side::EastWest => self.ew_graph,
        }
    }

    /// Returns the begun nodes of a side.
    fn begun(&self, side: Side) -> &'a [Node]
        ensures { result.now ≡ begun_of self.now side }
    {
        match side {
            Side::NorthSouth => self.ns_begun,
            Side::EastWest => self.ew_begun,
        }
    }

    /// Returns the node of a side with this number, if there is one.
    fn node(&self, side: Side, number: Option<u32>) -> Option<&'a Node>
        ensures { option_copied result ≡ node_named self.now side number }
    {
        let number = number? as usize;
        let nodes = self.graph(side).graph().nodes();
        if number < nodes.len() {
            nodes.get(number)
        } else {
            self.begun(side).get(number - nodes.len())
        }
    }

    /// Checks that the node with this number shows the claim beside the graph of its side, otherwise returns a fault.
    pub(crate) fn check(
        &self,
        claim: &BegunClaim<'_>,
        number: Option<u32>,
    ) -> Result<(), AfterFault>
        requires { length claim.now.cards.now ≤ 4 }
        ensures { MatchResult result
            (λ _. ShowsAfter (graph_of self.now claim.now.side) (claim_of claim.now)
            (node_named self.now claim.now.side number))
            (IsAfterFault (graph_of self.now claim.now.side) (claim_of claim.now)
            (node_named self.now claim.now.side number)) }
    {
        check_after(claim, self.graph(claim.side), self.node(claim.side, number))
    }
}
