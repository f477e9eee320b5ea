//! The answer for a declarer, from what the declarers of a denomination share.

ghost use Rattle.std.specs.Prelude.{◌≡◌, ◌↔◌, IsTrue, IfOk};
ghost use Rattle.certificate_graph.specs.Extracts.{IsRootIn};
ghost use Rattle.certificate_graph.specs.Bundles.{HasRoots, IsAnswerFor, claim_for, graph_of};

use crate::answers::Answer;
use crate::bundles::{Bundle, Claim};
use crate::graphs::Graph;
use cards::{Seat, Side};
use std::alloc::{AllocError, Global};

/// Whether the root is a node of the graph, if there is one.
fn is_root_in(graph: &Graph, root: Option<u32>) -> bool
    ensures { IsTrue result ↔ IsRootIn graph.now.nodes root }
{
    match root {
        Some(number) => (number as usize) < graph.nodes().len(),
        None => true,
    }
}

impl Bundle {
    /// The first claim for a declarer.
    pub fn claim_for(&self, declarer: Seat) -> Option<Claim>
        ensures { result ≡ claim_for self.now.claims.items declarer }
    {
        self.claims
            .iter()
            .find(|claim| claim.declarer.number() == declarer.number())
            .copied()
    }

    /// The graph of a side.
    fn graph_of(&self, side: Side) -> &Graph
        ensures { result.now ≡ graph_of self.now side }
    {
        match side {
            Side::NorthSouth => &self.ns,
            Side::EastWest => &self.ew,
        }
    }

    /// Whether the roots of a claim are nodes of the graphs.
    fn has_roots(&self, claim: &Claim) -> bool
        ensures { IsTrue result ↔ HasRoots self.now claim.now }
    {
        let side = claim.declarer.side();
        is_root_in(self.graph_of(side), claim.declarer_root)
            && is_root_in(self.graph_of(side.other()), claim.defenders_root)
    }

    /// The answer of the first claim for a declarer, with graphs of its own that begin with the roots. There is none
    /// where no claim is for that one, or where a root is no node. Fails only where memory runs out.
    pub fn answer_for(&self, alloc: Global, declarer: Seat) -> Result<Option<Answer>, AllocError>
        ensures { IfOk result (IsAnswerFor self.now declarer) }
    {
        let Some(claim) = self.claim_for(declarer) else {
            return Ok(None);
        };
        if !self.has_roots(&claim) {
            return Ok(None);
        }
        let side = claim.declarer.side();
        Ok(Some(Answer {
            k: claim.k,
            declarer: self
                .graph_of(side)
                .extract(alloc, claim.declarer_root)
                .map_err(|_| AllocError)?,
            defenders: self
                .graph_of(side.other())
                .extract(alloc, claim.defenders_root)
                .map_err(|_| AllocError)?,
        }))
    }
}
