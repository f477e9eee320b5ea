//! The graphs of a bundle, each checked once.

ghost use Rattle.std.specs.Prelude.{◌≡◌, IfOk};
ghost use Rattle.checker.specs.Pairs.{graph_in, IsPairOf, IsClaimedOf};

use crate::checked_graphs::CheckedGraph;
use crate::claims::{Claimed, Rooted};
use cards::Side;
use certificate_graph::{Bundle, Claim, Graph};
use std::alloc::{AllocError, Global};
use std::sync::Arc;
use std::thread::Threads;

/// The graphs of a bundle, each checked once.
#[derive(Drop)]
pub struct CheckedPair {
    /// What North and South can win.
    pub ns: Arc<CheckedGraph>,
    /// What East and West can win.
    pub ew: Arc<CheckedGraph>,
}

/// Checks a graph, once: a large one with as many threads as there are processors.
fn checked<R: Threads + Sync>(
    rt: &R,
    alloc: Global,
    graph: &Arc<Graph>,
) -> Result<Arc<CheckedGraph>, AllocError>
    ensures { IfOk result (λ checked. checked.value ≡ graph.now.value) }
{
    let graph = graph.clone()?;
    Ok(Arc::new(alloc, CheckedGraph::of_wide(graph, rt))?)
}

impl CheckedPair {
    /// Checks both graphs, a large one with as many threads as there are processors. Fails only where memory runs out.
    pub fn of<R: Threads + Sync>(
        rt: &R,
        alloc: Global,
        bundle: &Bundle,
    ) -> Result<CheckedPair, AllocError>
        ensures { IfOk result (IsPairOf bundle.now) }
    {
        Ok(CheckedPair {
            ns: checked(rt, alloc, &bundle.ns)?,
            ew: checked(rt, alloc, &bundle.ew)?,
        })
    }

    /// The graph of a side.
    fn of_side(&self, side: Side) -> Result<Arc<CheckedGraph>, AllocError>
        ensures { IfOk result (λ graph. graph.value ≡ graph_in self.now side) }
    {
        match side {
            Side::NorthSouth => self.ns.clone(),
            Side::EastWest => self.ew.clone(),
        }
    }

    /// What a claim says of these graphs. Fails only where memory runs out.
    pub fn claimed(&self, claim: Claim) -> Result<Claimed, AllocError>
        ensures { IfOk result (IsClaimedOf self.now claim) }
    {
        let side = claim.declarer.side();
        let declarer = self.of_side(side)?;
        let defenders = self.of_side(side.other())?;
        Ok(Claimed {
            k: claim.k,
            declarer: Rooted {
                graph: declarer,
                root: claim.declarer_root,
            },
            defenders: Rooted {
                graph: defenders,
                root: claim.defenders_root,
            },
        })
    }
}
