//! Claims on checked graphs.

use certificate_graph::Graph;
use checker::{CheckedGraph, Claimed, Rooted};
use std::alloc::{AllocError, Global};
use std::sync::Arc;

/// The graph, checked, and read from its first node, if it has one.
fn from_first(alloc: Global, graph: Graph) -> Result<Rooted, AllocError> {
    let root = if graph.nodes().is_empty() {
        None
    } else {
        Some(0)
    };
    let graph = CheckedGraph::of(Arc::new(alloc, graph)?);
    Ok(Rooted {
        graph: Arc::new(alloc, graph)?,
        root,
    })
}

/// That declarer's side takes so many tricks by these two graphs, each read from its first node.
pub fn claimed_of(
    alloc: Global,
    k: u8,
    declarer: Graph,
    defenders: Graph,
) -> Result<Claimed, AllocError> {
    Ok(Claimed {
        k,
        declarer: from_first(alloc, declarer)?,
        defenders: from_first(alloc, defenders)?,
    })
}
