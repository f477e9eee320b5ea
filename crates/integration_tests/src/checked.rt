//! Checked graphs that claims share.

use crate::expect::got;
use certificate_graph::Graph;
use checker::{CheckedGraph, Rooted};
use std::alloc::Global;
use std::process::Abort;
use std::sync::Arc;

/// The graph, checked.
pub fn checked(rt: &impl Abort, alloc: Global, graph: Arc<Graph>) -> Arc<CheckedGraph> {
    got(rt, Arc::new(alloc, CheckedGraph::of(graph)))
}

/// A root of a checked graph.
pub fn rooted(rt: &impl Abort, graph: &Arc<CheckedGraph>, root: Option<u32>) -> Rooted {
    let graph = got(rt, Arc::try_clone(graph));
    Rooted { graph, root }
}
