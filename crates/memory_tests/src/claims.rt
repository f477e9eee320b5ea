//! Graphs that show the tricks of an entry, and a claim by them.

use certificate_graph::Graph;
use checker::Claimed;
use std::alloc::{AllocError, Global};
use test_support::claimed::claimed_of;
use test_support::graphs::{ACE_WINS, NOTHING};

/// The graphs of declarer's side and of the defenders for the trick of North's ace.
pub fn ace_graphs(alloc: Global) -> Result<(Graph, Graph), AllocError> {
    let declarer = Graph::read(alloc, ACE_WINS.as_bytes());
    match (declarer, Graph::read(alloc, NOTHING.as_bytes())) {
        (Ok(declarer), Ok(defenders)) => Ok((declarer, defenders)),
        _ => Err(AllocError),
    }
}

/// That North's side takes the trick, by these graphs.
pub fn ace_claim(alloc: Global) -> Result<Claimed, AllocError> {
    let (declarer, defenders) = ace_graphs(alloc)?;
    claimed_of(alloc, 1, declarer, defenders)
}
