//! What shows that the claims of a message share its graphs.

use crate::gates::waits_for;
use arrayvec::ArrayVec;
use cards::{Layout, Seat, Side, Trump};
use certificate_graph::{Bundle, Claim, Graph, Solver, Version};
use lease_book::Gate;
use std::alloc::{AllocError, Global};
use std::sync::Arc;
use std::sync::atomic::Ordering::SeqCst;
use std::sync::atomic::{AtomicBool, AtomicU64};

/// A graph without nodes.
fn empty_graph(alloc: Global, side: Side) -> Result<Arc<Graph>, AllocError> {
    match Graph::new(Version::Two, Trump::Nt, side, Vec::new(alloc)) {
        Ok(graph) => Ok(Arc::new(alloc, graph)?),
        Err(_) => Err(AllocError),
    }
}

/// A solver that claims no trick for any declarer: in no-trump by two graphs of its own, else by new ones. As the
/// gate it counts who holds its graphs, once the claim under the first lease is about to be checked and the graphs
/// for the second one too: by then the claims in no-trump, among them the first, have all been put for the clerk.
#[derive(Drop)]
pub struct CountsHolders {
    ns: Arc<Graph>,
    ew: Arc<Graph>,
    /// Whether the graphs for the second lease are about to be checked.
    second: AtomicBool,
    /// How many held each graph.
    ns_holders: AtomicU64,
    ew_holders: AtomicU64,
}

impl CountsHolders {
    pub fn new(alloc: Global) -> Result<CountsHolders, AllocError> {
        Ok(CountsHolders {
            ns: empty_graph(alloc, Side::NorthSouth)?,
            ew: empty_graph(alloc, Side::EastWest)?,
            second: AtomicBool::new(false),
            ns_holders: AtomicU64::new(0),
            ew_holders: AtomicU64::new(0),
        })
    }

    /// How many held each graph, this solver among them; 0 where they were not counted in time.
    pub fn holders(&self) -> (u64, u64) {
        (self.ns_holders.load(SeqCst), self.ew_holders.load(SeqCst))
    }
}

impl Solver for CountsHolders {
    fn solve(
        &self,
        alloc: Global,
        _layout: &Layout,
        declarers: &[Seat],
        trump: Trump,
        _budget: u64,
    ) -> Result<Option<Bundle>, AllocError> {
        let mut claims = ArrayVec::new();
        for declarer in declarers {
            let _ = claims.try_push(Claim {
                declarer: *declarer,
                k: 0,
                declarer_root: None,
                defenders_root: None,
            });
        }
        let (ns, ew) = match trump {
            Trump::Nt => (self.ns.clone()?, self.ew.clone()?),
            Trump::Suit(_) => (
                empty_graph(alloc, Side::NorthSouth)?,
                empty_graph(alloc, Side::EastWest)?,
            ),
        };
        Ok(Some(Bundle { ns, ew, claims }))
    }
}

impl Gate for CountsHolders {
    fn before_solve(&self, _lease: u64) {}

    fn before_graphs(&self, lease: u64) {
        if lease == 2 {
            self.second.store(true, SeqCst);
        }
    }

    fn before_check(&self, lease: u64) {
        if lease == 1 && waits_for(&self.second) {
            self.ns_holders
                .store(Arc::strong_count(&self.ns) as u64, SeqCst);
            self.ew_holders
                .store(Arc::strong_count(&self.ew) as u64, SeqCst);
        }
    }
}
