//! Solvers for tests.

use arrayvec::ArrayVec;
use cards::{Layout, Seat, Side, Trump};
use certificate_graph::{Bundle, Claim, Graph, Solver};
use lease_book::Entry;
use std::alloc::{AllocError, Global};
use std::sync::Arc;
use test_support::graphs::{ACE_WINS, NOTHING};

/// A solver that never has memory.
#[derive(Drop)]
pub struct HasNoMemory;

impl Solver for HasNoMemory {
    fn solve(
        &self,
        _alloc: Global,
        _layout: &Layout,
        _declarers: &[Seat],
        _trump: Trump,
        _budget: u64,
    ) -> Result<Option<Bundle>, AllocError> {
        Err(AllocError)
    }
}

/// North declares no-trump on the first board: the first entry.
pub const NT: Entry = Entry {
    board: 0,
    declarer: Seat::North,
    trump: Trump::Nt,
};

/// The graph of a text.
fn graph_of(alloc: Global, text: &str) -> Result<Arc<Graph>, AllocError> {
    match Graph::read(alloc, text.as_bytes()) {
        Ok(graph) => Ok(Arc::new(alloc, graph)?),
        Err(_) => Err(AllocError),
    }
}

/// What shows the trick of North's ace, claimed for each of these declarers.
fn claims_of_the_ace(declarers: &[Seat]) -> ArrayVec<Claim, 4> {
    let mut claims = ArrayVec::new();
    for declarer in declarers {
        let _ = claims.try_push(Claim {
            declarer: *declarer,
            k: 1,
            declarer_root: Some(0),
            defenders_root: None,
        });
    }
    claims
}

/// A solver that gives the answer for North in no-trump on one card each, whatever it is asked: the first declarer's
/// side has North's graph.
#[derive(Drop)]
pub struct FindsTheAce;

impl Solver for FindsTheAce {
    fn solve(
        &self,
        alloc: Global,
        _layout: &Layout,
        declarers: &[Seat],
        _trump: Trump,
        _budget: u64,
    ) -> Result<Option<Bundle>, AllocError> {
        let Some(first) = declarers.first() else {
            return Ok(None);
        };
        let ace = graph_of(alloc, ACE_WINS)?;
        let nothing = graph_of(alloc, NOTHING)?;
        let (ns, ew) = match first.side() {
            Side::NorthSouth => (ace, nothing),
            Side::EastWest => (nothing, ace),
        };
        Ok(Some(Bundle {
            ns,
            ew,
            claims: claims_of_the_ace(declarers),
        }))
    }
}
