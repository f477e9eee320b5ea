//! Solvers whose answers are right but for what is done to them.

use arrayvec::ArrayVec;
use cards::{Layout, Seat, Suit, Trump};
use certificate_graph::{Bundle, Claim, Solver};
use partition_solver::Partition;
use std::alloc::{AllocError, Global};

/// What is done to the graphs of an answer.
#[derive(Clone, Copy)]
pub enum Graphs {
    /// Nothing.
    Right,
    /// Each stands in the place of the other.
    Swapped,
    /// They are those of another denomination.
    OfAnotherTrump,
}

/// What is done to a claim.
#[derive(Clone, Copy)]
pub enum Change {
    /// Nothing.
    Same,
    /// Its roots are no nodes.
    PastTheEnd,
    /// It claims one trick more.
    OneMore,
    /// It claims more tricks than there are.
    TooMany,
    /// It is for the next seat.
    ForTheNext,
}

/// A partition search with something done to what it answers: its claims stand there once for each change, while there
/// is room.
#[derive(Drop)]
pub struct Flawed<'a> {
    pub search: &'a Partition,
    pub graphs: Graphs,
    pub changes: &'static [Change],
}

/// A number that no node has.
fn past_the_end(root: Option<u32>) -> Option<u32> {
    match root {
        Some(_) => Some(u32::MAX),
        None => None,
    }
}

/// The claim after a change.
fn changed(claim: Claim, change: Change) -> Claim {
    match change {
        Change::Same => claim,
        Change::PastTheEnd => Claim {
            declarer_root: past_the_end(claim.declarer_root),
            defenders_root: past_the_end(claim.defenders_root),
            ..claim
        },
        Change::OneMore => Claim {
            k: claim.k.wrapping_add(1),
            ..claim
        },
        Change::TooMany => Claim { k: 255, ..claim },
        Change::ForTheNext => Claim {
            declarer: claim.declarer.next(),
            ..claim
        },
    }
}

/// The claims after one change after another.
fn claims_after(claims: &[Claim], changes: &[Change]) -> ArrayVec<Claim, 4> {
    let mut list = ArrayVec::new();
    for change in changes {
        for claim in claims {
            let _ = list.try_push(changed(*claim, *change));
        }
    }
    list
}

/// Another denomination.
fn other_trump(trump: Trump) -> Trump {
    match trump {
        Trump::Nt => Trump::Suit(Suit::Spades),
        Trump::Suit(_) => Trump::Nt,
    }
}

impl Solver for Flawed<'_> {
    fn solve(
        &self,
        alloc: Global,
        layout: &Layout,
        declarers: &[Seat],
        trump: Trump,
        budget: u64,
    ) -> Result<Option<Bundle>, AllocError> {
        let trump = match self.graphs {
            Graphs::OfAnotherTrump => other_trump(trump),
            Graphs::Right | Graphs::Swapped => trump,
        };
        let found = self.search.solve(alloc, layout, declarers, trump, budget)?;
        let Some(Bundle { ns, ew, claims }) = found else {
            return Ok(None);
        };
        let claims = claims_after(claims.as_slice(), self.changes);
        Ok(Some(match self.graphs {
            Graphs::Swapped => Bundle {
                ns: ew,
                ew: ns,
                claims,
            },
            Graphs::Right | Graphs::OfAnotherTrump => Bundle { ns, ew, claims },
        }))
    }
}

/// A partition search that has no memory for no-trump, finds nothing for spades, and for hearts finds the tricks of
/// North and of East alone.
#[derive(Drop)]
pub struct FindsSome<'a> {
    pub search: &'a Partition,
}

impl Solver for FindsSome<'_> {
    fn solve(
        &self,
        alloc: Global,
        layout: &Layout,
        declarers: &[Seat],
        trump: Trump,
        budget: u64,
    ) -> Result<Option<Bundle>, AllocError> {
        let two = [Seat::North, Seat::East];
        let declarers = match trump {
            Trump::Nt => return Err(AllocError),
            Trump::Suit(Suit::Spades) => return Ok(None),
            Trump::Suit(Suit::Hearts) => two.as_slice(),
            Trump::Suit(_) => declarers,
        };
        self.search.solve(alloc, layout, declarers, trump, budget)
    }
}
