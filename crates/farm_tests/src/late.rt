//! What shows that verdicts count which come after the lender has ended.

use arrayvec::ArrayVec;
use cards::{Layout, Seat, Trump};
use certificate_graph::{Bundle, Claim, Solver};
use lease_book::{Clock, Gate};
use partition_solver::Partition;
use std::alloc::{AllocError, Global};
use std::sync::atomic::AtomicU64;
use std::sync::atomic::Ordering::SeqCst;

/// How often a gate looks before it gives up.
const TURNS: u64 = 1_000_000_000;

/// How often the lender asks the clock until it ends, for a board whose batch divides twenty: for each entry, for none,
/// and for an expiry.
const ASKED: u64 = 22;

/// A clock that counts how often it was asked, and a gate at which no graph is checked before the lender has asked for
/// the last time.
#[derive(Drop)]
pub struct AfterTheLender {
    asked: AtomicU64,
    /// How often it has waited in vain.
    failed: AtomicU64,
}

impl AfterTheLender {
    pub fn new() -> AfterTheLender {
        AfterTheLender {
            asked: AtomicU64::new(0),
            failed: AtomicU64::new(0),
        }
    }

    /// Whether the lender had asked for the last time each time.
    pub fn has_waited(&self) -> bool {
        self.asked.load(SeqCst) >= ASKED && self.failed.load(SeqCst) == 0
    }
}

impl Clock for AfterTheLender {
    fn now(&self) -> u64 {
        self.asked.fetch_add(1, SeqCst);
        0
    }
}

impl Gate for AfterTheLender {
    fn before_solve(&self, _lease: u64) {}

    fn before_graphs(&self, _lease: u64) {
        for _ in 0..TURNS {
            if self.asked.load(SeqCst) >= ASKED {
                return;
            }
        }
        self.failed.fetch_add(1, SeqCst);
    }

    fn before_check(&self, _lease: u64) {}
}

/// A partition search that claims a trick too much when it is asked for a denomination for the first time.
#[derive(Drop)]
pub struct LiesOnce<'a> {
    search: &'a Partition,
    /// The sum of two to the power of each denomination's number that was asked for.
    asked: AtomicU64,
}

impl<'a> LiesOnce<'a> {
    pub fn new(search: &'a Partition) -> LiesOnce<'a> {
        LiesOnce {
            search,
            asked: AtomicU64::new(0),
        }
    }

    /// Whether the denomination was asked for before.
    fn knows(&self, trump: Trump) -> bool {
        let number = match trump {
            Trump::Nt => 4,
            Trump::Suit(suit) => suit.number(),
        };
        let bit = 1 << (number % 64);
        self.asked.fetch_or(bit, SeqCst) & bit != 0
    }
}

impl Solver for LiesOnce<'_> {
    fn solve(
        &self,
        alloc: Global,
        layout: &Layout,
        declarers: &[Seat],
        trump: Trump,
        budget: u64,
    ) -> Result<Option<Bundle>, AllocError> {
        let knows = self.knows(trump);
        let found = self.search.solve(alloc, layout, declarers, trump, budget)?;
        let Some(Bundle { ns, ew, claims }) = found else {
            return Ok(None);
        };
        let mut told = ArrayVec::new();
        for claim in claims.iter() {
            let k = claim.k.wrapping_add(u8::from(!knows));
            let _ = told.try_push(Claim { k, ..*claim });
        }
        Ok(Some(Bundle {
            ns,
            ew,
            claims: told,
        }))
    }
}
