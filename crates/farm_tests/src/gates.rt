//! Gates at which threads wait for one another.

use lease_book::Gate;
use std::sync::atomic::Ordering::SeqCst;
use std::sync::atomic::{AtomicBool, AtomicU64};

/// How often a gate looks before it gives up.
const TURNS: u64 = 1_000_000_000;

/// Waits until it is set, and says whether it was.
pub fn waits_for(flag: &AtomicBool) -> bool {
    for _ in 0..TURNS {
        if flag.load(SeqCst) {
            return true;
        }
    }
    false
}

/// Who works on the first two leases at once.
#[derive(Clone, Copy)]
pub enum Pair {
    /// Two solvers: the second lease is worked on only after the work on the first has begun, and that only once the
    /// answer for the second is about to be checked.
    Solvers,
    /// Two checkers: the graphs for the first and for the second lease are checked only once both are about to be.
    Checkers,
    /// Two clerks: the claims under the first and the second lease are checked only once both are about to be.
    Clerks,
}

/// A gate at which the work on each of the first two leases waits for the work on the other. All other leases go on at
/// once.
#[derive(Drop)]
pub struct Meeting {
    pair: Pair,
    first: AtomicBool,
    second: AtomicBool,
    /// Whether one has waited in vain.
    failed: AtomicBool,
}

impl Meeting {
    pub fn new(pair: Pair) -> Meeting {
        Meeting {
            pair,
            first: AtomicBool::new(false),
            second: AtomicBool::new(false),
            failed: AtomicBool::new(false),
        }
    }

    /// Waits for the other.
    fn wait_for(&self, other: &AtomicBool) {
        if !waits_for(other) {
            self.failed.store(true, SeqCst);
        }
    }

    /// The lease has come so far, and waits for the other one to come as far.
    fn meet(&self, lease: u64) {
        match lease {
            1 => {
                self.first.store(true, SeqCst);
                self.wait_for(&self.second);
            }
            2 => {
                self.second.store(true, SeqCst);
                self.wait_for(&self.first);
            }
            _ => {}
        }
    }

    /// Whether both were worked on at once, and in time.
    pub fn have_met(&self) -> bool {
        self.first.load(SeqCst) && self.second.load(SeqCst) && !self.failed.load(SeqCst)
    }
}

impl Gate for Meeting {
    fn before_solve(&self, lease: u64) {
        match (self.pair, lease) {
            (Pair::Solvers, 1) => {
                self.first.store(true, SeqCst);
                self.wait_for(&self.second);
            }
            (Pair::Solvers, 2) => self.wait_for(&self.first),
            _ => {}
        }
    }

    fn before_graphs(&self, lease: u64) {
        if let Pair::Checkers = self.pair {
            self.meet(lease);
        }
    }

    fn before_check(&self, lease: u64) {
        match (self.pair, lease) {
            (Pair::Solvers, 2) => self.second.store(true, SeqCst),
            (Pair::Clerks, _) => self.meet(lease),
            _ => {}
        }
    }
}

/// The first lease is worked on only once the work on 39 others has begun.
#[derive(Drop)]
pub struct HoldsTheFirst {
    others: AtomicU64,
    all: AtomicBool,
}

impl HoldsTheFirst {
    pub fn new() -> HoldsTheFirst {
        HoldsTheFirst {
            others: AtomicU64::new(0),
            all: AtomicBool::new(false),
        }
    }
}

impl Gate for HoldsTheFirst {
    fn before_solve(&self, lease: u64) {
        if lease == 1 {
            waits_for(&self.all);
        } else if self.others.fetch_add(1, SeqCst) == 38 {
            self.all.store(true, SeqCst);
        }
    }

    fn before_check(&self, _lease: u64) {}
}
