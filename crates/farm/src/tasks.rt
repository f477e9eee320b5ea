//! The values that pass from the desk to the lender, to a solver, to a checker, and to a clerk.

use arrayvec::ArrayVec;
use cards::{Seat, Trump};
use certificate_graph::Bundle;
use checker::Claimed;
use lease_book::Entry;

/// The most leases of a batch: the entries of one board.
pub(crate) const MOST_LEASES: usize = 20;

/// An entry that was leased.
#[derive(Clone, Copy)]
pub(crate) struct Task {
    pub(crate) lease: u64,
    pub(crate) entry: Entry,
}

impl Default for Task {
    /// Makes the value of an empty place of a list.
    fn default() -> Task {
        Task {
            lease: 0,
            entry: Entry {
                board: 0,
                declarer: Seat::North,
                trump: Trump::Nt,
            },
        }
    }
}

/// Entries that were leased, in the order of their leases.
pub(crate) type Tasks = ArrayVec<Task, MOST_LEASES>;

/// Entries of one board and denomination that were leased: one search serves them.
#[derive(Drop)]
pub(crate) struct Group {
    pub(crate) tasks: Tasks,
}

/// An answer of the solver for entries of one board and denomination. It has a claim for each.
#[derive(Drop)]
pub(crate) struct FoundBundle {
    pub(crate) tasks: Tasks,
    pub(crate) bundle: Bundle,
}

/// A claim for an entry that was leased, on graphs that were checked.
#[derive(Drop)]
pub(crate) struct CheckedClaim {
    pub(crate) task: Task,
    pub(crate) claimed: Claimed,
}
