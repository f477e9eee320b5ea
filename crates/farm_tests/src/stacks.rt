//! A solver that needs a large stack.

use cards::{Layout, Seat, Trump};
use certificate_graph::{Bundle, Solver};
use partition_solver::Partition;
use std::alloc::{AllocError, Global};
use std::sync::atomic::AtomicU64;
use std::sync::atomic::Ordering::SeqCst;

/// A call for each card of a deal.
const CALLS: [u8; 52] = [1; 52];

/// How many bytes each call keeps on the stack: together 624 KiB.
const ROOM: usize = 12 * 1024;

/// What [`descend`] gives for all calls: the sum of the numbers from 1 to 52.
pub const DEPTH: u64 = 1378;

/// Calls itself once for each call that is left. Each call has room on the stack, which a deeper call writes to. Gives
/// the sum of what is written.
#[inline(never)]
fn descend(calls: &[u8], above: &mut [u8]) -> u64 {
    let Some((call, rest)) = calls.split_first() else {
        return 0;
    };
    let mut room = [0u8; ROOM];
    room[ROOM - 1] = *call;
    let deeper = descend(rest, room.as_mut_slice());
    let last = room[ROOM - 1];
    if let Some(byte) = above.last_mut() {
        *byte = last.wrapping_add(1);
    }
    deeper.wrapping_add(u64::from(last))
}

/// A partition search that needs 624 KiB of stack before each search.
#[derive(Drop)]
pub struct NeedsStack {
    search: Partition,
    /// The sum of all depths.
    depths: AtomicU64,
}

impl NeedsStack {
    pub fn new() -> NeedsStack {
        NeedsStack {
            search: Partition::new(),
            depths: AtomicU64::new(0),
        }
    }

    /// The sum of [`DEPTH`] for each search.
    pub fn depths(&self) -> u64 {
        self.depths.load(SeqCst)
    }
}

impl Solver for NeedsStack {
    fn solve(
        &self,
        alloc: Global,
        layout: &Layout,
        declarers: &[Seat],
        trump: Trump,
        budget: u64,
    ) -> Result<Option<Bundle>, AllocError> {
        let mut room = [0u8; 1];
        let depth = descend(CALLS.as_slice(), room.as_mut_slice());
        self.depths.fetch_add(depth, SeqCst);
        self.search.solve(alloc, layout, declarers, trump, budget)
    }
}
