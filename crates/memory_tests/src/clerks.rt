//! A clerk that is refused memory when more claims are still to come than there is room for on their way to it.

use crate::outcomes::{Outcome, Told};
use crate::spending::Spending;
use cards::{Layout, Seat, Side, Trump};
use certificate_graph::{Bundle, Claim, Graph, Solver, Version};
use farm::{FarmFault, Means, Settings, run_farm};
use lease_book::{Asked, Book, Entry, Gate, Reply};
use pbn_deals::{Board, BoardName, read_layout};
use settings_support::one_of_each;
use std::alloc::{AllocError, Global};
use std::sync::atomic::Ordering::SeqCst;
use std::sync::atomic::{AtomicBool, AtomicU64};
use std::sync::{Arc, Wait};
use std::thread;
use std::thread::Threads;
use std::time::{Clock, Duration};
use test_support::idle::StandsStill;

/// Four deals of one card each.
const DEALS: [&[u8]; 4] = [
    b"N:A... K... Q... J...",
    b"N:J... A... K... Q...",
    b"N:Q... J... A... K...",
    b"N:K... Q... J... A...",
];

/// How many claims are made: one for each of their entries, but for those in no-trump on the first deal, where there
/// is one for North alone. There are 64 places for claims that were not taken.
const CLAIMS: usize = 77;

/// The first lease on the fourth deal.
const LATE_LEASE: u64 = 61;

/// The last lease.
const LAST_LEASE: u64 = 80;

/// How often a thread looks before it gives up.
const TURNS: u64 = 100_000_000;

/// How long the thread that started the others, of which no gate is told, is given to wait for them, in milliseconds.
const REST: u64 = 100;

/// A graph without nodes.
fn empty_graph(alloc: Global, side: Side) -> Result<Arc<Graph>, AllocError> {
    match Graph::new(Version::Two, Trump::Nt, side, Vec::new(alloc)) {
        Ok(graph) => Ok(Arc::new(alloc, graph)?),
        Err(_) => Err(AllocError),
    }
}

/// A solver that claims no trick for any declarer, and as the gate has one thread wait for another: the clerk's first
/// call at the desk comes when the solver has leased all, and while the checker, which has put 57 claims, looks on;
/// so no other thread takes memory then. The checker goes on once the clerk has let go of its first claim, whatever
/// became of that.
#[derive(Drop)]
struct Crowd<'a, R> {
    rt: &'a R,
    alloc: Global,
    spending: Spending,
    /// The graph of the first claim, which no other has.
    first: Arc<Graph>,
    ns: Arc<Graph>,
    ew: Arc<Graph>,
    /// Whether all is leased, and whether the graphs for the fourth deal are about to be checked.
    all_are_leased: AtomicBool,
    checks_late: AtomicBool,
    /// Whether an allocation was refused before the clerk's first call.
    was_refused: AtomicBool,
    /// Whether the first claim was handed in, and how many allocations after that went well.
    was_handed_in: AtomicBool,
    left: AtomicU64,
}

impl<'a, R: Clock> Crowd<'a, R> {
    fn new(rt: &'a R, alloc: Global, spending: Spending) -> Result<Crowd<'a, R>, AllocError> {
        Ok(Crowd {
            rt,
            alloc,
            spending,
            first: empty_graph(alloc, Side::NorthSouth)?,
            ns: empty_graph(alloc, Side::NorthSouth)?,
            ew: empty_graph(alloc, Side::EastWest)?,
            all_are_leased: AtomicBool::new(false),
            checks_late: AtomicBool::new(false),
            was_refused: AtomicBool::new(false),
            was_handed_in: AtomicBool::new(false),
            left: AtomicU64::new(0),
        })
    }

    /// Whether the other threads have come as far as they come before the clerk's first call.
    fn is_ready(&self) -> bool {
        self.all_are_leased.load(SeqCst) && self.checks_late.load(SeqCst)
    }

    /// Waits for the other threads, and makes the allocations that stand before the clerk's first call.
    fn wait_and_spend(&self) {
        for _turn in 0..TURNS {
            if self.is_ready() {
                break;
            }
            thread::yield_now();
        }
        let _ = thread::sleep(self.rt, Duration::from_millis(REST));
        if self.spending.spend(self.alloc).is_err() {
            self.was_refused.store(true, SeqCst);
        }
    }

    /// Waits until the first claim is gone.
    fn wait_for_first(&self) {
        for _turn in 0..TURNS {
            if Arc::strong_count(&self.first) == 1 {
                return;
            }
            thread::yield_now();
        }
    }

    /// How many allocations went well after the first claim was handed in, if one was refused then.
    fn left(&self) -> Option<u64> {
        if self.was_handed_in.load(SeqCst) {
            Some(self.left.load(SeqCst))
        } else {
            None
        }
    }
}

/// That a declarer takes no trick, with nothing to show it.
fn unfounded(declarer: Seat) -> Claim {
    Claim {
        declarer,
        k: 0,
        declarer_root: None,
        defenders_root: None,
    }
}

impl<R: Clock> Solver for Crowd<'_, R> {
    fn solve(
        &self,
        _alloc: Global,
        layout: &Layout,
        declarers: &[Seat],
        trump: Trump,
        _budget: u64,
    ) -> Result<Option<Bundle>, AllocError> {
        let is_first = trump == Trump::Nt && read_layout(DEALS[0]).ok() == Some(*layout);
        let ns = if is_first { &self.first } else { &self.ns };
        let mut bundle = Bundle {
            ns: ns.clone()?,
            ew: self.ew.clone()?,
            claims: Default::default(),
        };
        for declarer in declarers {
            if !is_first || *declarer == Seat::North {
                let _ = bundle.claims.try_push(unfounded(*declarer));
            }
        }
        Ok(Some(bundle))
    }
}

impl<R: Clock> Gate for Crowd<'_, R> {
    fn before_solve(&self, lease: u64) {
        if lease == LAST_LEASE {
            self.all_are_leased.store(true, SeqCst);
        }
    }

    fn before_graphs(&self, lease: u64) {
        if lease == LATE_LEASE {
            self.checks_late.store(true, SeqCst);
            self.wait_for_first();
        }
    }

    fn before_check(&self, lease: u64) {
        if lease == 1 {
            self.wait_and_spend();
        }
    }

    fn after_check(&self, _entry: Entry, _reply: Reply) {
        if self.was_handed_in.load(SeqCst) {
            return;
        }
        if let Some(left) = self.spending.left(self.alloc) {
            self.left.store(left, SeqCst);
            self.was_handed_in.store(true, SeqCst);
        }
    }
}

/// A board for each of the deals.
fn four_boards(alloc: Global) -> Result<Vec<Board>, AllocError> {
    let mut boards = Vec::new(alloc);
    for deal in DEALS {
        boards.push(Board {
            name: BoardName::new(Vec::new(alloc)),
            deal: read_layout(deal).ok(),
        })?;
    }
    Ok(boards)
}

/// Whether all claims were handed in.
fn is_whole(book: &Book) -> bool {
    let mut count = 0usize;
    for event in book.history() {
        if let Asked::HandIn { .. } = event.asked {
            count = count.wrapping_add(1);
        }
    }
    count == CLAIMS
}

/// What comes of a run over these boards.
fn outcome_of_run<R: Threads + Wait + Clock + Sync>(
    rt: &R,
    alloc: Global,
    boards: Vec<Board>,
    settings: Settings,
    crowd: &Crowd<'_, R>,
) -> Outcome {
    let means = Means {
        solver: crowd,
        gate: crowd,
        clock: &StandsStill,
    };
    match run_farm(rt, alloc, boards, settings, &means) {
        Ok((book, _)) if is_whole(&book) => Outcome::Answer,
        Ok(_) => Outcome::Incomplete,
        Err(FarmFault::OutOfMemory) => Outcome::OutOfMemory,
        Err(FarmFault::NoThread) => Outcome::NoThread,
        Err(FarmFault::Book(_)) => Outcome::Wrong,
    }
}

/// The first call that a clerk makes at the desk in a run of `run_farm` with a solver, a checker and that clerk.
/// Where it is refused memory the run ends, though claims are still to come.
pub fn clerk<R: Threads + Wait + Clock + Sync>(
    rt: &R,
    alloc: Global,
    spending: Spending,
) -> Result<Told, AllocError> {
    let Ok(settings) = one_of_each(1, 1) else {
        return Ok(Told::Called(Outcome::Wrong, None));
    };
    let boards = four_boards(alloc)?;
    let crowd = Crowd::new(rt, alloc, spending)?;
    let outcome = outcome_of_run(rt, alloc, boards, settings, &crowd);
    Ok(if crowd.was_refused.load(SeqCst) {
        Told::Before
    } else {
        Told::Called(outcome, crowd.left())
    })
}
