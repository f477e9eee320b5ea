//! Whole runs of a farm, without a promise. A call of `run_farm` itself carries its promises to the end of the caller.

use crate::tallies::boards_of;
use certificate_graph::Solver;
use farm::{Means, Settings, SettingsFault, run_farm};
use lease_book::{Book, Clock, Gate};
use std::alloc::Global;
use std::process::Abort;
use std::sync::Wait;
use std::thread::Threads;
use test_support::idle::{LetsPass, StandsStill};

/// How many steps a solver has for a declarer.
pub const BUDGET: u64 = 10_000_000;

/// The book of a run over a board for each of these deals. The test fails if there is none.
pub fn book_of<S: Solver + Sync, G: Gate + Sync, C: Clock + Sync, R: Threads + Wait + Abort + Sync>(
    rt: &R,
    alloc: Global,
    deals: &[&str],
    settings: Result<Settings, SettingsFault>,
    means: &Means<'_, S, G, C>,
) -> Book {
    let settings = settings.expect(rt, "settings");
    let boards = boards_of(rt, alloc, deals);
    let (book, _unclaimed) = run_farm(rt, alloc, boards, settings, means).expect(rt, "a run");
    book
}

/// The book of a run with a gate that lets all pass, and a clock that stands still.
pub fn quiet_book<S: Solver + Sync, R: Threads + Wait + Abort + Sync>(
    rt: &R,
    alloc: Global,
    deals: &[&str],
    settings: Result<Settings, SettingsFault>,
    solver: &S,
) -> Book {
    let means = Means {
        solver,
        gate: &LetsPass,
        clock: &StandsStill,
    };
    book_of(rt, alloc, deals, settings, &means)
}
