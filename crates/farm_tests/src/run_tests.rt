//! Whole runs.

use crate::expect::expect_eq;
use crate::runs::{BUDGET, quiet_book};
use crate::solvers::{FindsTheAce, HasNoMemory};
use crate::tallies::{NONE, TableTally, empty_boards, tally_of};
use certificate_graph::Solver;
use farm::{FarmFault, Means, Settings, SettingsFault, run_farm};
use lease_book::{Asked, Book, BookFault, Entry, Reply};
use partition_solver::Partition;
use settings_support::once;
use std::alloc::Global;
use std::process::Abort;
use std::sync::Wait;
use std::test::Fail;
use std::thread::Threads;
use test_support::deals::FOUR_SUITS;
use test_support::idle::{FindsNothing, LetsPass, StandsStill};

/// How many entries are lent at a time: one, or all of a board.
const BATCHES: [usize; 2] = [1, 20];

/// What comes of a run over the four hands of one suit each.
fn tally_of_one_suit_each<S: Solver + Sync, R: Threads + Wait + Abort + Sync>(
    rt: &R,
    alloc: Global,
    settings: Result<Settings, SettingsFault>,
    solver: &S,
) -> TableTally {
    let book = quiet_book(rt, alloc, &[FOUR_SUITS], settings, solver);
    expect_eq(rt, &book.boards().len(), &1);
    tally_of(&book)
}

/// Where one solver and one checker are done with 20 entries: the leases, one that was not given, and an expiry. So it
/// is with each batch that divides 20.
const LEASED: TableTally = TableTally {
    given: 20,
    nothing: 1,
    freed_none: 1,
    ..NONE
};

/// This comes of a run with one solver and one checker, with one try an entry, whatever is lent at a time.
fn expect_tally<S: Solver + Sync, R: Threads + Wait + Abort + Sync>(
    rt: &R,
    alloc: Global,
    solver: &S,
    wanted: &TableTally,
) {
    for batch in BATCHES {
        let settings = once(1, 1, BUDGET, batch);
        let tally = tally_of_one_suit_each(rt, alloc, settings, solver);
        expect_eq(rt, &tally, wanted);
    }
}

#[test]
fn each_entry_is_leased_and_published_once(rt: HostRuntime) {
    let wanted = TableTally {
        published: 20,
        ..LEASED
    };
    expect_tally(&rt, rt.alloc(), &Partition::new(), &wanted);
}

/// Each number that was published for the first board is the one of its twin on the second, too.
fn expect_twins(rt: &impl Abort, book: &Book) {
    for event in book.history() {
        if let (Asked::HandIn { entry, .. }, Reply::Published(k)) = (event.asked, event.reply) {
            let twin = Entry { board: 1, ..entry };
            expect_eq(rt, &book.published(twin), &Some(k));
        }
    }
}

/// Two boards with one deal: the second takes its numbers from the first.
#[test]
fn a_deal_of_two_boards_is_solved_once(rt: HostRuntime) {
    let deals = [FOUR_SUITS, FOUR_SUITS];
    let settings = once(1, 1, BUDGET, 20);
    let book = quiet_book(&rt, rt.alloc(), &deals, settings, &Partition::new());
    let wanted = TableTally {
        published: 20,
        ..LEASED
    };
    expect_eq(&rt, &tally_of(&book), &wanted);
    expect_twins(&rt, &book);
}

#[test]
fn what_is_not_found_is_given_up(rt: HostRuntime) {
    let wanted = TableTally {
        gave_up: 20,
        ..LEASED
    };
    expect_tally(&rt, rt.alloc(), &FindsNothing, &wanted);
    expect_tally(&rt, rt.alloc(), &HasNoMemory, &wanted);
}

#[test]
fn what_is_not_shown_is_not_published(rt: HostRuntime) {
    let wanted = TableTally { bad: 20, ..LEASED };
    expect_tally(&rt, rt.alloc(), &FindsTheAce, &wanted);
}

#[test]
fn many_threads_publish_as_much(rt: HostRuntime) {
    for threads in [2, 64] {
        for batch in BATCHES {
            let settings = once(threads, threads, BUDGET, batch);
            let tally = tally_of_one_suit_each(&rt, rt.alloc(), settings, &Partition::new());
            expect_eq(&rt, &(tally.given, tally.published), &(20, 20));
        }
    }
}

#[test]
fn too_many_boards(rt: HostRuntime) -> Result<(), Fail> {
    let settings = once(1, 1, 1, 1)?.with_term(0);
    let boards = empty_boards(rt.alloc(), 4097)?;
    let means = Means {
        solver: &FindsNothing,
        gate: &LetsPass,
        clock: &StandsStill,
    };
    let made = run_farm(&rt, rt.alloc(), boards, settings, &means);
    let wanted = FarmFault::Book(BookFault::TooManyBoards);
    expect_eq(&rt, &made.err(), &Some(wanted));
    Ok(())
}
