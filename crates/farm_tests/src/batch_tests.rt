//! What is leased at a time, and how it is grouped.

use crate::dividing::LetsOthersOn;
use crate::expect::expect_eq;
use crate::notices::{KeepsNotices, leases_in};
use crate::remembers::{Call, Remembers, counts_of, digits_of};
use crate::runs::{BUDGET, book_of, quiet_book};
use crate::tallies::{NONE, TURNED, TableTally, tally_of};
use cards::{Layout, Seat, Trump};
use farm::{Means, Settings, SettingsFault};
use lease_book::{Book, Reply};
use partition_solver::Partition;
use pbn_deals::read_layout;
use settings_support::once;
use std::alloc::Global;
use std::process::Abort;
use std::sync::Wait;
use std::thread::Threads;
use std::time::Clock;
use test_support::deals::{ACE, FOUR_SUITS};
use test_support::idle::{FindsNothing, LetsPass, StandsStill};

/// What comes of a batch on one board, with one solver, checker and clerk.
#[derive(Clone, Copy)]
struct Row {
    batch: usize,
    /// How often no entry was open. Where the batch doesn't divide 20, the last one is cut short so.
    nothing: u64,
    /// The denominations of the solver's calls, no-trump, spades, hearts, diamonds and clubs being 1 to 5.
    calls: u64,
    /// How many declarers each of them had.
    declarers: u64,
    /// The denominations of the leases, one group after the other.
    leases: u64,
}

/// By the order of the entries, North's before South's, East's and West's, and of the groups of a batch, by their least
/// leases. In batches of seven a seat's last entries are leased together with the next seat's first ones.
const ROWS: [Row; 5] = [
    Row {
        batch: 1,
        nothing: 1,
        calls: 12345_12345_12345_12345,
        declarers: 11111_11111_11111_11111,
        leases: 12345_12345_12345_12345,
    },
    Row {
        batch: 5,
        nothing: 1,
        calls: 12345_12345_12345_12345,
        declarers: 11111_11111_11111_11111,
        leases: 12345_12345_12345_12345,
    },
    Row {
        batch: 7,
        nothing: 2,
        calls: 12345_34512_51234,
        declarers: 22111_22111_21111,
        leases: 1122345_3344512_551234,
    },
    Row {
        batch: 10,
        nothing: 1,
        calls: 12345_12345,
        declarers: 22222_22222,
        leases: 1122334455_1122334455,
    },
    Row {
        batch: 20,
        nothing: 1,
        calls: 12345,
        declarers: 44444,
        leases: 11112222333344445555,
    },
];

/// The sum of two to the power of each of the leases 1 to 20.
const ALL_LEASES: u64 = 0x1f_fffe;

/// Fills the table of four hands of one suit each. Solver, checker and clerk are each told of each lease once, in the
/// order of the row. A message has two graphs, which are checked once the gate is told of its leases. So the runs of
/// like digits before the graphs show how many messages there were, and half of how many graphs were checked: with a
/// batch of twenty there are five runs, and ten graphs. The test does not see that no graph is checked twice.
fn expect_groups<R: Threads + Wait + Abort + Sync>(rt: &R, alloc: Global, row: &Row) {
    let search = Partition::new();
    let solver = Remembers::new(rt, alloc, &search);
    let gate = KeepsNotices::new(rt, alloc);
    let means = Means {
        solver: &solver,
        gate: &gate,
        clock: &StandsStill,
    };
    let settings = once(1, 1, BUDGET, row.batch);
    let tally = tally_of(&book_of(rt, alloc, &[FOUR_SUITS], settings, &means));
    let wanted = TableTally {
        given: 20,
        published: 20,
        nothing: row.nothing,
        freed_none: 1,
        ..NONE
    };
    expect_eq(rt, &tally, &wanted);
    let digits = digits_of(solver.into_calls().as_slice());
    expect_eq(rt, &digits, &(row.calls, row.declarers));
    let leases = leases_in(gate.into_notices().as_slice());
    expect_eq(rt, &leases, &[(row.leases, ALL_LEASES); 3]);
}

#[test]
fn leases_are_grouped_by_denominations(rt: HostRuntime) {
    for row in &ROWS {
        expect_groups(&rt, rt.alloc(), row);
    }
}

/// That a solver was asked this.
fn call_of(
    rt: &impl Abort,
    alloc: Global,
    layout: Layout,
    declarers: &[Seat],
    trump: Trump,
    budget: u64,
) -> Call {
    Call {
        layout,
        declarers: Vec::from_slice(alloc, declarers).expect(rt, "memory for declarers"),
        trump,
        budget,
    }
}

/// What the leases of a history say, each alone: the deal of its board, its declarer, its denomination, and the budget.
fn said_one_by_one(rt: &impl Abort, alloc: Global, book: &Book, budget: u64) -> Vec<Call> {
    let mut said = Vec::new(alloc);
    for event in book.history() {
        if let Reply::Given { entry, .. } = event.reply {
            let board = book.boards().get(entry.board).expect(rt, "such a board");
            let layout = board.deal.expect(rt, "a deal");
            let call = call_of(rt, alloc, layout, &[entry.declarer], entry.trump, budget);
            said.push(call).expect(rt, "memory for a call");
        }
    }
    said
}

/// What the twenty leases of each of two boards say together: in each denomination the deal for all its declarers.
fn said_board_by_board(rt: &impl Abort, alloc: Global, budget: u64) -> Vec<Call> {
    let mut said = Vec::new(alloc);
    for deal in [ACE, TURNED] {
        let layout = read_layout(deal.as_bytes()).expect(rt, "a deal");
        for trump in Trump::ALL {
            let call = call_of(rt, alloc, layout, &Seat::ALL, trump, budget);
            said.push(call).expect(rt, "memory for a call");
        }
    }
    said
}

/// What is asked in a run over two boards, in batches of `batch` entries, and what its leases say.
fn asked_and_said<R: Threads + Wait + Abort + Sync>(
    rt: &R,
    alloc: Global,
    batch: usize,
    budget: u64,
) -> (Vec<Call>, Vec<Call>) {
    let search = Partition::new();
    let solver = Remembers::new(rt, alloc, &search);
    let settings = once(1, 1, budget, batch);
    let book = quiet_book(rt, alloc, &[ACE, TURNED], settings, &solver);
    let said = if batch == 1 {
        said_one_by_one(rt, alloc, &book, budget)
    } else {
        said_board_by_board(rt, alloc, budget)
    };
    (solver.into_calls(), said)
}

/// The solver is asked for what the leases say, with the budget of the settings, and for nothing else, in this order.
#[test]
fn leases_say_what_is_asked(rt: HostRuntime) {
    for (batch, budget) in [(1, 1_234_567), (20, 7_654_321)] {
        let (asked, said) = asked_and_said(&rt, rt.alloc(), batch, budget);
        expect_eq(&rt, &asked, &said);
    }
}

/// What is in the book of one card each, and of the same cards one seat further on.
fn tally_of_two_boards<R: Threads + Wait + Abort + Sync>(
    rt: &R,
    alloc: Global,
    settings: Result<Settings, SettingsFault>,
) -> TableTally {
    let deals = [ACE, TURNED];
    tally_of(&quiet_book(rt, alloc, &deals, settings, &Partition::new()))
}

/// Batches with the last entries of one board and the first of the next, among them some in the same denomination.
#[test]
fn leases_are_grouped_by_boards(rt: HostRuntime) {
    for batch in [8, 13, 20] {
        let tally = tally_of_two_boards(&rt, rt.alloc(), once(1, 1, BUDGET, batch));
        expect_eq(&rt, &(tally.given, tally.published), &(40, 40));
    }
}

/// Settings with two solvers and checkers, by which a lease runs out at once.
fn hurried(batch: usize) -> Result<Settings, SettingsFault> {
    once(2, 2, BUDGET, batch)?.with_term(0).with_tries(3)
}

/// Leases that run out at once: what is handed in late counts.
#[test]
fn late_answers_are_published(rt: HostRuntime) {
    for batch in [1, 13, 20] {
        let tally = tally_of_two_boards(&rt, rt.alloc(), hurried(batch));
        let outcome = (tally.published, tally.gave_up, tally.bad);
        expect_eq(&rt, &outcome, &(40, 0, 0));
    }
}

/// Four deals of one card each.
const ROUND: [&str; 4] = [
    ACE,
    TURNED,
    "N:Q... J... A... K...",
    "N:K... Q... J... A...",
];

/// With `solvers` solvers each is asked for the declarers of a denomination together.
fn expect_whole<R: Threads + Wait + Abort + Clock + Sync>(rt: &R, alloc: Global, solvers: usize) {
    let nothing = FindsNothing;
    let solver = Remembers::new(rt, alloc, &nothing);
    let means = Means {
        solver: &solver,
        gate: &LetsPass,
        clock: &LetsOthersOn { rt },
    };
    let settings = once(solvers, 1, BUDGET, 20);
    let tally = tally_of(&book_of(rt, alloc, &ROUND, settings, &means));
    expect_eq(rt, &tally.gave_up, &80);
    let counts = counts_of(solver.into_calls().as_slice());
    expect_eq(rt, &counts, &(20, 0));
}

/// Several solvers. The declarers of a denomination are asked for together, so that what was kept of them
/// serves the next run.
#[test]
fn denominations_are_not_divided(rt: HostRuntime) {
    for solvers in [2, 4] {
        expect_whole(&rt, rt.alloc(), solvers);
    }
}
