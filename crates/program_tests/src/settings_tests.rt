//! What of the settings of tables comes to the solver and to the threads.

use crate::expect::{ROOM, expect_eq, got, memory, run_on};
use crate::pages::tables_by;
use crate::progress_tests::BOARD;
use board_subcommands::table::{KeptFiles, TableOptions};
use cards::{Bytes, Layout, Seat, Trump};
use certificate_graph::{Bundle, Solver};
use command_line::Subcommand;
use farm::Settings;
use lease_book::Gate;
use partition_solver::Partition;
use run_ends::{NamedFiles, NewFiles, Status};
use settings_support::one_of_each;
use std::alloc::{AllocError, Global};
use std::process::Abort;
use std::sync::Wait;
use std::sync::atomic::Ordering::SeqCst;
use std::sync::atomic::{AtomicBool, AtomicU64};
use std::thread::Threads;
use test_support::idle::LetsPass;

/// Makes the tables of a board, which ends so.
fn expect_status<
    R: Abort + NamedFiles + KeptFiles + NewFiles + Threads + Wait + Sync,
    S: Solver + Sync,
    G: Gate + Sync,
>(rt: &R, alloc: Global, settings: Settings, solver: &S, gate: &G, wanted: Status) {
    let run = Subcommand::Table(TableOptions {
        progress: true,
        ..tables_by(settings)
    });
    let mut streams = memory(rt, alloc, Bytes::new(BOARD, 7), (ROOM, ROOM), (ROOM, ROOM));
    let status = run_on(rt, alloc, run, solver, gate, &mut streams);
    expect_eq(rt, &status, &wanted);
}

/// Finds nothing, and adds up what it is asked with: how often it is, for how many declarers, and with how many steps.
#[derive(Drop)]
struct Sums {
    asked: AtomicU64,
    declarers: AtomicU64,
    steps: AtomicU64,
}

impl Sums {
    /// Nothing was asked yet.
    fn new() -> Sums {
        Sums {
            asked: AtomicU64::new(0),
            declarers: AtomicU64::new(0),
            steps: AtomicU64::new(0),
        }
    }

    /// The three sums.
    fn sums(&self) -> [u64; 3] {
        [
            self.asked.load(SeqCst),
            self.declarers.load(SeqCst),
            self.steps.load(SeqCst),
        ]
    }
}

impl Solver for Sums {
    fn solve(
        &self,
        _alloc: Global,
        _layout: &Layout,
        declarers: &[Seat],
        _trump: Trump,
        budget: u64,
    ) -> Result<Option<Bundle>, AllocError> {
        self.asked.fetch_add(1, SeqCst);
        self.declarers.fetch_add(declarers.len() as u64, SeqCst);
        self.steps.fetch_add(budget, SeqCst);
        Ok(None)
    }
}

/// Tries, steps, how many entries are leased at a time, and the sums: each of the twenty entries is searched in each
/// try, and of those that are leased together the four of a denomination in one search, which has the steps once.
const SUMS: [(u32, u64, usize, [u64; 3]); 4] = [
    (1, 7, 1, [20, 20, 140]),
    (3, 7, 1, [60, 60, 420]),
    (1, 1_000_000_000, 20, [5, 20, 5_000_000_000]),
    (2, 10, 20, [10, 40, 100]),
];

/// The solver is asked as the settings say.
#[test]
fn what_the_solver_is_asked(rt: HostRuntime) {
    for &(tries, budget, batch, wanted) in &SUMS {
        let solver = Sums::new();
        let settings = got(&rt, one_of_each(tries, budget));
        let settings = got(&rt, settings.with_batch(batch));
        let ended = Status::Incomplete;
        expect_status(&rt, rt.alloc(), settings, &solver, &LetsPass, ended);
        expect_eq(&rt, &solver.sums(), &wanted);
    }
}

/// How often a thread looks whether another has come before it goes on alone.
const LOOKS: u64 = 1_000_000_000;

/// Where the work on the first lease and that on the second wait for each other.
#[derive(Drop)]
struct Meeting {
    first: AtomicBool,
    second: AtomicBool,
    /// How many of the two have met the other.
    met: AtomicU64,
}

impl Meeting {
    /// Nobody has come.
    fn new() -> Meeting {
        Meeting {
            first: AtomicBool::new(false),
            second: AtomicBool::new(false),
            met: AtomicU64::new(0),
        }
    }

    /// The work on the lease has come so far.
    fn comes(&self, lease: u64) {
        let (own, other) = match lease {
            1 => (&self.first, &self.second),
            2 => (&self.second, &self.first),
            _ => return,
        };
        own.store(true, SeqCst);
        for _ in 0..LOOKS {
            if other.load(SeqCst) {
                self.met.fetch_add(1, SeqCst);
                return;
            }
        }
    }
}

/// Two leases are worked on at a time, and the graphs of two are checked at a time.
#[derive(Drop)]
struct TwoOfEach {
    solvers: Meeting,
    checkers: Meeting,
}

impl Gate for TwoOfEach {
    fn before_solve(&self, lease: u64) {
        self.solvers.comes(lease);
    }

    fn before_graphs(&self, lease: u64) {
        self.checkers.comes(lease);
    }

    fn before_check(&self, _lease: u64) {}
}

/// There are as many solvers and checkers as the settings say.
#[test]
fn two_solvers_and_two_checkers(rt: HostRuntime) {
    let gate = TwoOfEach {
        solvers: Meeting::new(),
        checkers: Meeting::new(),
    };
    let settings = got(&rt, Settings::new().with_batch(1));
    let (solver, ended) = (Partition::new(), Status::Done);
    expect_status(&rt, rt.alloc(), settings, &solver, &gate, ended);
    expect_eq(&rt, &gate.solvers.met.load(SeqCst), &2);
    expect_eq(&rt, &gate.checkers.met.load(SeqCst), &2);
}
