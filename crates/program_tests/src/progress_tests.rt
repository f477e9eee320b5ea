//! What is told of the work, when, and to whom.

use crate::expect::{ROOM, buffer, expect_bytes, expect_eq, got, memory, run_on};
use crate::table_tests::tables;
use board_subcommands::table::KeptFiles;
use cards::{Buffer, Bytes, DeviceFault, Seat, Sink, Trump};
use certificate_graph::Solver;
use command_line::Subcommand;
use lease_book::{Clock, Entry, Gate, Reply, first_boards};
use partition_solver::Partition;
use pbn_deals::{Board, BoardName, read_layout};
use progress::Progress;
use run_ends::{NamedFiles, NewFiles, Status};
use std::alloc::Global;
use std::process::Abort;
use std::sync::Wait;
use std::sync::atomic::AtomicU64;
use std::sync::atomic::Ordering::SeqCst;
use std::thread;
use std::thread::Threads;
use test_support::idle::FindsNothing;

/// A board with four hands of one suit each.
pub const BOARD: &[u8] =
    b"[Deal \"N:AKQJT98765432... .AKQJT98765432.. ..AKQJT98765432. ...AKQJT98765432\"]";

/// Counts what it is told.
#[derive(Drop)]
struct CallCounts {
    begun: AtomicU64,
    solved: AtomicU64,
    graphs: AtomicU64,
    checked: AtomicU64,
    settled: AtomicU64,
    ended: AtomicU64,
}

impl CallCounts {
    /// No call was counted yet.
    fn new() -> CallCounts {
        CallCounts {
            begun: AtomicU64::new(0),
            solved: AtomicU64::new(0),
            graphs: AtomicU64::new(0),
            checked: AtomicU64::new(0),
            settled: AtomicU64::new(0),
            ended: AtomicU64::new(0),
        }
    }

    /// What was told, in the order of [`Told`].
    fn told(&self) -> Told {
        [
            self.begun.load(SeqCst),
            self.solved.load(SeqCst),
            self.graphs.load(SeqCst),
            self.checked.load(SeqCst),
            self.settled.load(SeqCst),
            self.ended.load(SeqCst),
        ]
    }
}

impl Gate for CallCounts {
    fn before_work(&self, boards: &[Board], _firsts: &[usize]) {
        self.begun.fetch_add(boards.len() as u64, SeqCst);
    }

    fn before_solve(&self, _lease: u64) {
        self.solved.fetch_add(1, SeqCst);
    }

    fn before_graphs(&self, _lease: u64) {
        self.graphs.fetch_add(1, SeqCst);
    }

    fn before_check(&self, _lease: u64) {
        self.checked.fetch_add(1, SeqCst);
    }

    fn after_check(&self, _entry: Entry, reply: Reply) {
        if matches!(reply, Reply::Published(_)) {
            self.settled.fetch_add(1, SeqCst);
        }
    }

    fn after_work(&self) {
        self.ended.fetch_add(1, SeqCst);
    }
}

/// How many boards, leases that are worked on, leases whose graphs are checked, claims that are checked, results that
/// are published and ends are told.
type Told = [u64; 6];

const NONE: Told = [0; 6];

/// Whether progress is told, how many entries are leased at a time, and what is told where nothing is found, each entry
/// being tried three times, and where all is.
const TOLD: [(bool, usize, Told, Told); 4] = [
    (false, 1, NONE, NONE),
    (true, 1, [1, 60, 0, 0, 0, 1], [1, 20, 20, 20, 20, 1]),
    (false, 20, NONE, NONE),
    (true, 20, [1, 60, 0, 0, 0, 1], [1, 20, 20, 20, 20, 1]),
];

/// What a gate is told while tables are made.
fn expect_told<
    R: Abort + NamedFiles + KeptFiles + NewFiles + Threads + Wait + Sync,
    S: Solver + Sync,
>(rt: &R, alloc: Global, run: Subcommand<'_>, solver: &S, wanted: (Status, Told)) {
    let gate = CallCounts::new();
    let mut streams = memory(rt, alloc, Bytes::new(BOARD, 7), (ROOM, ROOM), (ROOM, ROOM));
    let status = run_on(rt, alloc, run, solver, &gate, &mut streams);
    expect_eq(rt, &(status, gate.told()), &wanted);
}

/// The gate is told of the work where that is asked for, and of none of it where it isn't.
#[test]
fn who_asks_is_told(rt: HostRuntime) {
    let alloc = rt.alloc();
    for &(progress, batch, none_found, all_found) in &TOLD {
        let run = tables(&rt, progress, batch);
        let incomplete = (Status::Incomplete, none_found);
        expect_told(&rt, alloc, run, &FindsNothing, incomplete);
        let done = (Status::Done, all_found);
        expect_told(&rt, alloc, run, &Partition::new(), done);
    }
}

/// A clock that is set by hand.
#[derive(Drop)]
struct SetByHand {
    seconds: AtomicU64,
}

impl Clock for SetByHand {
    fn now(&self) -> u64 {
        self.seconds.load(SeqCst)
    }
}

/// The deals of the boards.
const DEAL: Option<&[u8]> = Some(b"N:A... K... Q... J...");

const OTHER_DEAL: Option<&[u8]> = Some(b"N:2... K... Q... J...");

/// A board with this deal.
fn board_with(rt: &impl Abort, alloc: Global, deal: Option<&[u8]>) -> Board {
    let deal = match deal {
        Some(deal) => Some(got(rt, read_layout(deal))),
        None => None,
    };
    Board {
        name: BoardName::new(Vec::new(alloc)),
        deal,
    }
}

/// Boards with these deals.
fn boards_with(rt: &impl Abort, alloc: Global, deals: &[Option<&[u8]>]) -> Vec<Board> {
    let mut boards = Vec::new(alloc);
    for deal in deals {
        got(rt, boards.push(board_with(rt, alloc, *deal)));
    }
    boards
}

/// The work on boards with these deals begins.
fn begin(rt: &impl Abort, alloc: Global, gate: &impl Gate, deals: &[Option<&[u8]>]) {
    let boards = boards_with(rt, alloc, deals);
    let Ok(firsts) = first_boards(alloc, boards.as_slice()) else {
        panic!(rt; "no memory");
    };
    gate.before_work(boards.as_slice(), firsts.as_slice());
}

/// So many leases are worked on for the board with this number, and each claim has this reply.
fn check(gate: &impl Gate, count: usize, board: usize, reply: Reply) {
    for _ in 0..count {
        let entry = Entry {
            board,
            declarer: Seat::North,
            trump: Trump::Nt,
        };
        gate.before_solve(1);
        gate.before_graphs(1);
        gate.before_check(1);
        gate.after_check(entry, reply);
    }
}

/// The second, how many claims are checked in it, the board that they are for, and the reply to each.
type Step = (u64, usize, usize, Reply);

/// After these steps, of which the first may be in the third second, and the end in this second there are these lines.
fn expect_lines<R: Abort + Wait>(
    rt: &R,
    alloc: Global,
    deals: &[Option<&[u8]>],
    steps: &[Step],
    end: u64,
    lines: &[u8],
) {
    let clock = SetByHand {
        seconds: AtomicU64::new(3),
    };
    let progress = Progress::new(rt, &clock, buffer(rt, alloc, (ROOM, 5)));
    begin(rt, alloc, &progress, deals);
    for (second, count, board, reply) in steps {
        clock.seconds.store(*second, SeqCst);
        check(&progress, *count, *board, *reply);
    }
    clock.seconds.store(end, SeqCst);
    progress.after_work();
    expect_bytes(rt, progress.into_sink().bytes(), lines);
}

const GIVEN: Reply = Reply::Given {
    lease: 1,
    entry: Entry {
        board: 0,
        declarer: Seat::North,
        trump: Trump::Nt,
    },
    deadline: 2,
};

/// In the fourth second no result is published.
const STEPS: [Step; 12] = [
    (3, 1, 0, Reply::Published(7)),
    (4, 1, 0, GIVEN),
    (4, 1, 0, Reply::Nothing),
    (4, 1, 0, Reply::Freed(1)),
    (4, 1, 0, Reply::GaveUp),
    (4, 1, 0, Reply::UnknownLease),
    (4, 1, 0, Reply::NotHeld),
    (4, 1, 0, Reply::OtherEntry),
    (4, 1, 0, Reply::AlreadyPublished),
    (5, 17, 0, Reply::Published(0)),
    (6, 1, 0, Reply::Published(0)),
    (9, 1, 0, Reply::Published(13)),
];

const LINES: &[u8] = b"ddfarm: 2 of 20 results, 0 of 1 boards, 5 s
ddfarm: 19 of 20 results, 0 of 1 boards, 6 s
ddfarm: 20 of 20 results, 1 of 1 boards, 9 s
ddfarm: 20 of 20 results, 1 of 1 boards, 12 s, 0 tables incomplete
";

/// A line is written when a result is published in another second than that of the last line, or of the beginning. No
/// other reply counts or gives a line.
#[test]
fn a_line_a_second_and_one_at_the_end(rt: HostRuntime) {
    expect_lines(&rt, rt.alloc(), &[DEAL, None], STEPS.as_slice(), 12, LINES);
}

/// All results of the first deal, and then all of the other.
const SHARED_STEPS: [Step; 2] = [
    (4, 20, 0, Reply::Published(0)),
    (5, 20, 2, Reply::Published(0)),
];

const SHARED_LINES: &[u8] = b"ddfarm: 2 of 60 results, 0 of 3 boards, 4 s
ddfarm: 41 of 60 results, 2 of 3 boards, 5 s
ddfarm: 60 of 60 results, 3 of 3 boards, 6 s, 0 tables incomplete
";

/// A result counts for each of the boards with its deal, and for no other board.
#[test]
fn boards_that_share_a_deal(rt: HostRuntime) {
    let deals = [DEAL, None, OTHER_DEAL, DEAL];
    expect_lines(
        &rt,
        rt.alloc(),
        &deals,
        SHARED_STEPS.as_slice(),
        6,
        SHARED_LINES,
    );
}

/// A clock that goes on by a second each time it is read.
#[derive(Drop)]
struct Readings {
    seconds: AtomicU64,
}

impl Clock for Readings {
    fn now(&self) -> u64 {
        self.seconds.fetch_add(1, SeqCst)
    }
}

/// A buffer that lets other threads run before it takes a piece.
#[derive(Drop)]
struct Slow(Buffer);

impl Sink for Slow {
    ghost use Rattle.cards.specs.Memory.{stock_device};

    ghost state = { λ slow. stock_device slow.0 };

    fn write(&mut self, piece: &[u8]) -> Result<usize, DeviceFault> {
        for _ in 0..100u8 {
            thread::yield_now();
        }
        self.0.write(piece)
    }
}

/// A line for each of twenty results, and the last line.
fn twenty_lines(rt: &impl Abort, alloc: Global) -> String {
    let mut lines = String::new(alloc);
    for count in 1..=20u8 {
        let finished = count / 20;
        let line = format!(in alloc;
            "ddfarm: {count} of 20 results, {finished} of 1 boards, {count} s\n"
        );
        got(rt, lines.push_str(&got(rt, line)));
    }
    let last = "ddfarm: 20 of 20 results, 1 of 1 boards, 21 s, 0 tables incomplete\n";
    got(rt, lines.push_str(last));
    lines
}

/// Two threads hand ten results each to the gate, one after the other or at once. Each result counts and has its line.
#[test]
fn results_of_two_threads(rt: HostRuntime) {
    let alloc = rt.alloc();
    let clock = Readings {
        seconds: AtomicU64::new(0),
    };
    let progress = Progress::new(&rt, &clock, Slow(buffer(&rt, alloc, (ROOM, 5))));
    begin(&rt, alloc, &progress, &[DEAL]);
    thread::join(
        &rt,
        || check(&progress, 10, 0, Reply::Published(7)),
        || check(&progress, 10, 0, Reply::Published(7)),
    );
    progress.after_work();
    let Slow(buffer) = progress.into_sink();
    let lines = twenty_lines(&rt, alloc);
    expect_bytes(&rt, buffer.bytes(), lines.as_bytes());
}
