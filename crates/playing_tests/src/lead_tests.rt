//! The opening leads of deals whose tricks are counted by hand.

use crate::expect::{expect_bytes, expect_eq, got};
use cards::{Buffer, Bytes, Card, Layout, Seat, Trump};
use certificate_graph::{CardBundle, CardSolver};
use lease_book::{Entry, Gate, Reply};
use opening_leads::{LeadFault, LeadLimits, LeadMeans, LeadReport, make_leads};
use partition_solver::Partition;
use pbn_deals::{Board, PbnFault};
use std::alloc::{AllocError, Global};
use std::process::Abort;
use std::sync::atomic::AtomicU64;
use std::sync::atomic::Ordering::SeqCst;
use std::thread::Threads;

/// How the leads are looked for.
const OPTIONS: LeadLimits = LeadLimits {
    solvers: 3,
    budget: 10_000_000,
};

/// A board whose hands have one suit each, and one without a deal.
const BOARDS: &[u8] = b"[Board \"1\"]
[Deal \"N:AKQJT98765432... .AKQJT98765432.. ..AKQJT98765432. ...AKQJT98765432\"]

[Board \"2\"]
[Deal \"?\"]
";

/// Its leads. The holder of the trump suit takes all tricks, and in no-trump the leader.
const LEADS: &[u8] = b"% PBN 2.1
[Board \"1\"]
[Deal \"N:AKQJT98765432... .AKQJT98765432.. ..AKQJT98765432. ...AKQJT98765432\"]
[OpeningLeads \"Declarer;Denomination\\2R;Leads\"]
N NT  13 HA HK HQ HJ HT H9 H8 H7 H6 H5 H4 H3 H2
N  S  0 HA HK HQ HJ HT H9 H8 H7 H6 H5 H4 H3 H2
N  H  13 HA HK HQ HJ HT H9 H8 H7 H6 H5 H4 H3 H2
N  D  0 HA HK HQ HJ HT H9 H8 H7 H6 H5 H4 H3 H2
N  C  13 HA HK HQ HJ HT H9 H8 H7 H6 H5 H4 H3 H2
S NT  13 CA CK CQ CJ CT C9 C8 C7 C6 C5 C4 C3 C2
S  S  0 CA CK CQ CJ CT C9 C8 C7 C6 C5 C4 C3 C2
S  H  13 CA CK CQ CJ CT C9 C8 C7 C6 C5 C4 C3 C2
S  D  0 CA CK CQ CJ CT C9 C8 C7 C6 C5 C4 C3 C2
S  C  13 CA CK CQ CJ CT C9 C8 C7 C6 C5 C4 C3 C2
E NT  13 DA DK DQ DJ DT D9 D8 D7 D6 D5 D4 D3 D2
E  S  13 DA DK DQ DJ DT D9 D8 D7 D6 D5 D4 D3 D2
E  H  0 DA DK DQ DJ DT D9 D8 D7 D6 D5 D4 D3 D2
E  D  13 DA DK DQ DJ DT D9 D8 D7 D6 D5 D4 D3 D2
E  C  0 DA DK DQ DJ DT D9 D8 D7 D6 D5 D4 D3 D2
W NT  13 SA SK SQ SJ ST S9 S8 S7 S6 S5 S4 S3 S2
W  S  13 SA SK SQ SJ ST S9 S8 S7 S6 S5 S4 S3 S2
W  H  0 SA SK SQ SJ ST S9 S8 S7 S6 S5 S4 S3 S2
W  D  13 SA SK SQ SJ ST S9 S8 S7 S6 S5 S4 S3 S2
W  C  0 SA SK SQ SJ ST S9 S8 S7 S6 S5 S4 S3 S2

[Board \"2\"]
[Deal \"?\"]

";

/// The text if no leads are found.
const NO_LEADS: &[u8] = b"% PBN 2.1
[Board \"1\"]
[Deal \"N:AKQJT98765432... .AKQJT98765432.. ..AKQJT98765432. ...AKQJT98765432\"]
[OpeningLeads \"Declarer;Denomination\\2R;Leads\"]
; leads incomplete: 0 of 20

[Board \"2\"]
[Deal \"?\"]

";

/// A solver that shows no lead: it finds nothing, has no memory, or claims the tricks of the other side.
#[derive(Clone, Copy)]
enum ShowsNone {
    Finds,
    Remembers,
    Lies,
}

impl CardSolver for ShowsNone {
    fn solve_cards(
        &self,
        alloc: Global,
        layout: &Layout,
        leaders: &[Seat],
        trump: Trump,
        played: &[Card],
        budget: u64,
    ) -> Result<Option<CardBundle>, AllocError> {
        match *self {
            ShowsNone::Finds => return Ok(None),
            ShowsNone::Remembers => return Err(AllocError),
            ShowsNone::Lies => {}
        }
        let found = Partition::new().solve_cards(alloc, layout, leaders, trump, played, budget)?;
        let Some(mut bundle) = found else {
            return Ok(None);
        };
        for claim in bundle.claims.iter_mut() {
            claim.tricks = 13u8.saturating_sub(claim.tricks);
        }
        Ok(Some(bundle))
    }
}

/// A gate that counts what it is told.
#[derive(Drop)]
struct Counts {
    boards: AtomicU64,
    rows: AtomicU64,
    tricks: AtomicU64,
    ends: AtomicU64,
}

impl Counts {
    /// Nothing was told.
    fn new() -> Counts {
        Counts {
            boards: AtomicU64::new(0),
            rows: AtomicU64::new(0),
            tricks: AtomicU64::new(0),
            ends: AtomicU64::new(0),
        }
    }

    /// The boards, the rows, the tricks of their declarers, and the ends.
    fn all(&self) -> [u64; 4] {
        [
            self.boards.load(SeqCst),
            self.rows.load(SeqCst),
            self.tricks.load(SeqCst),
            self.ends.load(SeqCst),
        ]
    }
}

impl Gate for Counts {
    fn before_work(&self, boards: &[Board], _firsts: &[usize]) {
        self.boards.fetch_add(boards.len() as u64, SeqCst);
    }

    fn before_solve(&self, _lease: u64) {}

    fn before_check(&self, _lease: u64) {}

    fn after_check(&self, _entry: Entry, reply: Reply) {
        if let Reply::Published(tricks) = reply {
            self.rows.fetch_add(1, SeqCst);
            self.tricks.fetch_add(u64::from(tricks), SeqCst);
        }
    }

    fn after_work(&self) {
        self.ends.fetch_add(1, SeqCst);
    }
}

/// The report of the two boards, if no row is missing.
const WHOLE: LeadReport = LeadReport {
    boards: 2,
    undealt: 1,
    missing: 0,
    steps: 0,
    memory: 0,
    refused: 0,
};

/// What [`make_leads`] reports, and what it writes.
type Made<'a> = (Result<LeadReport, LeadFault>, &'a [u8]);

/// The leads of a text are made as wanted with a sink that has this room.
fn expect_made<R: Threads + Sync + Abort, S: CardSolver + Sync>(
    rt: &R,
    alloc: Global,
    mut source: Bytes<'_>,
    room: usize,
    (options, solver): (LeadLimits, &S),
    (wanted, written): Made<'_>,
) {
    let mut sink = got(rt, Buffer::new(alloc, room, 7));
    let gate = Counts::new();
    let means = LeadMeans {
        solver,
        gate: &gate,
    };
    let made = make_leads(rt, alloc, &mut source, &mut sink, options, &means);
    expect_bytes(rt, sink.bytes(), written);
    expect_eq(rt, &made, &wanted);
    if let Ok(report) = made {
        expect_told(rt, report, &gate);
    }
}

/// A gate was told of two boards, of the rows that were found, and once that all work had ended. If all twenty were
/// found, declarer's side takes all tricks in eight of them, in which it has the trumps.
fn expect_told(rt: &impl Abort, report: LeadReport, gate: &Counts) {
    let (rows, tricks) = if report.missing == 0 {
        (20, 104)
    } else {
        (0, 0)
    };
    expect_eq(rt, &gate.all(), &[2, rows, tricks, 1]);
}

/// The answers of the solver, with several threads and with one.
#[test]
fn leads_of_one_suit_each(rt: HostRuntime) {
    let solver = Partition::new();
    for solvers in [3usize, 1, 0] {
        let options = LeadLimits { solvers, ..OPTIONS };
        let source = Bytes::new(BOARDS, 7);
        let wanted = (Ok(WHOLE), LEADS);
        expect_made(&rt, rt.alloc(), source, 3000, (options, &solver), wanted);
    }
}

/// All rows are missing: so many for want of steps and of memory, and so many were refused.
const REASONS: [(ShowsNone, [usize; 3]); 3] = [
    (ShowsNone::Finds, [20, 0, 0]),
    (ShowsNone::Remembers, [0, 20, 0]),
    (ShowsNone::Lies, [0, 0, 20]),
];

/// Rows are missing, and the report says why.
#[test]
fn leads_are_missing(rt: HostRuntime) {
    for (solver, [steps, memory, refused]) in REASONS {
        let source = Bytes::new(BOARDS, 7);
        let report = LeadReport {
            missing: 20,
            steps,
            memory,
            refused,
            ..WHOLE
        };
        let wanted = (Ok(report), NO_LEADS);
        expect_made(&rt, rt.alloc(), source, 3000, (OPTIONS, &solver), wanted);
    }
}

/// The sink fails, and the text is refused.
#[test]
fn leads_are_not_written(rt: HostRuntime) {
    let form = LeadFault::Pbn(PbnFault::TagForm { line: 1 });
    for (text, room, wanted, written) in [
        (BOARDS, 40usize, Err(LeadFault::Write), &NO_LEADS[..40]),
        (b"[Deal", 3000, Err(form), b""),
    ] {
        let source = Bytes::new(text, 7);
        let finds_none = (OPTIONS, &ShowsNone::Finds);
        expect_made(&rt, rt.alloc(), source, room, finds_none, (wanted, written));
    }
}

/// The source fails.
#[test]
fn leads_are_not_read(rt: HostRuntime) {
    let source = Bytes::failing_after(BOARDS, 7, 3);
    let wanted = (Err(LeadFault::Read), b"".as_slice());
    expect_made(
        &rt,
        rt.alloc(),
        source,
        3000,
        (OPTIONS, &ShowsNone::Finds),
        wanted,
    );
}
