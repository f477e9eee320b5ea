//! Tables of an input that fails, of a solver that has one proof for all, and what is reported of tables.

use crate::expect::{ROOM, buffer, expect_bytes, expect_eq, expect_run, got};
use crate::pages::tables_by;
use arrayvec::ArrayVec;
use board_subcommands::table::TableOptions;
use cards::{Buffer, Bytes, Layout, Seat, Trump};
use certificate_graph::{Bundle, Claim, Graph, Solver};
use command_line::Subcommand;
use partition_solver::Partition;
use pbn_deals::PbnFault;
use plain_runs::make_single;
use run_ends::Status;
use settings_support::one_of_each;
use std::alloc::{AllocError, Global};
use std::process::Abort;
use std::sync::Arc;
use std::sync::atomic::AtomicU64;
use std::sync::atomic::Ordering::SeqCst;
use tables::Report;
use test_support::graphs::{ACE_WINS, NOTHING};
use test_support::idle::{FindsNothing, StandsStill};
use tournaments::MakeFault;

const TERM: u64 = 600;

const TRIES: u32 = 3;

const STEPS: u64 = 10_000_000;

/// The options of the tables of the input, with a solver, a checker and `batch` leases at a time.
pub fn table_options(rt: &impl Abort, progress: bool, batch: usize) -> TableOptions<'static> {
    let settings = got(rt, one_of_each(TRIES, STEPS)).with_term(TERM);
    TableOptions {
        progress,
        ..tables_by(got(rt, settings.with_batch(batch)))
    }
}

/// The tables of the input by these options.
pub fn tables(rt: &impl Abort, progress: bool, batch: usize) -> Subcommand<'static> {
    Subcommand::Table(table_options(rt, progress, batch))
}

/// A file as a tournament writes it: CR LF, a comment over a blank line, words in small letters, section data with
/// brackets and quotes, a game without a Deal tag.
const CR_LF: &[u8] = b"% PBN 2.1\r
[Event \"x\"]\r
[board \"7\"]\r
{ a comment\r
\r
[Deal \"N:- - - -\"] }\r
[Deal \"e:.akqjt98765432.. ..23456789tjqka. ...AKQJT98765432 AKQJT98765432...\"]\r
[Auction \"N\"]\r
1C Pass {strong [x} Pass Pass\r
\r
[Event \"no deal\"]\r
\r
[Board \"8\"]\r
[Deal \"N:AKQJT98765432... - - -\"]\r
";

const OF_CR_LF: &str = "% PBN 2.1
[Board \"7\"]
[Deal \"N:AKQJT98765432... .AKQJT98765432.. ..AKQJT98765432. ...AKQJT98765432\"]
; table incomplete: 0 of 20

[Board \"8\"]
[Deal \"?\"]
; table incomplete: 0 of 20

";

/// Makes the tables of an input.
fn expect_made(
    rt: &impl Abort,
    alloc: Global,
    mut input: Bytes<'_>,
    output: &mut Buffer,
    wanted: Result<Report, MakeFault>,
) {
    let made = make_single(
        alloc,
        &mut input,
        output,
        TERM,
        TRIES,
        STEPS,
        &FindsNothing,
        &StandsStill,
    );
    expect_eq(rt, &made.map(|made| made.0), &wanted);
}

/// An input that fails at some call, after any number of bytes, or that is refused, leaves the output as it was.
#[test]
fn reports(rt: HostRuntime) {
    let alloc = rt.alloc();
    let mut output = buffer(&rt, alloc, (ROOM, 3));
    for calls in 0..CR_LF.len() as u64 {
        let torn = Bytes::failing_after(CR_LF, 1, calls);
        expect_made(&rt, alloc, torn, &mut output, Err(MakeFault::Read));
        expect_bytes(&rt, output.bytes(), b"");
    }
    let report = Report {
        boards: 2,
        complete: 0,
    };
    expect_made(&rt, alloc, Bytes::new(CR_LF, 5), &mut output, Ok(report));
    let refused = MakeFault::Pbn(PbnFault::OpenComment { line: 2 });
    expect_made(&rt, alloc, Bytes::new(b"\n{", 5), &mut output, Err(refused));
    expect_bytes(&rt, output.bytes(), OF_CR_LF.as_bytes());
}

/// The graph of a text.
fn graph_of(alloc: Global, text: &[u8]) -> Result<Arc<Graph>, AllocError> {
    match Graph::read(alloc, text) {
        Ok(graph) => Ok(Arc::new(alloc, graph)?),
        Err(_) => Err(AllocError),
    }
}

/// A solver that has one proof, of the trick of North's ace, and claims it for every entry.
#[derive(Drop)]
struct OneProof;

impl Solver for OneProof {
    fn solve(
        &self,
        alloc: Global,
        _layout: &Layout,
        declarers: &[Seat],
        _trump: Trump,
        _budget: u64,
    ) -> Result<Option<Bundle>, AllocError> {
        let mut claims = ArrayVec::new();
        for declarer in declarers {
            let _ = claims.try_push(Claim {
                declarer: *declarer,
                k: 1,
                declarer_root: Some(0),
                defenders_root: None,
            });
        }
        Ok(Some(Bundle {
            ns: graph_of(alloc, ACE_WINS.as_bytes())?,
            ew: graph_of(alloc, NOTHING.as_bytes())?,
            claims,
        }))
    }
}

/// A board with four hands of one suit each.
const ONE_SUIT_EACH: &[u8] = b"[Board \"1\"]
[Deal \"N:AKQJT98765432... .AKQJT98765432.. ..AKQJT98765432. ...AKQJT98765432\"]
";

const OF_ONE_SUIT_EACH: &str = "% PBN 2.1
[Board \"1\"]
[Deal \"N:AKQJT98765432... .AKQJT98765432.. ..AKQJT98765432. ...AKQJT98765432\"]
; table incomplete: 0 of 20

";

/// Each of the twenty results is tried three times, and each answer is refused.
const REFUSED: &str =
    "ddfarm: note: 1 table is incomplete: 0 searches ran out of steps, 0 out of memory, 60 answers were refused
  each missing result was tried as often as --tries says
";

/// A proof for another deal shows no number.
#[test]
fn one_proof_for_every_entry(rt: HostRuntime) {
    let wanted = (Status::Incomplete, OF_ONE_SUIT_EACH, REFUSED);
    for batch in [1, 20] {
        let run = tables(&rt, false, batch);
        expect_run(&rt, rt.alloc(), run, &OneProof, ONE_SUIT_EACH, ROOM, wanted);
    }
}

/// A solver that has no memory, or none for North's results.
#[derive(Drop)]
struct LacksMemory {
    for_all: bool,
}

impl Solver for LacksMemory {
    fn solve(
        &self,
        _alloc: Global,
        _layout: &Layout,
        declarers: &[Seat],
        _trump: Trump,
        _budget: u64,
    ) -> Result<Option<Bundle>, AllocError> {
        if self.for_all || declarers.contains(&Seat::North) {
            Err(AllocError)
        } else {
            Ok(None)
        }
    }
}

const WITHOUT_MEMORY: &str =
    "ddfarm: note: 1 table is incomplete: 0 searches ran out of steps, 60 out of memory, 0 answers were refused
  each missing result was tried as often as --tries says; use fewer --solvers or give more memory
";

const NORTH_WITHOUT_MEMORY: &str =
    "ddfarm: note: 1 table is incomplete: 45 searches ran out of steps, 15 out of memory, 0 answers were refused
  each missing result was tried as often as --tries says; --budget gives a search more steps; \
use fewer --solvers or give more memory
";

/// The second line says what helps the searches that found nothing.
#[test]
fn searches_without_memory(rt: HostRuntime) {
    for (for_all, told) in [(true, WITHOUT_MEMORY), (false, NORTH_WITHOUT_MEMORY)] {
        let solver = LacksMemory { for_all };
        let wanted = (Status::Incomplete, OF_ONE_SUIT_EACH, told);
        let run = tables(&rt, false, 1);
        expect_run(&rt, rt.alloc(), run, &solver, ONE_SUIT_EACH, ROOM, wanted);
    }
}

/// A solver that finds all results but West's at no-trump. The first search for that runs out of steps, the second out
/// of memory, and the third claims what it doesn't show.
#[derive(Drop)]
struct LacksOne {
    solver: Partition,
    searches: AtomicU64,
}

impl Solver for LacksOne {
    fn solve(
        &self,
        alloc: Global,
        layout: &Layout,
        declarers: &[Seat],
        trump: Trump,
        budget: u64,
    ) -> Result<Option<Bundle>, AllocError> {
        if trump != Trump::Nt || !declarers.contains(&Seat::West) {
            return self.solver.solve(alloc, layout, declarers, trump, budget);
        }
        match self.searches.fetch_add(1, SeqCst) {
            0 => Ok(None),
            1 => Err(AllocError),
            _ => OneProof.solve(alloc, layout, declarers, trump, budget),
        }
    }
}

const ONE_OF_EACH: &str =
    "ddfarm: note: 1 table is incomplete: 1 search ran out of steps, 1 out of memory, 1 answer was refused
  each missing result was tried as often as --tries says; --budget gives a search more steps; \
use fewer --solvers or give more memory
";

const ALL_BUT_ONE: &str = "% PBN 2.1
[Board \"1\"]
[Deal \"N:AKQJT98765432... .AKQJT98765432.. ..AKQJT98765432. ...AKQJT98765432\"]
; table incomplete: 19 of 20

";

/// A single search and a single answer have the words for one.
#[test]
fn one_search_of_each_end(rt: HostRuntime) {
    let solver = LacksOne {
        solver: Partition::new(),
        searches: AtomicU64::new(0),
    };
    let wanted = (Status::Incomplete, ALL_BUT_ONE, ONE_OF_EACH);
    let run = tables(&rt, false, 1);
    expect_run(&rt, rt.alloc(), run, &solver, ONE_SUIT_EACH, ROOM, wanted);
}
