//! Tournaments with solvers that answer for another entry, with devices that fail, and with boards of one deal; whole
//! ones are among `worked_cases`.

ghost use Rattle.lease_book.specs.Books.{AreTries};

use crate::expect::{expect_bytes, expect_eq};
use crate::lease_tests::certificates::{Answer, NT};
use crate::lease_tests::twins::{add, leases};
use arrayvec::ArrayVec;
use cards::{Buffer, Bytes, Layout, Seat, Side, Trump};
use certificate_graph::{Bundle, Claim, Solver};
use partition_solver::Partition;
use plain_runs::{Request, make_single, replay_tables};
use std::alloc::{AllocError, Global};
use std::process::Abort;
use std::test::Fail;
use tables::Report;
use test_support::idle::{FindsNothing, StandsStill};
use test_support::texts::joined;
use tournaments::MakeFault;

/// A solver that gives the answer for North in no-trump, whatever it is asked.
#[derive(Drop)]
struct OneAnswer;

/// What is found for North, claimed for another declarer, whose side has North's graph.
fn claimed_for(declarer: Seat, bundle: Bundle) -> Option<Bundle> {
    let claim = bundle.claim_for(Seat::North)?;
    let Bundle { ns, ew, claims: _ } = bundle;
    let mut claims = ArrayVec::new();
    let _ = claims.try_push(Claim { declarer, ..claim });
    Some(match declarer.side() {
        Side::NorthSouth => Bundle { ns, ew, claims },
        Side::EastWest => Bundle {
            ns: ew,
            ew: ns,
            claims,
        },
    })
}

impl Solver for OneAnswer {
    fn solve(
        &self,
        alloc: Global,
        layout: &Layout,
        declarers: &[Seat],
        _trump: Trump,
        budget: u64,
    ) -> Result<Option<Bundle>, AllocError> {
        let found = Partition::new().solve(alloc, layout, &[Seat::North], Trump::Nt, budget)?;
        let (Some(declarer), Some(bundle)) = (declarers.first(), found) else {
            return Ok(None);
        };
        Ok(claimed_for(*declarer, bundle))
    }
}

/// How many steps the solver has for an entry.
pub(crate) const BUDGET: u64 = 10_000_000;

/// What is reported of a board that is not complete.
pub(crate) const NOT_COMPLETE: Report = Report {
    boards: 1,
    complete: 0,
};

/// The board of four hands of one suit each.
pub(crate) const ONE_SUIT_EACH: &[u8] = b"[Board \"1\"]
[Deal \"N:AKQJT98765432... .AKQJT98765432.. ..AKQJT98765432. ...AKQJT98765432\"]
";

/// The table of the four suits with this line in place of its rows.
pub(crate) fn incomplete(alloc: Global, line: &[u8]) -> Result<Vec<u8>, AllocError> {
    joined(alloc, &[b"% PBN 2.1\n", ONE_SUIT_EACH, line, b"\n"])
}

/// What is made by the solver, with `tries` tries an entry, and how many calls the book had. A call of `make_single`
/// itself carries its promises to the end of the caller.
fn made_by<S: Solver>(
    alloc: Global,
    source: &mut Bytes<'_>,
    sink: &mut Buffer,
    tries: u32,
    solver: &S,
) -> Result<(Report, usize), MakeFault>
    requires { AreTries tries }
{
    let made = make_single(
        alloc,
        source,
        sink,
        600,
        tries,
        BUDGET,
        solver,
        &StandsStill,
    );
    let (report, book) = made?;
    Ok((report, book.history().len()))
}

/// What is made of a list of requests, where a lease has so long a term, with one try an entry.
pub(crate) fn replayed(
    alloc: Global,
    text: &[u8],
    term: u64,
    requests: &[Request],
    sink: &mut Buffer,
) -> Result<Report, MakeFault> {
    replay_tables(alloc, text, term, 1, requests, sink)
}

/// The answer counts for its own entry alone; the others are leased three times, and handed in as often.
#[test]
fn answers_for_another_entry(rt: HostRuntime) -> Result<(), Fail> {
    let written = incomplete(rt.alloc(), b"; table incomplete: 1 of 20\n")?;
    let mut source = Bytes::new(ONE_SUIT_EACH, 7);
    let mut sink = Buffer::new(rt.alloc(), 2000, 5).expect(&rt, "memory for a sink");
    let made = made_by(rt.alloc(), &mut source, &mut sink, 3, &OneAnswer);
    expect_bytes(&rt, sink.bytes(), written.as_slice());
    expect_eq(&rt, &made, &Ok((NOT_COMPLETE, 118)));
    Ok(())
}

/// Nothing is made of the source, by this fault, and the sink has this beginning.
fn expect_fault(
    rt: &impl Abort,
    alloc: Global,
    source: &mut Bytes<'_>,
    room: usize,
    wanted: MakeFault,
    written: &[u8],
) {
    let mut sink = Buffer::new(alloc, room, 7).expect(rt, "memory for a sink");
    let made = made_by(alloc, source, &mut sink, 1, &FindsNothing);
    expect_eq(rt, &made, &Err(wanted));
    expect_bytes(rt, sink.bytes(), written);
}

/// Sources that fail after so many calls, and sinks with so much room.
#[test]
fn torn_sources_and_full_sinks(rt: HostRuntime) -> Result<(), Fail> {
    let alloc = rt.alloc();
    for calls in [0, 1, 8, 12] {
        let mut source = Bytes::failing_after(ONE_SUIT_EACH, 7, calls);
        expect_fault(&rt, alloc, &mut source, 400, MakeFault::Read, b"");
    }
    let whole = incomplete(alloc, b"; table incomplete: 0 of 20\n")?;
    for room in [0, 1, 9, 10, 33, 129] {
        let mut source = Bytes::new(ONE_SUIT_EACH, 100);
        let written = whole.as_slice().get(..room).expect(&rt, "so long a text");
        expect_fault(&rt, alloc, &mut source, room, MakeFault::Write, written);
    }
    Ok(())
}

/// Two boards of four hands of one suit each.
const TWO_BOARDS: &[u8] = b"[Board \"1\"]
[Deal \"N:AKQJT98765432... .AKQJT98765432.. ..AKQJT98765432. ...AKQJT98765432\"]

[Board \"2\"]
[Deal \"N:AKQJT98765432... .AKQJT98765432.. ..AKQJT98765432. ...AKQJT98765432\"]
";

/// Their tables, where each has one number.
const ONE_NUMBER_EACH: &[u8] = b"% PBN 2.1
[Board \"1\"]
[Deal \"N:AKQJT98765432... .AKQJT98765432.. ..AKQJT98765432. ...AKQJT98765432\"]
; table incomplete: 1 of 20

[Board \"2\"]
[Deal \"N:AKQJT98765432... .AKQJT98765432.. ..AKQJT98765432. ...AKQJT98765432\"]
; table incomplete: 1 of 20

";

/// North and South need nothing.
const NOTHING: &[u8] = b"DDC 1
trump NT
side NS
nodes 0
";

/// Without trumps East leads a heart to each trick, to which nobody else has one.
const ALL_HEARTS: &[u8] = b"DDC 1
trump NT
side EW
nodes 13
E 13 13.0.0.0/ 0.13.0.0/ 0.0.13.0/ 0.0.0.13/ Hx(DxCx(Sx{E1}))
E 12 12.0.0.0/ 0.12.0.0/ 0.0.12.0/ 0.0.0.12/ Hx(DxCx(Sx{E2}))
E 11 11.0.0.0/ 0.11.0.0/ 0.0.11.0/ 0.0.0.11/ Hx(DxCx(Sx{E3}))
E 10 10.0.0.0/ 0.10.0.0/ 0.0.10.0/ 0.0.0.10/ Hx(DxCx(Sx{E4}))
E 9 9.0.0.0/ 0.9.0.0/ 0.0.9.0/ 0.0.0.9/ Hx(DxCx(Sx{E5}))
E 8 8.0.0.0/ 0.8.0.0/ 0.0.8.0/ 0.0.0.8/ Hx(DxCx(Sx{E6}))
E 7 7.0.0.0/ 0.7.0.0/ 0.0.7.0/ 0.0.0.7/ Hx(DxCx(Sx{E7}))
E 6 6.0.0.0/ 0.6.0.0/ 0.0.6.0/ 0.0.0.6/ Hx(DxCx(Sx{E8}))
E 5 5.0.0.0/ 0.5.0.0/ 0.0.5.0/ 0.0.0.5/ Hx(DxCx(Sx{E9}))
E 4 4.0.0.0/ 0.4.0.0/ 0.0.4.0/ 0.0.0.4/ Hx(DxCx(Sx{E10}))
E 3 3.0.0.0/ 0.3.0.0/ 0.0.3.0/ 0.0.0.3/ Hx(DxCx(Sx{E11}))
E 2 2.0.0.0/ 0.2.0.0/ 0.0.2.0/ 0.0.0.2/ Hx(DxCx(Sx{E12}))
E 1 1.0.0.0/ 0.1.0.0/ 0.0.1.0/ 0.0.0.1/ Hx(DxCx(Sx{}))
";

/// What shows that North takes no trick in no-trump, handed in under the first lease.
fn hand_in(alloc: Global) -> Result<Request, AllocError> {
    let answer = Answer {
        k: 0,
        declarer: Vec::from_slice(alloc, NOTHING)?,
        defenders: Vec::from_slice(alloc, ALL_HEARTS)?,
    };
    Ok(answer.hand_in(1, NT))
}

/// What is published for one of two boards of one deal is known of both.
#[test]
fn boards_of_one_deal_share_a_number(rt: HostRuntime) {
    let alloc = rt.alloc();
    let mut requests = leases(&rt, alloc, 1);
    let request = hand_in(alloc).expect(&rt, "memory for a request");
    add(&rt, &mut requests, request);
    let mut sink = Buffer::new(alloc, 2000, 5).expect(&rt, "memory for a sink");
    let made = replayed(alloc, TWO_BOARDS, 600, requests.as_slice(), &mut sink);
    let wanted = Report {
        boards: 2,
        complete: 0,
    };
    expect_eq(&rt, &made, &Ok(wanted));
    expect_bytes(&rt, sink.bytes(), ONE_NUMBER_EACH);
}
