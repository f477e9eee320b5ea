//! The tables of whole lists of requests.

use crate::expect::{expect_bytes, expect_eq};
use crate::lease_tests::certificates::{Answer, NT};
use crate::lease_tests::slow_book::TRUMPS;
use crate::lease_tests::twins::{add, leases};
use crate::tournament_tests::{BUDGET, NOT_COMPLETE, ONE_SUIT_EACH, incomplete, replayed};
use cards::{Buffer, Seat, Trump};
use certificate_graph::{Answer as Found, Graph, Solver};
use lease_book::Entry;
use partition_solver::Partition;
use pbn_deals::{PbnFault, read_layout};
use plain_runs::Request;
use std::alloc::Global;
use std::process::Abort;
use std::test::Fail;
use tables::Report;
use test_support::deals::FOUR_SUITS;
use test_support::four_suits::TABLE;
use tournaments::MakeFault;

/// Each declarer, with the number of the first lease of its entries.
const DECLARERS: [(Seat, u64); 4] = [
    (Seat::North, 1),
    (Seat::South, 6),
    (Seat::East, 11),
    (Seat::West, 16),
];

/// The text of a graph.
fn text_of(rt: &impl Abort, alloc: Global, graph: &Graph) -> Vec<u8> {
    let mut sink = Buffer::new(alloc, 20000, 20000).expect(rt, "memory for a sink");
    graph.write(&mut sink).expect(rt, "room for a graph");
    Vec::from_slice(alloc, sink.bytes()).expect(rt, "memory for a text")
}

/// What the solver finds for an entry of the four hands of one suit each.
fn found(rt: &impl Abort, alloc: Global, declarer: Seat, trump: Trump) -> Found {
    let layout = read_layout(FOUR_SUITS.as_bytes()).expect(rt, "a deal");
    let found = Partition::new().solve(alloc, &layout, &[declarer], trump, BUDGET);
    let bundle = found.expect(rt, "memory to search").expect(rt, "a bundle");
    let answer = bundle.answer_for(alloc, declarer);
    answer
        .expect(rt, "memory for an answer")
        .expect(rt, "an answer")
}

/// The hand-in of the solver's answer for an entry of the four hands of one suit each.
fn answered(rt: &impl Abort, alloc: Global, lease: u64, declarer: Seat, trump: Trump) -> Request {
    let found = found(rt, alloc, declarer, trump);
    let answer = Answer {
        k: found.k,
        declarer: text_of(rt, alloc, &found.declarer),
        defenders: text_of(rt, alloc, &found.defenders),
    };
    answer.hand_in(
        lease,
        Entry {
            board: 0,
            declarer,
            trump,
        },
    )
}

/// What is written of the four hands of one suit each after these requests.
fn expect_replayed(
    rt: &impl Abort,
    alloc: Global,
    requests: &[Request],
    wanted: Report,
    written: &[u8],
) {
    let mut sink = Buffer::new(alloc, 400, 7).expect(rt, "memory for a sink");
    let made = replayed(alloc, ONE_SUIT_EACH, 10, requests, &mut sink);
    expect_eq(rt, &made, &Ok(wanted));
    expect_bytes(rt, sink.bytes(), written);
}

/// Twenty leases, and the twenty answers of the solver.
#[test]
fn all_answers(rt: HostRuntime) {
    let mut requests = leases(&rt, rt.alloc(), 20);
    for (declarer, first) in DECLARERS {
        for (place, trump) in TRUMPS.as_slice().iter().enumerate() {
            let lease = first.wrapping_add(place as u64);
            let request = answered(&rt, rt.alloc(), lease, declarer, *trump);
            add(&rt, &mut requests, request);
        }
    }
    let complete = Report {
        boards: 1,
        complete: 1,
    };
    expect_replayed(
        &rt,
        rt.alloc(),
        requests.as_slice(),
        complete,
        TABLE.as_bytes(),
    );
}

/// After these requests the table is incomplete, as the line says.
fn expect_incomplete(rt: &impl Abort, alloc: Global, requests: &[Request], line: &[u8]) {
    let written = incomplete(alloc, line).expect(rt, "memory for a text");
    expect_replayed(rt, alloc, requests, NOT_COMPLETE, written.as_slice());
}

/// A lease, and a hand-in that is good for another deal.
#[test]
fn foreign_answers(rt: HostRuntime) -> Result<(), Fail> {
    let mut requests = leases(&rt, rt.alloc(), 1);
    let answer = Answer::of(rt.alloc(), Seat::North, Seat::North, Trump::Nt)?;
    add(&rt, &mut requests, answer.hand_in(1, NT));
    let line = b"; table incomplete: 0 of 20\n";
    expect_incomplete(&rt, rt.alloc(), requests.as_slice(), line);
    Ok(())
}

/// Adds the hand-in of the solver's answer for a declarer in no-trump.
fn add_answered(
    rt: &impl Abort,
    alloc: Global,
    requests: &mut Vec<Request>,
    lease: u64,
    declarer: Seat,
) {
    let request = answered(rt, alloc, lease, declarer, Trump::Nt);
    add(rt, requests, request);
}

/// A good hand-in counts though its lease ran out. The same again does not, and one without a lease never does.
#[test]
fn late_and_repeated_answers(rt: HostRuntime) {
    let alloc = rt.alloc();
    let mut requests = Vec::new(alloc);
    add_answered(&rt, alloc, &mut requests, 1, Seat::North);
    add(&rt, &mut requests, Request::Lease { now: 0 });
    add(&rt, &mut requests, Request::Expire { now: 10 });
    add_answered(&rt, alloc, &mut requests, 1, Seat::North);
    add_answered(&rt, alloc, &mut requests, 1, Seat::North);
    add_answered(&rt, alloc, &mut requests, 2, Seat::South);
    let line = b"; table incomplete: 1 of 20\n";
    expect_incomplete(&rt, alloc, requests.as_slice(), line);
}

/// A text, how much room the sink has, and what comes of them without requests: the sink is full, or the text is
/// refused.
const REFUSED: [(&[u8], usize, MakeFault); 6] = [
    (ONE_SUIT_EACH, 0, MakeFault::Write),
    (ONE_SUIT_EACH, 1, MakeFault::Write),
    (ONE_SUIT_EACH, 10, MakeFault::Write),
    (ONE_SUIT_EACH, 33, MakeFault::Write),
    (ONE_SUIT_EACH, 129, MakeFault::Write),
    (b"{", 0, MakeFault::Pbn(PbnFault::OpenComment { line: 1 })),
];

#[test]
fn no_tables(rt: HostRuntime) -> Result<(), Fail> {
    for (text, room, wanted) in REFUSED {
        let mut sink = Buffer::new(rt.alloc(), room, 7)?;
        let made = replayed(rt.alloc(), text, 10, &[], &mut sink);
        expect_eq(&rt, &made, &Err(wanted));
        expect_eq(&rt, &sink.bytes().len(), &room);
    }
    Ok(())
}
