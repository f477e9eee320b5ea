//! A list of seven requests whose replies were worked out by hand, taken in turn by two chairs.

ghost use Rattle.lease_desk.specs.Desks.{AreChairsOf};
ghost use Rattle.std.specs.Prelude.{◌<◌, length};

use super::asking::{ask, expect_replies, expect_told_once};
use crate::expect::expect_eq;
use crate::lease_tests::certificates::{Answer, NORTH_HIGH, NT, SPADES, boards};
use cards::{Seat, Trump};
use lease_book::{BookFault, Event, Reply};
use lease_desk::{Chair, Closed, Desk, Receipt};
use plain_runs::{Request, replay};
use std::alloc::{AllocError, Global};
use std::process::Abort;
use std::sync::Wait;
use std::test::Fail;
use test_support::idle::LetsPass;

/// The replies, where a lease has ten moments and an entry two tries.
const REPLIES: [Reply; 7] = [
    Reply::Given {
        lease: 1,
        entry: NT,
        deadline: 10,
    },
    Reply::Freed(0),
    Reply::Freed(1),
    Reply::Given {
        lease: 2,
        entry: NT,
        deadline: 20,
    },
    Reply::Published(1),
    Reply::AlreadyPublished,
    Reply::Given {
        lease: 3,
        entry: SPADES,
        deadline: 21,
    },
];

/// The request in this place of the list: the leases of the first entry both hand in what shows its trick.
fn worked_request(alloc: Global, place: usize) -> Result<Request, AllocError> {
    Ok(match place {
        0 => Request::Lease { now: 0 },
        1 => Request::Expire { now: 9 },
        2 => Request::Expire { now: 10 },
        3 => Request::Lease { now: 10 },
        4 => Answer::of(alloc, Seat::North, Seat::North, Trump::Nt)?.hand_in(1, NT),
        5 => Answer::of(alloc, Seat::North, Seat::North, Trump::Nt)?.hand_in(2, NT),
        _ => Request::Lease { now: 11 },
    })
}

/// Asks them at the desk, from one chair after another, and turns the chairs round.
fn take_turns<R: Abort + Wait>(
    rt: &R,
    alloc: Global,
    desk: &Desk,
    chairs: &mut [Chair],
    requests: &[Request],
)
    requires chairs { AreChairsOf desk.now chairs.old }
    requires some { 0 < length chairs.old }
    ensures { AreChairsOf desk.now chairs.new }
{
    for (turn, request) in requests.iter().enumerate() {
        let seat = turn % chairs.len();
        let told = ask(rt, alloc, desk, &mut chairs[seat], request, &LetsPass);
        expect_eq(rt, &told.place, &(turn as u64));
    }
    chairs.reverse();
}

/// The receipts are for these places, in their order.
fn expect_places(rt: &impl Abort, receipts: &[Receipt], places: &[u64]) {
    expect_eq(rt, &receipts.len(), &places.len());
    for (receipt, place) in receipts.iter().zip(places) {
        expect_eq(rt, &receipt.place, place);
    }
}

/// The second chair and then the first have the receipts for every other place.
fn expect_shares(rt: &impl Abort, chairs: &[Chair]) {
    let shares: [(usize, &[u64]); 2] = [(1, &[1, 3, 5]), (0, &[0, 2, 4, 6])];
    expect_eq(rt, &chairs.len(), &shares.len());
    for (chair, (number, places)) in chairs.iter().zip(&shares) {
        expect_eq(rt, &chair.number(), number);
        expect_places(rt, chair.receipts(), places);
    }
}

/// The requests of the list.
fn worked_requests(alloc: Global) -> Result<Vec<Request>, AllocError> {
    let mut requests = Vec::new(alloc);
    for place in 0..7 {
        requests.push(worked_request(alloc, place)?)?;
    }
    Ok(requests)
}

/// Has two chairs take turns, and closes the desk with the second before the first.
fn take_list<R: Abort + Wait>(
    rt: &R,
    alloc: Global,
    requests: &[Request],
) -> Result<Closed, BookFault> {
    let boards = boards(rt, alloc, &[Some(NORTH_HIGH)]);
    let (desk, mut chairs) = Desk::open(rt, alloc, boards, 10, 2, 2)?;
    take_turns(rt, alloc, &desk, chairs.as_mut_slice(), requests);
    Ok(desk.close(rt, chairs))
}

/// The history is the one of a book to which the list is replayed.
fn expect_replayed(rt: &impl Abort, alloc: Global, history: &[Event], requests: &[Request]) {
    let boards = boards(rt, alloc, &[Some(NORTH_HIGH)]);
    let (book, _) = replay(alloc, boards, 10, 2, requests).expect(rt, "a book");
    expect_eq(rt, &history, &book.history());
}

#[test]
fn two_chairs_take_turns(rt: HostRuntime) -> Result<(), Fail> {
    let alloc = rt.alloc();
    let requests = worked_requests(alloc)?;
    let closed = take_list(&rt, alloc, requests.as_slice())?;
    expect_replayed(&rt, alloc, closed.book.history(), requests.as_slice());
    expect_replies(&rt, closed.book.history(), &REPLIES);
    expect_told_once(&rt, alloc, &closed);
    expect_shares(&rt, closed.chairs.as_slice());
    Ok(())
}
