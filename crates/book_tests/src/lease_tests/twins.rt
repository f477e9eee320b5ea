//! Boards with the same deal: an entry and its twins are leased as one, and have one number.

use super::certificates::{Answer, EAST_HIGH, NORTH_HIGH, NT, SPADES, boards};
use super::long_list::{compare_replay, event_of};
use super::slow_book::Rules;
use crate::expect::expect_eq;
use cards::{Seat, Trump};
use lease_book::{Book, Entry, Reply};
use plain_runs::{Request, replay};
use std::alloc::{AllocError, Global};
use std::process::Abort;
use std::test::Fail;

/// North declares no-trump on the second board.
const NT_AGAIN: Entry = Entry { board: 1, ..NT };

/// The layouts of the boards, which all have the same name.
const LAYOUTS: [Option<&str>; 6] = [
    Some(NORTH_HIGH),
    None,
    Some(EAST_HIGH),
    Some(NORTH_HIGH),
    None,
    Some(EAST_HIGH),
];

/// The number of the first board with the deal of each, and the number of one that isn't there.
const FIRSTS: [usize; 7] = [0, 1, 2, 0, 4, 2, 6];

/// A twin is told by the layouts alone. An entry of a board without a deal, or of one that isn't there, is told as it
/// is.
#[test]
fn least_twins(rt: HostRuntime) -> Result<(), Fail> {
    let known = boards(&rt, rt.alloc(), &LAYOUTS);
    let book = Book::new(rt.alloc(), known, 10, 1)?;
    for (board, first) in FIRSTS.iter().enumerate() {
        let twin = book.twin(Entry { board, ..SPADES });
        let wanted = Entry {
            board: *first,
            ..SPADES
        };
        expect_eq(&rt, &twin, &wanted);
    }
    Ok(())
}

/// Adds a request.
pub fn add(rt: &impl Abort, requests: &mut Vec<Request>, request: Request) {
    requests.push(request).expect(rt, "memory for a request");
}

/// Requests for `count` leases.
pub fn leases(rt: &impl Abort, alloc: Global, count: usize) -> Vec<Request> {
    let mut requests = Vec::new(alloc);
    for _lease in 0..count {
        add(rt, &mut requests, Request::Lease { now: 0 });
    }
    requests
}

/// Twenty leases of the first board, none of its twin, and two hand-ins under the first lease.
fn requests(rt: &impl Abort, alloc: Global) -> Vec<Request> {
    let mut requests = leases(rt, alloc, 21);
    for named in [NT_AGAIN, NT] {
        let answer = Answer::of(alloc, Seat::North, Seat::North, Trump::Nt);
        add(
            rt,
            &mut requests,
            answer.expect(rt, "memory for an answer").hand_in(1, named),
        );
    }
    requests
}

/// Whether it is a lease of the first board.
fn is_of_first_board(reply: &Reply) -> bool {
    match reply {
        Reply::Given { entry, .. } => entry.board == 0,
        _ => false,
    }
}

#[test]
fn two_equal_boards(rt: HostRuntime) -> Result<(), Fail> {
    let requests = requests(&rt, rt.alloc());
    let known = boards(&rt, rt.alloc(), &[Some(NORTH_HIGH), Some(NORTH_HIGH)]);
    let (book, replies) = replay(rt.alloc(), known, 10, 1, requests.as_slice())?;
    let mut leases = 0usize;
    for reply in replies.iter() {
        if is_of_first_board(reply) {
            leases = leases.wrapping_add(1);
        }
    }
    expect_eq(&rt, &leases, &20);
    let last = [Reply::Nothing, Reply::OtherEntry, Reply::Published(1)];
    expect_eq(&rt, &replies.get(20..), &Some(last.as_slice()));
    for entry in [NT, NT_AGAIN] {
        expect_eq(&rt, &book.published(entry), &Some(1));
    }
    Ok(())
}

/// The entries that are handed in, each under which lease and whether it is right.
const HAND_INS: [(u64, Entry, bool); 5] = [
    (1, NT, false),
    (1, NT, true),
    (1, NT_AGAIN, true),
    (2, NT, true),
    (2, SPADES, true),
];

/// The request that hands in for this entry under this lease what is right, or lacks a text.
fn hand_in(
    alloc: Global,
    (lease, entry, is_right): (u64, Entry, bool),
) -> Result<Request, AllocError> {
    let mut answer = Answer::of(alloc, Seat::North, entry.declarer, entry.trump)?;
    if !is_right {
        answer.defenders.clear();
    }
    Ok(answer.hand_in(lease, entry))
}

/// Two leases, and then the hand-ins in the order that has this number, of 120.
fn in_order(rt: &impl Abort, alloc: Global, order: usize) -> Vec<Request> {
    let mut requests = leases(rt, alloc, 2);
    let mut left = Vec::from_slice(alloc, &HAND_INS).expect(rt, "memory for a list");
    let mut number = order;
    for _ in 0..HAND_INS.len() {
        let size = left.len();
        if size == 0 {
            break;
        }
        let next = left.remove(number % size);
        number /= size;
        let request = hand_in(alloc, next).expect(rt, "memory for an answer");
        add(rt, &mut requests, request);
    }
    requests
}

/// The requests are replied to, and published, as the search has it.
fn expect_as_searched(rt: &impl Abort, alloc: Global, rules: Rules, requests: &[Request]) {
    let known = boards(rt, alloc, &[Some(NORTH_HIGH), Some(NORTH_HIGH)]);
    let mut past = Vec::new(alloc);
    for request in requests {
        let event = event_of(rt, alloc, known.as_slice(), rules, past.as_slice(), request);
        past.push(event).expect(rt, "memory for an event");
    }
    compare_replay(rt, alloc, known, rules, requests, past.as_slice());
}

#[test]
fn hand_ins_in_every_order(rt: HostRuntime) {
    let rules = Rules {
        firsts: &[Some(0), Some(0)],
        term: 10,
        tries: 1,
    };
    for order in 0..120 {
        let requests = in_order(&rt, rt.alloc(), order);
        expect_eq(&rt, &requests.len(), &7);
        expect_as_searched(&rt, rt.alloc(), rules, requests.as_slice());
    }
}
