//! A book, and a list of requests whose replies were worked out by hand.

use crate::outcomes::{Outcome, Told};
use crate::spending::Spending;
use cards::{Seat, Suit, Trump};
use lease_book::{Book, BookFault, Entry, Reply};
use pbn_deals::{Board, BoardName, read_layout};
use plain_runs::{GraphText, Request, replay};
use std::alloc::{AllocError, Global};
use test_support::deals::ACE;
use test_support::graphs::{ACE_WINS, NOTHING};

/// North declares no-trump on the board: the first entry.
pub const NT: Entry = Entry {
    board: 0,
    declarer: Seat::North,
    trump: Trump::Nt,
};

/// The second entry.
const SPADES: Entry = Entry {
    trump: Trump::Suit(Suit::Spades),
    ..NT
};

/// The replies to the list, where a lease has ten moments and an entry two tries.
pub const REPLIES: [Reply; 7] = [
    Reply::Given {
        lease: 1,
        entry: NT,
        deadline: 10,
    },
    Reply::Freed(0),
    Reply::Freed(1),
    Reply::Given {
        lease: 2,
        entry: NT,
        deadline: 20,
    },
    Reply::Published(1),
    Reply::AlreadyPublished,
    Reply::Given {
        lease: 3,
        entry: SPADES,
        deadline: 21,
    },
];

/// The board on which North has the ace.
pub fn board(alloc: Global) -> Result<Vec<Board>, AllocError> {
    let mut boards = Vec::new(alloc);
    boards.push(Board {
        name: BoardName::new(Vec::new(alloc)),
        deal: read_layout(ACE.as_bytes()).ok(),
    })?;
    Ok(boards)
}

/// Hands in what shows North's trick.
fn hand_in(alloc: Global, lease: u64) -> Result<Request, AllocError> {
    Ok(Request::HandIn {
        lease,
        entry: NT,
        k: 1,
        declarer: GraphText::new(Vec::from_slice(alloc, ACE_WINS.as_bytes())?),
        defenders: GraphText::new(Vec::from_slice(alloc, NOTHING.as_bytes())?),
    })
}

/// The list: both leases of the first entry hand in what shows its trick.
fn requests(alloc: Global) -> Result<Vec<Request>, AllocError> {
    let mut requests = Vec::with_capacity(alloc, 7)?;
    requests.push(Request::Lease { now: 0 })?;
    requests.push(Request::Expire { now: 9 })?;
    requests.push(Request::Expire { now: 10 })?;
    requests.push(Request::Lease { now: 10 })?;
    requests.push(hand_in(alloc, 1)?)?;
    requests.push(hand_in(alloc, 2)?)?;
    requests.push(Request::Lease { now: 11 })?;
    Ok(requests)
}

/// What comes of `Book::new`.
fn outcome_of_opening(alloc: Global, boards: Vec<Board>) -> Outcome {
    match Book::new(alloc, boards, 10, 2) {
        Ok(book) if book.history().is_empty() && book.boards().len() == 1 => Outcome::Answer,
        Err(BookFault::OutOfMemory) => Outcome::OutOfMemory,
        _ => Outcome::Wrong,
    }
}

/// `Book::new`.
pub fn new_book(alloc: Global, spending: Spending) -> Result<Told, AllocError> {
    let boards = board(alloc)?;
    spending.spend(alloc)?;
    let outcome = outcome_of_opening(alloc, boards);
    Ok(Told::Called(outcome, spending.left(alloc)))
}

/// Whether these are the replies to the list.
fn are_replies(replies: &[Reply]) -> bool {
    replies == REPLIES.as_slice()
}

/// What comes of `replay`.
fn outcome_of_replay(alloc: Global, boards: Vec<Board>, requests: &[Request]) -> Outcome {
    match replay(alloc, boards, 10, 2, requests) {
        Ok((book, replies)) if are_replies(replies.as_slice()) && book.published(NT) == Some(1) => {
            Outcome::Answer
        }
        Err(BookFault::OutOfMemory) => Outcome::OutOfMemory,
        _ => Outcome::Wrong,
    }
}

/// `replay`.
pub fn replayed(alloc: Global, spending: Spending) -> Result<Told, AllocError> {
    let boards = board(alloc)?;
    let requests = requests(alloc)?;
    spending.spend(alloc)?;
    let outcome = outcome_of_replay(alloc, boards, requests.as_slice());
    Ok(Told::Called(outcome, spending.left(alloc)))
}
