//! Boards for tests, and what is in a book.

use cards::{Seat, Trump};
use lease_book::{Asked, Book, Entry, Reply};
use pbn_deals::{Board, BoardName, read_layout};
use std::alloc::{AllocError, Global};
use std::process::Abort;

/// The deal of one card each in which East has the ace: the cards of North's ace, each at the next seat.
pub const TURNED: &str = "N:J... A... K... Q...";

/// A board for each of these deals.
pub fn boards_of(rt: &impl Abort, alloc: Global, deals: &[&str]) -> Vec<Board> {
    let mut boards = Vec::new(alloc);
    for deal in deals {
        let layout = read_layout(deal.as_bytes()).expect(rt, "a deal");
        let board = Board {
            name: BoardName::new(Vec::new(alloc)),
            deal: Some(layout),
        };
        boards.push(board).expect(rt, "memory for a board");
    }
    boards
}

/// So many boards without a deal.
pub fn empty_boards(alloc: Global, count: usize) -> Result<Vec<Board>, AllocError> {
    let mut boards = Vec::new(alloc);
    for _ in 0..count {
        boards.push(Board {
            name: BoardName::new(Vec::new(alloc)),
            deal: None,
        })?;
    }
    Ok(boards)
}

/// How often each reply stands in a history.
#[derive(Clone, Copy, Debug, PartialEq)]
pub struct TableTally {
    pub given: u64,
    pub published: u64,
    pub gave_up: u64,
    pub bad: u64,
    pub nothing: u64,
    pub freed_none: u64,
    pub others: u64,
}

/// A history without replies.
pub const NONE: TableTally = TableTally {
    given: 0,
    published: 0,
    gave_up: 0,
    bad: 0,
    nothing: 0,
    freed_none: 0,
    others: 0,
};

/// The place of a reply among the counts of a tally.
fn place_of(reply: &Reply) -> usize {
    match reply {
        Reply::Given { .. } => 0,
        Reply::Published(_) => 1,
        Reply::GaveUp => 2,
        Reply::BadCertificate(_) => 3,
        Reply::Nothing => 4,
        Reply::Freed(0) => 5,
        _ => 6,
    }
}

/// How often each reply stands in the history of a book.
pub fn tally_of(book: &Book) -> TableTally {
    let mut counts = [0u64; 7];
    for event in book.history() {
        if let Some(count) = counts.get_mut(place_of(&event.reply)) {
            *count = count.saturating_add(1);
        }
    }
    let [given, published, gave_up, bad, nothing, freed_none, others] = counts;
    TableTally {
        given,
        published,
        gave_up,
        bad,
        nothing,
        freed_none,
        others,
    }
}

/// The entries of the first board that have a number, each with it, clockwise from North, in no-trump first.
pub fn published_in(alloc: Global, book: &Book) -> Result<Vec<(Entry, u8)>, AllocError> {
    let mut published = Vec::new(alloc);
    for declarer in Seat::ALL {
        for trump in Trump::ALL {
            let entry = Entry {
                board: 0,
                declarer,
                trump,
            };
            if let Some(tricks) = book.published(entry) {
                published.push((entry, tricks))?;
            }
        }
    }
    Ok(published)
}

/// The entries for which something was handed in, each with the reply, in their order.
pub fn hand_ins_of(alloc: Global, book: &Book) -> Result<Vec<(Entry, Reply)>, AllocError> {
    let mut hand_ins = Vec::new(alloc);
    for event in book.history() {
        if let Asked::HandIn { entry, .. } = event.asked {
            hand_ins.push((entry, event.reply))?;
        }
    }
    Ok(hand_ins)
}

/// The leases that were given up, by their numbers.
pub fn leases_given_up(alloc: Global, book: &Book) -> Result<Vec<u64>, AllocError> {
    let mut leases = Vec::new(alloc);
    for event in book.history() {
        if let (Asked::GiveUp { lease }, Reply::GaveUp) = (event.asked, event.reply) {
            leases.push(lease)?;
        }
    }
    leases.sort_unstable();
    Ok(leases)
}
