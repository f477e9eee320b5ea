//! An audit of the two boards over memory, and what it shows.

use crate::expect::{got, some};
use crate::two_boards::BOARDS;
use audits::audit_tables;
use cards::{Buffer, Bytes, Seat, Suit, Trump};
use evidence::{Damage, Sections};
use lease_book::{Book, Entry};
use std::alloc::Global;
use std::process::Abort;
use std::thread::Threads;
use tournaments::{Page, PageForm, ParTags};

/// Room for two tables.
const ROOM: usize = 1000;

/// What is shown of the two boards.
#[derive(Clone, Copy, Debug, PartialEq)]
pub struct Shown {
    /// How many contracts have a number.
    pub numbers: u64,
    /// The number of North's spades on the first board.
    pub first: Option<u8>,
    /// That of North's no-trump on the second.
    pub second: Option<u8>,
}

impl Shown {
    /// What the sections show, or one of them does, or none.
    pub fn by(first: bool, second: bool) -> Shown {
        Shown {
            numbers: u64::from(first).saturating_add(u64::from(second)),
            first: if first { Some(13) } else { None },
            second: if second { Some(0) } else { None },
        }
    }
}

/// The number of a contract, if it has one.
fn number_at(book: &Book, board: usize, declarer: Seat, trump: Trump) -> Option<u8> {
    book.published(Entry {
        board,
        declarer,
        trump,
    })
}

/// How many contracts of a board have a number.
fn numbers_of(book: &Book, board: usize) -> u64 {
    let mut numbers = 0u64;
    for declarer in Seat::ALL {
        for trump in Trump::ALL {
            let has_number = number_at(book, board, declarer, trump).is_some();
            numbers = numbers.saturating_add(u64::from(has_number));
        }
    }
    numbers
}

/// The number of a contract of North's.
pub fn number_of(book: &Book, board: usize, trump: Trump) -> Option<u8> {
    number_at(book, board, Seat::North, trump)
}

/// What a book over the two boards shows.
fn shown_in(book: &Book) -> Shown {
    Shown {
        numbers: numbers_of(book, 0).saturating_add(numbers_of(book, 1)),
        first: number_of(book, 0, Trump::Suit(Suit::Spades)),
        second: number_of(book, 1, Trump::Nt),
    }
}

/// What this evidence shows, whose bytes come in pieces of at most `greatest_piece`, and what is passed over. Nothing
/// where the audit fails.
fn audit_to<R: Threads + Sync>(
    rt: &R,
    alloc: Global,
    evidence: &[u8],
    greatest_piece: usize,
    output: &mut Buffer,
) -> Option<(Shown, Damage)> {
    let mut input = Bytes::new(BOARDS.as_bytes(), ROOM);
    let mut sections = Sections::new(alloc, Bytes::new(evidence, greatest_piece));
    let page = Page {
        form: PageForm::Tables,
        par: ParTags::Without,
    };
    match audit_tables(rt, alloc, page, &mut input, &mut sections, output) {
        Ok((_, book, damage)) => Some((shown_in(&book), damage)),
        Err(_) => None,
    }
}

/// What this evidence shows, and what is passed over. The audit is one without faults.
pub fn audit<R: Abort + Threads + Sync>(
    rt: &R,
    alloc: Global,
    evidence: &[u8],
    greatest_piece: usize,
) -> (Shown, Damage) {
    let mut output = got(rt, Buffer::new(alloc, ROOM, ROOM));
    some(
        rt,
        audit_to(rt, alloc, evidence, greatest_piece, &mut output),
    )
}
