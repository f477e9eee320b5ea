//! What evidence shows, published in a book that is used on.

use crate::audited::number_of;
use crate::expect::{expect_eq, some};
use crate::pieces::Piece::{Fewer, Line, Ruffs, Runs, Title};
use crate::pieces::{Piece, evidence_of};
use crate::two_boards::BOARDS;
use audits::{EvidenceRead, show_evidence};
use cards::{Bytes, Suit, Trump};
use evidence::{Damage, Sections};
use lease_book::{Book, Reply};
use std::alloc::Global;
use std::process::Abort;
use std::thread::Threads;
use streams::InputFault;
use tournaments::{open_book, take_boards};

/// Two boards with one deal.
const TWINS: &str = "[Board \"1\"]
[Deal \"N:AKQJT98765432... .AKQJT98765432.. ..AKQJT98765432. ...AKQJT98765432\"]

[Board \"2\"]
[Deal \"N:AKQJT98765432... .AKQJT98765432.. ..AKQJT98765432. ...AKQJT98765432\"]
";

/// What a book shows after evidence was read.
#[derive(Clone, Copy, Debug, PartialEq)]
struct After {
    read: EvidenceRead,
    /// The numbers of North's spades on the first board, and of North's no-trump and spades on the second.
    numbers: [Option<u8>; 3],
    /// The length of the history.
    events: usize,
    /// The number of the next lease, if one is given.
    next: Option<u64>,
}

/// A book over these boards after this evidence, and how that was read. Nothing where there is no book or no memory.
fn book_after<R: Threads + Sync>(
    rt: &R,
    alloc: Global,
    boards: &str,
    evidence: Bytes<'_>,
) -> Option<(Book, EvidenceRead)> {
    let boards = take_boards(alloc, boards.as_bytes()).ok()?;
    let mut book = open_book(alloc, boards, 10, 2).ok()?;
    let mut sections = Sections::new(alloc, evidence);
    match show_evidence(rt, alloc, &mut book, 7, &mut sections) {
        Ok(read) => Some((book, read)),
        Err(_) => None,
    }
}

/// The number of the next lease of a book, if one is given.
fn next_lease(book: &mut Book) -> Option<u64> {
    match book.lease(8) {
        Ok(Reply::Given { lease, .. }) => Some(lease),
        _ => None,
    }
}

/// What a book shows, whose evidence was read so.
fn shown_after(mut book: Book, read: EvidenceRead) -> After {
    let spades = Trump::Suit(Suit::Spades);
    After {
        read,
        numbers: [
            number_of(&book, 0, spades),
            number_of(&book, 1, Trump::Nt),
            number_of(&book, 1, spades),
        ],
        events: book.history().len(),
        next: next_lease(&mut book),
    }
}

/// So many pieces were passed over, the first at this byte.
fn read_so(ended: Result<(), InputFault>, count: u64, first: u64) -> EvidenceRead {
    EvidenceRead {
        damage: Damage { count, first },
        ended,
    }
}

/// Boards, and what each evidence leaves of a book over them: the length of its history, and its next lease.
struct Over {
    boards: &'static str,
    events: usize,
    next: u64,
}

const TWO_DEALS: Over = Over {
    boards: BOARDS,
    events: 81,
    next: 41,
};

const ONE_DEAL: Over = Over {
    boards: TWINS,
    events: 41,
    next: 21,
};

/// The evidence is read in this way, and the book has these numbers then.
fn expect_after<R: Abort + Threads + Sync>(
    rt: &R,
    alloc: Global,
    over: &Over,
    evidence: Bytes<'_>,
    read: EvidenceRead,
    numbers: [Option<u8>; 3],
) {
    let (book, got) = some(rt, book_after(rt, alloc, over.boards, evidence));
    let wanted = After {
        read,
        numbers,
        events: over.events,
        next: Some(over.next),
    };
    expect_eq(rt, &shown_after(book, got), &wanted);
}

/// Evidence, how many pieces of it are passed over and where the first begins, and the numbers.
type Row = (&'static [Piece], (u64, u64), [Option<u8>; 3]);

const OF_TWO_DEALS: [Row; 4] = [
    (&[Ruffs, Runs], (0, 0), [Some(13), Some(0), None]),
    (
        &[Line, Ruffs, Title, Runs],
        (2, 0),
        [Some(13), Some(0), None],
    ),
    (
        &[Fewer, Fewer, Fewer, Ruffs, Fewer],
        (0, 0),
        [Some(13), None, None],
    ),
    (&[], (0, 0), [None, None, None]),
];

const OF_ONE_DEAL: [Row; 2] = [
    (&[Runs, Ruffs], (0, 0), [Some(13), None, Some(13)]),
    (&[Runs, Fewer], (0, 0), [None, None, None]),
];

/// All evidence of a table is read to its end.
fn expect_rows<R: Abort + Threads + Sync>(rt: &R, alloc: Global, over: &Over, rows: &[Row]) {
    for (pieces, (count, first), numbers) in rows {
        let evidence = evidence_of(rt, alloc, pieces);
        let source = Bytes::new(evidence.as_bytes(), 1000);
        let read = read_so(Ok(()), *count, *first);
        expect_after(rt, alloc, over, source, read, *numbers);
    }
}

/// Whatever the evidence holds, its sections are published, each entry is leased once, and no lease is held.
#[test]
fn what_is_published(rt: HostRuntime) {
    expect_rows(&rt, rt.alloc(), &TWO_DEALS, OF_TWO_DEALS.as_slice());
    expect_rows(&rt, rt.alloc(), &ONE_DEAL, OF_ONE_DEAL.as_slice());
}

/// The call that fails, how many pieces are passed over before it, and the numbers.
const FAILING: [(u64, u64, [Option<u8>; 3]); 3] = [
    (0, 0, [None, None, None]),
    (1, 1, [None, None, None]),
    (15, 1, [Some(13), None, None]),
];

/// If reading fails, what was read before that is published.
#[test]
fn reading_that_fails(rt: HostRuntime) {
    let alloc = rt.alloc();
    let evidence = evidence_of(&rt, alloc, &[Line, Ruffs, Runs]);
    for (calls, damaged, numbers) in FAILING {
        let source = Bytes::failing_after(evidence.as_bytes(), 100, calls);
        let read = read_so(Err(InputFault::Read), damaged, 0);
        expect_after(&rt, alloc, &TWO_DEALS, source, read, numbers);
    }
}
