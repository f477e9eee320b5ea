//! Terms that make no book, and proofs that are not for the entry. Worked lists of requests are in `worked_cases`.

use super::certificates::{EAST_HIGH, NORTH_HIGH, NT, boards};
use crate::expect::{expect, expect_eq};
use cards::{Seat, Trump};
use checker::{Texts, Verdict, judge};
use lease_book::{Book, BookFault, Reply};
use pbn_deals::{Board, BoardName, read_layout};
use plain_runs::replay;
use std::alloc::{AllocError, Global};
use std::process::Abort;
use std::test::Fail;

/// North's ace takes the trick that East leads to.
const ACE: &str = "DDC 1
trump NT
side NS
nodes 1
E 1 1.1.1.1/N 0.0.0.0/ 0.0.0.0/ 0.0.0.0/ (SxSx(SxSa{}))
";

/// A side that needs nothing.
const NOTHING: &str = "DDC 1
trump NT
side EW
nodes 0
";

/// The first lease, which is for the first entry.
const GIVEN: Reply = Reply::Given {
    lease: 1,
    entry: NT,
    deadline: 10,
};

/// So many boards without a deal.
pub fn bare_boards(alloc: Global, count: u16) -> Result<Vec<Board>, AllocError> {
    let mut boards = Vec::new(alloc);
    for _ in 0..count {
        boards.push(Board {
            name: BoardName::new(Vec::new(alloc)),
            deal: None,
        })?;
    }
    Ok(boards)
}

/// How many boards, how many tries, and whether that makes no book.
pub const REFUSED: [(u16, u32, Option<BookFault>); 5] = [
    (4_097, 0, Some(BookFault::TooManyBoards)),
    (4_096, 0, Some(BookFault::Tries)),
    (0, 1_001, Some(BookFault::Tries)),
    (4_096, 1_000, None),
    (0, 1, None),
];

/// Why there is no book of `count` boards with `tries` tries, if there is none.
pub fn book_fault(alloc: Global, count: u16, tries: u32) -> Result<Option<BookFault>, AllocError> {
    Ok(Book::new(alloc, bare_boards(alloc, count)?, 10, tries).err())
}

#[test]
fn refused_terms(rt: HostRuntime) -> Result<(), Fail> {
    let alloc = rt.alloc();
    for (count, tries, fault) in REFUSED {
        expect_eq(&rt, &book_fault(alloc, count, tries)?, &fault);
        let replayed = replay(alloc, bare_boards(alloc, count)?, 10, tries, &[]);
        expect_eq(&rt, &replayed.err(), &fault);
    }
    Ok(())
}

/// West leads to the trick of North's ace, against South.
const WEST_LEADS: &str = "DDC 1
trump NT
side NS
nodes 1
W 1 1.1.1.1/N 0.0.0.0/ 0.0.0.0/ 0.0.0.0/ (SxSa(SxSx{}))
";

/// A declarer, a text that shows the trick where North has the ace, and the reply to its proof.
type Shown = (Seat, &'static str, Reply);

/// The layouts of boards, what is shown under the lease of North's no-trump on the first, and what is published of it.
const FOREIGN: [(&[Option<&str>], &[Shown], Option<u8>); 2] = [
    (
        &[Some(EAST_HIGH), Some(NORTH_HIGH)],
        &[(Seat::North, ACE, Reply::OtherEntry)],
        None,
    ),
    (
        &[Some(NORTH_HIGH)],
        &[
            (Seat::South, WEST_LEADS, Reply::OtherEntry),
            (Seat::North, ACE, Reply::Published(1)),
        ],
        Some(1),
    ),
];

/// The proof by such a text where North has the ace.
fn proof_by(rt: &impl Abort, alloc: Global, declarer: Seat, text: &str) -> Verdict {
    let layout = read_layout(NORTH_HIGH.as_bytes()).expect(rt, "a deal");
    let texts = Texts {
        declarers: text.as_bytes(),
        defenders: NOTHING.as_bytes(),
    };
    judge(alloc, Some(&layout), declarer, Trump::Nt, 1, texts).expect(rt, "memory to judge")
}

/// What is shown is settled so under the lease.
fn expect_settled(
    rt: &impl Abort,
    alloc: Global,
    book: &mut Book,
    (declarer, text, reply): &Shown,
) {
    let proof = proof_by(rt, alloc, *declarer, text);
    expect(rt, proof.is_ok());
    let settled = book.settle(1, NT, proof).expect(rt, "memory to settle");
    expect_eq(rt, &settled, reply);
}

/// A proof on another deal, or of another declarer, isn't one for the entry.
#[test]
fn foreign_proofs(rt: HostRuntime) -> Result<(), Fail> {
    for (layouts, shown, published) in FOREIGN {
        let mut book = Book::new(rt.alloc(), boards(&rt, rt.alloc(), layouts), 10, 1)?;
        let given = book.lease(0).expect(&rt, "memory for a lease");
        expect_eq(&rt, &given, &GIVEN);
        for shown in shown {
            expect_settled(&rt, rt.alloc(), &mut book, shown);
        }
        expect_eq(&rt, &book.published(NT), &published);
    }
    Ok(())
}
