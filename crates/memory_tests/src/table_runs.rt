//! Tables with a solver and a checker, whose memory runs out.

use crate::outcomes::{Outcome, Told};
use crate::spending::Spending;
use crate::texts::HEAD;
use board_subcommands::table::{TableOptions, make_tables};
use cards::{Buffer, Bytes, Seat, Side, Suit, Trump};
use farm::{Means, Settings, Unclaimed};
use lease_book::{Book, Entry};
use partition_solver::Partition;
use settings_support::one_of_each;
use std::alloc::{AllocError, Global};
use std::sync::Wait;
use std::thread::Threads;
use tables::Report;
use test_support::four_suits::{BOARD, TABLE};
use test_support::idle::{LetsPass, StandsStill};
use tournaments::{MakeFault, Page, PageForm, ParTags};

/// How many steps the search has.
const BUDGET: u64 = 10_000_000;

/// The tricks of the four hands of one suit each: all thirteen for the side that has the trumps.
fn tricks(declarer: Seat, trump: Trump) -> u8 {
    let holder = match trump {
        Trump::Suit(Suit::Spades | Suit::Diamonds) => Side::NorthSouth,
        Trump::Suit(_) => Side::EastWest,
        Trump::Nt => return 0,
    };
    if declarer.side() == holder { 13 } else { 0 }
}

/// How many numbers are published, and whether each of them is right.
fn count(book: &Book) -> (usize, bool) {
    let (mut known, mut are_right) = (0usize, true);
    for declarer in Seat::ALL {
        for trump in Trump::ALL {
            let entry = Entry {
                board: 0,
                declarer,
                trump,
            };
            if let Some(k) = book.published(entry) {
                known = known.wrapping_add(1);
                are_right = are_right && k == tricks(declarer, trump);
            }
        }
    }
    (known, are_right)
}

/// Whether what is written is the table with these numbers.
fn written(
    alloc: Global,
    report: Report,
    book: &Book,
    bytes: &[u8],
) -> Result<Outcome, AllocError> {
    let (known, are_right) = count(book);
    let complete = usize::from(known == 20);
    if !are_right
        || report
            != (Report {
                boards: 1,
                complete,
            })
    {
        return Ok(Outcome::Wrong);
    }
    if known == 20 {
        let outcome = if bytes == TABLE.as_bytes() {
            Outcome::Answer
        } else {
            Outcome::Wrong
        };
        return Ok(outcome);
    }
    let line = format!(in alloc; "; table incomplete: {known} of 20\n\n")?;
    let is_written = bytes.strip_prefix(HEAD) == Some(line.as_bytes());
    Ok(if is_written {
        Outcome::Incomplete
    } else {
        Outcome::Wrong
    })
}

/// What comes of a refusal, after which nothing may be written.
fn refused(fault: MakeFault, bytes: &[u8]) -> Outcome {
    match fault {
        _ if !bytes.is_empty() => Outcome::Wrong,
        MakeFault::OutOfMemory => Outcome::OutOfMemory,
        MakeFault::NoThread => Outcome::NoThread,
        _ => Outcome::Wrong,
    }
}

/// What `make_tables` makes of the source, with a solver and a checker. A call of it carries its promises to the end of
/// the caller.
fn made<R: Threads + Wait + Sync>(
    rt: &R,
    alloc: Global,
    settings: Settings,
    solver: &Partition,
    source: &mut Bytes<'_>,
    sink: &mut Buffer,
) -> Result<(Report, Book, Unclaimed), MakeFault> {
    let means = Means {
        solver,
        gate: &LetsPass,
        clock: &StandsStill,
    };
    let options = TableOptions {
        settings,
        progress: false,
        page: Page {
            form: PageForm::Tables,
            par: ParTags::Without,
        },
        boards: None,
        evidence: None,
    };
    make_tables(rt, alloc, options, &means, source, sink)
}

/// `make_tables` with a solver and a checker on the four hands of one suit each.
pub fn tables<R: Threads + Wait + Sync>(
    rt: &R,
    alloc: Global,
    spending: Spending,
) -> Result<Told, AllocError> {
    let mut sink = Buffer::new(alloc, TABLE.len(), TABLE.len())?;
    let mut source = Bytes::new(BOARD.as_bytes(), 7);
    let Ok(settings) = one_of_each(3, BUDGET) else {
        return Ok(Told::Called(Outcome::Wrong, None));
    };
    let solver = Partition::new();
    spending.spend(alloc)?;
    let made = made(rt, alloc, settings, &solver, &mut source, &mut sink);
    let left = spending.left(alloc);
    let outcome = match made {
        Ok((report, book, _)) => written(alloc, report, &book, sink.bytes())?,
        Err(fault) => refused(fault, sink.bytes()),
    };
    Ok(Told::Called(outcome, left))
}
