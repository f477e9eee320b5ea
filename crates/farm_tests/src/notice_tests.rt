//! What a gate is told from the beginning of a run to its end, and of the numbers that a book has before.

use crate::expect::expect_eq;
use crate::flawed::FindsSome;
use crate::notices::{KeepsNotices, Notice};
use crate::remembers::{Remembers, counts_of};
use crate::runs::{BUDGET, book_of, quiet_book};
use crate::tallies::TURNED;
use cards::{Seat, Side, Suit, Trump};
use farm::{Means, resume_farm};
use lease_book::{Book, Entry, Reply};
use partition_solver::Partition;
use settings_support::once;
use std::alloc::Global;
use std::process::Abort;
use std::sync::Wait;
use std::thread::Threads;
use test_support::deals::ACE;
use test_support::idle::{FindsNothing, StandsStill};

/// The side that has the ace on the board of this deal, and on that of the same cards one seat further on.
const WINNERS: [Side; 2] = [Side::NorthSouth, Side::EastWest];

/// What a gate is told if a run goes on with a book whose entries were all leased as often as they may be. The solver
/// isn't asked.
fn notices_of<R: Threads + Wait + Abort + Sync>(rt: &R, alloc: Global, book: Book) -> Vec<Notice> {
    let nothing = FindsNothing;
    let solver = Remembers::new(rt, alloc, &nothing);
    let gate = KeepsNotices::new(rt, alloc);
    let means = Means {
        solver: &solver,
        gate: &gate,
        clock: &StandsStill,
    };
    let settings = once(1, 1, BUDGET, 20).expect(rt, "settings");
    drop(resume_farm(rt, alloc, book, settings, &means).expect(rt, "a run"));
    let counts = counts_of(solver.into_calls().as_slice());
    expect_eq(rt, &counts, &(0, 0));
    gate.into_notices()
}

/// That work begins on boards, of which each has its deal from the board of this number.
fn beginning(rt: &impl Abort, alloc: Global, firsts: &[usize]) -> Vec<Notice> {
    let mut notices = Vec::new(alloc);
    add(rt, &mut notices, begins(rt, alloc, firsts));
    notices
}

/// The notice of it.
fn begins(rt: &impl Abort, alloc: Global, firsts: &[usize]) -> Notice {
    let list = Vec::from_slice(alloc, firsts).expect(rt, "memory for a list");
    Notice::Begins(firsts.len(), list)
}

/// Adds one.
fn add(rt: &impl Abort, notices: &mut Vec<Notice>, notice: Notice) {
    notices.push(notice).expect(rt, "memory for a notice");
}

/// Adds that an entry of one of the boards has a number: one trick for the side that has the ace, else none.
fn add_number(
    rt: &impl Abort,
    notices: &mut Vec<Notice>,
    board: usize,
    declarer: Seat,
    trump: Trump,
) {
    let winner = WINNERS.get(board).copied();
    let entry = Entry {
        board,
        declarer,
        trump,
    };
    let tricks = u8::from(Some(declarer.side()) == winner);
    add(
        rt,
        notices,
        Notice::Answers(entry, Reply::Published(tricks)),
    );
}

/// Three boards with two deals: each number of a deal is told once, for the first board that has it.
#[test]
fn numbers_of_a_book_are_told(rt: HostRuntime) {
    let alloc = rt.alloc();
    let deals = [ACE, TURNED, ACE];
    let settings = once(1, 1, BUDGET, 20);
    let book = quiet_book(&rt, alloc, &deals, settings, &Partition::new());
    let notices = notices_of(&rt, alloc, book);
    let mut wanted = beginning(&rt, alloc, &[0, 1, 0]);
    for board in 0..WINNERS.len() {
        for declarer in Seat::ALL {
            for trump in Trump::ALL {
                add_number(&rt, &mut wanted, board, declarer, trump);
            }
        }
    }
    add(&rt, &mut wanted, Notice::Ends);
    expect_eq(&rt, &notices, &wanted);
}

/// The denominations in which there are numbers, and whether they are there for all declarers, or for North and East.
const FOUND: [(Suit, bool); 3] = [
    (Suit::Hearts, false),
    (Suit::Diamonds, true),
    (Suit::Clubs, true),
];

/// A book with some numbers: those alone are told.
#[test]
fn some_numbers_of_a_book_are_told(rt: HostRuntime) {
    let alloc = rt.alloc();
    let search = Partition::new();
    let solver = FindsSome { search: &search };
    let settings = once(1, 1, BUDGET, 20);
    let book = quiet_book(&rt, alloc, &[ACE], settings, &solver);
    let notices = notices_of(&rt, alloc, book);
    let mut wanted = beginning(&rt, alloc, &[0]);
    for declarer in Seat::ALL {
        for (suit, for_all) in FOUND {
            if for_all || matches!(declarer, Seat::North | Seat::East) {
                add_number(&rt, &mut wanted, 0, declarer, Trump::Suit(suit));
            }
        }
    }
    add(&rt, &mut wanted, Notice::Ends);
    expect_eq(&rt, &notices, &wanted);
}

/// How many of the notices are alike.
fn count(notices: &[Notice], wanted: &Notice) -> usize {
    notices.iter().filter(|notice| *notice == wanted).count()
}

/// What a gate is told in a whole run with leases one by one.
fn notices_of_a_run<R: Threads + Wait + Abort + Sync>(rt: &R, alloc: Global) -> Vec<Notice> {
    let gate = KeepsNotices::new(rt, alloc);
    let means = Means {
        solver: &Partition::new(),
        gate: &gate,
        clock: &StandsStill,
    };
    drop(book_of(rt, alloc, &[ACE], once(1, 1, BUDGET, 1), &means));
    gate.into_notices()
}

/// A whole run: it begins once, first of all, each lease is told once at each step, and it ends once, last of all.
#[test]
fn a_run_is_told_from_beginning_to_end(rt: HostRuntime) {
    let notices = notices_of_a_run(&rt, rt.alloc());
    let begins = begins(&rt, rt.alloc(), &[0]);
    expect_eq(&rt, &notices.len(), &82);
    expect_eq(&rt, &notices.first(), &Some(&begins));
    expect_eq(&rt, &notices.last(), &Some(&Notice::Ends));
    expect_eq(&rt, &count(notices.as_slice(), &begins), &1);
    expect_eq(&rt, &count(notices.as_slice(), &Notice::Ends), &1);
    for lease in 1..21u64 {
        for notice in [
            Notice::Solves(lease),
            Notice::ChecksGraphs(lease),
            Notice::Checks(lease),
        ] {
            expect_eq(&rt, &count(notices.as_slice(), &notice), &1);
        }
    }
}
