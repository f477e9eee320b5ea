//! That threads work side by side: each of these runs would wait in vain if one thread did all.

use crate::expect::expect_eq;
use crate::gates::{HoldsTheFirst, Meeting, Pair};
use crate::runs::book_of;
use crate::solvers::{FindsTheAce, NT};
use crate::tallies::{published_in, tally_of};
use farm::{Means, Settings, SettingsFault};
use lease_book::{Asked, Book, Reply};
use settings_support::once;
use std::alloc::Global;
use std::process::Abort;
use std::sync::Wait;
use std::test::Fail;
use std::thread::Threads;
use test_support::deals::ACE;
use test_support::idle::{FindsNothing, StandsStill};

/// Who works side by side, how many solvers and checkers there are, and how many entries are leased at a time.
const PAIRS: [(Pair, usize, usize, usize); 4] = [
    (Pair::Solvers, 2, 1, 1),
    // A batch of all, whose first two leases are in two denominations.
    (Pair::Solvers, 2, 1, 20),
    (Pair::Checkers, 1, 2, 1),
    (Pair::Clerks, 1, 2, 1),
];

/// A run over the board of one card each. What the solver answers is right for North in no-trump alone: else it is for
/// another denomination, side or opening lead.
fn book_of_the_ace<R: Threads + Wait + Abort + Sync>(
    rt: &R,
    alloc: Global,
    settings: Result<Settings, SettingsFault>,
    gate: &Meeting,
) -> Book {
    let means = Means {
        solver: &FindsTheAce,
        gate,
        clock: &StandsStill,
    };
    book_of(rt, alloc, &[ACE], settings, &means)
}

#[test]
fn two_work_side_by_side(rt: HostRuntime) -> Result<(), Fail> {
    for (number, (pair, solvers, checkers, batch)) in PAIRS.iter().enumerate() {
        let gate = Meeting::new(*pair);
        let settings = once(*solvers, *checkers, 1, *batch);
        let book = book_of_the_ace(&rt, rt.alloc(), settings, &gate);
        let tally = tally_of(&book);
        let outcome = (tally.given, tally.published, tally.bad);
        expect_eq(&rt, &(number, outcome), &(number, (20, 1, 19)));
        let published = published_in(rt.alloc(), &book)?;
        expect_eq(&rt, &published.as_slice(), &[(NT, 1)].as_slice());
        expect_eq(&rt, &(number, gate.have_met()), &(number, true));
    }
    Ok(())
}

/// Whether the first one's entry was leased twice before the first lease was given up.
fn first_is_leased_again(book: &Book) -> bool {
    let mut times = 0u64;
    for event in book.history() {
        match (event.asked, event.reply) {
            (_, Reply::Given { entry, .. }) if entry == NT => times = times.saturating_add(1),
            (Asked::GiveUp { lease: 1 }, _) => return times == 2,
            _ => {}
        }
    }
    false
}

/// Settings with two solvers, by which a lease runs out at once and an entry is leased twice.
fn hurried() -> Result<Settings, SettingsFault> {
    once(2, 1, 1, 1)?.with_term(0).with_tries(2)
}

/// A lease that has run out while its solver works on it. The lender frees it when no entry is open, and the other
/// solver, which gives up each entry, goes on with it too.
#[test]
fn a_freed_entry_is_leased_again(rt: HostRuntime) {
    let means = Means {
        solver: &FindsNothing,
        gate: &HoldsTheFirst::new(),
        clock: &StandsStill,
    };
    let book = book_of(&rt, rt.alloc(), &[ACE], hurried(), &means);
    expect_eq(&rt, &tally_of(&book).given, &40);
    expect_eq(&rt, &first_is_leased_again(&book), &true);
}
