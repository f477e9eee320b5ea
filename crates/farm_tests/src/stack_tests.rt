//! The stack that a thread has. A search of thirteen cards a hand touches 40 kB of it.

use crate::expect::expect_eq;
use crate::runs::{BUDGET, quiet_book};
use crate::stacks::{DEPTH, NeedsStack};
use crate::tallies::published_in;
use cards::{Side, Suit, Trump};
use lease_book::Entry;
use settings_support::once;
use std::test::Fail;

/// The first deal of `examples/club.pbn`.
const DEALT: &str = "N:Q64.QJ7.K9.AK954 98.43.A7653.QJ83 T73.T92.QT842.72 AKJ52.AK865.J.T6";

/// Its tricks, as `examples/club-tables.pbn` has them: both declarers of a side take as many.
fn tricks(entry: Entry) -> u8 {
    let (north_south, east_west) = match entry.trump {
        Trump::Nt => (4, 8),
        Trump::Suit(Suit::Spades | Suit::Hearts) => (3, 9),
        Trump::Suit(Suit::Diamonds) => (6, 7),
        Trump::Suit(Suit::Clubs) => (4, 8),
    };
    match entry.declarer.side() {
        Side::NorthSouth => north_south,
        Side::EastWest => east_west,
    }
}

/// A solver that needs 624 KiB of stack before each search of a whole deal. With stacks of 512 KiB this test crashes.
#[test]
fn a_solver_has_most_of_a_mebibyte_of_stack(rt: HostRuntime) -> Result<(), Fail> {
    let solver = NeedsStack::new();
    let settings = once(1, 1, BUDGET, 20);
    let book = quiet_book(&rt, rt.alloc(), &[DEALT], settings, &solver);
    expect_eq(&rt, &solver.depths(), &(5 * DEPTH));
    let published = published_in(rt.alloc(), &book)?;
    expect_eq(&rt, &published.len(), &20);
    for (entry, number) in &published {
        expect_eq(&rt, number, &tricks(*entry));
    }
    Ok(())
}
