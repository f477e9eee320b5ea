//! Endings drawn at random, by the answers of the solver: every line of the opponents, or many at random.

use crate::contracts::Contract;
use crate::draws::{draw_layout, draw_seat, draw_trump};
use crate::expect::{expect_eq, got, some};
use crate::told::told_card_by_card;
use cards::{Layout, Seat, Side, Trump};
use certificate_graph::{Answer, Graph, Solver};
use partition_solver::Partition;
use rand_pcg::Pcg32;
use std::alloc::Global;
use std::process::Abort;

/// Where there are so many lines or more, some are played at random, so many.
const MOST: u32 = 50_000;

const AT_RANDOM: u32 = 10_000;

/// How many steps the solver has.
const BUDGET: u64 = 10_000_000;

/// What the solver answers.
pub fn solved(
    rt: &impl Abort,
    alloc: Global,
    layout: &Layout,
    declarer: Seat,
    trump: Trump,
) -> Answer {
    let found = Partition::new().solve(alloc, layout, &[declarer], trump, BUDGET);
    let bundle = some(rt, got(rt, found));
    some(rt, got(rt, bundle.answer_for(alloc, declarer)))
}

/// Plays by the answer of the solver, and by its strategies told card by card.
fn expect_ending(rt: &impl Abort, alloc: Global, layout: &Layout, declarer: Seat, trump: Trump) {
    let answer = solved(rt, alloc, layout, declarer, trump);
    let contract = Contract {
        layout: *layout,
        declarer,
        trump,
        k: answer.k,
        declarers: &answer.declarer,
        defenders: &answer.defenders,
    };
    expect_both(rt, &contract);
    let declarers = told_by(rt, alloc, &contract, declarer.side());
    let defenders = told_by(rt, alloc, &contract, declarer.side().other());
    let told = Contract {
        declarers: &declarers,
        defenders: &defenders,
        ..contract
    };
    expect_both(rt, &told);
}

/// The strategy of a side, told card by card.
fn told_by(rt: &impl Abort, alloc: Global, contract: &Contract<'_>, side: Side) -> Graph {
    let start = contract.begin(rt, side);
    told_card_by_card(rt, alloc, &start, contract.trump)
}

/// Each side wins just what it promised in some line, and in none fewer.
fn expect_both(rt: &impl Abort, contract: &Contract<'_>) {
    for side in [Side::NorthSouth, Side::EastWest] {
        let outcome = contract.play_all(rt, side, MOST);
        if outcome.lines < MOST {
            expect_eq(rt, &outcome.fewest, &contract.promised(side));
        } else {
            contract.play_some(rt, side, AT_RANDOM);
        }
    }
    contract.expect_line(rt);
}

/// Plays ten endings of this size, half of two suits and half of four.
fn expect_endings(rt: &impl Abort, alloc: Global, size: usize) {
    let mut words = Pcg32::new(size as u64, 0);
    for _ending in 0..5u8 {
        for pack in [26, 52] {
            let layout = got(rt, draw_layout(&mut words, pack, size));
            let declarer = draw_seat(&mut words);
            let trump = draw_trump(&mut words);
            expect_ending(rt, alloc, &layout, declarer, trump);
        }
    }
}

#[test]
fn endings_of_up_to_four_cards(rt: HostRuntime) {
    for size in 1..5usize {
        expect_endings(&rt, rt.alloc(), size);
    }
}

#[test]
fn endings_of_five_cards(rt: HostRuntime) {
    expect_endings(&rt, rt.alloc(), 5);
}

#[test]
fn endings_of_six_cards(rt: HostRuntime) {
    expect_endings(&rt, rt.alloc(), 6);
}
