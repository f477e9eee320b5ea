//! Every line against answers of another solver, whose graphs are of the first version.

use crate::contracts::Contract;
use crate::expect::{expect_eq, got};
use crate::foreign::{ANSWERS, Foreign};
use cards::Side;
use certificate_graph::Graph;
use pbn_deals::read_layout;
use std::alloc::Global;
use std::process::Abort;

/// More lines than any of them has.
const MOST: u32 = 1_000;

fn expect_answer(rt: &impl Abort, alloc: Global, answer: &Foreign) {
    let declarers = got(rt, Graph::read(alloc, answer.declarers));
    let defenders = got(rt, Graph::read(alloc, answer.defenders));
    let contract = Contract {
        layout: got(rt, read_layout(answer.layout.as_bytes())),
        declarer: answer.declarer,
        trump: answer.trump,
        k: answer.k,
        declarers: &declarers,
        defenders: &defenders,
    };
    for side in [Side::NorthSouth, Side::EastWest] {
        let outcome = contract.play_all(rt, side, MOST);
        expect_eq(rt, &outcome.fewest, &contract.promised(side));
    }
    contract.expect_line(rt);
}

#[test]
fn foreign_answers(rt: HostRuntime) {
    for answer in ANSWERS {
        expect_answer(&rt, rt.alloc(), &answer);
    }
}
