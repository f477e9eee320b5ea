//! Cards that lead to the most tricks, shown by the solver's certificates, beside a slow search by the rules.

use crate::card_value_tests::{BUDGET, Case, after, draw_case, other_number, slow_tricks, solved};
use crate::draws::draw_below;
use crate::expect::{expect, expect_eq, got, some};
use best_cards::{BestCards, BestFault, certified_best, judge_best};
use card_values::CardGraphs;
use cards::Side;
use certificate_graph::CardBundle;
use checker::CheckedGraph;
use partition_solver::FreshBest;
use play_rules::Table;
use rand_pcg::Pcg32;
use std::alloc::Global;
use std::process::Abort;

/// The most tricks that the slow search finds for a card.
fn most_tricks(rt: &impl Abort, table: &Table, size: u8, player: Side) -> u8 {
    let mut most = 0u8;
    for card in table.legal().as_slice() {
        let next = after(rt, table, *card);
        most = most.max(slow_tricks(&next, size, player));
    }
    most
}

/// Each card that is found for a case has the most tricks that the slow search finds for a card.
fn expect_best(rt: &impl Abort, alloc: Global, case: Case) {
    let size = case.trick.layout().len() as u8;
    let player = case.trick.turn().side();
    let table = case.table.clone().unwrap();
    let found = certified_best(alloc, case.trick, BUDGET, &FreshBest);
    let found = some(rt, got(rt, found));
    let most = most_tricks(rt, &table, size, player);
    expect(rt, !found.cards.values().is_empty());
    for value in found.cards.values() {
        let next = after(rt, &table, value.card);
        expect_eq(rt, &value.tricks, &most);
        expect_eq(rt, &slow_tricks(&next, size, player), &most);
    }
}

#[test]
fn best_cards_of_endings(rt: HostRuntime) {
    for (size, count) in [(1usize, 20u32), (2, 40), (3, 30), (4, 6)] {
        let mut words = Pcg32::new(size as u64, 71);
        for _ in 0..count {
            for played in 0..4usize {
                let case = draw_case(&rt, &mut words, size, played);
                expect_best(&rt, rt.alloc(), case);
            }
        }
    }
}

/// The judgement of what was found for a case.
fn judged(rt: &impl Abort, bundle: &CardBundle, case: Case) -> Result<BestCards, BestFault> {
    let ns = CheckedGraph::of(got(rt, bundle.ns.clone()));
    let ew = CheckedGraph::of(got(rt, bundle.ew.clone()));
    let graphs = CardGraphs { ns: &ns, ew: &ew };
    judge_best(case.trick, &graphs, bundle.claims.as_slice())
}

/// A claim of one trick more or less is refused, and for that reason.
#[test]
fn other_best_tricks_are_refused(rt: HostRuntime) {
    let mut words = Pcg32::new(6, 71);
    for round in 0..60usize {
        let case = draw_case(&rt, &mut words, 3, round % 4);
        let mut bundle = solved(&rt, rt.alloc(), &FreshBest, &case);
        let is_more = draw_below(&mut words, 2) == 0;
        for claim in bundle.claims.iter_mut() {
            claim.tricks = other_number(claim.tricks, is_more);
        }
        let fault = judged(&rt, &bundle, case).err();
        expect(&rt, fault.is_some() && fault != Some(BestFault::NoClaim));
    }
}
