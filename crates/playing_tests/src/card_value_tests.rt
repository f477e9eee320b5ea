//! The values of cards, shown by the solver's certificates, beside a slow search by the rules.

use crate::contracts::drawn;
use crate::draws::{draw_below, draw_layout, draw_seat, draw_trump};
use crate::expect::{expect, expect_eq, got, some};
use card_values::{CardFault, CardGraphs, CardValues, TrickInProgress, judge_cards};
use cards::{Card, Layout, Seat, Side, Trump};
use certificate_graph::{CardBundle, CardSolver};
use checker::CheckedGraph;
use partition_solver::Partition;
use play_rules::Table;
use rand_pcg::Pcg32;
use std::alloc::Global;
use std::process::Abort;

/// How many steps the solver has for a card.
pub(crate) const BUDGET: u64 = 10_000_000;

/// An ending with a trick in progress.
#[derive(Drop)]
pub(crate) struct Case {
    layout: Layout,
    leader: Seat,
    trump: Trump,
    pub(crate) trick: TrickInProgress,
    pub(crate) table: Table,
}

/// An ending of so many cards with so many cards played, all at random.
pub(crate) fn draw_case(rt: &impl Abort, words: &mut Pcg32, size: usize, played: usize) -> Case {
    let layout = got(rt, draw_layout(words, 52, size));
    let leader = draw_seat(words);
    let trump = draw_trump(words);
    let mut trick = TrickInProgress::new(layout, leader, trump);
    let mut table = Table::new(layout, leader, trump);
    for _ in 0..played {
        let card = drawn(rt, &trick.legal(), words);
        got(rt, trick.play(card));
        got(rt, table.play(card));
    }
    Case {
        layout,
        leader,
        trump,
        trick,
        table,
    }
}

/// The table after this card.
pub(crate) fn after(rt: &impl Abort, table: &Table, card: Card) -> Table {
    let mut next = table.clone().unwrap();
    got(rt, next.play(card));
    next
}

/// Whether North and South take so many tricks at this table, with at most so many cards to be played.
fn can_take(table: &Table, need: u8, cards: u32) -> bool {
    if table.tricks(Side::NorthSouth) >= need {
        return true;
    }
    let Some(seat) = table.turn() else {
        return false;
    };
    if cards == 0 {
        return false;
    }
    let ours = seat.side() == Side::NorthSouth;
    for card in table.legal().as_slice() {
        let mut next = table.clone().unwrap();
        if next.play(*card).is_ok() && can_take(&next, need, cards - 1) == ours {
            return ours;
        }
    }
    !ours
}

/// How many tricks North and South take at this table.
fn slow_value(table: &Table) -> u8 {
    let mut value = 0;
    for need in 1..5u8 {
        if can_take(table, need, 16) {
            value = need;
        }
    }
    value
}

/// How many tricks a side takes at this table, if the layout has `size` of them.
pub(crate) fn slow_tricks(table: &Table, size: u8, side: Side) -> u8 {
    let ours = slow_value(table);
    match side {
        Side::NorthSouth => ours,
        Side::EastWest => size.saturating_sub(ours),
    }
}

/// What a solver finds for a case.
pub(crate) fn solved<S: CardSolver>(
    rt: &impl Abort,
    alloc: Global,
    solver: &S,
    case: &Case,
) -> CardBundle {
    let played = case.trick.played();
    let leaders = [case.leader];
    let found = solver.solve_cards(alloc, &case.layout, &leaders, case.trump, played, BUDGET);
    some(rt, got(rt, found))
}

/// The judgement of what was found for a case.
fn judged(rt: &impl Abort, bundle: &CardBundle, case: Case) -> Result<CardValues, CardFault> {
    let ns = CheckedGraph::of(got(rt, bundle.ns.clone()));
    let ew = CheckedGraph::of(got(rt, bundle.ew.clone()));
    let graphs = CardGraphs { ns: &ns, ew: &ew };
    judge_cards(case.trick, &graphs, bundle.claims.as_slice())
}

/// Each card of a case has the tricks that the slow search finds.
fn expect_values(rt: &impl Abort, alloc: Global, solver: &Partition, case: Case) {
    let bundle = solved(rt, alloc, solver, &case);
    let size = case.layout.len() as u8;
    let player = case.trick.turn().side();
    let table = case.table.clone().unwrap();
    let shown = got(rt, judged(rt, &bundle, case));
    expect_eq(rt, &shown.values().len(), &table.legal().len());
    for value in shown.values() {
        let next = after(rt, &table, value.card);
        expect_eq(rt, &value.tricks, &slow_tricks(&next, size, player));
    }
}

/// So many endings of a size, with none to three cards played.
fn expect_endings(rt: &impl Abort, alloc: Global, size: usize, count: u32) {
    let solver = Partition::new();
    let mut words = Pcg32::new(size as u64, 70);
    for _ in 0..count {
        for played in 0..4usize {
            let case = draw_case(rt, &mut words, size, played);
            expect_values(rt, alloc, &solver, case);
        }
    }
}

#[test]
fn cards_of_endings(rt: HostRuntime) {
    for (size, count) in [(2usize, 40u32), (3, 30), (4, 6)] {
        expect_endings(&rt, rt.alloc(), size, count);
    }
}

/// The number of tricks of a claim, made one more or one less.
pub(crate) fn other_number(tricks: u8, is_more: bool) -> u8 {
    if is_more {
        tricks.saturating_add(1)
    } else {
        tricks.wrapping_sub(1)
    }
}

/// A claim of one trick more or less is refused.
#[test]
fn other_tricks_are_refused(rt: HostRuntime) {
    let solver = Partition::new();
    let mut words = Pcg32::new(5, 70);
    for round in 0..60usize {
        let case = draw_case(&rt, &mut words, 3, round % 4);
        let mut bundle = solved(&rt, rt.alloc(), &solver, &case);
        let place = draw_below(&mut words, bundle.claims.len().max(1));
        if let Some(claim) = bundle.claims.get_mut(place) {
            claim.tricks = other_number(claim.tricks, round % 8 < 4);
        }
        expect(&rt, judged(&rt, &bundle, case).is_err());
    }
}
