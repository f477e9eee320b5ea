//! Plays for tests.

use crate::draws::draw_below;
use crate::expect::{got, some};
use cards::{Card, Layout, Seat, Trump, rank_of, suit_of};
use certified_plays::{PlayFound, certified_play};
use partition_solver::FreshPartition;
use pbn_deals::read_layout;
use play_values::RecordedPlay;
use rand_pcg::Pcg32;
use std::alloc::Global;
use std::process::Abort;

/// How many steps the solver has for a claim.
const BUDGET: u64 = 10_000_000;

/// The layout of a Deal value.
pub fn layout_of(rt: &impl Abort, value: &[u8]) -> Layout {
    got(rt, read_layout(value))
}

/// Records the cards that a text names, two letters each with a blank between them.
pub fn record(rt: &impl Abort, play: &mut RecordedPlay, text: &[u8]) {
    for name in text.split(|byte| *byte == b' ') {
        let [suit, rank] = name else {
            return;
        };
        let suit = some(rt, suit_of(*suit));
        let rank = some(rt, rank_of(*rank));
        got(rt, play.play(Card { suit, rank }));
    }
}

/// Records this many legal cards, drawn at random, or all that are left.
pub fn record_drawn(rt: &impl Abort, play: &mut RecordedPlay, words: &mut Pcg32, count: usize) {
    for _ in 0..count {
        let cards = play.table().legal();
        if cards.is_empty() {
            return;
        }
        let place = draw_below(words, cards.len().max(1));
        if let Some(card) = cards.get(place).copied() {
            got(rt, play.play(card));
        }
    }
}

/// What the solver finds of a play.
pub fn found(rt: &impl Abort, alloc: Global, play: RecordedPlay) -> PlayFound {
    got(rt, certified_play(alloc, play, BUDGET, &FreshPartition))
}

/// A play from this layout with this declarer, before the lead.
pub fn begun(layout: Layout, declarer: Seat, trump: Trump) -> RecordedPlay {
    RecordedPlay::new(layout, declarer.next(), trump, declarer.side())
}
