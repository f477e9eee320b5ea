//! Plays at random, beside the slow search.

use crate::draws::{draw_below, draw_layout, draw_seat, draw_trump};
use crate::expect::{expect, expect_eq, got};
use crate::recorded::{begun, found, record_drawn};
use crate::slow::slow_tricks;
use certified_plays::{PlayFound, judge_play_bundle};
use play_values::RecordedPlay;
use rand_pcg::Pcg32;
use std::process::Abort;

/// A random play of a random ending with this many cards a hand. It may end early.
fn drawn(rt: &impl Abort, words: &mut Pcg32, size: usize) -> RecordedPlay {
    let layout = got(rt, draw_layout(words, 52, size));
    let mut play = begun(layout, draw_seat(words), draw_trump(words));
    let count = draw_below(words, size.min(13) * 4 + 1);
    record_drawn(rt, &mut play, words, count);
    play
}

/// Each number is the one that the slow search finds.
fn expect_slow(rt: &impl Abort, found: &PlayFound) {
    let play = found.values.play();
    for count in 0..play.cards().len() + 1 {
        let slow = slow_tricks(&play.table_after(count), play.declarers());
        expect_eq(rt, &found.values.value(count), &Some(slow));
    }
}

#[test]
fn values_of_endings(rt: HostRuntime) {
    for (size, count) in [(1usize, 20u32), (2, 40), (3, 30), (4, 6)] {
        let mut words = Pcg32::new(size as u64, 72);
        for _ in 0..count {
            let play = drawn(&rt, &mut words, size);
            expect_slow(&rt, &found(&rt, rt.alloc(), play));
        }
    }
}

/// A claim of one trick more or less is refused, and no other.
#[test]
fn other_numbers_are_refused(rt: HostRuntime) {
    for round in 0..40u64 {
        let mut words = Pcg32::new(round, 73);
        let before = found(&rt, rt.alloc(), drawn(&rt, &mut words, 3));
        let mut words = Pcg32::new(round, 73);
        let play = drawn(&rt, &mut words, 3);
        let mut bundle = before.bundle;
        let place = draw_below(&mut words, bundle.claims.len().max(1));
        if let Some(Some(claim)) = bundle.claims.get_mut(place) {
            claim.tricks = if round % 2 == 0 {
                claim.tricks.saturating_add(1)
            } else {
                claim.tricks.wrapping_sub(1)
            };
        }
        let judged = got(&rt, judge_play_bundle(play, &bundle));
        expect(&rt, judged.value(place).is_none());
        for count in 0..bundle.claims.len() {
            expect(
                &rt,
                count == place || judged.value(count) == before.values.value(count),
            );
        }
    }
}
