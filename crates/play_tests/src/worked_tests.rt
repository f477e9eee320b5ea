//! Plays whose values were worked out by hand.

use crate::expect::expect_eq;
use crate::recorded::{begun, found, layout_of, record};
use cards::{Seat, Suit, Trump};
use certified_plays::PlayValues;
use std::process::Abort;

/// The values after each number of cards, and what each card loses.
fn expect_values(rt: &impl Abort, shown: &PlayValues, values: &[u8], lost: &[u8]) {
    expect_eq(rt, &shown.play().cards().len(), &lost.len());
    for count in 0..values.len() {
        expect_eq(rt, &shown.value(count), &values.get(count).copied());
    }
    for place in 0..lost.len() {
        if place < shown.play().cards().len() {
            expect_eq(rt, &shown.lost(place), &lost.get(place).copied());
        }
    }
}

/// East declares, and South leads. North's queen wins if North waits for West's king, so East and West take nothing.
/// North's ace gives up a trick to the king.
#[test]
fn a_finesse_that_is_not_taken(rt: HostRuntime) {
    let layout = layout_of(&rt, b"N:AQ... 65... 32... K4...");
    let mut play = begun(layout, Seat::East, Trump::Nt);
    record(&rt, &mut play, b"S3 S4 SA S5 SQ S6 S2 SK");
    let found = found(&rt, rt.alloc(), play);
    let values = [0u8, 0, 0, 1, 1, 1, 1, 1, 1];
    let lost = [0u8, 0, 1, 0, 0, 0, 0, 0];
    expect_values(&rt, &found.values, &values, &lost);
}

/// South declares with spades as trump, and West leads. West's trump and two high cards take all three tricks if the
/// trump is led first. After the ace of hearts North can ruff, for one trick. North's diamond gives that up.
#[test]
fn a_ruff_that_is_not_taken(rt: HostRuntime) {
    let layout = layout_of(&rt, b"N:2..32. .3.54. .K2.6. 3.A.7.");
    let mut play = begun(layout, Seat::South, Trump::Suit(Suit::Spades));
    record(&rt, &mut play, b"HA D2 H3 H2 S3 S2 D4 D6 D7 D3 D5 HK");
    let found = found(&rt, rt.alloc(), play);
    let values = [0u8, 1, 0, 0, 0, 0, 0, 0, 0, 0, 0, 0, 0];
    let lost = [1u8, 1, 0, 0, 0, 0, 0, 0, 0, 0, 0, 0];
    expect_values(&rt, &found.values, &values, &lost);
}

/// The same with North's ruff. No card after West's ace loses a trick.
#[test]
fn a_ruff_that_is_taken(rt: HostRuntime) {
    let layout = layout_of(&rt, b"N:2..32. .3.54. .K2.6. 3.A.7.");
    let mut play = begun(layout, Seat::South, Trump::Suit(Suit::Spades));
    record(&rt, &mut play, b"HA S2 H3 H2 D3 D5 D6 D7 S3 D2 D4 HK");
    let found = found(&rt, rt.alloc(), play);
    let values = [0u8, 1, 1, 1, 1, 1, 1, 1, 1, 1, 1, 1, 1];
    let lost = [1u8, 0, 0, 0, 0, 0, 0, 0, 0, 0, 0, 0];
    expect_values(&rt, &found.values, &values, &lost);
}

/// A play that ends early, and one of no cards.
#[test]
fn plays_that_end_early(rt: HostRuntime) {
    let layout = layout_of(&rt, b"N:AQ... 65... 32... K4...");
    let play = begun(layout, Seat::East, Trump::Nt);
    let none = found(&rt, rt.alloc(), play);
    expect_values(&rt, &none.values, &[0], &[]);
    let mut play = begun(layout, Seat::East, Trump::Nt);
    record(&rt, &mut play, b"S3 SK SA");
    let three = found(&rt, rt.alloc(), play);
    expect_values(&rt, &three.values, &[0, 0, 0, 0], &[0, 0, 0]);
}
