//! Worked tricks on patterns, with answers made by hand.

use crate::expect::{expect, expect_eq, expect_ne, got};
use crate::pattern_tests::{empty, part};
use cards::{Seat, Suit, Trump};
use pattern_step::{PatCard, SeatSet, are_legal, is_legal, legal, rest, winners};
use patterns::{Pattern, SuitPart};
use std::process::Abort;

const NORTH: Seat = Seat::North;

const EAST: Seat = Seat::East;

const SOUTH: Seat = Seat::South;

const WEST: Seat = Seat::West;

/// A pattern of spades and hearts.
fn pattern(rt: &impl Abort, spades: SuitPart, hearts: SuitPart) -> Pattern {
    got(rt, Pattern::from_parts([spades, hearts, empty(), empty()]))
}

/// North's ace and queen of spades over West's king, and two cards each.
fn finesse(rt: &impl Abort) -> Pattern {
    pattern(rt, part([2, 2, 2, 2], &[NORTH, WEST, NORTH]), empty())
}

const LOW: PatCard = PatCard::Low(Suit::Spades);

const LOW_HEART: PatCard = PatCard::Low(Suit::Hearts);

/// The highest card of the spades whose owner is listed.
const FIRST: PatCard = PatCard::Top(Suit::Spades, 0);

const SECOND: PatCard = PatCard::Top(Suit::Spades, 1);

const THIRD: PatCard = PatCard::Top(Suit::Spades, 2);

const FIRST_HEART: PatCard = PatCard::Top(Suit::Hearts, 0);

const SECOND_HEART: PatCard = PatCard::Top(Suit::Hearts, 1);

fn set(seats: &[Seat]) -> SeatSet {
    let mut set = SeatSet::new();
    for seat in seats {
        set = set.with(*seat);
    }
    set
}

/// The legal cards of a seat in the finesse, by the suit led. A seat without the suit led, and one that leads, may play
/// any card.
const LEGAL: [(Seat, Option<Suit>, &[PatCard]); 4] = [
    (WEST, Some(Suit::Spades), &[SECOND, LOW]),
    (NORTH, Some(Suit::Spades), &[FIRST, THIRD]),
    (WEST, Some(Suit::Clubs), &[SECOND, LOW]),
    (WEST, None, &[SECOND, LOW]),
];

/// The same with spades and hearts.
const LEGAL_OF_BOTH: [(Seat, Option<Suit>, &[PatCard]); 3] = [
    (NORTH, None, &[FIRST, SECOND_HEART]),
    (NORTH, Some(Suit::Hearts), &[SECOND_HEART]),
    (SOUTH, None, &[LOW, LOW_HEART]),
];

#[test]
fn tells_the_legal_cards(rt: HostRuntime) {
    let finesse = finesse(&rt);
    for (seat, led, cards) in LEGAL {
        expect(&rt, legal(&finesse, seat, led).as_slice() == cards);
    }
    expect(&rt, !are_legal(&finesse, SOUTH, &[LOW, LOW, LOW, LOW]));
    expect(&rt, is_legal(&finesse, WEST, Some(Suit::Hearts), SECOND));
    expect(&rt, !is_legal(&finesse, WEST, None, FIRST));
    let fourth = PatCard::Top(Suit::Spades, 3);
    expect(&rt, !is_legal(&finesse, WEST, None, fourth));
}

#[test]
fn tells_the_legal_cards_of_both_suits(rt: HostRuntime) {
    let spades = part([1, 0, 1, 1], &[NORTH]);
    let both = pattern(&rt, spades, part([1, 2, 1, 1], &[EAST, NORTH]));
    for (seat, led, cards) in LEGAL_OF_BOTH {
        expect(&rt, legal(&both, seat, led).as_slice() == cards);
    }
    let spades = Some(Suit::Spades);
    expect(&rt, !is_legal(&both, NORTH, spades, SECOND_HEART));
    expect(&rt, is_legal(&both, EAST, spades, LOW_HEART));
}

/// The trick is legal and won by this seat in no-trump, and leaves this part of the spades, no hearts, and what the
/// pattern behind it covers or not.
fn expect_trick(
    rt: &impl Abort,
    pattern: &Pattern,
    leader: Seat,
    cards: [PatCard; 4],
    winner: Seat,
    spades: SuitPart,
    (child, covers): (&Pattern, bool),
) {
    assert!(rt; are_legal(pattern, leader, &cards));
    let won = winners(pattern, Trump::Nt, leader, &cards);
    expect_eq(rt, &won, &SeatSet::new().with(winner));
    let left = rest(pattern, leader, &cards);
    expect_eq(rt, &left.part(Suit::Spades), &spades);
    expect_eq(rt, &left.part(Suit::Hearts), &empty());
    expect_eq(rt, &child.covers(&left), &covers);
}

/// Tricks of the finesse that South leads and North wins: the cards, the lengths and owners that are left, and whether
/// North's high card covers them.
const FINESSES: [([PatCard; 4], [u8; 4], &[Seat], bool); 3] = [
    // West plays the king, and North the ace
    ([LOW, SECOND, FIRST, LOW], [1, 1, 1, 1], &[NORTH], true),
    // West ducks, and North finesses
    ([LOW, LOW, THIRD, LOW], [1, 1, 1, 1], &[NORTH, WEST], true),
    // West ducks, and North plays the ace: West's king is high
    ([LOW, LOW, FIRST, LOW], [1, 1, 1, 1], &[WEST, NORTH], false),
];

#[test]
fn moves_the_owners_up(rt: HostRuntime) {
    let finesse = finesse(&rt);
    // North has the highest of one card each
    let child = pattern(&rt, part([1, 1, 1, 1], &[NORTH]), empty());
    for (cards, lens, owners, covers) in FINESSES {
        let left = part(lens, owners);
        expect_trick(&rt, &finesse, SOUTH, cards, NORTH, left, (&child, covers));
    }
    // after the last trick nothing is left, and no pattern covers nothing
    let last = [FIRST, LOW, LOW, LOW];
    expect_trick(&rt, &child, NORTH, last, NORTH, empty(), (&child, false));
}

/// Who may win where two hearts are led and two spades played, by the denomination.
const TRUMP_WINNERS: [(Trump, &[Seat]); 3] = [
    (Trump::Suit(Suit::Spades), &[NORTH, SOUTH]),
    (Trump::Nt, &[EAST]),
    (Trump::Suit(Suit::Clubs), &[EAST]),
];

/// Low cards of the suit are any of their players' to win with; a top wins.
#[test]
fn tells_the_winners(rt: HostRuntime) {
    let without_ranks = pattern(&rt, part([2, 2, 2, 2], &[]), empty());
    let all = winners(&without_ranks, Trump::Nt, NORTH, &[LOW, LOW, LOW, LOW]);
    expect_eq(&rt, &all, &set(&[NORTH, EAST, SOUTH, WEST]));
    let one_top = pattern(&rt, part([1, 1, 1, 1], &[EAST]), empty());
    let east = winners(&one_top, Trump::Nt, EAST, &[FIRST, LOW, LOW, LOW]);
    expect_eq(&rt, &east, &set(&[EAST]));
}

/// A trump wins.
#[test]
fn tells_the_winners_by_trumps(rt: HostRuntime) {
    let hearts = part([0, 1, 0, 1], &[EAST, WEST]);
    let ending = pattern(&rt, part([1, 0, 1, 0], &[]), hearts);
    let cards = [FIRST_HEART, LOW, SECOND_HEART, LOW];
    for (trump, seats) in TRUMP_WINNERS {
        expect_eq(&rt, &winners(&ending, trump, EAST, &cards), &set(seats));
    }
}

#[test]
fn tells_unequal_cards_and_sets_apart(rt: HostRuntime) {
    expect_ne(&rt, &FIRST, &FIRST_HEART);
    expect_ne(&rt, &FIRST, &SECOND);
    expect_ne(&rt, &FIRST, &LOW);
    expect_ne(&rt, &LOW, &PatCard::Low(Suit::Clubs));
    let last = PatCard::Top(Suit::Clubs, 12);
    expect_eq(&rt, &last, &PatCard::Top(Suit::Clubs, 12));
    for seat in [NORTH, EAST, SOUTH, WEST] {
        expect_ne(&rt, &set(&[seat]), &SeatSet::new());
        expect_eq(&rt, &set(&[seat, seat]), &set(&[seat]));
    }
    let north = set(&[NORTH]);
    expect(&rt, north.contains(NORTH) && !north.contains(EAST));
}
