//! Worked examples of patterns, with answers made by hand.

use crate::expect::{expect, expect_eq, expect_ne, got};
use arrayvec::ArrayVec;
use cards::{Seat, Suit};
use patterns::{Pattern, PatternFault, Rest, SuitPart};
use pbn_deals::read_layout;
use std::process::Abort;

const NORTH: Seat = Seat::North;

const EAST: Seat = Seat::East;

const SOUTH: Seat = Seat::South;

const WEST: Seat = Seat::West;

/// A part of these lengths and owners; at most thirteen owners count.
pub fn part(lens: [u8; 4], owners: &[Seat]) -> SuitPart {
    let mut listed = ArrayVec::new();
    for owner in owners {
        let _ = listed.try_push(*owner);
    }
    SuitPart {
        lens,
        owners: listed,
    }
}

/// No card of a suit.
pub fn empty() -> SuitPart {
    part([0, 0, 0, 0], &[])
}

/// A pattern with spades alone.
fn spades(lens: [u8; 4], owners: &[Seat]) -> Result<Pattern, PatternFault> {
    Pattern::from_parts([part(lens, owners), empty(), empty(), empty()])
}

fn rest_of_spades(lens: [u8; 4], owners: &[Seat]) -> Result<Rest, PatternFault> {
    Rest::from_parts([part(lens, owners), empty(), empty(), empty()])
}

/// North has the ace and the queen of spades, East 6 and 5, South 3 and 2, West the king and the 4.
const FINESSE: &[u8] = b"N:AQ... 65... 32... K4...";

/// Whether a pattern of spades matches the finesse, by its lengths and owners.
const MATCHES: [([u8; 4], &[Seat], bool); 5] = [
    ([2, 2, 2, 2], &[], true),
    ([2, 2, 2, 2], &[NORTH, WEST, NORTH], true),
    ([2, 2, 2, 2], &[NORTH, NORTH], false),
    ([2, 2, 2, 2], &[NORTH, WEST, WEST], false),
    ([1, 1, 1, 1], &[NORTH], false),
];

/// Whether the pattern of spades covers the rest of one spade a hand with these owners.
const COVERS: [([u8; 4], &[Seat], &[Seat], bool); 5] = [
    ([1, 1, 1, 1], &[NORTH], &[NORTH, WEST], true),
    ([1, 1, 1, 1], &[NORTH, WEST], &[NORTH], false),
    ([1, 1, 1, 1], &[NORTH], &[NORTH], true),
    ([2, 2, 2, 2], &[NORTH], &[NORTH], false),
    ([1, 1, 1, 1], &[WEST], &[NORTH, WEST], false),
];

/// The pattern of a layout lists its highest cards, and a pattern matches by them.
#[test]
fn made_and_matched(rt: HostRuntime) {
    let layout = got(&rt, read_layout(FINESSE));
    let short = Pattern::of_layout(&layout, [3, 0, 0, 0]);
    let listed = spades([2, 2, 2, 2], &[NORTH, WEST, NORTH]);
    expect_eq(&rt, &Ok(short), &listed);
    let whole = Pattern::of_layout(&layout, [13, 0, 0, 0]);
    let owners = [NORTH, WEST, NORTH, EAST, EAST, WEST, SOUTH, SOUTH];
    expect_eq(&rt, &whole.part(Suit::Spades), &part([2, 2, 2, 2], &owners));
    expect_eq(&rt, &whole.part(Suit::Hearts), &empty());

    let all_spades = Pattern::of_layout(&layout, [8, 0, 0, 0]);
    expect(&rt, all_spades.matches(&layout));
    for (lens, owners, matches) in MATCHES {
        let pattern = got(&rt, spades(lens, owners));
        expect_eq(&rt, &pattern.matches(&layout), &matches);
    }
}

/// A pattern covers a rest that says no less.
#[test]
fn covered(rt: HostRuntime) {
    for (lens, owners, left, covers) in COVERS {
        let pattern = got(&rt, spades(lens, owners));
        let rest = got(&rt, rest_of_spades([1, 1, 1, 1], left));
        expect_eq(&rt, &pattern.covers(&rest), &covers);
    }
}

/// Lengths and owners of spades that are no pattern.
const REFUSED: [([u8; 4], &[Seat], PatternFault); 5] = [
    ([4, 4, 3, 3], &[], PatternFault::Lengths),
    ([1, 1, 1, 0], &[], PatternFault::Cards),
    ([1, 1, 1, 1], &[NORTH, NORTH], PatternFault::Owners),
    ([0, 0, 0, 0], &[], PatternFault::Cards),
    ([14, 0, 0, 0], &[], PatternFault::Lengths),
];

/// Words of the four suits, and the fault that is told of them.
const REFUSED_WORDS: [([u64; 4], PatternFault); 5] = [
    ([1 << 63, 0, 0, 0], PatternFault::Words),
    ([0x3344, 0, 0, 0xE0000], PatternFault::Words),
    ([0x3344, 0, 0, 0], PatternFault::Lengths),
    ([0x0111, 0, 0, 0], PatternFault::Cards),
    ([0, 0, 0, 0], PatternFault::Cards),
];

/// Each hand is of one suit.
const SUIT_EACH: [u64; 4] = [0x000D, 0x00D0, 0x0D00, 0xD000];

#[test]
fn refuses_what_is_no_pattern(rt: HostRuntime) {
    for (lens, owners, fault) in REFUSED {
        expect_eq(&rt, &spades(lens, owners), &Err(fault));
    }
    for (words, fault) in REFUSED_WORDS {
        expect_eq(&rt, &Pattern::from_words(words), &Err(fault));
    }
    let each = got(&rt, Pattern::from_words(SUIT_EACH));
    expect_eq(&rt, each.words(), &SUIT_EACH);
}

/// Rests are refused likewise, but one of nothing is not.
#[test]
fn refuses_what_is_no_rest(rt: HostRuntime) {
    let twice = rest_of_spades([1, 1, 1, 1], &[SOUTH, SOUTH]);
    expect_eq(&rt, &twice, &Err(PatternFault::Owners));
    let suit_each = [
        part([13, 0, 0, 0], &[]),
        part([0, 13, 0, 0], &[]),
        part([0, 0, 13, 0], &[]),
        part([0, 0, 0, 13], &[]),
    ];
    expect_eq(&rt, &Rest::from_parts(suit_each), &Err(PatternFault::Cards));
    expect(&rt, rest_of_spades([0, 0, 0, 0], &[]).is_ok());
    expect(&rt, Rest::from_words([0; 4]).is_ok());
    expect_eq(&rt, &Rest::from_words(SUIT_EACH), &Err(PatternFault::Cards));
}

/// Places of owners taken out of North, West, North, and how many owners stay.
const WITHOUT: [(u64, usize); 4] = [(0b101, 1), (0b010, 2), (1 << 5, 3), (u64::MAX, 0)];

/// Lengths taken from a suit of which each seat has two cards, and how many a seat keeps; a seat that has fewer keeps
/// none, and no other seat pays for it.
const LESS: [(Suit, u64, Seat, u8); 9] = [
    (Suit::Spades, 0x1000, WEST, 1),
    (Suit::Spades, 0x1000, SOUTH, 2),
    (Suit::Spades, 0x2121, NORTH, 1),
    (Suit::Spades, 0x2121, WEST, 0),
    (Suit::Spades, 0x0013, NORTH, 0),
    (Suit::Spades, 0x0013, EAST, 1),
    (Suit::Spades, u64::MAX, WEST, 0),
    (Suit::Hearts, 0, NORTH, 0),
    (Suit::Hearts, 1, NORTH, 0),
];

/// What a pattern and a rest say of their suits.
#[test]
fn tells_its_parts(rt: HostRuntime) {
    let pattern = got(&rt, spades([2, 2, 2, 2], &[NORTH, WEST, NORTH]));
    let counts = [
        pattern.len(Suit::Spades, WEST),
        pattern.len(Suit::Clubs, WEST),
        pattern.tops(Suit::Spades, NORTH),
    ];
    expect_eq(&rt, &counts, &[2, 0, 2]);
    expect_eq(&rt, &pattern.owner_count(Suit::Spades), &3);
    let owners = [
        pattern.owner(Suit::Spades, 1),
        pattern.owner(Suit::Spades, 3),
    ];
    expect_eq(&rt, &owners, &[Some(WEST), None]);
    let rest = got(&rt, rest_of_spades([1, 1, 1, 1], &[EAST]));
    expect_eq(&rt, &rest.part(Suit::Spades), &part([1, 1, 1, 1], &[EAST]));
}

/// What stays where cards and owners are taken out of a suit's word.
#[test]
fn takes_out_of_a_suit(rt: HostRuntime) {
    let pattern = got(&rt, spades([2, 2, 2, 2], &[NORTH, WEST, NORTH]));
    let held = pattern.suit(Suit::Spades);
    for (places, count) in WITHOUT {
        expect_eq(&rt, &held.without(places).owner_count(), &count);
    }
    let west_alone = held.without(0b101);
    let left = [west_alone.owner(0), held.without(0b010).owner(1)];
    expect_eq(&rt, &left, &[Some(WEST), Some(NORTH)]);
    for (suit, lens, seat, kept) in LESS {
        expect_eq(&rt, &pattern.suit(suit).less(lens).len(seat), &kept);
    }
    expect_eq(&rt, &west_alone.len(NORTH), &2);
    expect_eq(&rt, &held.less(0x1000).tops(NORTH), &2);
}

/// Lengths and owners of a suit of a rest, and the owners where it is completed: one hand alone with low cards owns
/// each of them, below the owners before; where two hands have some nothing is known.
const COMPLETED: [([u8; 4], &[Seat], &[Seat]); 11] = [
    ([2, 1, 0, 0], &[], &[]),
    ([2, 1, 0, 0], &[NORTH], &[NORTH]),
    ([0, 0, 1, 2], &[], &[]),
    ([2, 1, 0, 0], &[EAST], &[EAST, NORTH, NORTH]),
    ([2, 1, 0, 0], &[NORTH, NORTH], &[NORTH, NORTH, EAST]),
    ([2, 1, 0, 0], &[NORTH, EAST, NORTH], &[NORTH, EAST, NORTH]),
    ([2, 0, 0, 0], &[], &[NORTH, NORTH]),
    ([0, 2, 0, 0], &[EAST], &[EAST, EAST]),
    ([0, 0, 2, 0], &[], &[SOUTH, SOUTH]),
    ([0, 0, 0, 2], &[], &[WEST, WEST]),
    (
        [1, 1, 1, 2],
        &[WEST, EAST, SOUTH, NORTH],
        &[WEST, EAST, SOUTH, NORTH, WEST],
    ),
];

/// A rest of hands of two cards: one suit of these lengths and owners, and of the next suit what the hands lack.
fn rest_in(suit: usize, lens: [u8; 4], owners: &[Seat]) -> Result<Rest, PatternFault> {
    let lacking = [
        2u8.saturating_sub(lens[0]),
        2u8.saturating_sub(lens[1]),
        2u8.saturating_sub(lens[2]),
        2u8.saturating_sub(lens[3]),
    ];
    let mut parts = [empty(), empty(), empty(), empty()];
    parts[suit % 4] = part(lens, owners);
    parts[suit.wrapping_add(1) % 4] = part(lacking, &[]);
    Rest::from_parts(parts)
}

/// Each suit is completed by itself: of the other suit two hands or more have low cards, so that it stays.
#[test]
fn completes_rests(rt: HostRuntime) {
    for suit in 0..4 {
        for (lens, owners, completed) in COMPLETED {
            let rest = got(&rt, rest_in(suit, lens, owners));
            let wanted = rest_in(suit, lens, completed);
            expect_eq(&rt, &Ok(rest.completed()), &wanted);
        }
    }
}

const ONES: [u8; 4] = [1, 1, 1, 1];

/// Four suits of a card a seat, one of which lists these owners.
fn suits_with_owners(suit: usize, owners: &[Seat]) -> [SuitPart; 4] {
    let mut parts = [
        part(ONES, &[]),
        part(ONES, &[]),
        part(ONES, &[]),
        part(ONES, &[]),
    ];
    parts[suit % 4] = part(ONES, owners);
    parts
}

/// The pattern of these suits.
fn pattern_of(rt: &impl Abort, suit: usize, owners: &[Seat]) -> Pattern {
    got(rt, Pattern::from_parts(suits_with_owners(suit, owners)))
}

/// The rest of these suits.
fn rest_of(rt: &impl Abort, suit: usize, owners: &[Seat]) -> Rest {
    got(rt, Rest::from_parts(suits_with_owners(suit, owners)))
}

#[test]
fn tells_unequal_suits_apart(rt: HostRuntime) {
    let pattern = pattern_of(&rt, 0, &[]);
    let rest = rest_of(&rt, 0, &[]);
    for suit in 0..4 {
        expect_eq(&rt, &pattern_of(&rt, suit, &[]), &pattern);
        expect_eq(&rt, &rest_of(&rt, suit, &[]), &rest);
        let north = pattern_of(&rt, suit, &[NORTH]);
        expect_ne(&rt, &north, &pattern);
        expect_ne(&rt, &north, &pattern_of(&rt, suit, &[WEST]));
        expect_ne(&rt, &rest_of(&rt, suit, &[NORTH]), &rest);
    }
}

/// Lengths and owners, of which no two are alike.
const PARTS: [([u8; 4], &[Seat]); 7] = [
    ([1, 1, 1, 1], &[]),
    ([2, 1, 1, 1], &[]),
    ([1, 2, 1, 1], &[]),
    ([1, 1, 2, 1], &[]),
    ([1, 1, 1, 2], &[]),
    ([1, 1, 1, 1], &[NORTH]),
    ([1, 1, 1, 1], &[EAST]),
];

#[test]
fn tells_unequal_lengths_apart(rt: HostRuntime) {
    for (place, (lens, owners)) in PARTS.iter().enumerate() {
        for (other, (other_lens, other_owners)) in PARTS.iter().enumerate() {
            let equal = part(*lens, owners) == part(*other_lens, other_owners);
            expect_eq(&rt, &equal, &(place == other));
        }
    }
}

#[test]
fn tells_exchanged_lengths_apart(rt: HostRuntime) {
    let (long, short) = ([2, 0, 1, 1], [0, 2, 1, 1]);
    let one = [part(long, &[]), part(short, &[]), empty(), empty()];
    let other = [part(short, &[]), part(long, &[]), empty(), empty()];
    let one = got(&rt, Rest::from_parts(one));
    expect_ne(&rt, &one, &got(&rt, Rest::from_parts(other)));
    let ones = got(&rt, spades(ONES, &[]));
    expect_ne(&rt, &ones, &got(&rt, spades([2, 2, 2, 2], &[])));
}

/// Spades in one word, and no other suit.
fn spade_word(word: u64) -> Result<Pattern, PatternFault> {
    Pattern::from_words([word, 0, 0, 0])
}

/// Words of spades, with the lengths and owners that they tell.
const WORDS: [(u64, [u8; 4], &[Seat]); 2] = [
    (0xC32222, [2, 2, 2, 2], &[NORTH, WEST, NORTH]),
    (0x11111, [1, 1, 1, 1], &[NORTH]),
];

/// Words of spades that tell no pattern.
const REFUSED_SPADES: [(u64, PatternFault); 3] = [
    (0x411111, PatternFault::Words),
    (0xE1111, PatternFault::Words),
    (0x51111, PatternFault::Owners),
];

#[test]
fn tells_a_suit_in_a_word(rt: HostRuntime) {
    for (word, lens, owners) in WORDS {
        let told = got(&rt, spades(lens, owners));
        expect_eq(&rt, &spade_word(word), &Ok(told));
    }
    for (word, fault) in REFUSED_SPADES {
        expect_eq(&rt, &spade_word(word), &Err(fault));
    }
}

/// Two words of spades: whether the pattern of the first covers the rest of the second.
const COVERED_WORDS: [(u64, u64, bool); 2] = [
    (0x11111, 0xC21111, true),
    (0xC21111, 0x11111, false),
];

/// The words that it was made of.
#[test]
fn keeps_its_words(rt: HostRuntime) {
    for (word, left, covers) in COVERED_WORDS {
        let rest = got(&rt, Rest::from_words([left, 0, 0, 0]));
        expect_eq(&rt, &got(&rt, spade_word(word)).covers(&rest), &covers);
    }
    let finesse = got(&rt, spade_word(0xC32222));
    expect_eq(&rt, finesse.words(), &[0xC32222, 0, 0, 0]);
    let rest_words = [0x121111, 0, 0xE441111, 0];
    let rest = got(&rt, Rest::from_words(rest_words));
    expect_eq(&rt, rest.words(), &rest_words);
    let all = part([1, 1, 1, 1], &[NORTH, EAST, SOUTH, WEST]);
    expect_eq(&rt, &rest.part(Suit::Diamonds), &all);
    let two = got(&rt, spades([1, 1, 1, 1], &[EAST, SOUTH]));
    expect_eq(&rt, two.words(), &[0x921111, 0, 0, 0]);
}

/// Two words of spades that are unlike.
const UNLIKE_WORDS: [(u64, u64); 2] = [
    // North in the second place leaves no bit but in the number of owners
    (0x22222, 0x12222),
    (0x111111, 0x11111),
];

#[test]
fn tells_unequal_words_apart(rt: HostRuntime) {
    for (one, other) in UNLIKE_WORDS {
        let one = got(&rt, spade_word(one));
        expect_ne(&rt, &one, &got(&rt, spade_word(other)));
    }
}
