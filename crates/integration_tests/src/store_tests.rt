//! What no clause says: that an add with ample memory succeeds. The layouts and answers were made by hand.

use crate::expect::{expect_eq, got};
use cards::{Layout, Seat, Side};
use pattern_store::Store;
use patterns::Pattern;

/// Each seat holds one spade, North's the highest: the ace, the king, the queen and the jack.
const HIGH: [u64; 4] = [1 << 12, 1 << 11, 1 << 10, 1 << 9];

/// The same with West's card above East's and South's.
const OTHER: [u64; 4] = [1 << 12, 1 << 9, 1 << 10, 1 << 11];

/// North's card is a heart.
const HEART: [u64; 4] = [1 << 25, 1 << 11, 1 << 10, 1 << 9];

/// The patterns of the first layout in the order in which they are added: how many spades they name, the seat to lead,
/// the side, its tricks and a number.
const ADDED: [(u8, Seat, Side, u8, u32); 5] = [
    (2, Seat::East, Side::NorthSouth, 1, 70),
    (1, Seat::East, Side::NorthSouth, 1, 71),
    (1, Seat::East, Side::NorthSouth, 2, 72),
    (1, Seat::South, Side::NorthSouth, 1, 73),
    (1, Seat::East, Side::EastWest, 1, 74),
];

/// What is asked, and the number that is found.
const ASKED: [([u64; 4], Seat, Side, u8, Option<u32>); 9] = [
    (HIGH, Seat::East, Side::NorthSouth, 1, Some(70)),
    (HIGH, Seat::East, Side::NorthSouth, 0, Some(70)),
    (HIGH, Seat::East, Side::NorthSouth, 2, Some(72)),
    (HIGH, Seat::East, Side::NorthSouth, 3, None),
    (HIGH, Seat::South, Side::NorthSouth, 1, Some(73)),
    (HIGH, Seat::East, Side::EastWest, 1, Some(74)),
    (HIGH, Seat::North, Side::EastWest, 1, None),
    (OTHER, Seat::East, Side::NorthSouth, 1, Some(71)),
    (HEART, Seat::East, Side::NorthSouth, 1, None),
];

#[test]
fn first_add_that_serves(rt: HostRuntime) {
    let mut store = Store::new(rt.alloc());
    let layout = got(&rt, Layout::from_hands(HIGH));
    let found = store.find(&layout, Seat::East, Side::NorthSouth, 1);
    expect_eq(&rt, &found, &None);
    for (spades, lead, side, need, number) in ADDED {
        let pattern = Pattern::of_layout(&layout, [spades, 0, 0, 0]);
        got(&rt, store.add(pattern, lead, side, need, number));
    }
    for (hands, lead, side, need, number) in ASKED {
        let layout = got(&rt, Layout::from_hands(hands));
        expect_eq(&rt, &store.find(&layout, lead, side, need), &number);
    }
}
