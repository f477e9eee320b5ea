//! What no clause says: that the letters, the numbers and the refusals are those that a bridge player expects.
use crate::expect::{expect_bytes, expect_eq, expect_printed, got};
use cards::{
    Buffer, Bytes, Card, DeviceFault, Layout, LayoutFault, Rank, Seat, Side, Sink, Source, Suit,
    Trump, write_all, write_number,
};

const SPADES: u64 = 0x1fff;

/// A board on which each seat holds a whole suit.
const WHOLE_SUITS: [u64; 4] = [SPADES, SPADES << 13, SPADES << 26, SPADES << 39];

/// Numbers with their digits.
const NUMBERS: [(u64, &[u8]); 5] = [
    (0, b"0"),
    (9, b"9"),
    (10, b"10"),
    (1009, b"1009"),
    (u64::MAX, b"18446744073709551615"),
];

#[test]
fn letters_and_digits(rt: HostRuntime) {
    let alloc = rt.alloc();
    expect_printed(&rt, alloc, &Seat::ALL, &["N", "E", "S", "W"]);
    expect_printed(
        &rt,
        alloc,
        &[Side::NorthSouth, Side::EastWest],
        &["NS", "EW"],
    );
    expect_printed(&rt, alloc, &Trump::ALL, &["NT", "S", "H", "D", "C"]);
    expect_printed(&rt, alloc, &Suit::ALL, &["S", "H", "D", "C"]);
    let falling = [
        "A", "K", "Q", "J", "T", "9", "8", "7", "6", "5", "4", "3", "2",
    ];
    expect_printed(&rt, alloc, &Rank::FALLING, &falling);
    let cards = [
        Card::at(0),
        Card::at(8),
        Card::at(12),
        Card::at(13),
        Card::at(51),
    ];
    expect_printed(&rt, alloc, &cards, &["S2", "ST", "SA", "H2", "CA"]);
}

#[test]
fn numbers_in_digits(rt: HostRuntime) {
    for (number, digits) in NUMBERS {
        let mut sink = got(&rt, Buffer::new(rt.alloc(), 20, 20));
        expect_eq(&rt, &write_number(&mut sink, number), &Ok(()));
        expect_bytes(&rt, sink.bytes(), digits);
    }
}

const QUEEN: Card = Card {
    suit: Suit::Hearts,
    rank: Rank::Queen,
};

#[test]
fn seats_and_numbers(rt: HostRuntime) {
    let seats = [Seat::West.next(), Seat::South.next()];
    expect_eq(&rt, &seats, &[Seat::North, Seat::West]);
    let sides = [Seat::South.side(), Seat::West.side().other()];
    expect_eq(&rt, &sides, &[Side::NorthSouth, Side::NorthSouth]);
    expect_eq(&rt, &Suit::at(3), &Suit::Clubs);
    expect_eq(&rt, &Rank::at(12), &Rank::Ace);
    let numbers = [
        Seat::South.number(),
        Suit::Diamonds.number(),
        Rank::Ten.number(),
        QUEEN.number(),
    ];
    expect_eq(&rt, &numbers, &[2, 2, 8, 23]);
}

/// Hands that make no layout.
const REFUSED: [([u64; 4], LayoutFault); 8] = [
    ([1, 2, 4, 1 << 52], LayoutFault::StrayBit),
    ([1 << 63, 3, 3, 0], LayoutFault::StrayBit),
    ([1, 2, 1, 4], LayoutFault::CardTwice),
    ([0, 1 << 51, 0, 3 << 50], LayoutFault::CardTwice),
    ([1, 2, 4, 24], LayoutFault::HandSize),
    ([1, 2, 4, 0], LayoutFault::HandSize),
    ([0, 0, 0, 0], LayoutFault::HandSize),
    ([0x3fff, 0x3fff << 14, 0, 0], LayoutFault::HandSize),
];

#[test]
fn layouts(rt: HostRuntime) {
    let layout = got(&rt, Layout::from_hands(WHOLE_SUITS));
    expect_eq(&rt, &layout.len(), &13);
    expect_eq(&rt, &layout.owner(QUEEN), &Some(Seat::East));
    expect_eq(&rt, &layout.holds(Seat::East, QUEEN), &true);
    expect_eq(&rt, &layout.holds(Seat::West, QUEEN), &false);
    expect_eq(&rt, &layout.holding(Seat::East, Suit::Hearts), &0x1fff);
    expect_eq(&rt, &layout.holding(Seat::East, Suit::Clubs), &0);

    let ending = got(&rt, Layout::from_hands([1, 2, 4, 8]));
    expect_eq(&rt, &ending.len(), &1);
    expect_eq(&rt, &ending.owner(QUEEN), &None);
    expect_eq(&rt, &Ok(ending), &Layout::from_hands([1, 2, 4, 8]));
    expect_eq(&rt, &(ending == layout), &false);
}

#[test]
fn refused_hands(rt: HostRuntime) {
    for (hands, fault) in REFUSED {
        expect_eq(&rt, &Layout::from_hands(hands), &Err(fault));
    }
}

#[test]
fn reads_in_pieces(rt: HostRuntime) {
    let mut buffer = [0; 8];
    let mut source = Bytes::new(b"hello", 2);
    expect_eq(&rt, &source.read(&mut buffer), &Ok(2));
    expect_eq(&rt, &source.read(&mut buffer[2..]), &Ok(2));
    expect_eq(&rt, &source.read(&mut []), &Ok(0));
    expect_eq(&rt, &source.read(&mut buffer[4..]), &Ok(1));
    expect_bytes(&rt, &buffer, b"hello\0\0\0");
    expect_eq(&rt, &source.read(&mut buffer), &Ok(0));

    let mut failing = Bytes::failing_after(b"hello", 3, 1);
    for wanted in [Ok(3), Err(DeviceFault), Ok(2)] {
        expect_eq(&rt, &failing.read(&mut buffer), &wanted);
    }
    expect_bytes(&rt, &buffer, b"lollo\0\0\0");

    let mut single = Bytes::new(b"hello", 0);
    expect_eq(&rt, &single.read(&mut buffer), &Ok(1));
}

#[test]
fn writes_in_pieces(rt: HostRuntime) {
    let mut sink = got(&rt, Buffer::new(rt.alloc(), 4, 3));
    expect_eq(&rt, &sink.write(b"abcdef"), &Ok(3));
    expect_eq(&rt, &sink.write(b"def"), &Ok(1));
    expect_eq(&rt, &sink.write(b"ef"), &Err(DeviceFault));
    expect_eq(&rt, &sink.write(b""), &Ok(0));
    expect_bytes(&rt, sink.bytes(), b"abcd");
}

#[test]
fn writes_all(rt: HostRuntime) {
    let mut whole = got(&rt, Buffer::new(rt.alloc(), 10, 3));
    expect_eq(&rt, &write_all(&mut whole, b"0123456789"), &Ok(()));
    expect_bytes(&rt, whole.bytes(), b"0123456789");

    let mut beginning = got(&rt, Buffer::new(rt.alloc(), 7, 0));
    let written = write_all(&mut beginning, b"0123456789");
    expect_eq(&rt, &written, &Err(DeviceFault));
    expect_bytes(&rt, beginning.bytes(), b"0123456");
}
