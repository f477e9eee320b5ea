//! What stands in no worked case (`worked_cases`): long texts, and who holds the cards of a layout.

use crate::expect::{expect_bytes, expect_eq, got};
use cards::{Card, Rank, Seat, Suit};
use pbn_deals::{read_boards, read_layout};
use std::process::Abort;

/// More than 1 MB.
const TEXT_SIZE: usize = 2 << 20;

/// More than 255, and more than 65,535.
const NAME_SIZE: usize = 70_000;

/// A text of over 1 MB and a name of over 255 bytes are answered as others are.
#[test]
fn long_texts(rt: HostRuntime) {
    let alloc = rt.alloc();
    let filling = got(&rt, vec![in alloc; b' '; TEXT_SIZE]);
    let name = got(&rt, vec![in alloc; b'n'; NAME_SIZE]);
    let parts: [&[u8]; 5] = [
        b"[Board \"",
        name.as_slice(),
        b"\"]\n{",
        filling.as_slice(),
        b"}\n[Deal \"?\"]\n",
    ];
    let mut text = Vec::new(alloc);
    for part in parts {
        got(&rt, text.extend_from_slice(part));
    }
    let boards = got(&rt, read_boards(alloc, text.as_slice()));
    let [board] = boards.as_slice() else {
        panic!(rt; "not one board");
    };
    expect_bytes(&rt, board.name.as_bytes(), name.as_slice());
}

/// A text has at most 4,096 boards: games without a Deal tag do not count.
#[test]
fn many_boards(rt: HostRuntime) {
    let mut games = Vec::new(rt.alloc());
    for _game in 0..4095 {
        got(&rt, games.extend_from_slice(b"[Deal \"?\"]\n\n"));
    }
    let last = b"[Event \"x\"]\n\n[Deal \"?\"]\n";
    got(&rt, games.extend_from_slice(last));
    let boards = got(&rt, read_boards(rt.alloc(), games.as_slice()));
    expect_eq(&rt, &boards.len(), &4096);
}

/// Four hands of thirteen cards.
const WHOLE: &[u8] = b"e:.akqjt98765432.. ..23456789tjqka. ...AKQJT98765432 AKQJT98765432...";

/// Four hands of two cards.
const ENDING: &[u8] = b"W:K.Q.. A.2.. .43.. ..J.9";

/// Who holds cards of a layout.
const HOLDERS: [(&[u8], Suit, Rank, Option<Seat>); 12] = [
    (WHOLE, Suit::Hearts, Rank::Ace, Some(Seat::East)),
    (WHOLE, Suit::Hearts, Rank::Two, Some(Seat::East)),
    (WHOLE, Suit::Diamonds, Rank::Ten, Some(Seat::South)),
    (WHOLE, Suit::Clubs, Rank::King, Some(Seat::West)),
    (WHOLE, Suit::Spades, Rank::Nine, Some(Seat::North)),
    (ENDING, Suit::Spades, Rank::King, Some(Seat::West)),
    (ENDING, Suit::Hearts, Rank::Queen, Some(Seat::West)),
    (ENDING, Suit::Spades, Rank::Ace, Some(Seat::North)),
    (ENDING, Suit::Hearts, Rank::Three, Some(Seat::East)),
    (ENDING, Suit::Diamonds, Rank::Jack, Some(Seat::South)),
    (ENDING, Suit::Clubs, Rank::Nine, Some(Seat::South)),
    (ENDING, Suit::Clubs, Rank::Ace, None),
];

#[test]
fn hands_go_clockwise_from_the_seat(rt: HostRuntime) {
    for (text, len) in [(WHOLE, 13), (ENDING, 2)] {
        expect_eq(&rt, &got(&rt, read_layout(text)).len(), &len);
    }
    for (text, suit, rank, holder) in HOLDERS {
        let layout = got(&rt, read_layout(text));
        expect_eq(&rt, &layout.owner(Card { suit, rank }), &holder);
    }
}
