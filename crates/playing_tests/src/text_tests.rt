//! The text of a play, worked out by hand.

use crate::expect::{expect, expect_bytes, got};
use crate::finesse::{DEAL, FINESSE, NOTHING};
use arrayvec::ArrayVec;
use cards::{Buffer, Card, Rank, Seat, Suit, Trump};
use certificate_graph::Graph;
use certificate_play::{begin_both, line};
use pbn_deals::read_layout;
use play_dialogues::write_play;
use std::alloc::Global;
use std::process::Abort;

/// The text of these cards is that one.
fn expect_text(
    rt: &impl Abort,
    alloc: Global,
    declarer: Seat,
    trump: Trump,
    cards: &[Card],
    wanted: &[u8],
) {
    let mut sink = got(rt, Buffer::new(alloc, 400, 7));
    expect(rt, write_play(declarer, trump, cards, &mut sink).is_ok());
    expect_bytes(rt, sink.bytes(), wanted);
}

const FINESSE_LINE: &[u8] = b"1 S: S2 S4 SQ S5 N
2 N: SA S6 S3 SK N
declarer 0, defenders 2
";

/// West's small card is covered by the queen, and the king falls under the ace.
#[test]
fn line_of_the_finesse(rt: HostRuntime) {
    let declarers = got(&rt, Graph::read(rt.alloc(), NOTHING));
    let defenders = got(&rt, Graph::read(rt.alloc(), FINESSE));
    let layout = got(&rt, read_layout(DEAL));
    let (declarer, trump) = (Seat::East, Trump::Nt);
    let begun = begin_both(&layout, declarer, trump, 0, &declarers, &defenders);
    let Ok(sides) = begun else {
        panic!(rt; "no sides");
    };
    let cards = line(sides.declarers, sides.defenders);
    expect_text(
        &rt,
        rt.alloc(),
        declarer,
        trump,
        cards.as_slice(),
        FINESSE_LINE,
    );
}

/// Four hands of one suit each, each suit from the ace down: with hearts as trumps East ruffs what South leads, and
/// goes on to lead.
const RUFFS: &[u8] = b"1 S: DA CA SA HA E
2 E: HK DK CK SK E
3 E: HQ DQ CQ SQ E
4 E: HJ DJ CJ SJ E
5 E: HT DT CT ST E
6 E: H9 D9 C9 S9 E
7 E: H8 D8 C8 S8 E
8 E: H7 D7 C7 S7 E
9 E: H6 D6 C6 S6 E
10 E: H5 D5 C5 S5 E
11 E: H4 D4 C4 S4 E
12 E: H3 D3 C3 S3 E
13 E: H2 D2 C2
declarer 12, defenders 0
";

/// All cards but the last, which is still to be played.
#[test]
fn play_but_one(rt: HostRuntime) {
    let first = [Suit::Diamonds, Suit::Clubs, Suit::Spades, Suit::Hearts];
    let later = [Suit::Hearts, Suit::Diamonds, Suit::Clubs, Suit::Spades];
    let mut cards: ArrayVec<Card, 52> = ArrayVec::new();
    for rank in Rank::FALLING {
        let suits = if rank == Rank::Ace { first } else { later };
        for suit in suits {
            let _ = cards.try_push(Card { suit, rank });
        }
    }
    let _ = cards.pop();
    let trump = Trump::Suit(Suit::Hearts);
    let (declarer, alloc) = (Seat::East, rt.alloc());
    expect_text(&rt, alloc, declarer, trump, cards.as_slice(), RUFFS);
    let none = b"declarer 0, defenders 0\n";
    expect_text(&rt, alloc, declarer, trump, &[], none);
}
