//! Dialogues over the finesse: each kind of line, each end, devices that fail.

use crate::dialogue_texts::*;
use crate::ending_tests::solved;
use crate::expect::{expect, expect_bytes, got};
use crate::finesse::{DEAL, FINESSE, NOTHING};
use cards::{Buffer, Bytes, Seat, Sink, Source, Trump};
use certificate_graph::Graph;
use certificate_play::begin_both;
use pbn_deals::read_layout;
use play_dialogues::{End, play_dialogue};
use std::alloc::Global;
use std::process::Abort;

/// How much room the output has in most tests.
const ROOM: usize = 10_000;

/// Plays the finesse over these devices, and answers how it ends, and how many cards were played.
pub fn play<I: Source + Drop, O: Sink>(
    rt: &impl Abort,
    alloc: Global,
    mut input: I,
    output: &mut O,
) -> (End, usize) {
    let declarers = got(rt, Graph::read(alloc, NOTHING));
    let defenders = got(rt, Graph::read(alloc, FINESSE));
    let layout = got(rt, read_layout(DEAL));
    let sides = begin_both(&layout, Seat::East, Trump::Nt, 0, &declarers, &defenders);
    let sides = got(rt, sides);
    let ended = play_dialogue(alloc, sides.defenders, &mut input, output);
    (ended.end, ended.playing.history().len())
}

/// A dialogue with this input, and with this room for its output, ends as wanted, after the wanted number of cards, and
/// this is written.
fn expect_dialogue(
    rt: &impl Abort,
    alloc: Global,
    input: Bytes<'_>,
    room: usize,
    wanted: (End, usize),
    written: &[u8],
) {
    let mut output = got(rt, Buffer::new(alloc, room, 7));
    let ended = play(rt, alloc, input, &mut output);
    expect_bytes(rt, output.bytes(), written);
    expect(rt, ended == wanted);
}

/// The pieces in one text.
fn joined(rt: &impl Abort, alloc: Global, pieces: &[&str]) -> String {
    let mut text = String::new(alloc);
    for piece in pieces {
        got(rt, text.push_str(piece));
    }
    text
}

/// These lines end so, and these pieces are written.
fn expect_pieces(rt: &impl Abort, alloc: Global, typed: &str, end: End, pieces: &[&str]) {
    let mut output = got(rt, Buffer::new(alloc, ROOM, 7));
    let input = Bytes::new(typed.as_bytes(), 5);
    let (ended, _) = play(rt, alloc, input, &mut output);
    let wanted = joined(rt, alloc, pieces);
    expect_bytes(rt, output.bytes(), wanted.as_bytes());
    expect(rt, ended == end);
}

/// Lines that play the cards to the end.
const TO_THE_END: [&str; 4] = [
    "S4\nS5\nS6\nSK\n",
    "s4\n5s\n\n\n",
    " 4 S \r\nS5\r\n\r\nSK\r\nS2\n",
    "4s\ns5\n \nKs",
];

#[test]
fn played_to_the_end(rt: HostRuntime) {
    for typed in TO_THE_END {
        let pieces = [OPENING, FOUR, FIVE, SIX, END];
        expect_pieces(&rt, rt.alloc(), typed, End::Played, &pieces);
    }
}

#[test]
fn refused(rt: HostRuntime) {
    let pieces = [
        OPENING,
        NO_CARD,
        WEST,
        NOT_HELD,
        WEST,
        SEVERAL,
        WEST,
        NOTHING_BACK,
        WEST,
        NOT_HELD,
        WEST,
        NOT_HELD,
        WEST,
        FOUR,
        NOT_HELD,
        EAST,
        FOUR_PLAYED,
    ];
    let typed = "S44\nS2\n\nundo\nC4\ns10\nS4\nS4\n";
    expect_pieces(&rt, rt.alloc(), typed, End::InputEnds, &pieces);
}

#[test]
fn taken_back(rt: HostRuntime) {
    let pieces = [
        OPENING,
        FOUR,
        FIVE,
        FOUR_ASKED,
        FIRST,
        KING,
        FIRST,
        NOTHING_BACK,
        WEST,
        NONE_PLAYED,
    ];
    let typed = "S4\nS5\nundo\nUndo\nsk\nUNDO\nundo\n";
    expect_pieces(&rt, rt.alloc(), typed, End::InputEnds, &pieces);
}

#[test]
fn shown_and_quit(rt: HostRuntime) {
    let pieces = [OPENING, FIRST, FOUR, FIVE, SECOND, FIVE_PLAYED];
    expect_pieces(
        &rt,
        rt.alloc(),
        "hands\nS4\nS5\nHANDS\nquit\nS6\n",
        End::Quit,
        &pieces,
    );
}

/// The input ends at each line.
const ENDING: [(&str, &[&str]); 3] = [
    ("", &[OPENING, NONE_PLAYED]),
    ("S4", &[OPENING, FOUR, FOUR_PLAYED]),
    ("S4\nS5\n", &[OPENING, FOUR, FIVE, FIVE_PLAYED]),
];

#[test]
fn input_ends(rt: HostRuntime) {
    for (typed, pieces) in ENDING {
        expect_pieces(&rt, rt.alloc(), typed, End::InputEnds, pieces);
    }
}

/// A call of the input fails in the second line: what was said to the first stands, and no more.
#[test]
fn read_fails(rt: HostRuntime) {
    let alloc = rt.alloc();
    let input = Bytes::failing_after(b"S4\nS5\n", 5, 4);
    let written = joined(&rt, alloc, &[OPENING, FOUR]);
    let wanted = (End::ReadFails, 3);
    expect_dialogue(&rt, alloc, input, ROOM, wanted, written.as_bytes());
}

/// The output has room for the promise alone.
#[test]
fn write_fails(rt: HostRuntime) {
    let input = Bytes::new(b"S4\n", 5);
    let wanted = (End::WriteFails, 1);
    expect_dialogue(&rt, rt.alloc(), input, 14, wanted, b"NS promised 2\n");
}

/// South has to follow with the queen of spades, and plays it by an empty line.
#[test]
fn must_follow(rt: HostRuntime) {
    let alloc = rt.alloc();
    let layout = got(&rt, read_layout(b"N:A.A.. K.K.. Q.Q.. J.J.."));
    let answer = solved(&rt, alloc, &layout, Seat::West, Trump::Nt);
    let (declarers, defenders) = (&answer.declarer, &answer.defenders);
    let sides = begin_both(&layout, Seat::West, Trump::Nt, 0, declarers, defenders);
    let sides = got(&rt, sides);
    let mut output = got(&rt, Buffer::new(alloc, ROOM, 1000));
    let mut input = Bytes::new(b"SA\nHQ\n\nHA\n", 1);
    let ended = play_dialogue(alloc, sides.declarers, &mut input, &mut output);
    expect(&rt, ended.end == End::InputEnds && ended.playing.won() == 0);
    expect_bytes(&rt, output.bytes(), FOLLOWED.as_bytes());
}
