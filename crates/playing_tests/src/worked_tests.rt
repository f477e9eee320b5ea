//! A finesse, a squeeze, a ruff and a run, each with a certificate written by hand: every line of the opponents, and
//! how many there are.

use crate::contracts::{Contract, Outcome};
use crate::expect::{expect_eq, got};
use cards::{Seat, Side, Suit, Trump};
use certificate_graph::Graph;
use pbn_deals::read_layout;
use std::alloc::Global;
use std::process::Abort;

/// An ending, the certificates of declarer's side and of the defenders without their first line, and how many lines the
/// opponents of a side have. In each of them this side wins just what it shows.
#[derive(Clone, Copy)]
struct Row {
    layout: &'static str,
    declarer: Seat,
    trump: Trump,
    k: u8,
    declarers: &'static [u8],
    defenders: &'static [u8],
    side: Side,
    lines: u32,
    /// Whether it is right by the rules of the first version too, and not of the second alone.
    by_first: bool,
}

const ROWS: [Row; 4] = [
    // South leads, and North's card waits for West's. West has two cards to choose from at first, and so has East.
    Row {
        layout: "N:AQ... 65... 32... K4...",
        declarer: Seat::East,
        trump: Trump::Nt,
        k: 0,
        declarers: b"trump NT
side EW
nodes 0
",
        defenders: b"trump NT
side NS
nodes 2
S 2 2.2.2.2/NWN 0.0.0.0/ 0.0.0.0/ 0.0.0.0/ Sx(SbSa(Sx{N1})SxSc(Sx{N1}))
N 1 1.1.1.1/N 0.0.0.0/ 0.0.0.0/ 0.0.0.0/ Sa(SxSx(Sx{}))
",
        side: Side::NorthSouth,
        lines: 4,
        by_first: true,
    },
    // South leads the ace of clubs, and West has no card to spare. It has three to choose from, and East three
    // diamonds. Behind a spade East has two diamonds more; behind the ace of hearts West has two spades besides.
    Row {
        layout: "N:AJ.K.. ..432. 2.2..A KQ.A..",
        declarer: Seat::East,
        trump: Trump::Nt,
        k: 0,
        declarers: b"trump NT
side EW
nodes 0
",
        defenders: b"trump NT
side NS
nodes 5
S 3 2.0.1.2/NWWN 1.0.1.1/WN 0.3.0.0/ 0.0.1.0/S Ca(SbHb(Dx{S1})ScHb(Dx{S1})HaSd(Dx{S2}))
S 2 2.0.1.1/NWN 0.0.1.1/ 0.2.0.0/ 0.0.0.0/ Sx(SbSa(Dx{N3}))
S 2 1.0.1.2/N 1.0.1.0/N 0.2.0.0/ 0.0.0.0/ Hx(SxHa(Dx{N4}))
N 1 1.0.0.0/N 0.0.1.1/ 0.1.0.0/ 0.0.0.0/ Sa(DxHx(Hx{}))
N 1 1.0.1.1/N 0.0.0.0/ 0.1.0.0/ 0.0.0.0/ Sa(DxSx(Sx{}))
",
        side: Side::NorthSouth,
        lines: 24,
        by_first: true,
    },
    // East leads the ace of hearts, South ruffs: one line.
    Row {
        layout: "N:2... .A.. 3... .K..",
        declarer: Seat::North,
        trump: Trump::Suit(Suit::Spades),
        k: 1,
        declarers: b"trump S
side NS
nodes 1
E 1 1.0.1.0/ 0.1.0.1/ 0.0.0.0/ 0.0.0.0/ (HxSx(HxSx{}))
",
        defenders: b"trump S
side EW
nodes 0
",
        side: Side::NorthSouth,
        lines: 1,
        by_first: true,
    },
    // East has the king and the queen below North's ace, of which the king alone has a branch. Each of the opponents
    // has two cards to choose from in the first trick.
    Row {
        layout: "N:A2... KQ... 43... 65...",
        declarer: Seat::North,
        trump: Trump::Nt,
        k: 1,
        declarers: b"trump NT
side NS
nodes 1
E 1 2.2.2.2/NEE 0.0.0.0/ 0.0.0.0/ 0.0.0.0/ (SbSx(SxSa{}))
",
        defenders: b"trump NT
side EW
nodes 2
E 1 2.2.2.2/NEE 0.0.0.0/ 0.0.0.0/ 0.0.0.0/ Sb(SxSx(Sa{N1}Sx{}))
N 1 1.1.1.1/E 0.0.0.0/ 0.0.0.0/ 0.0.0.0/ (SxSa(SxSx{}))
",
        side: Side::NorthSouth,
        lines: 4,
        by_first: false,
    },
];

/// The certificate of this version.
fn certificate(rt: &impl Abort, alloc: Global, version: &[u8], text: &[u8]) -> Graph {
    let mut whole = Vec::new(alloc);
    for part in [b"DDC ", version, b"\n", text] {
        got(rt, whole.extend_from_slice(part));
    }
    got(rt, Graph::read(alloc, whole.as_slice()))
}

/// Plays all lines of an ending by the certificates of this version.
fn expect_row(rt: &impl Abort, alloc: Global, row: &Row, version: &[u8]) {
    let declarers = certificate(rt, alloc, version, row.declarers);
    let defenders = certificate(rt, alloc, version, row.defenders);
    let contract = Contract {
        layout: got(rt, read_layout(row.layout.as_bytes())),
        declarer: row.declarer,
        trump: row.trump,
        k: row.k,
        declarers: &declarers,
        defenders: &defenders,
    };
    let promised = contract.promised(row.side);
    let wanted = Outcome {
        lines: row.lines,
        fewest: promised,
        most: promised,
    };
    let outcome = contract.play_all(rt, row.side, 100);
    expect_eq(rt, &outcome, &wanted);
    let others = contract.play_all(rt, row.side.other(), 1_000);
    expect_eq(rt, &others.fewest, &contract.promised(row.side.other()));
    contract.expect_line(rt);
}

#[test]
fn worked_endings(rt: HostRuntime) {
    for row in ROWS {
        if row.by_first {
            expect_row(&rt, rt.alloc(), &row, b"1");
        }
        expect_row(&rt, rt.alloc(), &row, b"2");
    }
}
