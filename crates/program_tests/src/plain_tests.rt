//! Lines of `plain`, one after the other on one output.

use crate::expect::{buffer, expect_bytes, expect_eq};
use cards::{Seat, Suit, Trump};
use deal_subcommands::DealFault;
use deal_subcommands::plain::plain_line;
use pbn_deals::PbnFault;

/// Layouts with a leader and a trump, and what comes of each, on one output.
const LINES: [(&[u8], Seat, Trump, Result<(), DealFault>); 4] = [
    (
        b"N:2... .A.. 3... .K..",
        Seat::East,
        Trump::Suit(Suit::Spades),
        Ok(()),
    ),
    (
        b"N:A... A... Q... J...",
        Seat::East,
        Trump::Nt,
        Err(DealFault::Layout(PbnFault::CardTwice { line: 1 })),
    ),
    (
        b"N:AKQJT... 98765... ..AKQJT. ...AKQJT",
        Seat::North,
        Trump::Nt,
        Err(DealFault::TooLarge),
    ),
    (
        b"N:A... K... Q... J...",
        Seat::East,
        Trump::Nt,
        Err(DealFault::Write),
    ),
];

#[test]
fn plain_lines(rt: HostRuntime) {
    let mut output = buffer(&rt, rt.alloc(), (7, 2));
    for (layout, leader, trump, wanted) in LINES.as_slice() {
        expect_eq(
            &rt,
            &plain_line(layout, *leader, *trump, &mut output),
            wanted,
        );
    }
    expect_bytes(&rt, output.bytes(), b"NS 1\nNS");
}
