//! A whole deal against opponents who choose at random.

use crate::contracts::Contract;
use crate::ending_tests::solved;
use crate::expect::{expect_eq, got};
use cards::{Seat, Side, Suit, Trump};
use pbn_deals::read_layout;

/// The first board of `examples/club.pbn`.
const BOARD: &[u8] = b"N:Q64.QJ7.K9.AK954 98.43.A7653.QJ83 T73.T92.QT842.72 AKJ52.AK865.J.T6";

#[test]
fn whole_deal(rt: HostRuntime) {
    let layout = got(&rt, read_layout(BOARD));
    let trump = Trump::Suit(Suit::Spades);
    let answer = solved(&rt, rt.alloc(), &layout, Seat::North, trump);
    let contract = Contract {
        layout,
        declarer: Seat::North,
        trump,
        k: answer.k,
        declarers: &answer.declarer,
        defenders: &answer.defenders,
    };
    // the table in the README
    expect_eq(&rt, &answer.k, &3);
    for side in [Side::NorthSouth, Side::EastWest] {
        contract.play_some(&rt, side, 1_000);
    }
    contract.expect_line(&rt);
}
