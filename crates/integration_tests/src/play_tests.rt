//! Play by hand: who wins tricks, which cards may be played, and the three refusals.

use crate::expect::{expect, expect_eq, got};
use cards::{Card, Rank, Seat, Side, Suit, Trump};
use pbn_deals::read_layout;
use play_rules::{PlayFault, Table, winner};

fn card(suit: Suit, rank: Rank) -> Card {
    Card { suit, rank }
}

/// A three-card ending in which West is squeezed.
const SQUEEZE: &[u8] = b"N:AJ.K.. ..432. 2.2..A KQ.A..";

#[test]
fn refusals(rt: HostRuntime) {
    let layout = got(&rt, read_layout(SQUEEZE));
    let mut table = Table::new(layout, Seat::South, Trump::Nt);
    let club = table.play(card(Suit::Clubs, Rank::King));
    expect_eq(&rt, &club, &Err(PlayFault::NotHeld));
    expect_eq(&rt, &table.play(card(Suit::Hearts, Rank::Two)), &Ok(()));
    let ace = [card(Suit::Hearts, Rank::Ace)];
    expect(&rt, table.legal().as_slice() == ace.as_slice());
    let spade = table.play(card(Suit::Spades, Rank::King));
    expect_eq(&rt, &spade, &Err(PlayFault::MustFollow));
    expect_eq(&rt, &table.turn(), &Some(Seat::West));
}

/// By suit and falling.
#[test]
fn legal_cards(rt: HostRuntime) {
    let layout = got(&rt, read_layout(SQUEEZE));
    let table = Table::new(layout, Seat::West, Trump::Nt);
    let wanted = [
        card(Suit::Spades, Rank::King),
        card(Suit::Spades, Rank::Queen),
        card(Suit::Hearts, Rank::Ace),
    ];
    let copy = got(&rt, table.clone());
    expect(&rt, copy.legal().as_slice() == wanted.as_slice());
}

#[test]
fn plays_to_the_end(rt: HostRuntime) {
    let layout = got(&rt, read_layout(SQUEEZE));
    let mut table = Table::new(layout, Seat::South, Trump::Nt);
    let played = [
        card(Suit::Clubs, Rank::Ace),
        card(Suit::Spades, Rank::Queen),
        card(Suit::Hearts, Rank::King),
        card(Suit::Diamonds, Rank::Two),
        card(Suit::Spades, Rank::Two),
        card(Suit::Spades, Rank::King),
        card(Suit::Spades, Rank::Ace),
        card(Suit::Diamonds, Rank::Three),
        card(Suit::Spades, Rank::Jack),
        card(Suit::Diamonds, Rank::Four),
        card(Suit::Hearts, Rank::Two),
        card(Suit::Hearts, Rank::Ace),
    ];
    for played in played {
        expect_eq(&rt, &table.play(played), &Ok(()));
    }
    expect_eq(&rt, &table.turn(), &None);
    expect_eq(&rt, &table.legal().len(), &0);
    expect_eq(&rt, &table.tricks(Side::NorthSouth), &3);
    expect_eq(&rt, &table.tricks(Side::EastWest), &0);
    expect_eq(
        &rt,
        &table.play(card(Suit::Clubs, Rank::King)),
        &Err(PlayFault::Over),
    );
}

#[test]
fn trumps_win(rt: HostRuntime) {
    let ace = card(Suit::Hearts, Rank::Ace);
    let two = card(Suit::Spades, Rank::Two);
    let three = card(Suit::Diamonds, Rank::Three);
    let king = card(Suit::Hearts, Rank::King);
    let spades = Trump::Suit(Suit::Spades);
    let hearts = Trump::Suit(Suit::Hearts);
    let clubs = Trump::Suit(Suit::Clubs);
    let winners = [
        winner(spades, Seat::East, ace, two, king, three),
        winner(Trump::Nt, Seat::East, ace, two, king, three),
        winner(clubs, Seat::West, three, two, ace, king),
        winner(hearts, Seat::North, two, king, three, ace),
    ];
    let wanted = [Seat::South, Seat::East, Seat::West, Seat::West];
    expect_eq(&rt, &winners, &wanted);
}
