//! The layout of the cards that whole tricks leave.

ghost use Rattle.std.specs.Prelude.{◌≡◌, ◌≤◌, length, take};
ghost use Rattle.cards.specs.Deal.{IsLayout};
ghost use Rattle.cards.specs.Hands.{word_of_deal};
ghost use Rattle.play_rules.specs.Left.{left_of};

use cards::{Card, Layout, Seat};
use play_rules::holders;

/// Returns the holder of each card of the layout that isn't among the first `count` cards, by the card's number.
fn holders_left(layout: &Layout, cards: &[Card], count: usize) -> [Option<Seat>; 52]
    requires { count ≤ length cards.now }
    ensures { result ≡ left_of layout.now (take count cards.now) }
{
    let mut left = holders(layout);
    for place in 0..count {
        left[cards[place].number()] = None;
    }
    left
}

/// Returns the word of a seat's cards: bit n stands for the card with this number.
fn word_left(left: &[Option<Seat>; 52], seat: Seat) -> u64
    ensures { result ≡ word_of_deal seat left.now }
{
    let mut word = 0u64;
    for place in 0..Card::COUNT {
        let bit = if left[Card::COUNT - 1 - place] == Some(seat) {
            1
        } else {
            0
        };
        word = 2 * word + bit;
    }
    word
}

/// Returns the layout that the first `count` cards leave.
pub(crate) fn layout_left(layout: &Layout, cards: &[Card], count: usize) -> Layout
    requires within { count ≤ length cards.now }
    requires layout { IsLayout (left_of layout.now (take count cards.now)) }
    ensures { result ≡ left_of layout.now (take count cards.now) }
{
    let left = holders_left(layout, cards, count);
    let words = [
        word_left(&left, Seat::North),
        word_left(&left, Seat::East),
        word_left(&left, Seat::South),
        word_left(&left, Seat::West),
    ];
    match Layout::from_hands(words) {
        Ok(rest) => rest,
        Err(_) => unreachable!(),
    }
}
