//! What a store holds, and under which key.

ghost use Rattle.std.specs.Prelude.{◌≡◌};
ghost use Rattle.pattern_store.specs.Lengths.{key_with, lengths_of};

use cards::{Seat, Side, Suit};
use patterns::Pattern;

/// The key of a list of adds.
#[derive(Clone, Copy, Debug, PartialEq, Eq, Hash)]
pub struct Key {
    /// How many cards of spades, hearts, diamonds and clubs North, East, South and West have.
    pub lengths: [[u8; 4]; 4],
    /// The seat that leads.
    pub lead: Seat,
    /// The side that can win the tricks.
    pub side: Side,
}

/// One add: a pattern that was found.
#[derive(Clone, Copy, Debug)]
pub struct Added {
    /// What the tricks can be won of.
    pub pattern: Pattern,
    /// How many tricks the side can win.
    pub need: u8,
    /// The caller's number for the pattern.
    pub number: u32,
}

/// The key of a pattern with a lead and a side.
pub(crate) fn key_of(pattern: &Pattern, lead: Seat, side: Side) -> Key
    ensures { result ≡ key_with (lengths_of pattern.now) lead side }
{
    let spades = pattern.part(Suit::Spades).lens;
    let hearts = pattern.part(Suit::Hearts).lens;
    let diamonds = pattern.part(Suit::Diamonds).lens;
    let clubs = pattern.part(Suit::Clubs).lens;
    Key {
        lengths: [spades, hearts, diamonds, clubs],
        lead,
        side,
    }
}
