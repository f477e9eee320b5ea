//! One suit of a pattern, as it is given and told.

ghost use Rattle.std.specs.Prelude.{◌≡◌, ◌≤◌, MatchBool, length};
ghost use Rattle.std.specs.Bool.{OnTrue};
ghost use Rattle.patterns.specs.Shapes.{suit_of, suit_size};
ghost use Rattle.patterns.specs.Parts.{suit_shape, shape_of_parts, SuitsFit, HasLongSuit};
ghost use Rattle.patterns.specs.Words.{HasWord, HaveWords};

use arrayvec::ArrayVec;
use cards::{Seat, Suit};

/// One suit of a pattern or a rest.
#[derive(Debug, PartialEq, Eq, Drop)]
pub struct SuitPart {
    /// How many cards of the suit North, East, South and West have.
    pub lens: [u8; 4],
    /// Who owns the suit's highest cards, in falling order.
    pub owners: ArrayVec<Seat, 13>,
}

impl SuitPart {
    /// How many cards of the suit the four seats have.
    fn size(&self) -> u16
        ensures size { result ≡ suit_size (suit_shape self.now) }
        ensures four { length self.now.lens ≡ 4 }
        ensures within { length self.now.owners.items ≤ 13 }
    {
        // at most as many as the list has room for
        let _owners = self.owners.as_slice();
        u16::from(self.lens[0])
            + u16::from(self.lens[1])
            + u16::from(self.lens[2])
            + u16::from(self.lens[3])
    }
}

/// How many cards of the suit the parts tell. A suit of at most 13 has a word.
fn size(parts: &[SuitPart; 4], suit: Suit) -> u16
    ensures size { result ≡ suit_size (suit_of (shape_of_parts parts.now) suit) }
    ensures word { result ≤ 13 → HasWord (suit_of (shape_of_parts parts.now) suit) }
{
    parts[suit.number()].size()
}

/// Whether no suit has over 13 cards; if so, each has a word.
pub(crate) fn suits_fit(parts: &[SuitPart; 4]) -> bool
    ensures cases { MatchBool result (SuitsFit (shape_of_parts parts.now)) (HasLongSuit (shape_of_parts parts.now)) }
    ensures words { OnTrue result (HaveWords (shape_of_parts parts.now)) }
{
    size(parts, Suit::Spades) <= 13
        && size(parts, Suit::Hearts) <= 13
        && size(parts, Suit::Diamonds) <= 13
        && size(parts, Suit::Clubs) <= 13
}
