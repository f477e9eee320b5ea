//! Four suits in four words, as patterns and rests hold them.

ghost use Rattle.std.specs.Prelude.{◌≡◌, ◌↔◌, length, IsTrue, MatchBool, MatchOption};
ghost use Rattle.std.specs.Bool.{OnTrue};
ghost use Rattle.patterns.specs.Shapes.{suit_of, suit_size, hand_size, CoversSuit, Covers};
ghost use Rattle.patterns.specs.Holders.{holders_of, MatchesSuit, Matches, shape_of_layout};
ghost use Rattle.patterns.specs.Parts.{shape_of_parts, HasFourSeats, SuitsFit, HasLongSuit, HandsFit, HasWrongHands};
ghost use Rattle.patterns.specs.Parts.{HasItsOwners, HasExcessOwner, OwnersFit, HasWrongOwner, MeetsParts};
ghost use Rattle.patterns.specs.Words.{shape_with, shape_in, words_of, HaveWords, AreWords, HasWrongWord};

use crate::faults::PatternFault;
use crate::suit_parts::SuitPart;
use crate::suit_words::{SuitWord, tells_suit};
use cards::{Layout, Seat, Suit};
use std::marker::Model;

/// Four suits, a word each, spades first.
#[derive(Clone, Copy, Debug, PartialEq, Eq)]
pub(crate) struct ShapeWords {
    words: [u64; 4],
}

impl Model for ShapeWords {
    ghost use Rattle.std.specs.Prelude.{ℕ, List};
    ghost use Rattle.std.proofs.Common.{ap};
    ghost use Rattle.patterns.specs.Shapes.{Shape};
    ghost use Rattle.patterns.specs.Words.{shape_with, shape_in, words_of, AreWords};
    ghost use Rattle.patterns.specs.WordLaws.{words_of-shape_in};

    ghost Value = { Shape };

    ghost view = { λ held. shape_in held.words };

    ghost invariant = { λ held. AreWords held.words };

    ghost inverse = { λ shape. record { words = words_of shape } };

    ghost inverse_ok = { λ held h. ap (λ (words : List ℕ). record { words = words }) (words_of-shape_in held.words h) };
}

impl ShapeWords {
    /// The four suits that the parts tell, spades first.
    pub(crate) fn of_parts(parts: &[SuitPart; 4]) -> ShapeWords
        requires { HaveWords (shape_of_parts parts.now) }
        ensures { result ≡ shape_of_parts parts.now }
    {
        ShapeWords::of_suits(
            SuitWord::of_part(&parts[0]),
            SuitWord::of_part(&parts[1]),
            SuitWord::of_part(&parts[2]),
            SuitWord::of_part(&parts[3]),
        )
    }

    /// The shape of four suits.
    pub(crate) fn of_suits(
        spades: SuitWord,
        hearts: SuitWord,
        diamonds: SuitWord,
        clubs: SuitWord,
    ) -> ShapeWords
        ensures { result ≡ shape_with spades hearts diamonds clubs }
    {
        ShapeWords {
            words: [spades.word(), hearts.word(), diamonds.word(), clubs.word()],
        }
    }

    /// The four suits that the words tell, if each tells one.
    pub(crate) fn of_words(words: [u64; 4]) -> Option<ShapeWords>
        ensures { MatchOption result (HasWrongWord words) (λ shape. AreWords words × (shape ≡ shape_in words)) }
    {
        if tells_suit(words[0])
            && tells_suit(words[1])
            && tells_suit(words[2])
            && tells_suit(words[3])
        {
            Some(ShapeWords { words })
        } else {
            None
        }
    }

    /// The words of the suits, spades first.
    pub(crate) fn words(&self) -> &[u64; 4]
        ensures words { result.now ≡ words_of self.now }
        ensures tell { shape_in result.now ≡ self.now }
        ensures are { AreWords result.now }
    {
        &self.words
    }

    /// One of the four.
    pub(crate) fn suit(&self, suit: Suit) -> SuitWord
        ensures { result ≡ suit_of self.now suit }
    {
        SuitWord::of_word(self.words[suit.number()])
    }

    /// How many cards of the suit the four seats have.
    fn size(&self, suit: Suit) -> u16
        ensures size { result ≡ suit_size (suit_of self.now suit) }
        ensures four { length (suit_of self.now suit).lens ≡ 4 }
    {
        self.suit(suit).size()
    }

    /// How many cards the seat has.
    fn hand_size(&self, seat: Seat) -> u16
        ensures { result ≡ hand_size self.now seat }
    {
        u16::from(self.suit(Suit::Spades).len(seat))
            + u16::from(self.suit(Suit::Hearts).len(seat))
            + u16::from(self.suit(Suit::Diamonds).len(seat))
            + u16::from(self.suit(Suit::Clubs).len(seat))
    }

    /// Whether no suit has over 13 cards.
    fn suits_fit(&self) -> bool
        ensures cases { MatchBool result (SuitsFit self.now) (HasLongSuit self.now) }
        ensures seats { OnTrue result (HasFourSeats self.now) }
    {
        self.size(Suit::Spades) <= 13
            && self.size(Suit::Hearts) <= 13
            && self.size(Suit::Diamonds) <= 13
            && self.size(Suit::Clubs) <= 13
    }

    /// Whether the hands are of one size within the bounds.
    fn hands_fit(&self, fewest: u16, most: u16) -> bool
        ensures { MatchBool result (HandsFit fewest most self.now) (HasWrongHands fewest most self.now) }
    {
        let size = self.hand_size(Seat::North);
        fewest <= size
            && size <= most
            && self.hand_size(Seat::East) == size
            && self.hand_size(Seat::South) == size
            && self.hand_size(Seat::West) == size
    }

    /// Whether no seat is an owner in the suit more often than it has cards there.
    fn has_its_owners(&self, suit: Suit) -> bool
        ensures { MatchBool result (HasItsOwners (suit_of self.now suit)) (HasExcessOwner (suit_of self.now suit)) }
    {
        self.suit(suit).has_its_owners()
    }

    /// Whether no seat is an owner in a suit more often than it has cards there.
    fn owners_fit(&self) -> bool
        ensures { MatchBool result (OwnersFit self.now) (HasWrongOwner self.now) }
    {
        self.has_its_owners(Suit::Spades)
            && self.has_its_owners(Suit::Hearts)
            && self.has_its_owners(Suit::Diamonds)
            && self.has_its_owners(Suit::Clubs)
    }

    /// The four suits where they are of the kind that has these numbers of cards a seat, else why they aren't.
    pub(crate) fn checked(self, fewest: u16, most: u16) -> Result<ShapeWords, PatternFault>
        ensures { MeetsParts fewest most self result }
    {
        if !self.suits_fit() {
            return Err(PatternFault::Lengths);
        }
        if !self.hands_fit(fewest, most) {
            return Err(PatternFault::Cards);
        }
        if !self.owners_fit() {
            return Err(PatternFault::Owners);
        }
        Ok(self)
    }

    /// The four suits as they are in the layout, with owners up to four depths, that of spades first.
    pub(crate) fn of_layout(layout: &Layout, depths: [u8; 4]) -> ShapeWords
        ensures { result ≡ shape_of_layout layout.now depths }
    {
        ShapeWords::of_suits(
            SuitWord::of_layout(layout, Suit::Spades, depths[0]),
            SuitWord::of_layout(layout, Suit::Hearts, depths[1]),
            SuitWord::of_layout(layout, Suit::Diamonds, depths[2]),
            SuitWord::of_layout(layout, Suit::Clubs, depths[3]),
        )
    }

    /// Whether the layout matches the four suits.
    pub(crate) fn matches(&self, layout: &Layout) -> bool
        ensures { IsTrue result ↔ Matches self.now layout.now }
    {
        self.matches_suit(layout, Suit::Spades)
            && self.matches_suit(layout, Suit::Hearts)
            && self.matches_suit(layout, Suit::Diamonds)
            && self.matches_suit(layout, Suit::Clubs)
    }

    /// Whether the suit of the layout matches the one.
    fn matches_suit(&self, layout: &Layout, suit: Suit) -> bool
        ensures { IsTrue result ↔ MatchesSuit (suit_of self.now suit) (holders_of layout.now suit) }
    {
        self.suit(suit).matches(layout, suit)
    }

    /// Whether these four suits, as a pattern, cover the others, as a rest.
    #[inline(always)]
    pub(crate) fn covers(&self, rest: &ShapeWords) -> bool
        ensures { IsTrue result ↔ Covers self.now rest.now }
    {
        self.covers_suit(rest, Suit::Spades)
            && self.covers_suit(rest, Suit::Hearts)
            && self.covers_suit(rest, Suit::Diamonds)
            && self.covers_suit(rest, Suit::Clubs)
    }

    /// Whether the one suit covers the other's.
    #[inline(always)]
    fn covers_suit(&self, rest: &ShapeWords, suit: Suit) -> bool
        ensures { IsTrue result ↔ CoversSuit (suit_of self.now suit) (suit_of rest.now suit) }
    {
        self.suit(suit).covers(&rest.suit(suit))
    }
}
