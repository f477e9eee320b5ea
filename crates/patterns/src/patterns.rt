//! Patterns.

ghost use Rattle.std.specs.Prelude.{◌≡◌, ◌↔◌, ◌≤◌, IsTrue, length, slice_get};
ghost use Rattle.patterns.specs.Shapes.{suit_of, len_of, tops_of, IsPattern, Covers};
ghost use Rattle.patterns.specs.Holders.{Matches, shape_of_layout};
ghost use Rattle.patterns.specs.Parts.{suit_shape, shape_of_parts, MeetsParts};
ghost use Rattle.patterns.specs.Words.{shape_in, words_of, AreWords, MeetsWords};

use crate::faults::PatternFault;
use crate::rests::Rest;
use crate::shape_words::ShapeWords;
use crate::suit_parts::{SuitPart, suits_fit};
use crate::suit_words::SuitWord;
use cards::{Layout, Seat, Suit};
use std::marker::Model;

/// A pattern: what the layouts that match it have in common. No suit has over 13 cards, each seat has as many
/// cards as the others, 1 to 13, and no seat is an owner in a suit more often than it has cards there.
#[derive(Clone, Copy, Debug, PartialEq, Eq)]
pub struct Pattern {
    held: ShapeWords,
}

impl Model for Pattern {
    ghost use Rattle.patterns.specs.Shapes.{Shape, IsPattern};

    ghost Value = { Shape };

    ghost view = { λ pattern. pattern.held };

    ghost invariant = { λ pattern. IsPattern pattern.held };

    ghost inverse = { λ shape. record { held = shape } };
}

impl Pattern {
    /// The pattern of four suits, spades first.
    pub fn from_parts(parts: [SuitPart; 4]) -> Result<Pattern, PatternFault>
        ensures cases { MeetsParts 1 13 (shape_of_parts parts) result }
    {
        if !suits_fit(&parts) {
            return Err(PatternFault::Lengths);
        }
        let held = ShapeWords::of_parts(&parts).checked(1, 13)?;
        Ok(Pattern { held })
    }

    /// The pattern that four words tell, spades first. In each word bits 0 to 3, 4 to 7, 8 to 11 and 12 to 15 are the
    /// lengths of North, East, South and West, bits 16 to 19 the number of owners, and bits 20 + 2 i and 21 + 2 i the
    /// owner in place i: North 0, East 1, South 2, West 3. All other bits have to be 0.
    pub fn from_words(words: [u64; 4]) -> Result<Pattern, PatternFault>
        ensures { MeetsWords 1 13 words result }
    {
        let Some(held) = ShapeWords::of_words(words) else {
            return Err(PatternFault::Words);
        };
        let held = held.checked(1, 13)?;
        Ok(Pattern { held })
    }

    /// The four words of the pattern, as `from_words` takes them.
    pub fn words(&self) -> &[u64; 4]
        ensures words { result.now ≡ words_of self.now }
        ensures tell { shape_in result.now ≡ self.now }
        ensures are { AreWords result.now }
    {
        self.held.words()
    }

    /// The pattern of a layout, with as many owners in each suit as there are, up to its depth, that of spades first.
    pub fn of_layout(layout: &Layout, depths: [u8; 4]) -> Pattern
        ensures shape { result ≡ shape_of_layout layout.now depths }
        ensures matches { Matches result layout.now }
    {
        layout.invariant();
        Pattern {
            held: ShapeWords::of_layout(layout, depths),
        }
    }

    /// Whether the layout matches the pattern: each seat's length in each suit is the pattern's, and the i-th
    /// highest card of the suit among all four hands is held by the i-th owner, for each owner listed.
    pub fn matches(&self, layout: &Layout) -> bool
        ensures { IsTrue result ↔ Matches self.now layout.now }
    {
        self.held.matches(layout)
    }

    /// Whether the pattern covers the rest: the lengths are equal, and in each suit the pattern's owners are a
    /// beginning of the rest's.
    #[inline(always)]
    pub fn covers(&self, rest: &Rest) -> bool
        ensures { IsTrue result ↔ Covers self.now rest.now }
    {
        self.held.covers(rest.held())
    }

    /// What every pattern keeps, for a caller that needs the fact. It does nothing.
    pub fn invariant(&self)
        ensures { IsPattern self.now }
    {
        let _held = &self.held;
    }

    /// One suit of the pattern, in its word.
    pub fn suit(&self, suit: Suit) -> SuitWord
        ensures { result ≡ suit_of self.now suit }
    {
        self.held.suit(suit)
    }

    /// One suit of the pattern.
    pub fn part(&self, suit: Suit) -> SuitPart
        ensures { suit_shape result ≡ suit_of self.now suit }
    {
        self.held.suit(suit).part()
    }

    /// How many cards of the suit the seat has.
    pub fn len(&self, suit: Suit, seat: Seat) -> u8
        ensures { result ≡ len_of (suit_of self.now suit) seat }
    {
        self.held.suit(suit).len(seat)
    }

    /// How often the seat is an owner in the suit.
    pub fn tops(&self, suit: Suit, seat: Seat) -> u8
        ensures { result ≡ tops_of (suit_of self.now suit) seat }
    {
        self.held.suit(suit).tops(seat)
    }

    /// How many owners are listed in the suit.
    pub fn owner_count(&self, suit: Suit) -> usize
        ensures count { result ≡ length (suit_of self.now suit).owners }
        ensures within { result ≤ 13 }
    {
        self.held.suit(suit).owner_count()
    }

    /// The owner in this place of the suit's list, from 0, if so many are listed.
    pub fn owner(&self, suit: Suit, place: usize) -> Option<Seat>
        ensures { result ≡ slice_get (suit_of self.now suit).owners place }
    {
        self.held.suit(suit).owner(place)
    }

    /// The four suits in their words.
    pub(crate) fn held(&self) -> &ShapeWords
        ensures { result.now ≡ self.now }
    {
        &self.held
    }
}
