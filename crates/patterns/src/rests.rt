//! What a trick leaves of a pattern.

ghost use Rattle.std.specs.Prelude.{◌≡◌};
ghost use Rattle.patterns.specs.Shapes.{suit_of, IsRest};
ghost use Rattle.patterns.specs.Parts.{suit_shape, shape_of_parts, MeetsParts};
ghost use Rattle.patterns.specs.Words.{shape_with, shape_in, words_of, AreWords, MeetsWords};
ghost use Rattle.patterns.specs.Completions.{completed_suit, completed};

use crate::faults::PatternFault;
use crate::shape_words::ShapeWords;
use crate::suit_parts::{SuitPart, suits_fit};
use crate::suit_words::SuitWord;
use cards::Suit;
use std::marker::Model;

/// What a trick leaves of a pattern. It is as a pattern, but has 0 to 12 cards a seat.
#[derive(Clone, Copy, Debug, PartialEq, Eq)]
pub struct Rest {
    held: ShapeWords,
}

impl Model for Rest {
    ghost use Rattle.patterns.specs.Shapes.{Shape, IsRest};

    ghost Value = { Shape };

    ghost view = { λ rest. rest.held };

    ghost invariant = { λ rest. IsRest rest.held };

    ghost inverse = { λ shape. record { held = shape } };
}

impl Rest {
    /// The rest of four suits, spades first.
    pub fn from_parts(parts: [SuitPart; 4]) -> Result<Rest, PatternFault>
        ensures cases { MeetsParts 0 12 (shape_of_parts parts) result }
    {
        if !suits_fit(&parts) {
            return Err(PatternFault::Lengths);
        }
        let held = ShapeWords::of_parts(&parts).checked(0, 12)?;
        Ok(Rest { held })
    }

    /// The rest that four words tell, spades first, laid out as those of a pattern.
    pub fn from_words(words: [u64; 4]) -> Result<Rest, PatternFault>
        ensures { MeetsWords 0 12 words result }
    {
        let Some(held) = ShapeWords::of_words(words) else {
            return Err(PatternFault::Words);
        };
        let held = held.checked(0, 12)?;
        Ok(Rest { held })
    }

    /// The four words of the rest, as `from_words` takes them.
    pub fn words(&self) -> &[u64; 4]
        ensures words { result.now ≡ words_of self.now }
        ensures tell { shape_in result.now ≡ self.now }
        ensures are { AreWords result.now }
    {
        self.held.words()
    }

    /// The rest of four suits in their words that are known to be one.
    pub fn of_suits(spades: SuitWord, hearts: SuitWord, diamonds: SuitWord, clubs: SuitWord) -> Rest
        requires { IsRest (shape_with spades hearts diamonds clubs) }
        ensures { result ≡ shape_with spades hearts diamonds clubs }
    {
        Rest {
            held: ShapeWords::of_suits(spades, hearts, diamonds, clubs),
        }
    }

    /// What every rest keeps, for a caller that needs the fact. It does nothing.
    pub fn invariant(&self)
        ensures { IsRest self.now }
    {
        let _held = &self.held;
    }

    /// The rest with the owners lengthened in each suit in which one seat alone has low cards, by that seat, once for
    /// each of them: so its low cards in that suit get a rank, below those of the owners before. The other suits stay.
    pub fn completed(&self) -> Rest
        ensures { result ≡ completed self.now }
    {
        self.invariant();
        Rest {
            held: ShapeWords::of_suits(
                self.completed_suit(Suit::Spades),
                self.completed_suit(Suit::Hearts),
                self.completed_suit(Suit::Diamonds),
                self.completed_suit(Suit::Clubs),
            ),
        }
    }

    /// One suit, completed.
    fn completed_suit(&self, suit: Suit) -> SuitWord
        ensures { result ≡ completed_suit (suit_of self.now suit) }
    {
        self.invariant();
        self.held.suit(suit).completed()
    }

    /// One suit of the rest.
    pub fn part(&self, suit: Suit) -> SuitPart
        ensures { suit_shape result ≡ suit_of self.now suit }
    {
        self.held.suit(suit).part()
    }

    /// The four suits in their words.
    pub(crate) fn held(&self) -> &ShapeWords
        ensures { result.now ≡ self.now }
    {
        &self.held
    }
}
