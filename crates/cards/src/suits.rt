//! Suits and trumps.

ghost use Rattle.std.specs.Prelude.{◌≡◌, ◌<◌, ◌↔◌, Some};
ghost use Rattle.cards.specs.Pack.{suit_at, suit_number, suit_letter, trump_letters};

use std::fmt;

/// A suit, in the order in which the four are listed: spades, hearts, diamonds, clubs (Law 1).
#[derive(Clone, Copy, Debug, Default, PartialEq, Eq, PartialOrd, Ord)]
pub enum Suit {
    /// Spades, the first.
    #[default]
    Spades,
    /// Hearts.
    Hearts,
    /// Diamonds.
    Diamonds,
    /// Clubs, the last.
    Clubs,
}

impl Suit {
    /// The four suits, spades first.
    pub const ALL: [Suit; 4] = [Suit::Spades, Suit::Hearts, Suit::Diamonds, Suit::Clubs];

    /// The place of the suit in [`Suit::ALL`], from 0.
    pub fn number(self) -> usize
        ensures place { result ≡ suit_number self }
        ensures below { result < 4 }
    {
        match self {
            Suit::Spades => 0,
            Suit::Hearts => 1,
            Suit::Diamonds => 2,
            Suit::Clubs => 3,
        }
    }

    /// The suit in this place.
    pub fn at(number: usize) -> Suit
        requires { number < 4 }
        ensures { result ≡ suit_at number }
    {
        Suit::ALL[number]
    }

    /// The letter that is printed: `S`, `H`, `D` or `C`.
    pub fn letter(self) -> &'static str
        ensures { result.now ≡ suit_letter self }
    {
        match self {
            Suit::Spades => "S",
            Suit::Hearts => "H",
            Suit::Diamonds => "D",
            Suit::Clubs => "C",
        }
    }
}

impl fmt::Display for Suit {
    ghost output = { λ suit. Some (suit_letter suit) };

    fn fmt<W: fmt::Write>(&self, f: &mut fmt::Formatter<W>) -> fmt::Result {
        f.write_str(self.letter())
    }
}

/// The denomination of play: no-trump, or the trump suit.
#[derive(Clone, Copy, Debug, PartialEq, Eq, PartialOrd, Ord)]
pub enum Trump {
    /// No-trump.
    Nt,
    /// The trump suit.
    Suit(Suit),
}

impl Trump {
    /// The five denominations, no-trump first and then the suits in their order.
    pub const ALL: [Trump; 5] = [
        Trump::Nt,
        Trump::Suit(Suit::Spades),
        Trump::Suit(Suit::Hearts),
        Trump::Suit(Suit::Diamonds),
        Trump::Suit(Suit::Clubs),
    ];

    /// The letters that are printed: `NT`, or the letter of the trump suit.
    pub fn letters(self) -> &'static str
        ensures { result.now ≡ trump_letters self }
    {
        match self {
            Trump::Nt => "NT",
            Trump::Suit(suit) => suit.letter(),
        }
    }

    /// The denomination that these letters name, where they name one.
    pub fn of_letters(letters: &str) -> Option<Trump>
        ensures { (trump : Trump) → (result ≡ Some trump) ↔ (letters.now ≡ trump_letters trump) }
    {
        match letters {
            "NT" => Some(Trump::Nt),
            "S" => Some(Trump::Suit(Suit::Spades)),
            "H" => Some(Trump::Suit(Suit::Hearts)),
            "D" => Some(Trump::Suit(Suit::Diamonds)),
            "C" => Some(Trump::Suit(Suit::Clubs)),
            _ => None,
        }
    }
}

impl fmt::Display for Trump {
    ghost output = { λ trump. Some (trump_letters trump) };

    fn fmt<W: fmt::Write>(&self, f: &mut fmt::Formatter<W>) -> fmt::Result {
        f.write_str(self.letters())
    }
}
