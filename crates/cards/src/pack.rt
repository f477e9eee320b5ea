//! Ranks and cards.

ghost use Rattle.std.specs.Prelude.{◌≡◌, ◌<◌, Some};
ghost use Rattle.cards.specs.Pack.{card_at, card_number, rank_at, rank_number, rank_letter, suit_letter};
ghost use Rattle.std.specs.Prelude.{◌++◌};

use crate::suits::Suit;
use std::fmt;

/// A rank, the deuce lowest and the ace highest (Law 1).
#[derive(Clone, Copy, Debug, Default, PartialEq, Eq, PartialOrd, Ord)]
pub enum Rank {
    /// The deuce, the lowest.
    #[default]
    Two,
    /// The three.
    Three,
    /// The four.
    Four,
    /// The five.
    Five,
    /// The six.
    Six,
    /// The seven.
    Seven,
    /// The eight.
    Eight,
    /// The nine.
    Nine,
    /// The ten.
    Ten,
    /// The jack.
    Jack,
    /// The queen.
    Queen,
    /// The king.
    King,
    /// The ace, the highest.
    Ace,
}

impl Rank {
    /// How many ranks a suit has (Law 1).
    pub const COUNT: usize = 13;

    /// The ranks falling, the ace first.
    pub const FALLING: [Rank; 13] = [
        Rank::Ace,
        Rank::King,
        Rank::Queen,
        Rank::Jack,
        Rank::Ten,
        Rank::Nine,
        Rank::Eight,
        Rank::Seven,
        Rank::Six,
        Rank::Five,
        Rank::Four,
        Rank::Three,
        Rank::Two,
    ];

    /// How many ranks are below this one: 0 for the deuce, 12 for the ace.
    pub fn number(self) -> usize
        ensures place { result ≡ rank_number self }
        ensures below { result < 13 }
    {
        self as usize
    }

    /// The rank with this many ranks below it.
    pub fn at(number: usize) -> Rank
        requires { number < 13 }
        ensures { result ≡ rank_at number }
    {
        Rank::FALLING[12 - number]
    }

    /// The letter or digit that is printed, `T` for the ten.
    pub fn letter(self) -> &'static str
        ensures { result.now ≡ rank_letter self }
    {
        match self {
            Rank::Two => "2",
            Rank::Three => "3",
            Rank::Four => "4",
            Rank::Five => "5",
            Rank::Six => "6",
            Rank::Seven => "7",
            Rank::Eight => "8",
            Rank::Nine => "9",
            Rank::Ten => "T",
            Rank::Jack => "J",
            Rank::Queen => "Q",
            Rank::King => "K",
            Rank::Ace => "A",
        }
    }
}

impl fmt::Display for Rank {
    ghost output = { λ rank. Some (rank_letter rank) };

    fn fmt<W: fmt::Write>(&self, f: &mut fmt::Formatter<W>) -> fmt::Result {
        f.write_str(self.letter())
    }
}

/// A card of the pack of 52 (Law 1).
#[derive(Clone, Copy, Debug, Default, PartialEq, Eq)]
pub struct Card {
    /// Its suit.
    pub suit: Suit,
    /// Its rank.
    pub rank: Rank,
}

impl Card {
    /// How many cards the pack has (Law 1).
    pub const COUNT: usize = 52;

    /// The card's number, from 0: 13 times the number of its suit, and the number of its rank.
    pub fn number(self) -> usize
        ensures place { result ≡ card_number self }
        ensures below { result < 52 }
    {
        Rank::COUNT * self.suit.number() + self.rank.number()
    }

    /// The card with this number.
    pub fn at(number: usize) -> Card
        requires { number < 52 }
        ensures card { result ≡ card_at number }
        ensures number { card_number result ≡ number }
    {
        Card {
            suit: Suit::at(number / Rank::COUNT),
            rank: Rank::at(number % Rank::COUNT),
        }
    }
}

impl fmt::Display for Card {
    ghost output = { λ card. Some (suit_letter card.suit ++ rank_letter card.rank) };

    fn fmt<W: fmt::Write>(&self, f: &mut fmt::Formatter<W>) -> fmt::Result {
        self.suit.fmt(f)?;
        self.rank.fmt(f)
    }
}
