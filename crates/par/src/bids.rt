//! Bids and their order (Law 18).

ghost use Rattle.std.specs.Prelude.{◌≡◌, ◌<◌, ◌≤◌};
ghost use Rattle.par.specs.Bids.{bid_number, level_number, rank_of};

use cards::{Suit, Trump};

/// How many odd tricks a bid names: tricks in excess of six (Law 18A).
#[derive(Clone, Copy, Debug, PartialEq, Eq)]
pub enum Level {
    /// Seven tricks.
    One,
    /// Eight tricks.
    Two,
    /// Nine tricks.
    Three,
    /// Ten tricks.
    Four,
    /// Eleven tricks.
    Five,
    /// Twelve tricks, a small slam.
    Six,
    /// All thirteen tricks, a grand slam.
    Seven,
}

impl Level {
    /// The seven levels, the lowest first.
    pub const ALL: [Level; 7] = [
        Level::One,
        Level::Two,
        Level::Three,
        Level::Four,
        Level::Five,
        Level::Six,
        Level::Seven,
    ];

    /// The number of odd tricks, 1 to 7.
    pub fn number(self) -> u8
        ensures number { result ≡ level_number self }
        ensures above { 1 ≤ result }
        ensures below { result < 8 }
    {
        match self {
            Level::One => 1,
            Level::Two => 2,
            Level::Three => 3,
            Level::Four => 4,
            Level::Five => 5,
            Level::Six => 6,
            Level::Seven => 7,
        }
    }

    /// The level of this number.
    pub fn at(number: u8) -> Level
        requires above { 1 ≤ number }
        requires below { number < 8 }
        ensures { level_number result ≡ number }
    {
        Level::ALL[number as usize - 1]
    }
}

/// One of the 35 bids (Law 18A).
#[derive(Clone, Copy, Debug, PartialEq, Eq)]
pub struct Bid {
    /// How many odd tricks.
    pub level: Level,
    /// The denomination.
    pub denomination: Trump,
}

impl Bid {
    /// How many bids there are.
    pub const COUNT: usize = 35;

    /// How many bids are lower: 0 for 1 club, 34 for 7 no-trump.
    pub fn number(self) -> usize
        ensures place { result ≡ bid_number self }
        ensures below { result < 35 }
    {
        5 * (self.level.number() as usize - 1) + rank(self.denomination)
    }

    /// The bid with so many lower bids.
    pub fn at(number: usize) -> Bid
        requires { number < 35 }
        ensures { bid_number result ≡ number }
    {
        Bid {
            level: Level::ALL[number / 5],
            denomination: Trump::ALL[4 - number % 5],
        }
    }
}

/// How many denominations rank below this one (Law 18E).
fn rank(denomination: Trump) -> usize
    ensures rank { result ≡ rank_of denomination }
    ensures below { result < 5 }
{
    match denomination {
        Trump::Suit(Suit::Clubs) => 0,
        Trump::Suit(Suit::Diamonds) => 1,
        Trump::Suit(Suit::Hearts) => 2,
        Trump::Suit(Suit::Spades) => 3,
        Trump::Nt => 4,
    }
}
