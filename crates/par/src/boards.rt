//! The tricks of a board's twenty entries.

ghost use Rattle.std.specs.Prelude.{◌≡◌, ◌<◌, slice_index};
ghost use Rattle.cards.specs.Orders.{trump_number};
ghost use Rattle.cards.specs.declared.seats.Seat.{Seat};
ghost use Rattle.cards.specs.declared.suits.Trump.{Trump};
ghost use Rattle.par.specs.Boards.{tricks_in};

use cards::{Seat, Suit, Trump};

/// How many tricks each declarer takes in each denomination, 0 to 13.
#[derive(Clone, Copy, Debug, PartialEq, Eq)]
pub struct Tricks {
    /// A row for each declarer, clockwise from North, in which the denominations are in the order of [`Trump::ALL`].
    pub rows: [[u8; 5]; 4],
}

impl Tricks {
    /// The tricks that the function gives for each declarer and denomination.
    pub fn of<F: Fn(Seat, Trump) -> u8>(entry: F) -> Tricks
        requires { F.IsAlwaysCallable entry }
        ensures { (declarer : Seat) (denomination : Trump) →
            F.post entry declarer denomination (tricks_in result declarer denomination) }
    {
        Tricks {
            rows: [
                row_of(&entry, Seat::North),
                row_of(&entry, Seat::East),
                row_of(&entry, Seat::South),
                row_of(&entry, Seat::West),
            ],
        }
    }

    /// The tricks of a declarer in a denomination.
    pub fn taken(&self, declarer: Seat, denomination: Trump) -> u8
        ensures { result ≡ tricks_in self.now declarer denomination }
    {
        self.rows[declarer.number()][column(denomination)]
    }
}

/// A declarer's tricks in the denominations.
fn row_of<F: Fn(Seat, Trump) -> u8>(entry: &F, declarer: Seat) -> [u8; 5]
    requires { F.IsAlwaysCallable entry.now }
    ensures { (denomination : Trump) →
        F.post entry.now declarer denomination (slice_index result (trump_number denomination)) }
{
    [
        entry(declarer, Trump::Nt),
        entry(declarer, Trump::Suit(Suit::Spades)),
        entry(declarer, Trump::Suit(Suit::Hearts)),
        entry(declarer, Trump::Suit(Suit::Diamonds)),
        entry(declarer, Trump::Suit(Suit::Clubs)),
    ]
}

/// The place of a denomination in [`Trump::ALL`].
fn column(denomination: Trump) -> usize
    ensures place { result ≡ trump_number denomination }
    ensures below { result < 5 }
{
    match denomination {
        Trump::Nt => 0,
        Trump::Suit(suit) => 1 + suit.number(),
    }
}
