//! The entries of the tables of a list of boards.

ghost use Rattle.std.specs.Prelude.{◌≡◌, ◌+◌, ◌*◌, ◌/◌, ◌<◌, ◌≤◌, ◌^◌};
ghost use Rattle.lease_book.specs.Entries.{contract_place, seat_place, trump_place, place_of, is_same_entry};

use cards::{Seat, Suit, Trump};

/// An entry of a table: a board, by its number from 0, with a declarer and a denomination.
#[derive(Clone, Copy, Debug, PartialEq, Eq)]
pub struct Entry {
    /// The number of the board, from 0.
    pub board: usize,
    /// The seat of declarer.
    pub declarer: Seat,
    /// The trump suit, or none.
    pub trump: Trump,
}

/// How many entries a board has.
pub const ENTRIES: usize = 20;

/// The place of a declarer in a table, from 0: N, S, E, W.
fn seat_place(declarer: Seat) -> usize
    ensures place { result ≡ seat_place declarer }
    ensures below { result < 4 }
{
    match declarer {
        Seat::North => 0,
        Seat::South => 1,
        Seat::East => 2,
        Seat::West => 3,
    }
}

/// The place of a denomination among those of a declarer, from 0: NT, S, H, D, C.
fn trump_place(trump: Trump) -> usize
    ensures place { result ≡ trump_place trump }
    ensures below { result < 5 }
{
    match trump {
        Trump::Nt => 0,
        Trump::Suit(Suit::Spades) => 1,
        Trump::Suit(Suit::Hearts) => 2,
        Trump::Suit(Suit::Diamonds) => 3,
        Trump::Suit(Suit::Clubs) => 4,
    }
}

/// The place of a contract in the table of a board.
pub(crate) fn contract_place(declarer: Seat, trump: Trump) -> usize
    ensures place { result ≡ contract_place declarer trump }
    ensures below { result < 20 }
{
    5 * seat_place(declarer) + trump_place(trump)
}

/// The declarer in this place of a table.
fn declarer_at(place: usize) -> Seat
    requires { place < 4 }
    ensures { seat_place result ≡ place }
{
    match place {
        0 => Seat::North,
        1 => Seat::South,
        2 => Seat::East,
        _ => Seat::West,
    }
}

/// The denomination in this place among those of a declarer.
fn trump_at(place: usize) -> Trump
    requires { place < 5 }
    ensures { trump_place result ≡ place }
{
    match place {
        0 => Trump::Nt,
        1 => Trump::Suit(Suit::Spades),
        2 => Trump::Suit(Suit::Hearts),
        3 => Trump::Suit(Suit::Diamonds),
        _ => Trump::Suit(Suit::Clubs),
    }
}

impl Entry {
    /// The place of the entry among all entries, in their order.
    pub fn place(&self) -> usize
        requires { self.now.board < 2 ^ 32 }
        ensures { result ≡ place_of self.now }
    {
        ENTRIES * self.board + contract_place(self.declarer, self.trump)
    }

    /// The entry in this place.
    pub(crate) fn at(place: usize) -> Entry
        ensures { place_of result ≡ place }
    {
        let contract = place % ENTRIES;
        Entry {
            board: place / ENTRIES,
            declarer: declarer_at(contract / 5),
            trump: trump_at(contract % 5),
        }
    }

    /// Whether the two are the same entry.
    pub(crate) fn is_same(&self, other: &Entry) -> bool
        ensures { result ≡ is_same_entry self.now other.now }
    {
        self.board == other.board
            && contract_place(self.declarer, self.trump)
                == contract_place(other.declarer, other.trump)
    }
}
