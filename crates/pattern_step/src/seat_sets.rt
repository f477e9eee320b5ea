//! Sets of seats.

ghost use Rattle.std.specs.Prelude.{◌≡◌, ◌↔◌, ◌⊎◌, IsTrue, false, slice_index_or};
ghost use Rattle.cards.specs.Seats.{seat_number};
ghost use Rattle.cards.specs.declared.seats.Seat.{Seat};
ghost use Rattle.pattern_step.specs.SeatSets.{is_in};

use cards::Seat;
use std::marker::Model;

/// A set of seats.
#[derive(Clone, Copy, Debug, PartialEq, Eq)]
pub struct SeatSet {
    north: bool,
    east: bool,
    south: bool,
    west: bool,
}

impl Model for SeatSet {
    ghost use Rattle.pattern_step.specs.SeatSets.{Seats};

    ghost Value = { Seats };

    ghost view = { λ set. record { north = set.north; east = set.east; south = set.south; west = set.west } };

    ghost inverse = { λ seats. record
        { north = seats.north; east = seats.east; south = seats.south; west = seats.west } };
}

impl SeatSet {
    /// The set without a seat.
    pub fn new() -> SeatSet
        ensures { (seat : Seat) → is_in result seat ≡ false }
    {
        SeatSet {
            north: false,
            east: false,
            south: false,
            west: false,
        }
    }

    /// The set of the seats, in their order from North, whose member is true.
    pub fn of(members: [bool; 4]) -> SeatSet
        ensures { (seat : Seat) → is_in result seat ≡ slice_index_or members (seat_number seat) false }
    {
        SeatSet {
            north: members[0],
            east: members[1],
            south: members[2],
            west: members[3],
        }
    }

    /// The set with the seat added.
    pub fn with(self, seat: Seat) -> SeatSet
        ensures { (other : Seat) → IsTrue (is_in result other) ↔ ((other ≡ seat) ⊎ IsTrue (is_in self other)) }
    {
        let mut set = self;
        match seat {
            Seat::North => set.north = true,
            Seat::East => set.east = true,
            Seat::South => set.south = true,
            Seat::West => set.west = true,
        }
        set
    }

    /// Whether the seat is in the set.
    pub fn contains(self, seat: Seat) -> bool
        ensures { result ≡ is_in self seat }
    {
        match seat {
            Seat::North => self.north,
            Seat::East => self.east,
            Seat::South => self.south,
            Seat::West => self.west,
        }
    }
}
