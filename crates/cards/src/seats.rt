//! The seats of the table and the two sides.

ghost use Rattle.std.specs.Prelude.{◌≡◌, ◌<◌, ◌↔◌, Some};
ghost use Rattle.cards.specs.Seats.{next_of, seat_number, side_of, other_side, seat_letter, side_letters};

use std::fmt;

/// A seat of the table, in clockwise order from North (Laws 4 and 44B).
#[derive(Clone, Copy, Debug, Default, PartialEq, Eq, PartialOrd, Ord, Hash)]
pub enum Seat {
    /// North, the partner of South.
    #[default]
    North,
    /// East, at North's left and the partner of West.
    East,
    /// South, at East's left.
    South,
    /// West, at South's left.
    West,
}

/// A side of two partners who sit opposite each other (Law 4), North and South first.
#[derive(Clone, Copy, Debug, PartialEq, Eq, PartialOrd, Ord, Hash)]
pub enum Side {
    /// North and South.
    NorthSouth,
    /// East and West.
    EastWest,
}

impl Seat {
    /// The four seats clockwise, North first.
    pub const ALL: [Seat; 4] = [Seat::North, Seat::East, Seat::South, Seat::West];

    /// The place of the seat in [`Seat::ALL`], from 0.
    pub fn number(self) -> usize
        ensures place { result ≡ seat_number self }
        ensures below { result < 4 }
    {
        match self {
            Seat::North => 0,
            Seat::East => 1,
            Seat::South => 2,
            Seat::West => 3,
        }
    }

    /// The seat at the left: play goes clockwise (Law 44B), and the seat at declarer's left leads (Law 41A).
    pub fn next(self) -> Seat
        ensures { result ≡ next_of self }
    {
        match self {
            Seat::North => Seat::East,
            Seat::East => Seat::South,
            Seat::South => Seat::West,
            Seat::West => Seat::North,
        }
    }

    /// The side that the seat plays for.
    pub fn side(self) -> Side
        ensures { result ≡ side_of self }
    {
        match self {
            Seat::North | Seat::South => Side::NorthSouth,
            Seat::East | Seat::West => Side::EastWest,
        }
    }

    /// The letter that is printed: `N`, `E`, `S` or `W`.
    pub fn letter(self) -> &'static str
        ensures { result.now ≡ seat_letter self }
    {
        match self {
            Seat::North => "N",
            Seat::East => "E",
            Seat::South => "S",
            Seat::West => "W",
        }
    }

    /// The seat that this letter names, where it names one.
    pub fn of_letter(letter: &str) -> Option<Seat>
        ensures { (seat : Seat) → (result ≡ Some seat) ↔ (letter.now ≡ seat_letter seat) }
    {
        match letter {
            "N" => Some(Seat::North),
            "E" => Some(Seat::East),
            "S" => Some(Seat::South),
            "W" => Some(Seat::West),
            _ => None,
        }
    }
}

impl fmt::Display for Seat {
    ghost output = { λ seat. Some (seat_letter seat) };

    fn fmt<W: fmt::Write>(&self, f: &mut fmt::Formatter<W>) -> fmt::Result {
        f.write_str(self.letter())
    }
}

impl Side {
    /// The opponents of the side.
    pub fn other(self) -> Side
        ensures { result ≡ other_side self }
    {
        match self {
            Side::NorthSouth => Side::EastWest,
            Side::EastWest => Side::NorthSouth,
        }
    }

    /// The letters that are printed: `NS` or `EW`.
    pub fn letters(self) -> &'static str
        ensures { result.now ≡ side_letters self }
    {
        match self {
            Side::NorthSouth => "NS",
            Side::EastWest => "EW",
        }
    }
}

impl fmt::Display for Side {
    ghost output = { λ side. Some (side_letters side) };

    fn fmt<W: fmt::Write>(&self, f: &mut fmt::Formatter<W>) -> fmt::Result {
        f.write_str(self.letters())
    }
}
