//! Blanks, and the letters of seats, suits and ranks.

ghost use Rattle.std.specs.Prelude.{◌≡◌};
ghost use Rattle.pbn_deals.specs.Letters.{is_blank, seat_of_letter, rank_of_letter};
ghost use Rattle.recorded_plays.specs.Words.{suit_of_letter};

use cards::{Rank, Seat, Suit};

/// Whether the byte is a space or a tab.
pub(crate) fn is_blank(byte: u8) -> bool
    ensures { result ≡ is_blank byte }
{
    byte == b' ' || byte == b'\t'
}

/// The seat that the letter names, in either case.
pub(crate) fn seat_of_letter(byte: u8) -> Option<Seat>
    ensures { result ≡ seat_of_letter byte }
{
    match byte {
        b'N' | b'n' => Some(Seat::North),
        b'E' | b'e' => Some(Seat::East),
        b'S' | b's' => Some(Seat::South),
        b'W' | b'w' => Some(Seat::West),
        _ => None,
    }
}

/// The suit that the letter names, in either case.
pub(crate) fn suit_of_letter(byte: u8) -> Option<Suit>
    ensures { result ≡ suit_of_letter byte }
{
    match byte {
        b'S' | b's' => Some(Suit::Spades),
        b'H' | b'h' => Some(Suit::Hearts),
        b'D' | b'd' => Some(Suit::Diamonds),
        b'C' | b'c' => Some(Suit::Clubs),
        _ => None,
    }
}

/// The rank that the letter or digit names, a letter in either case.
pub(crate) fn rank_of_letter(byte: u8) -> Option<Rank>
    ensures { result ≡ rank_of_letter byte }
{
    match byte {
        b'A' | b'a' => Some(Rank::Ace),
        b'K' | b'k' => Some(Rank::King),
        b'Q' | b'q' => Some(Rank::Queen),
        b'J' | b'j' => Some(Rank::Jack),
        b'T' | b't' => Some(Rank::Ten),
        b'9' => Some(Rank::Nine),
        b'8' => Some(Rank::Eight),
        b'7' => Some(Rank::Seven),
        b'6' => Some(Rank::Six),
        b'5' => Some(Rank::Five),
        b'4' => Some(Rank::Four),
        b'3' => Some(Rank::Three),
        b'2' => Some(Rank::Two),
        _ => None,
    }
}
