//! The beginning of a text: one byte, a letter, a card, a number.

ghost use Rattle.std.specs.Prelude.{◌≡◌, ◌∷◌, ◌++◌, [], ℕ, List, ⊤, ◌≤◌, ◌↔◌, IsTrue, MatchOption, ◌+◌};
ghost use Rattle.std.specs.Prelude.{length, take, drop};
ghost use Rattle.std.specs.Char.{digit_value};
ghost use Rattle.std.specs.Str.Parse.{AllDigits, digits_value};
ghost use Rattle.cards.specs.declared.seats.Seat.{Seat};
ghost use Rattle.cards.specs.declared.suits.Suit.{Suit};
ghost use Rattle.cards.specs.Pack.{suit_letter};
ghost use Rattle.cards.specs.Seats.{seat_letter};
ghost use Rattle.certificate_graph.specs.Graphs.{IsCard};
ghost use Rattle.certificate_graph.specs.Texts.{card_text};
ghost use Rattle.certificate_graph.specs.TextFaults.{IsNumber};
ghost use Rattle.certificate_graph.specs.Suits.{HasDigit};
ghost use Rattle.certificate_graph.specs.Readings.{seat_text, len_text, StopsDigits, Always, IsLen, Begins, Lacks};
ghost use Rattle.certificate_graph.specs.Readings.{BeginsNumber, LacksNumber};

use crate::writing::{seat_byte, suit_byte};
use cards::{Seat, Suit};
use pattern_step::PatCard;

/// The most digits that a number of nodes may have: those of the greatest count of nodes.
pub(crate) const GREATEST_DIGITS: usize = 7;

/// The greatest length of a suit: the cards of a hand.
const GREATEST_LEN: u32 = 13;

/// The text after this byte, if the text begins with it.
pub(crate) fn after_byte(text: &[u8], byte: u8) -> Option<&[u8]>
    ensures { MatchOption result ((rest : List ℕ) → text.now ≡ byte ∷ rest → ⊥) (λ rest. text.now ≡ byte ∷ rest.now) }
{
    match text {
        [first, rest @ ..] if *first == byte => Some(rest),
        _ => None,
    }
}

/// The seats by the three bits that tell their letters apart.
const SEATS: [Seat; 8] = [
    Seat::West,
    Seat::East,
    Seat::West,
    Seat::North,
    Seat::South,
    Seat::West,
    Seat::West,
    Seat::West,
];

/// The seat that a letter can be of alone.
fn seat_by_bits(byte: u8) -> Seat
    ensures { (seat : Seat) → seat_letter seat ≡ byte ∷ [] → seat ≡ result }
{
    SEATS[(byte >> 2 & 7) as usize]
}

/// The seat of a letter.
pub(crate) fn seat_of_letter(byte: u8) -> Option<Seat>
    ensures { MatchOption result ((seat : Seat) → seat_letter seat ≡ byte ∷ [] → ⊥)
        (λ seat. seat_letter seat ≡ byte ∷ []) }
{
    let seat = seat_by_bits(byte);
    if seat_byte(seat) == byte {
        Some(seat)
    } else {
        None
    }
}

/// A seat, and the text after its letter.
pub(crate) fn read_seat(text: &[u8]) -> Option<(Seat, &[u8])>
    ensures { MatchOption result (Lacks Always seat_text text.now) (λ p. text.now ≡ seat_text p.0 p.1.now) }
{
    let [letter, rest @ ..] = text else {
        return None;
    };
    let seat = seat_of_letter(*letter)?;
    Some((seat, rest))
}

/// The suits by the three bits that tell their letters apart.
const SUITS: [Suit; 8] = [
    Suit::Clubs,
    Suit::Diamonds,
    Suit::Hearts,
    Suit::Clubs,
    Suit::Spades,
    Suit::Clubs,
    Suit::Clubs,
    Suit::Clubs,
];

/// The suit that a letter can be of alone.
fn suit_by_bits(byte: u8) -> Suit
    ensures { (suit : Suit) → suit_letter suit ≡ byte ∷ [] → suit ≡ result }
{
    SUITS[(byte >> 2 & 7) as usize]
}

/// The suit of a letter.
fn suit_of_letter(byte: u8) -> Option<Suit>
    ensures { MatchOption result ((suit : Suit) → suit_letter suit ≡ byte ∷ [] → ⊥)
        (λ suit. suit_letter suit ≡ byte ∷ []) }
{
    let suit = suit_by_bits(byte);
    if suit_byte(suit) == byte {
        Some(suit)
    } else {
        None
    }
}

/// A card, and the text after it.
pub(crate) fn read_card(text: &[u8]) -> Option<(PatCard, &[u8])>
    ensures { MatchOption result (Lacks IsCard card_text text.now) (λ p. Begins IsCard card_text text.now p.0 p.1.now) }
{
    let [letter, place, rest @ ..] = text else {
        return None;
    };
    let suit = suit_of_letter(*letter)?;
    match *place {
        b'x' => Some((PatCard::Low(suit), rest)),
        b'a'..=b'm' => Some((PatCard::Top(suit, *place - b'a'), rest)),
        _ => None,
    }
}

/// The digits at the beginning, and the text after them.
pub(crate) fn split_digits(text: &[u8]) -> (&[u8], &[u8])
    ensures parts { text.now ≡ result.0.now ++ result.1.now }
    ensures digits { AllDigits 10 result.0.now }
    ensures stops { StopsDigits result.1.now }
{
    let mut end = 0;
    while end < text.len() && text[end].is_ascii_digit() {
        end += 1;
    }
    text.split_at(end)
}

/// Whether these digits are a number: one or more, without a leading zero.
pub(crate) fn is_number(digits: &[u8]) -> bool
    requires { AllDigits 10 digits.now }
    ensures { IsTrue result ↔ IsNumber digits.now }
{
    match digits {
        [] => false,
        [_] => true,
        [first, ..] => *first != b'0',
    }
}

/// The value of at most seven digits.
pub(crate) fn value_of(digits: &[u8]) -> u32
    requires all { AllDigits 10 digits.now }
    requires few { length digits.now ≤ 7 }
    ensures { result ≡ digits_value 10 digits.now }
{
    let mut value = 0;
    for digit in digits {
        value = 10 * value + u32::from(*digit - b'0');
    }
    value
}

/// A number of whatever digits, of which at most seven are read, and how many digits it has.
#[cold]
#[inline(never)]
fn read_long_number(text: &[u8]) -> Option<(u32, usize)>
    ensures { MatchOption result (LacksNumber text.now)
        (λ p. (p.1 ≤ length text.now) × BeginsNumber text.now p.0 (drop p.1 text.now)) }
{
    let (digits, _) = split_digits(text);
    if is_number(digits) && digits.len() <= GREATEST_DIGITS {
        Some((value_of(digits), digits.len()))
    } else {
        None
    }
}

/// The value of the first digits, of eight at most, and how many they are.
fn first_digits(text: &[u8]) -> (u32, usize)
    ensures within { result.1 ≤ length text.now }
    ensures value { result.0 ≡ digits_value 10 (take result.1 text.now) }
    ensures digits { AllDigits 10 (take result.1 text.now) }
    ensures stops { result.1 ≤ 7 → StopsDigits (drop result.1 text.now) }
{
    let mut value = 0;
    let mut end = 0;
    while end <= GREATEST_DIGITS && end < text.len() && text[end].is_ascii_digit() {
        value = 10 * value + u32::from(text[end] - b'0');
        end += 1;
    }
    (value, end)
}

/// A number of at most seven digits, and the text after it.
pub(crate) fn read_number(text: &[u8]) -> Option<(u32, &[u8])>
    ensures { MatchOption result (LacksNumber text.now) (λ p. BeginsNumber text.now p.0 p.1.now) }
{
    let (value, end) = first_digits(text);
    let (digits, rest) = text.split_at(end);
    if end <= GREATEST_DIGITS && is_number(digits) {
        return Some((value, rest));
    }
    let Some((value, end)) = read_long_number(text) else {
        return None;
    };
    let (_, rest) = text.split_at(end);
    Some((value, rest))
}

/// Whether a digit stands in this place, and the byte behind it.
pub(crate) fn has_digit(text: &[u8], place: usize, byte: u8) -> bool
    requires { place + 2 ≤ length text.now }
    ensures { IsTrue result → HasDigit text.now place byte }
{
    text[place].is_ascii_digit() && text[place + 1] == byte
}

/// A length of at most 13 before this byte, and the text after the byte.
pub(crate) fn read_len(text: &[u8], byte: u8) -> Option<(u8, &[u8])>
    requires { 10 ≤ digit_value byte }
    ensures { MatchOption result (Lacks IsLen (len_text byte) text.now)
        (λ p. Begins IsLen (len_text byte) text.now p.0 p.1.now) }
{
    let Some((len, rest)) = read_number(text) else {
        return None;
    };
    if len > GREATEST_LEN {
        return None;
    }
    let Some(rest) = after_byte(rest, byte) else {
        return None;
    };
    Some((len as u8, rest))
}
