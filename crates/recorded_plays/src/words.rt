//! What the values of the tags Play, Declarer and Contract say.

ghost use Rattle.std.specs.Prelude.{◌≡◌, ◌≤◌, length};
ghost use Rattle.recorded_plays.specs.Words.{before_any, seat_said, bid_said, denomination_said, is_double};
ghost use Rattle.recorded_plays.specs.Words.{says_passed_out, trump_said};

use crate::letters::{seat_of_letter, suit_of_letter};
use cards::{Seat, Trump};
use pbn_deals::is_same_name;

/// What stands before the first byte that is one of these signs.
pub(crate) fn before_any<'a>(signs: &[u8], text: &'a [u8]) -> &'a [u8]
    ensures front { result.now ≡ before_any signs.now text.now }
    ensures within { length result.now ≤ length text.now }
{
    for (i, byte) in text.iter().enumerate() {
        if signs.contains(byte) {
            return &text[..i];
        }
    }
    text
}

/// The seat that a value names: its letter, perhaps after the `^` of an irregular declarer.
pub(crate) fn seat_said(value: &[u8]) -> Option<Seat>
    ensures { result ≡ seat_said value.now }
{
    match value {
        [letter] | [b'^', letter] => seat_of_letter(*letter),
        _ => None,
    }
}

/// Whether a Contract value says that all four players passed.
pub(crate) fn says_passed_out(value: &[u8]) -> bool
    ensures { result ≡ says_passed_out value.now }
{
    is_same_name(b"PASS", value)
}

/// The denomination of a Contract value: a level, the denomination, and nothing or `X` or `XX`.
pub(crate) fn trump_said(value: &[u8]) -> Option<Trump>
    ensures { result ≡ trump_said value.now }
{
    match value {
        [b'1'..=b'7', bid @ ..] => bid_said(bid),
        _ => None,
    }
}

/// The denomination that stands before nothing or `X` or `XX`.
fn bid_said(bid: &[u8]) -> Option<Trump>
    ensures { result ≡ bid_said bid.now }
{
    let letters = before_any(b"Xx", bid);
    if is_double(&bid[letters.len()..]) {
        denomination_said(letters)
    } else {
        None
    }
}

/// Whether the text is empty, `X` or `XX`.
fn is_double(text: &[u8]) -> bool
    ensures { result ≡ is_double text.now }
{
    text.is_empty() || is_same_name(b"X", text) || is_same_name(b"XX", text)
}

/// The denomination that these letters name, in either case.
fn denomination_said(letters: &[u8]) -> Option<Trump>
    ensures { result ≡ denomination_said letters.now }
{
    match letters {
        [b'N' | b'n'] | [b'N' | b'n', b'T' | b't'] => Some(Trump::Nt),
        [letter] => match suit_of_letter(*letter) {
            Some(suit) => Some(Trump::Suit(suit)),
            None => None,
        },
        _ => None,
    }
}
