//! What the values of the tags Dealer and Vulnerable say.

ghost use Rattle.std.specs.Prelude.{◌≡◌};
ghost use Rattle.pbn_deals.specs.DealValue.{after_blanks};
ghost use Rattle.pbn_deals.specs.Letters.{is_blank};
ghost use Rattle.board_conditions.specs.Words.{dealer_said, is_in_any_case, is_unsaid, is_word, says_dealer};
ghost use Rattle.board_conditions.specs.Words.{says_vulnerability, vulnerability_said};

use cards::Seat;
use par::VulnerableSides;

/// Whether the byte is a space or a tab.
fn is_blank(byte: u8) -> bool
    ensures { result ≡ is_blank byte }
{
    byte == b' ' || byte == b'\t'
}

/// What follows the blanks at the front.
fn after_blanks(text: &[u8]) -> &[u8]
    ensures { result.now ≡ after_blanks text.now }
{
    for (i, byte) in text.iter().enumerate() {
        if !is_blank(*byte) {
            return &text[i..];
        }
    }
    &text[text.len()..]
}

/// Whether the byte is this one, or the small letter of this capital.
fn is_in_any_case(capital: u8, byte: u8) -> bool
    ensures { result ≡ is_in_any_case capital byte }
{
    byte == capital || capital >= b'A' && byte as u16 == capital as u16 + 32
}

/// Whether the value is this word, given in capitals. Its letters may be small, and blanks may be around it.
fn is_word(capitals: &[u8], value: &[u8]) -> bool
    ensures { result ≡ is_word capitals.now value.now }
{
    let mut rest = after_blanks(value);
    for capital in capitals {
        let [byte, others @ ..] = rest else {
            return false;
        };
        if !is_in_any_case(*capital, *byte) {
            return false;
        }
        rest = others;
    }
    after_blanks(rest).is_empty()
}

/// Whether the value is empty or `?`.
fn is_unsaid(value: &[u8]) -> bool
    ensures { result ≡ is_unsaid value.now }
{
    is_word(b"", value) || is_word(b"?", value)
}

/// Whether a Dealer value says something.
pub(crate) fn says_dealer(value: &[u8]) -> bool
    ensures { result ≡ says_dealer value.now }
{
    !(is_unsaid(value) || is_word(b"-", value))
}

/// Whether a Vulnerable value says something.
pub(crate) fn says_vulnerability(value: &[u8]) -> bool
    ensures { result ≡ says_vulnerability value.now }
{
    !is_unsaid(value)
}

/// The seat that a Dealer value names (PBN 2.1, 3.4.9).
pub(crate) fn dealer_said(value: &[u8]) -> Option<Seat>
    ensures { result ≡ dealer_said value.now }
{
    if is_word(b"N", value) {
        Some(Seat::North)
    } else if is_word(b"E", value) {
        Some(Seat::East)
    } else if is_word(b"S", value) {
        Some(Seat::South)
    } else if is_word(b"W", value) {
        Some(Seat::West)
    } else {
        None
    }
}

/// The sides that a Vulnerable value names (PBN 2.1, 3.4.10).
pub(crate) fn vulnerability_said(value: &[u8]) -> Option<VulnerableSides>
    ensures { result ≡ vulnerability_said value.now }
{
    if is_word(b"NONE", value) || is_word(b"LOVE", value) || is_word(b"-", value) {
        Some(VulnerableSides::Neither)
    } else if is_word(b"NS", value) {
        Some(VulnerableSides::NorthSouth)
    } else if is_word(b"EW", value) {
        Some(VulnerableSides::EastWest)
    } else if is_word(b"ALL", value) || is_word(b"BOTH", value) {
        Some(VulnerableSides::Both)
    } else {
        None
    }
}
