//! The first four lines of a text, as they are read.

ghost use Rattle.std.specs.Prelude.{◌≡◌, ◌≢◌, ◌++◌, ◌∷◌, ℕ, List, ⊤, MatchOption, MatchResult};
ghost use Rattle.cards.specs.declared.seats.Side.{Side};
ghost use Rattle.cards.specs.declared.suits.Trump.{Trump};
ghost use Rattle.certificate_graph.specs.Texts.{title_text, trump_text, side_text};
ghost use Rattle.certificate_graph.specs.declared.versions.Version.{Version};
ghost use Rattle.certificate_graph.specs.Readings.{BeginsDigits, LacksDigits, ReadsCount, IsCountLineFault};

use crate::checks::GREATEST_COUNT;
use crate::faults::TextFault;
use crate::line_writing::{side_line, title_line, trump_line};
use crate::scanning::{GREATEST_DIGITS, after_byte, is_number, split_digits, value_of};
use crate::versions::Version;
use cards::{Side, Trump};

/// The text after this prefix, if it begins with it.
pub fn after_prefix<'a>(text: &'a [u8], prefix: &[u8]) -> Option<&'a [u8]>
    ensures { MatchOption result ((rest : List ℕ) → text.now ≢ prefix.now ++ rest)
        (λ rest. text.now ≡ prefix.now ++ rest.now) }
{
    text.strip_prefix(prefix)
}

/// The version, and the text after the title, which tells it.
pub(crate) fn read_title(text: &[u8]) -> Option<(Version, &[u8])>
    ensures { MatchOption result ((version : Version) (rest : List ℕ) → text.now ≢ title_text version rest)
        (λ p. text.now ≡ title_text p.0 p.1.now) }
{
    if let Some(rest) = after_prefix(text, title_line(Version::One)) {
        return Some((Version::One, rest));
    }
    let Some(rest) = after_prefix(text, title_line(Version::Two)) else {
        return None;
    };
    Some((Version::Two, rest))
}

/// The trump, and the text after its line.
pub(crate) fn read_trump(text: &[u8]) -> Option<(Trump, &[u8])>
    ensures { MatchOption result ((trump : Trump) (rest : List ℕ) → text.now ≢ trump_text trump rest)
        (λ p. text.now ≡ trump_text p.0 p.1.now) }
{
    for trump in Trump::ALL {
        if let Some(rest) = after_prefix(text, trump_line(trump)) {
            return Some((trump, rest));
        }
    }
    None
}

/// The side, and the text after its line.
pub(crate) fn read_side(text: &[u8]) -> Option<(Side, &[u8])>
    ensures { MatchOption result ((side : Side) (rest : List ℕ) → text.now ≢ side_text side rest)
        (λ p. text.now ≡ side_text p.0 p.1.now) }
{
    if let Some(rest) = after_prefix(text, side_line(Side::NorthSouth)) {
        return Some((Side::NorthSouth, rest));
    }
    let Some(rest) = after_prefix(text, side_line(Side::EastWest)) else {
        return None;
    };
    Some((Side::EastWest, rest))
}

/// The digits of the number of nodes, and the text after their line.
fn read_digits(text: &[u8]) -> Option<(&[u8], &[u8])>
    ensures { MatchOption result (LacksDigits text.now) (λ p. BeginsDigits text.now p.0.now p.1.now) }
{
    let Some(rest) = after_prefix(text, b"nodes ") else {
        return None;
    };
    let (digits, rest) = split_digits(rest);
    let Some(rest) = after_byte(rest, b'\n') else {
        return None;
    };
    if is_number(digits) {
        Some((digits, rest))
    } else {
        None
    }
}

/// The number of nodes, and the text after its line.
pub(crate) fn read_count(text: &[u8]) -> Result<(u32, &[u8]), TextFault>
    ensures { MatchResult result (λ p. ReadsCount text.now p.0 p.1.now) (IsCountLineFault text.now) }
{
    let Some((digits, rest)) = read_digits(text) else {
        return Err(TextFault::Head { line: 4 });
    };
    if digits.len() > GREATEST_DIGITS {
        return Err(TextFault::TooLarge { line: 4 });
    }
    let count = value_of(digits);
    if count as usize > GREATEST_COUNT {
        return Err(TextFault::TooLarge { line: 4 });
    }
    Ok((count, rest))
}
