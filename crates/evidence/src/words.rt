//! The words of a line, and what they say.

ghost use Rattle.std.specs.Prelude.{◌≡◌, ◌≢◌, ◌∷◌, ◌++◌, ◌^◌, ◌<◌, ℕ, Option, Some, MatchOption};
ghost use Rattle.std.specs.Fmt.{decimal};
ghost use Rattle.cards.specs.declared.seats.Seat.{Seat};
ghost use Rattle.cards.specs.declared.suits.Trump.{Trump};
ghost use Rattle.cards.specs.Seats.{seat_letter};
ghost use Rattle.cards.specs.Pack.{trump_letters};
ghost use Rattle.pbn_deals.specs.Reading.{Lacks};
ghost use Rattle.evidence.specs.Sections.{IsRoot};
ghost use Rattle.evidence.specs.SectionTexts.{root_text};

use cards::{Seat, Trump};
use certificate_graph::after_prefix;
use memchr::memchr;

/// Cuts the text at the first such byte: returns the text before it and the text after it, if there is one.
pub fn cut_at(text: &[u8], byte: u8) -> Option<(&[u8], &[u8])>
    ensures { MatchOption result (Lacks byte text.now)
        (λ found. (text.now ≡ found.0.now ++ (byte ∷ found.1.now)) × Lacks byte found.0.now) }
{
    let Some(place) = memchr(byte, text) else {
        return None;
    };
    Some((&text[..place], &text[place + 1..]))
}

/// Returns the seat whose letter the word is.
pub fn seat_of(word: &[u8]) -> Option<Seat>
    ensures { MatchOption result ((seat : Seat) → word.now ≢ seat_letter seat) (λ seat. word.now ≡ seat_letter seat) }
{
    let Ok(letter) = str::from_utf8(word) else {
        return None;
    };
    Seat::of_letter(letter)
}

/// Returns the denomination whose letters the word is.
pub fn trump_of(word: &[u8]) -> Option<Trump>
    ensures { MatchOption result ((trump : Trump) → word.now ≢ trump_letters trump)
        (λ trump. word.now ≡ trump_letters trump) }
{
    let Ok(letters) = str::from_utf8(word) else {
        return None;
    };
    Trump::of_letters(letters)
}

/// Returns the number that the word writes, if it is at most 255. The word may be another spelling than the one that is
/// written.
pub fn tricks_of(word: &[u8]) -> Option<u8>
    ensures { (number : ℕ) → number < 2 ^ 8 → word.now ≡ decimal number → result ≡ Some number }
{
    let Ok(digits) = str::from_utf8(word) else {
        return None;
    };
    match digits.parse::<u8>() {
        Ok(number) => Some(number),
        Err(_) => None,
    }
}

/// The number that a word writes, where it fits. It may have other spellings than that one.
fn number_of(word: &[u8]) -> Option<u32>
    ensures { (number : ℕ) → number < 2 ^ 32 → word.now ≡ decimal number → result ≡ Some number }
{
    let Ok(digits) = str::from_utf8(word) else {
        return None;
    };
    match digits.parse::<u32>() {
        Ok(number) => Some(number),
        Err(_) => None,
    }
}

/// The root that a word writes. It may have other spellings than that one.
pub(crate) fn root_of(word: &[u8]) -> Option<Option<u32>>
    ensures { (root : Option ℕ) → IsRoot root → word.now ≡ root_text root → result ≡ Some root }
{
    if let Some(_) = after_prefix(word, b"-") {
        return Some(None);
    }
    match number_of(word) {
        Some(number) => Some(Some(number)),
        None => None,
    }
}
