//! Numbers, as they are looked for.

ghost use Rattle.std.specs.Prelude.{◌≡◌, ◌<◌, ◌≤◌, ◌^◌, ℕ, Some};
ghost use Rattle.std.specs.Fmt.{decimal};
ghost use Rattle.evidence.specs.Sections.{IsRoot};
ghost use Rattle.evidence.specs.SectionTexts.{root_text};
ghost use Rattle.card_evidence.specs.SectionTexts.{line_text};
ghost use Rattle.play_evidence.specs.Readings.{Finds, FindsWord};

use card_evidence::read_line;
use certificate_graph::after_prefix;
use evidence::tricks_of;

/// Returns the number up to 53 of the line of this name, and the rest of the text.
pub(crate) fn find_count<'a>(text: &'a [u8], name: &[u8]) -> Option<(u8, &'a [u8])>
    ensures { Finds (λ count. count ≤ 53) (λ count. line_text name.now (decimal count)) text.now result }
{
    let Some((word, rest)) = read_line(text, name) else {
        return None;
    };
    let Some(count) = tricks_of(word) else {
        return None;
    };
    Some((count, rest))
}

/// Returns the number that a word writes, if it fits.
fn number_of(word: &[u8]) -> Option<u32>
    ensures { (number : ℕ) → number < 2 ^ 32 → word.now ≡ decimal number → result ≡ Some number }
{
    let Ok(digits) = str::from_utf8(word) else {
        return None;
    };
    match digits.parse::<u32>() {
        Ok(number) => Some(number),
        Err(_) => None,
    }
}

/// Returns the number of a node that a word writes, or none if the word is `-`.
pub(crate) fn root_of(word: &[u8]) -> Option<Option<u32>>
    ensures { FindsWord IsRoot root_text word.now result }
{
    if let Some(_) = after_prefix(word, b"-") {
        return Some(None);
    }
    match number_of(word) {
        Some(number) => Some(Some(number)),
        None => None,
    }
}
