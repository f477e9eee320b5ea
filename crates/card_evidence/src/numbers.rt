//! Numbers up to 13, as they are read.

ghost use Rattle.std.specs.Prelude.{◌≡◌, ◌↔◌, ◌≤◌, IsTrue};
ghost use Rattle.std.specs.Fmt.{decimal};
ghost use Rattle.card_evidence.specs.Readings.{ReadsWord};

use crate::lines::is_same;
use evidence::tricks_of;

/// Whether the word writes the number in its one spelling.
fn is_spelled(word: &[u8], number: u8) -> bool
    requires { number ≤ 13 }
    ensures { IsTrue result ↔ (word.now ≡ decimal number) }
{
    if number < 10 {
        is_same(word, &[b'0' + number])
    } else {
        is_same(word, &[b'1', b'0' + (number - 10)])
    }
}

/// Returns the number up to 13 that the word writes in its one spelling.
pub(crate) fn number_of(word: &[u8]) -> Option<u8>
    ensures { ReadsWord (λ number. number ≤ 13) decimal word.now result }
{
    let Some(number) = tricks_of(word) else {
        return None;
    };
    if number > 13 {
        return None;
    }
    if !is_spelled(word, number) {
        return None;
    }
    Some(number)
}
