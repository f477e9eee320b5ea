//! The hands of a Deal value, read byte by byte.

ghost use Rattle.std.specs.Prelude.{◌≡◌, ◌≤◌, ◌∷◌, [], length, MatchOption};
ghost use Rattle.std.specs.List.{slice_split};
ghost use Rattle.pbn_deals.specs.DealValue.{after_blanks, words_of, is_unknown};

use crate::letters::is_blank;

/// What stands after the blanks at the front.
pub(crate) fn after_blanks(text: &[u8]) -> &[u8]
    ensures value { result.now ≡ after_blanks text.now }
    ensures within { length result.now ≤ length text.now }
{
    for (i, byte) in text.iter().enumerate() {
        if !is_blank(*byte) {
            return &text[i..];
        }
    }
    &text[text.len()..]
}

/// The first byte and what stands after it.
pub(crate) fn first_byte(text: &[u8]) -> Option<(u8, &[u8])>
    ensures { MatchOption result (text.now ≡ []) (λ found. text.now ≡ found.0 ∷ found.1.now) }
{
    match text {
        [] => None,
        [first, others @ ..] => Some((*first, others)),
    }
}

/// The first word, and what stands after it, where there is a word.
pub(crate) fn first_word(text: &[u8]) -> Option<(&[u8], &[u8])>
    ensures { MatchOption result (words_of text.now ≡ [])
        (λ found. words_of text.now ≡ found.0.now ∷ words_of found.1.now) }
{
    let text = after_blanks(text);
    if text.is_empty() {
        return None;
    }
    for (i, byte) in text.iter().enumerate() {
        if is_blank(*byte) {
            return Some(text.split_at(i));
        }
    }
    Some((text, &[]))
}

/// Whether the word stands for a hand that is not known.
pub(crate) fn is_unknown(word: &[u8]) -> bool
    ensures { result ≡ is_unknown word.now }
{
    matches!(word, [b'-'])
}
