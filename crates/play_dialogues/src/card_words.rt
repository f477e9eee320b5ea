//! A word that names a card.

ghost use Rattle.std.specs.Prelude.{◌≡◌, MatchOption, take};
ghost use Rattle.cards.specs.declared.pack.Card.{Card};
ghost use Rattle.play_dialogues.specs.Words.{NamesCard, letters_of};

use crate::cards_named::card_named;
use crate::lines::{MOST_LETTERS, keep};
use arrayvec::ArrayVec;
use cards::Card;

/// Returns the letters of a word, as many as are kept of a line.
fn letters_of(word: &[u8]) -> ArrayVec<u8, MOST_LETTERS>
    ensures { result.items ≡ take 6 (letters_of word.now) }
{
    let mut letters = ArrayVec::new();
    for byte in word {
        keep(&mut letters, *byte);
    }
    letters
}

/// Returns the card that a word names, by the rules for typed lines: its suit and its rank in either order, in capitals
/// or not, with `10` for the ten too. Takes no memory.
pub fn read_card(word: &[u8]) -> Option<Card>
    ensures { MatchOption result
        ((card : Card) → NamesCard (letters_of word.now) card → ⊥)
        (λ card. NamesCard (letters_of word.now) card) }
{
    card_named(letters_of(word).as_slice())
}
