//! Cards, as they are read.

ghost use Rattle.std.specs.Prelude.{◌≡◌, ◌≢◌, ◌≤◌, ◌++◌, length, List, MatchOption, ⊤};
ghost use Rattle.cards.specs.declared.pack.Card.{Card};
ghost use Rattle.cards.specs.CardTexts.{card_text};
ghost use Rattle.card_evidence.specs.SectionTexts.{played_word};
ghost use Rattle.card_evidence.specs.Readings.{ReadsForm, AddsOrLacksCards};

use arrayvec::ArrayVec;
use cards::{Card, rank_of, suit_of};
use certificate_graph::after_prefix;

/// Returns the card at the beginning of the text, and the rest of the text.
pub fn read_card(text: &[u8]) -> Option<(Card, &[u8])>
    ensures { ReadsForm (λ _. ⊤) (λ card rest. card_text card ++ rest) text.now result }
{
    let [suit, rank, rest @ ..] = text else {
        return None;
    };
    let Some(suit) = suit_of(*suit) else {
        return None;
    };
    let Some(rank) = rank_of(*rank) else {
        return None;
    };
    Some((Card { suit, rank }, rest))
}

/// Adds the cards of the text. Returns whether it is a text of cards, and there is room for them.
fn push_cards(text: &[u8], cards: &mut ArrayVec<Card, 3>) -> bool
    ensures { AddsOrLacksCards result text.now cards.old.items cards.new.items }
{
    if text.is_empty() {
        return true;
    }
    if cards.is_full() {
        return false;
    }
    let Some(rest) = after_prefix(text, b" ") else {
        return false;
    };
    let Some((card, rest)) = read_card(rest) else {
        return false;
    };
    cards.push(card);
    push_cards(rest, cards)
}

/// Returns the cards that the word says were played, after their number.
pub(crate) fn played_of(word: &[u8]) -> Option<ArrayVec<Card, 3>>
    ensures { MatchOption result ((cards : List Card) → length cards ≤ 3 → word.now ≢ played_word cards)
        (λ cards. word.now ≡ played_word cards.items) }
{
    let Some((digit, rest)) = word.split_first() else {
        return None;
    };
    let mut cards = ArrayVec::new();
    if push_cards(rest, &mut cards) && *digit == b'0' + cards.len() as u8 {
        Some(cards)
    } else {
        None
    }
}
