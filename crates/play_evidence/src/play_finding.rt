//! The lines of a play, as they are looked for.

ghost use Rattle.std.specs.Prelude.{◌≡◌, ◌≢◌, ◌≤◌, ℕ, length, List, MatchOption};
ghost use Rattle.cards.specs.declared.pack.Card.{Card};
ghost use Rattle.cards.specs.Deal.{IsLayout};
ghost use Rattle.play_evidence.specs.Readings.{AddsCards, Finds, FindsPlay};
ghost use Rattle.play_evidence.specs.SectionTexts.{played_line, titled_deal};

use arrayvec::ArrayVec;
use card_evidence::{read_card, read_leader, read_line, read_trump};
use cards::{Card, Layout, Seat, Trump};
use certificate_graph::after_prefix;
use pbn_deals::read_layout;

/// A play, as a section has it.
#[derive(Drop)]
pub(crate) struct FoundPlay {
    pub(crate) layout: Layout,
    pub(crate) leader: Seat,
    pub(crate) trump: Trump,
    pub(crate) cards: ArrayVec<Card, 52>,
}

/// Returns the layout after the title, and the rest of the text.
fn find_deal(text: &[u8]) -> Option<(Layout, &[u8])>
    ensures { Finds IsLayout titled_deal text.now result }
{
    let Some((word, rest)) = read_line(text, b"DPP 1\ndeal ") else {
        return None;
    };
    match read_layout(word) {
        Ok(layout) => Some((layout, rest)),
        Err(_) => None,
    }
}

/// Adds the cards of a text. Returns whether it is a text of cards, and there is room for them.
fn push_cards(text: &[u8], cards: &mut ArrayVec<Card, 52>) -> bool
    ensures { AddsCards result text.now cards.old.items cards.new.items }
{
    if text.is_empty() {
        return true;
    }
    if cards.is_full() {
        return false;
    }
    let Some(rest) = after_prefix(text, b" ") else {
        return false;
    };
    let Some((card, rest)) = read_card(rest) else {
        return false;
    };
    cards.push(card);
    push_cards(rest, cards)
}

/// Returns the cards played, and the rest of the text.
fn find_played(text: &[u8]) -> Option<(ArrayVec<Card, 52>, &[u8])>
    ensures { MatchOption result
        ((cards : List Card) (rest : List ℕ) → length cards ≤ 52 → text.now ≢ played_line cards rest)
        (λ found. (cards : List Card) (rest : List ℕ) → length cards ≤ 52 → text.now ≡ played_line cards rest
        → (found.0.items ≡ cards) × (found.1.now ≡ rest)) }
{
    let Some((word, rest)) = read_line(text, b"played") else {
        return None;
    };
    let mut cards = ArrayVec::new();
    if push_cards(word, &mut cards) {
        Some((cards, rest))
    } else {
        None
    }
}

/// Returns the play of the section whose text it is, and the rest of the text.
pub(crate) fn find_play(text: &[u8]) -> Option<(FoundPlay, &[u8])>
    ensures { FindsPlay text.now result }
{
    let Some(deal) = find_deal(text) else {
        return None;
    };
    let Some((trump, rest)) = read_trump(deal.1) else {
        return None;
    };
    let Some((leader, rest)) = read_leader(rest) else {
        return None;
    };
    let Some((cards, rest)) = find_played(rest) else {
        return None;
    };
    let play = FoundPlay {
        layout: deal.0,
        leader,
        trump,
        cards,
    };
    Some((play, rest))
}
