//! A trick in progress, as it is read.

ghost use Rattle.std.specs.Prelude.{◌≡◌, ◌≢◌, ◌≤◌, ◌++◌, ℕ, length, List, IfOk, MatchOption, ⊤};
ghost use Rattle.cards.specs.declared.pack.Card.{Card};
ghost use Rattle.cards.specs.Deal.{IsLayout};
ghost use Rattle.pbn_deals.specs.DealText.{deal_text};
ghost use Rattle.certificate_graph.specs.Texts.{trump_text};
ghost use Rattle.play_rules.specs.Position.{Position};
ghost use Rattle.card_values.specs.Tricks.{IsInProgress};
ghost use Rattle.card_evidence.specs.SectionTexts.{leader_line, played_line, trick_text};
ghost use Rattle.card_evidence.specs.Readings.{ReadsForm, ReadsWord};

use crate::card_reading::played_of;
use crate::lines::{is_same, read_line};
use arrayvec::ArrayVec;
use card_values::TrickInProgress;
use cards::{Card, Layout, OutOfMemory, Seat, Trump};
use evidence::{VecSink, seat_of, trump_of};
use pbn_deals::{read_layout, write_layout};
use std::alloc::Global;

/// Returns the text of a layout.
fn layout_bytes(alloc: Global, layout: &Layout) -> Result<Vec<u8>, OutOfMemory>
    ensures { IfOk result (λ bytes. bytes.items ≡ deal_text layout.now) }
{
    let mut sink = VecSink::new(alloc);
    match write_layout(&mut sink, layout) {
        Ok(()) => Ok(sink.into_bytes()),
        Err(_) => Err(OutOfMemory),
    }
}

/// Returns the layout that the word writes in its one spelling. A layout may be read in several spellings, so the word
/// is compared with the one that is written.
fn layout_of(alloc: Global, word: &[u8]) -> Result<Option<Layout>, OutOfMemory>
    ensures { IfOk result (ReadsWord IsLayout deal_text word.now) }
{
    let Ok(layout) = read_layout(word) else {
        return Ok(None);
    };
    let bytes = layout_bytes(alloc, &layout)?;
    if !is_same(word, bytes.as_slice()) {
        return Ok(None);
    }
    layout.invariant();
    Ok(Some(layout))
}

/// Returns the trump whose line is at the beginning of the text, and the rest of the text.
pub fn read_trump(text: &[u8]) -> Option<(Trump, &[u8])>
    ensures { ReadsForm (λ _. ⊤) trump_text text.now result }
{
    let Some((word, rest)) = read_line(text, b"trump ") else {
        return None;
    };
    let Some(trump) = trump_of(word) else {
        return None;
    };
    Some((trump, rest))
}

/// Returns the leader whose line is at the beginning of the text, and the rest of the text.
pub fn read_leader(text: &[u8]) -> Option<(Seat, &[u8])>
    ensures { ReadsForm (λ _. ⊤) leader_line text.now result }
{
    let Some((word, rest)) = read_line(text, b"leader ") else {
        return None;
    };
    let Some(leader) = seat_of(word) else {
        return None;
    };
    Some((leader, rest))
}

/// Returns the cards whose line is at the beginning of the text, and the rest of the text.
fn read_played(text: &[u8]) -> Option<(ArrayVec<Card, 3>, &[u8])>
    ensures { MatchOption result
        ((cards : List Card) (rest : List ℕ) → length cards ≤ 3 → text.now ≢ played_line cards rest)
        (λ found. text.now ≡ played_line found.0.items found.1.now) }
{
    let Some((word, rest)) = read_line(text, b"played ") else {
        return None;
    };
    let Some(cards) = played_of(word) else {
        return None;
    };
    Some((cards, rest))
}

/// Returns the trick in progress to which these cards were played, if they are legal and at most three.
fn trick_of(layout: Layout, leader: Seat, trump: Trump, cards: &[Card]) -> Option<TrickInProgress>
    ensures { let position : Position = record {
      opening = record { deal = layout; leader = leader; trump = trump };
      history = cards.now;
    } in MatchOption result (IsInProgress position → ⊥) (λ trick. trick ≡ position) }
{
    let mut trick = TrickInProgress::new(layout, leader, trump);
    for card in cards {
        if let Err(_) = trick.play(*card) {
            return None;
        }
    }
    Some(trick)
}

/// Returns the trick in progress whose lines are at the beginning of the text, and the rest of the text.
pub(crate) fn read_trick(
    alloc: Global,
    text: &[u8],
) -> Result<Option<(TrickInProgress, &[u8])>, OutOfMemory>
    ensures { IfOk result (ReadsForm IsInProgress trick_text text.now) }
{
    let Some((word, rest)) = read_line(text, b"DDP 1\ndeal ") else {
        return Ok(None);
    };
    let Some(layout) = layout_of(alloc, word)? else {
        return Ok(None);
    };
    let Some((trump, rest)) = read_trump(rest) else {
        return Ok(None);
    };
    let Some((leader, rest)) = read_leader(rest) else {
        return Ok(None);
    };
    let Some((cards, rest)) = read_played(rest) else {
        return Ok(None);
    };
    match trick_of(layout, leader, trump, cards.as_slice()) {
        Some(trick) => Ok(Some((trick, rest))),
        None => Ok(None),
    }
}
