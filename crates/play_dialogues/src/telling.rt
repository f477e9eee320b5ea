//! What is written at a turn.

ghost use Rattle.std.specs.Prelude.{◌≡◌, ◌++◌, List, IfOk, string_bytes};
ghost use Rattle.cards.specs.declared.pack.Card.{Card};
ghost use Rattle.play_dialogues.specs.Texts.{left_in, played_text, asks, asks_again, refusal_line, closing_text};
ghost use Rattle.play_dialogues.specs.Trails.{ArePlayedSince};
ghost use Rattle.play_dialogues.specs.Dialogues.{IsOpening};

use crate::showing::{push_asking, push_closing, push_refusal, push_turn};
use crate::texts::{push_all_played, push_promise};
use crate::words::Refusal;
use cards::OutOfMemory;
use certificate_play::Playing;
use std::alloc::Global;

/// A card is asked for.
pub(crate) fn told_asking(alloc: Global, playing: &Playing<'_>) -> Result<String, OutOfMemory>
    ensures { IfOk result (λ text. string_bytes text ≡ asks playing.now) }
{
    let mut text = String::new(alloc);
    push_asking(&mut text, playing)?;
    Ok(text)
}

/// Nothing is done, and a card is asked for again.
pub(crate) fn told_refusal(
    alloc: Global,
    playing: &Playing<'_>,
    refusal: Refusal,
) -> Result<String, OutOfMemory>
    ensures { IfOk result (λ text. string_bytes text ≡ refusal_line refusal ++ asks_again playing.now) }
{
    let mut text = String::new(alloc);
    push_refusal(&mut text, refusal)?;
    push_turn(&mut text, playing.turn())?;
    Ok(text)
}

/// The cards that were played since, and a card is asked for.
pub(crate) fn told_played(
    alloc: Global,
    before: &Playing<'_>,
    now: &Playing<'_>,
) -> Result<String, OutOfMemory>
    requires { (cards : List Card) × ArePlayedSince before.now now.now cards }
    ensures { IfOk result (λ text. (cards : List Card) × ArePlayedSince before.now now.now cards
        × (string_bytes text ≡ played_text (left_in before.now) cards ++ asks now.now)) }
{
    let mut text = String::new(alloc);
    let cards = &now.history()[before.history().len()..];
    push_all_played(&mut text, before, cards)?;
    push_asking(&mut text, now)?;
    Ok(text)
}

/// The promise, the cards that were played before the first line, and a card is asked for.
pub(crate) fn told_opening(
    alloc: Global,
    before: &Playing<'_>,
    now: &Playing<'_>,
) -> Result<String, OutOfMemory>
    requires { (cards : List Card) × ArePlayedSince before.now now.now cards }
    ensures { IfOk result (λ text. IsOpening before.now now.now (string_bytes text)) }
{
    let mut text = String::new(alloc);
    push_promise(&mut text, before)?;
    let played = told_played(alloc, before, now)?;
    text.push_str(&played)?;
    Ok(text)
}

/// What was played, who has won how many tricks, and what was promised.
pub(crate) fn told_closing(alloc: Global, playing: &Playing<'_>) -> Result<String, OutOfMemory>
    ensures { IfOk result (λ text. string_bytes text ≡ closing_text playing.now) }
{
    let mut text = String::new(alloc);
    push_closing(&mut text, playing)?;
    Ok(text)
}
