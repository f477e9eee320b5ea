//! The words of a Play section.

ghost use Rattle.std.specs.Prelude.{◌≡◌, ◌<◌, ◌∷◌, ◌++◌, [], IfOk, IfSome, OnOk, length};
ghost use Rattle.std.specs.List.{filter_map, slice_split};
ghost use Rattle.std.specs.Option.{option_map_or, option_to_list};
ghost use Rattle.pbn_deals.specs.Letters.{is_blank};
ghost use Rattle.recorded_plays.specs.Slots.{word_slot, slots_of, is_irregular};

use crate::letters::{is_blank, rank_of_letter, suit_of_letter};
use crate::plays::Slot;
use crate::words::before_any;
use cards::Card;
use std::alloc::{AllocError, Global};

/// What a word says of one player's card to one trick. Remarks at its end are passed over; a word of remarks alone says
/// nothing.
fn word_slot(word: &[u8]) -> Option<Slot>
    ensures { result ≡ word_slot word.now }
{
    match before_any(b"!?=$", word) {
        [] => None,
        [b'-'] => Some(Slot::Unknown),
        [suit, rank] => match (suit_of_letter(*suit), rank_of_letter(*rank)) {
            (Some(suit), Some(rank)) => Some(Slot::Played(Card { suit, rank })),
            _ => Some(Slot::Unread),
        },
        _ => Some(Slot::Unread),
    }
}

/// The slots of a Play section, column by column and row by row, up to its end sign.
pub(crate) fn slots_of(alloc: Global, text: &[u8]) -> Result<Vec<Slot>, AllocError>
    ensures { IfOk result (λ slots. slots.items ≡ slots_of text.now) }
{
    let mut slots = words_slots(alloc, before_any(b"*+^", text))?;
    if is_irregular(text) {
        slots.pop();
    }
    Ok(slots)
}

/// What stands before the first blank and after it, if there is one.
fn cut_word(text: &[u8]) -> (&[u8], Option<&[u8]>)
    ensures split { slice_split is_blank text.now
        ≡ result.0.now ∷ option_map_or (λ rest. slice_split is_blank rest.now) result.1 [] }
    ensures shorter { IfSome result.1 (λ rest. length rest.now < length text.now) }
{
    for (i, byte) in text.iter().enumerate() {
        if is_blank(*byte) {
            return (&text[..i], Some(&text[i + 1..]));
        }
    }
    (text, None)
}

/// Adds the slot of a word.
fn push_word(slots: &mut Vec<Slot>, word: &[u8]) -> Result<(), AllocError>
    ensures { OnOk result (slots.new.items ≡ slots.old.items ++ option_to_list (word_slot word.now)) }
{
    if let Some(slot) = word_slot(word) {
        slots.push(slot)?;
    }
    Ok(())
}

/// The slots of the words between blanks.
fn words_slots(alloc: Global, text: &[u8]) -> Result<Vec<Slot>, AllocError>
    ensures { IfOk result (λ slots. slots.items ≡ filter_map word_slot (slice_split is_blank text.now)) }
{
    let mut slots = Vec::new(alloc);
    let mut rest = text;
    loop {
        let (word, after) = cut_word(rest);
        push_word(&mut slots, word)?;
        let Some(next) = after else {
            return Ok(slots);
        };
        rest = next;
    }
}

/// Whether a Play section ends with an irregularity.
pub(crate) fn is_irregular(text: &[u8]) -> bool
    ensures { result ≡ is_irregular text.now }
{
    let front = before_any(b"*+^", text);
    match text.get(front.len()) {
        Some(b'^') => true,
        _ => false,
    }
}
