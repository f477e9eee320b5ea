//! What is said at a turn.

ghost use Rattle.std.specs.Prelude.{◌≡◌, ◌++◌, OnOk, string_bytes};
ghost use Rattle.play_dialogues.specs.Texts.{asks, asks_again, turn_line, refusal_line, closing_text};

use crate::texts::{push_cards, push_hands, push_promise, push_score, push_trick};
use crate::words::Refusal;
use cards::Seat;
use certificate_play::Playing;
use std::alloc::AllocError;

/// Adds whose turn it is, while a card is still to be played.
#[tactic(auto, unfolding(crate::specs::Texts::turn_line))]
pub(crate) fn push_turn(text: &mut String, turn: Option<Seat>) -> Result<(), AllocError>
    ensures { OnOk result (string_bytes text.new ≡ string_bytes text.old ++ turn_line turn) }
{
    match turn {
        None => Ok(()),
        Some(seat) => write!(text, "{seat} to play\n"),
    }
}

/// Asks for a card, while one is still to be played.
pub(crate) fn push_asking(text: &mut String, playing: &Playing<'_>) -> Result<(), AllocError>
    ensures { OnOk result (string_bytes text.new ≡ string_bytes text.old ++ asks playing.now) }
{
    let turn = playing.turn();
    let Some(seat) = turn else {
        return Ok(());
    };
    push_hands(text, playing)?;
    push_trick(text, playing, seat)?;
    push_score(text, playing)?;
    push_turn(text, turn)
}

/// Why nothing is done.
#[tactic(auto, unfolding(crate::specs::Texts::refusal_line))]
fn line_of(refusal: Refusal) -> &'static str
    ensures { result.now ≡ refusal_line refusal }
{
    match refusal {
        Refusal::NoCard => "no card: type one as S3 or 3S, or undo, hands or quit\n",
        Refusal::NotHeld => "the card is not in this hand\n",
        Refusal::MustFollow => "the suit led must be followed\n",
        Refusal::Several => "more than one card may be played\n",
        Refusal::NothingBack => "there is no card to take back\n",
    }
}

/// Adds why nothing is done.
pub(crate) fn push_refusal(text: &mut String, refusal: Refusal) -> Result<(), AllocError>
    ensures { OnOk result (string_bytes text.new ≡ string_bytes text.old ++ refusal_line refusal) }
{
    text.push_str(line_of(refusal))
}

/// Adds what was played, who has won how many tricks, and what was promised.
#[tactic(auto, unfolding(crate::specs::Texts::closing_text))]
pub(crate) fn push_closing(text: &mut String, playing: &Playing<'_>) -> Result<(), AllocError>
    ensures { OnOk result (string_bytes text.new ≡ string_bytes text.old ++ closing_text playing.now) }
{
    text.push_str("played")?;
    push_cards(text, playing.history())?;
    text.push_str("\n")?;
    push_score(text, playing)?;
    push_promise(text, playing)
}
