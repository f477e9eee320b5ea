//! What a line says.

ghost use Rattle.play_dialogues.specs.Words.{Says};

use crate::cards_named::card_named;
use cards::Card;

/// What a line says.
#[derive(Clone, Copy, Debug)]
pub enum Typed {
    /// A card.
    Card(Card),
    /// Nothing: the line is empty.
    Empty,
    /// The last own card is to be taken back.
    Undo,
    /// The hands are to be shown again.
    Hands,
    /// The dialogue is to end.
    Quit,
    /// No card and no word.
    Unknown,
}

/// Why nothing is done for a line.
#[derive(Clone, Copy, Debug)]
pub enum Refusal {
    /// It says no card and no word.
    NoCard,
    /// The seat to play does not hold the card.
    NotHeld,
    /// The suit led must be followed (Law 44C).
    MustFollow,
    /// The line is empty, and more than one card may be played.
    Several,
    /// No own card was played that could be taken back.
    NothingBack,
}

/// What a line does.
#[derive(Clone, Copy, Debug)]
pub enum Step {
    /// A card is played, and the side replies.
    Played,
    /// Nothing.
    Refused(Refusal),
    /// The hands are shown, after a card that was taken back too.
    Shown,
}

/// What these letters, in capitals and without blanks, say.
pub(crate) fn typed_of(letters: &[u8]) -> Typed
    ensures { Says letters.now result }
{
    match letters {
        [] => Typed::Empty,
        [b'U', b'N', b'D', b'O'] => Typed::Undo,
        [b'H', b'A', b'N', b'D', b'S'] => Typed::Hands,
        [b'Q', b'U', b'I', b'T'] => Typed::Quit,
        _ => match card_named(letters) {
            Some(card) => Typed::Card(card),
            None => Typed::Unknown,
        },
    }
}
