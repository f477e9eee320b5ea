//! Why a card cannot be played.

use thiserror::Error;

/// Why a card cannot be played. `Over` comes before the others, and `NotHeld` before `MustFollow`.
#[derive(Clone, Copy, Debug, PartialEq, Eq, Error)]
pub enum PlayFault {
    /// The seat to play does not hold the card, or holds it no longer.
    #[error("the card is not in the hand of the player")]
    NotHeld,
    /// The player holds a card of the suit led, and this card is of another suit (Law 44C).
    #[error("the suit led must be followed")]
    MustFollow,
    /// All the cards were played.
    #[error("the play is over")]
    Over,
}
