//! Why four suits, or four words, are no pattern, or no rest.

use thiserror::Error;

/// Why four suits, or four words, are no pattern, or no rest: the first that applies.
#[derive(Clone, Copy, Debug, PartialEq, Eq, Error)]
pub enum PatternFault {
    /// A suit has over 13 cards.
    #[error("a suit has over 13 cards")]
    Lengths = 1,
    /// The hands are of unequal size, or not of 1 to 13 cards in a pattern, of 0 to 12 in a rest.
    #[error("the hands are not of one size in the bounds")]
    Cards = 2,
    /// A seat is an owner in a suit more often than it has cards there.
    #[error("a seat owns more cards of a suit than it has")]
    Owners = 3,
    /// A word has a bit that must be 0, or over 13 owners. It comes before the other three.
    #[error("a word has a bit that must be 0, or over 13 owners")]
    Words = 4,
}
