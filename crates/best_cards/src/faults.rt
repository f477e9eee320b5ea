//! Why claims don't show that cards lead to the most tricks.

use card_values::AfterFault;
use cards::Card;

/// Why claims don't show that cards lead to the most tricks.
#[derive(Clone, Copy, Debug, PartialEq)]
pub enum BestFault {
    /// No card that may be played has a claim.
    NoClaim,
    /// The first claim has more tricks than a hand has cards.
    TricksTooLarge,
    /// The side of the seat to play is not shown to win the first claim's tricks after this card.
    Player(Card, AfterFault),
    /// The other side is not shown to win the others of them.
    Others(AfterFault),
}
