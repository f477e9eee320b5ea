//! Why a card is not played, and why certificates don't show the values of cards.

use cards::Card;
use checker::{NodeFault, StepFault};
use play_rules::PlayFault;
use thiserror::Error;

/// Why a card is not played to a trick in progress.
#[derive(Clone, Copy, Debug, PartialEq, Eq, Error)]
pub enum TrickFault {
    /// Three cards were played, so it would be the trick's fourth.
    #[error("a fourth card ends the trick")]
    Whole,
    /// It may not be played.
    #[error("{0}")]
    Play(PlayFault),
}

/// Why a begun node doesn't show that its side wins tricks after some cards.
#[derive(Clone, Copy, Debug, PartialEq, Eq)]
pub enum AfterFault {
    /// Tricks are to be won, and there is no begun node.
    RootMissing,
    /// No tricks are to be won, and there is a begun node.
    RootNeedless,
    /// The graph has another trump.
    RootTrump,
    /// The graph is of the other side.
    RootSide,
    /// The begun node could not be a node of the graph: its need, its tree or the nodes that it names are not.
    RootForm,
    /// Another seat leads in the begun node.
    RootLead,
    /// The begun node needs another number of tricks.
    RootNeed,
    /// The layout does not match the pattern of the begun node.
    RootPattern,
    /// The cards played are no path in the tree of the begun node, or its step doesn't hold after them.
    Begun(StepFault),
    /// The step of a node of the graph doesn't hold.
    Node(NodeFault),
}

/// Why claims don't show the values of the cards that may be played. It names a card.
#[derive(Clone, Copy, Debug, PartialEq)]
pub enum CardFault {
    /// There is no claim for the card.
    ClaimMissing(Card),
    /// The claim has more tricks than a hand has cards.
    TricksTooLarge(Card),
    /// The side of the seat that plays the card is not shown to win its tricks.
    Player(Card, AfterFault),
    /// The other side is not shown to win the rest.
    Others(Card, AfterFault),
}
