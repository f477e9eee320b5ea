//! What is read of the play of a game.

use arrayvec::ArrayVec;
use cards::{Card, Layout, Seat, Suit, Trump};

/// What the Play section says of one player's card to one trick.
#[derive(Clone, Copy)]
pub enum Slot {
    /// The card.
    Played(Card),
    /// The card isn't known, or none was played (`-`).
    Unknown,
    /// A word that is no card.
    Unread,
}

/// Why a card is not legal. For each card that is not, exactly one of these applies.
#[derive(Clone, Copy)]
pub enum IllegalReason {
    /// No seat holds the card: it was played before, or it is no card of the deal.
    NotHeld,
    /// It is not the turn of the seat that holds the card, which is this one (Law 44B).
    OutOfTurn(Seat),
    /// The player holds a card of the suit led, which is this one, and the card is of another suit (Law 44C).
    HoldsSuit(Suit),
}

/// A card that is not legal.
#[derive(Clone, Copy)]
pub struct IllegalCard {
    /// The trick, counted from 1.
    pub trick: usize,
    /// The seat whose turn it is.
    pub seat: Seat,
    /// The card that the section gives to this seat.
    pub card: Card,
    /// Why the card is not legal.
    pub reason: IllegalReason,
}

/// Why the cards of a play end.
#[derive(Clone, Copy)]
pub enum PlayEnd {
    /// All the cards of the deal were played.
    Whole,
    /// The section has no more cards, as after a claim. It may say so with `*` or `+`.
    Early,
    /// The section doesn't know the next card (`-`).
    Unknown,
    /// The section has an irregularity (`^R` and others).
    Irregular,
    /// The section has a word that is no card in the place of the next card.
    Unread,
    /// The next card is not legal.
    Illegal(IllegalCard),
}

/// The play of a deal by one declarer, as far as it can be followed.
#[derive(Drop)]
pub struct RecordedPlay {
    /// The deal, of 1 to 13 cards a hand.
    pub deal: Layout,
    /// The declarer, whose left-hand opponent leads (Law 41A).
    pub declarer: Seat,
    /// The denomination of the contract.
    pub trump: Trump,
    /// The cards in the order in which they were played. Each of them is legal.
    pub cards: ArrayVec<Card, 52>,
    /// Why no card follows.
    pub end: PlayEnd,
}

/// What a game lacks, so that its play can't be followed. The first that applies is said.
#[derive(Clone, Copy)]
pub enum Lack {
    /// All four players passed.
    PassedOut,
    /// It has no Play tag that names a seat.
    Play,
    /// It has no Deal tag that gives each seat equally many cards, 1 to 13.
    Deal,
    /// It has no Contract tag that names a denomination.
    Contract,
    /// It has no Declarer tag that names a seat.
    Declarer,
}

/// A game of a text.
#[derive(Drop)]
pub struct RecordedGame<'a> {
    /// The value of its first Board tag, or empty.
    pub board: &'a [u8],
    /// The value of its first Contract tag, or empty.
    pub contract: &'a [u8],
    /// Its play, or what the game lacks.
    pub play: Result<RecordedPlay, Lack>,
}
