//! What a token of the desk's channel knows. It exists in contracts alone.

use crate::receipts::Receipt;
use lease_book::{Book, Event};
use std::collections::LinkedList;

/// What the rule sees of a message. No value of it is made.
pub struct SeenMessage {
    /// The events that the book had when the desk was opened.
    pub before: LinkedList<Event>,
    /// The book, with the events since.
    pub book: Book,
    pub makers: LinkedList<usize>,
    pub chairs: usize,
}

/// Whether a token has the message in hand. No value of it is made.
pub enum Custody {
    /// No message was sent yet.
    Before,
    /// It does not.
    Empty,
    /// It has this one, which it keeps for good, or gives back.
    Holds(bool, SeenMessage),
}

/// What a token knows. No value of it is made.
pub struct View {
    /// The number of its chair.
    pub number: Option<usize>,
    /// The receipts of its chair.
    pub receipts: LinkedList<Receipt>,
    /// How many chairs there are, where it is the one that makes them.
    pub made: Option<usize>,
    /// The message with which the desk was opened.
    pub opening: Option<SeenMessage>,
    /// The message that it has in hand.
    pub custody: Custody,
    /// The message that is kept for good, where it was told.
    pub told: Option<SeenMessage>,
}
