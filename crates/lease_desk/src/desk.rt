//! The desk, its boards and its terms.

ghost use Rattle.std.specs.Prelude.{◌≡◌, [], ◌∷◌, if◌then◌else◌, nat_eq};

use crate::ends::DeskEnds;
use lease_book::Book;
use pbn_deals::Board;
use std::snapshot::Snapshot;

/// A book that threads share. All calls at the desk are the events of one history.
#[derive(Drop)]
pub struct Desk {
    pub(crate) ends: DeskEnds,
    /// The boards of the book, by which answers are checked.
    pub(crate) boards: Vec<Board>,
    pub(crate) term: u64,
    pub(crate) tries: u32,
    /// The book as it was when the desk was opened. It has no bytes: contracts alone see it.
    pub(crate) start: Snapshot<Book>,
    /// How many chairs there are.
    pub(crate) chairs: usize,
    /// The book of a desk of no chairs, and else nothing.
    pub(crate) idle: Vec<Book>,
    pub(crate) ghost idle_is: { idle.items ≡ (if nat_eq chairs 0
        then (record {
          terms = record { boards = boards.items; term = term; tries = tries };
          events = start.value.events;
        }) ∷ []
        else []) },
}
