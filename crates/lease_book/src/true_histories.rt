//! What holds of the history of every book.

ghost use Rattle.lease_book.specs.TrueHistories.{IsTrueHistory};

use crate::book::Book;
use crate::entries::Entry;
use cards::{Seat, Trump};

/// The history of a book is legal, each number that it publishes is the double-dummy value of its deal, and is
/// published once. It does nothing.
pub fn is_true_history(book: &Book)
    ensures { IsTrueHistory book.now.terms book.now.events }
{
    let _events = book.history();
    let _number = book.published(Entry {
        board: 0,
        declarer: Seat::North,
        trump: Trump::Nt,
    });
}
