//! What lies in the desk's channel.

use lease_book::Book;

/// The book, and who made its events since the desk was opened.
#[derive(Drop)]
pub struct Message {
    pub book: Book,
    /// The number of the chair that made each event since the desk was opened.
    pub makers: Vec<usize>,
    /// How many chairs the desk has.
    pub chairs: usize,
}
