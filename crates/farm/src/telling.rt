//! The calls of the gate for numbers that a book has published before a farm works on it.

use cards::{Seat, Trump};
use lease_book::{Book, Entry, Gate, Reply};

/// Calls the gate for each number that is published for a board.
fn tell_board<G: Gate>(book: &Book, board: usize, gate: &G) {
    for declarer in Seat::ALL {
        for trump in Trump::ALL {
            let entry = Entry {
                board,
                declarer,
                trump,
            };
            if let Some(tricks) = book.published(entry) {
                gate.after_check(entry, Reply::Published(tricks));
            }
        }
    }
}

/// Calls the gate for each number that a book has published, once for all boards that share a deal. `firsts` has for
/// each board the number of the first board with its deal.
pub(crate) fn tell_published<G: Gate>(book: &Book, firsts: &[usize], gate: &G) {
    for (board, first) in firsts.iter().enumerate() {
        if *first == board {
            tell_board(book, board, gate);
        }
    }
}
