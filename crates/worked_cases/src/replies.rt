//! How replies of a book are written.

use crate::answers::Answer;
use cards::{Seat, Trump};
use lease_book::{Book, Entry, Reply};

/// Says an entry: its board, declarer and denomination.
fn say_entry(entry: Entry, out: &mut Answer) {
    out.say(" ");
    out.show(entry.board);
    out.say(" ");
    out.show(entry.declarer);
    out.say(" ");
    out.show(entry.trump);
}

/// Says what was leased, and until when.
fn say_lease(entry: Entry, deadline: u64, out: &mut Answer) {
    say_entry(entry, out);
    out.say(" until ");
    out.show(deadline);
}

/// Says a reply, and ends it.
pub fn say_reply(reply: Reply, out: &mut Answer) {
    out.say(" ");
    out.show(reply);
    if let Reply::Given {
        entry,
        deadline,
        ..
    } = reply
    {
        say_lease(entry, deadline, out);
    }
    out.say(";");
}

/// Says the number of an entry, if it is published.
fn say_number(book: &Book, entry: Entry, out: &mut Answer) {
    if let Some(k) = book.published(entry) {
        say_entry(entry, out);
        out.say(" is ");
        out.show(k);
    }
}

/// Says the numbers that are published for the first board.
pub fn say_published(book: &Book, out: &mut Answer) {
    out.say(" published:");
    for declarer in Seat::ALL {
        for trump in Trump::ALL {
            let entry = Entry {
                board: 0,
                declarer,
                trump,
            };
            say_number(book, entry, out);
        }
    }
}

/// Says the replies in the history of a book, and what it has published.
pub fn say_history(book: &Book, out: &mut Answer) {
    out.say("\n= history:");
    for event in book.history() {
        say_reply(event.reply, out);
    }
    say_published(book, out);
}
