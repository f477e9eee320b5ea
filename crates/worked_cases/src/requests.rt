//! Cases on whole lists of requests to a book.

use crate::answers::Answer;
use crate::replies::{say_history, say_published, say_reply};
use crate::texts::{copy_of, field, number, seat, trump, word};
use cards::{Layout, OutOfMemory};
use checker::{Texts, judge};
use lease_book::{Book, Entry, Reply};
use pbn_deals::{Board, BoardName, read_layout};
use plain_runs::{GraphText, Request, replay};
use std::alloc::Global;

/// North's ace takes the trick that East leads to.
const ACE: &[u8] = b"DDC 1
trump NT
side NS
nodes 1
E 1 1.1.1.1/N 0.0.0.0/ 0.0.0.0/ 0.0.0.0/ (SxSx(SxSa{}))
";

/// A side that needs nothing.
const NOTHING: &[u8] = b"DDC 1
trump NT
side EW
nodes 0
";

/// The boards with the layouts of a case, of which `none` is none.
fn boards_of(alloc: Global, case: &str, out: &mut Answer) -> Vec<Board> {
    let mut boards = Vec::new(alloc);
    for layout in field(case, 3).split(';') {
        let board = Board {
            name: BoardName::new(Vec::new(alloc)),
            deal: read_layout(layout.as_bytes()).ok(),
        };
        out.needs(boards.push(board));
    }
    boards
}

/// The entry that a hand-in is for.
fn entry_of(request: &str) -> Entry {
    Entry {
        board: number(word(request, 2)) as usize,
        declarer: seat(word(request, 3)),
        trump: trump(word(request, 4)),
    }
}

/// A hand-in of one trick under a lease: a good one brings what shows it, a bad one a text without a node.
fn hand_in(alloc: Global, lease: u64, request: &str, out: &mut Answer) -> Request {
    let shown = if word(request, 0) == "good" {
        ACE
    } else {
        NOTHING
    };
    Request::HandIn {
        lease,
        entry: entry_of(request),
        k: 1,
        declarer: GraphText::new(copy_of(alloc, shown, out)),
        defenders: GraphText::new(copy_of(alloc, NOTHING, out)),
    }
}

/// The request.
fn request_of(alloc: Global, request: &str, out: &mut Answer) -> Request {
    let number = number(word(request, 1));
    match word(request, 0) {
        "lease" => Request::Lease { now: number },
        "expire" => Request::Expire { now: number },
        "give-up" => Request::GiveUp { lease: number },
        _ => hand_in(alloc, number, request, out),
    }
}

/// The requests of a case.
fn requests_of(alloc: Global, case: &str, out: &mut Answer) -> Vec<Request> {
    let mut requests = Vec::new(alloc);
    for request in field(case, 4).split(';') {
        let request = request.strip_prefix(" ").unwrap_or(request);
        let asked = request_of(alloc, request, out);
        out.needs(requests.push(asked));
    }
    requests
}

/// The layout of a board of a book, if there is one.
fn deal_of(book: &Book, board: usize) -> Option<Layout> {
    match book.boards().get(board) {
        Some(board) => board.deal,
        None => None,
    }
}

/// The reply of a book to texts that are handed in under a lease.
fn settled(
    alloc: Global,
    book: &mut Book,
    lease: u64,
    entry: Entry,
    k: u8,
    texts: Texts<'_>,
) -> Result<Reply, OutOfMemory> {
    let deal = deal_of(book, entry.board);
    let (declarer, trump) = (entry.declarer, entry.trump);
    match judge(alloc, deal.as_ref(), declarer, trump, k, texts) {
        Ok(verdict) => book.settle(lease, entry, verdict),
        Err(_) => Err(OutOfMemory),
    }
}

/// The reply of a book's own call.
fn reply_of(alloc: Global, book: &mut Book, request: &Request) -> Result<Reply, OutOfMemory> {
    match request {
        Request::Lease { now } => book.lease(*now),
        Request::Expire { now } => book.expire(*now),
        Request::GiveUp { lease } => book.give_up(*lease),
        Request::HandIn {
            lease,
            entry,
            k,
            declarer,
            defenders,
        } => {
            let texts = Texts {
                declarers: declarer.as_bytes(),
                defenders: defenders.as_bytes(),
            };
            settled(alloc, book, *lease, *entry, *k, texts)
        }
    }
}

/// Has a book answer each request by a call of its own, and says the replies, and then those in its history.
fn say_calls(alloc: Global, book: &mut Book, requests: &[Request], out: &mut Answer) {
    for request in requests {
        match reply_of(alloc, book, request) {
            Ok(reply) => say_reply(reply, out),
            Err(_) => out.say(" out of memory;"),
        }
    }
    say_history(book, out);
}

/// Says the replies of a book to the whole list.
fn say_replies(book: &Book, replies: &[Reply], out: &mut Answer) {
    out.say("\n= replay:");
    for reply in replies {
        say_reply(*reply, out);
    }
    say_published(book, out);
}

/// The term, and how often an entry is tried.
fn terms_of(case: &str) -> (u64, u32) {
    (
        number(field(case, 1)),
        (number(field(case, 2)) % 1001) as u32,
    )
}

/// The replies to a list of requests by the calls of a book, and in its history.
fn answer_by_calls(alloc: Global, case: &str, requests: &[Request], out: &mut Answer) {
    let (term, tries) = terms_of(case);
    let boards = boards_of(alloc, case, out);
    out.say("calls:");
    match Book::new(alloc, boards, term, tries) {
        Ok(mut book) => say_calls(alloc, &mut book, requests, out),
        Err(_) => out.say("no book"),
    }
}

/// The replies to a list of requests where it is replayed.
fn answer_by_replay(alloc: Global, case: &str, requests: &[Request], out: &mut Answer) {
    let (term, tries) = terms_of(case);
    let boards = boards_of(alloc, case, out);
    match replay(alloc, boards, term, tries, requests) {
        Ok((book, replies)) => say_replies(&book, replies.as_slice(), out),
        Err(_) => out.say("no book"),
    }
}

/// The replies to a list of requests: by the calls of a book, in its history, and where the list is replayed.
pub fn answer_requests(alloc: Global, case: &str, out: &mut Answer) {
    let requests = requests_of(alloc, case, out);
    answer_by_calls(alloc, case, requests.as_slice(), out);
    answer_by_replay(alloc, case, requests.as_slice(), out);
}
