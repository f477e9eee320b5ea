//! Whole lists of requests.

ghost use Rattle.std.specs.Prelude.{◌≡◌, IfOk, IfErr};
ghost use Rattle.lease_book.specs.Histories.{deal_of};
ghost use Rattle.lease_book.specs.Proofs.{evidence_of};
ghost use Rattle.plain_runs.specs.Requests.{IsJudged, IsAnswerTo};
ghost use Rattle.lease_book.specs.Books.{IsRefused};
ghost use Rattle.plain_runs.specs.Replays.{IsReplayed};

use crate::requests::{GraphText, Request};
use cards::OutOfMemory;
use checker::{Texts, Verdict, judge};
use lease_book::{Book, BookFault, Entry, Reply, deal_on};
use pbn_deals::Board;
use std::alloc::Global;

/// The verdict on texts that are handed in for an entry, on the deal of its board.
fn verdict_on(
    alloc: Global,
    boards: &[Board],
    entry: Entry,
    k: u8,
    declarer: &GraphText,
    defenders: &GraphText,
) -> Result<Verdict, OutOfMemory>
    ensures { IfOk result (λ verdict. IsJudged (deal_of boards.now entry.board) entry k declarer.now defenders.now
        (evidence_of verdict)) }
{
    judge(
        alloc,
        deal_on(boards, entry.board),
        entry.declarer,
        entry.trump,
        k,
        Texts {
            declarers: declarer.as_bytes(),
            defenders: defenders.as_bytes(),
        },
    )
}

/// Answers a request.
fn answer(alloc: Global, book: &mut Book, request: &Request) -> Result<Reply, OutOfMemory>
    ensures { IfOk result (IsAnswerTo book.old book.new request.now) }
{
    match request {
        Request::Lease { now } => book.lease(*now),
        Request::Expire { now } => book.expire(*now),
        Request::GiveUp { lease } => book.give_up(*lease),
        Request::HandIn {
            lease,
            entry,
            k,
            declarer,
            defenders,
        } => {
            let verdict = verdict_on(alloc, book.boards(), *entry, *k, declarer, defenders)?;
            book.settle(*lease, *entry, verdict)
        }
    }
}

/// Makes a book over these boards and has it answer all requests, in their order. Hands out the book and the replies.
pub fn replay(
    alloc: Global,
    boards: Vec<Board>,
    term: u64,
    tries: u32,
    requests: &[Request],
) -> Result<(Book, Vec<Reply>), BookFault>
    ensures ok { IfOk result (λ made. IsReplayed
        (record { boards = boards.items; term = term; tries = tries }) requests.now made.0 made.1.items) }
    ensures err { IfErr result (IsRefused (record { boards = boards.items; term = term; tries = tries })) }
{
    let mut book = Book::new(alloc, boards, term, tries)?;
    let mut replies = Vec::new(alloc);
    for request in requests {
        let Ok(reply) = answer(alloc, &mut book, request) else {
            return Err(BookFault::OutOfMemory);
        };
        if replies.push(reply).is_err() {
            return Err(BookFault::OutOfMemory);
        }
    }
    Ok((book, replies))
}
