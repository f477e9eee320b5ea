//! The tables of a whole list of requests.

ghost use Rattle.std.specs.Prelude.{◌≡◌, IfOk, IfErr};
ghost use Rattle.lease_book.specs.Books.{AreBoards, AreTries};
ghost use Rattle.tournaments.specs.declared.faults.MakeFault.TheVariants.{OutOfMemory};
ghost use Rattle.plain_runs.specs.Replaying.{ReplaysTables};
ghost use Rattle.plain_runs.specs.Replays.{IsReplayedBook};

use crate::book_tables::write_tables;
use crate::replays::replay;
use crate::requests::Request;
use cards::Sink;
use lease_book::{Book, BookFault, is_true_history};
use pbn_deals::Board;
use std::alloc::Global;
use tables::Report;
use tournaments::{MakeFault, take_boards};

/// Makes a book and has it answer a whole list of requests. Fails only if memory runs out.
fn replay_book(
    alloc: Global,
    boards: Vec<Board>,
    term: u64,
    tries: u32,
    requests: &[Request],
) -> Result<Book, MakeFault>
    requires boards { AreBoards boards.items }
    requires tries { AreTries tries }
    ensures book { IfOk result (IsReplayedBook
        (record { boards = boards.items; term = term; tries = tries }) requests.now) }
    ensures fault { IfErr result (λ fault. fault ≡ OutOfMemory) }
{
    match replay(alloc, boards, term, tries, requests) {
        Ok((book, _)) => Ok(book),
        Err(BookFault::OutOfMemory) => Err(MakeFault::OutOfMemory),
        Err(BookFault::TooManyBoards) => unreachable!(),
        Err(BookFault::Tries) => unreachable!(),
    }
}

/// Has a book over the boards of a PBN text answer a whole list of requests, in their order, and writes the tables.
///
/// The requests may be any, and leases, expiries, repeats and damaged or foreign certificates may come in any order. A
/// number that is written is the number of the first good hand-in for its entry, and the double-dummy value of its
/// deal. If there is a fault other than a failed sink, nothing was written.
pub fn replay_tables<O: Sink>(
    alloc: Global,
    text: &[u8],
    term: u64,
    tries: u32,
    requests: &[Request],
    output: &mut O,
) -> Result<Report, MakeFault>
    requires { AreTries tries }
    ensures { ReplaysTables text.now term tries requests.now (O.state output.old) (O.state output.new) result }
{
    let boards = take_boards(alloc, text)?;
    let book = replay_book(alloc, boards, term, tries, requests)?;
    is_true_history(&book);
    match write_tables(&book, output) {
        Ok(report) => Ok(report),
        Err(_) => Err(MakeFault::Write),
    }
}
