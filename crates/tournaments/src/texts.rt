//! The boards of a text, and a book over them.

ghost use Rattle.std.specs.Prelude.{◌≡◌, [], IfOk, IfErr};
ghost use Rattle.lease_book.specs.Books.{AreBoards, AreTries};
ghost use Rattle.tournaments.specs.declared.faults.MakeFault.TheVariants.{OutOfMemory};
ghost use Rattle.tournaments.specs.Texts.{TakesBoards};

use crate::faults::MakeFault;
use lease_book::{Book, BookFault};
use pbn_deals::{Board, PbnFault, boards_are_printable, read_boards};
use std::alloc::Global;

/// Returns the boards of a PBN text, or the reason why there are none.
pub fn take_boards(alloc: Global, text: &[u8]) -> Result<Vec<Board>, MakeFault>
    ensures boards { TakesBoards text.now result }
    ensures few { IfOk result (λ boards. AreBoards boards.items) }
{
    boards_are_printable();
    match read_boards(alloc, text) {
        Ok(boards) => Ok(boards),
        Err(PbnFault::OutOfMemory) => Err(MakeFault::OutOfMemory),
        Err(fault) => Err(MakeFault::Pbn(fault)),
    }
}

/// Makes a book over boards of a text, without a history. Fails only if memory runs out.
pub fn open_book(
    alloc: Global,
    boards: Vec<Board>,
    term: u64,
    tries: u32,
) -> Result<Book, MakeFault>
    requires boards { AreBoards boards.items }
    requires tries { AreTries tries }
    ensures book { IfOk result (λ book. book
        ≡ record { terms = record { boards = boards.items; term = term; tries = tries }; events = [] }) }
    ensures fault { IfErr result (λ fault. fault ≡ OutOfMemory) }
{
    match Book::new(alloc, boards, term, tries) {
        Ok(book) => Ok(book),
        Err(BookFault::OutOfMemory) => Err(MakeFault::OutOfMemory),
        Err(BookFault::TooManyBoards) => unreachable!(),
        Err(BookFault::Tries) => unreachable!(),
    }
}
