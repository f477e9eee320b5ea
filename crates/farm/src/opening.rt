//! The opening of a run.

ghost use Rattle.std.specs.Prelude.{◌≡◌, [], IfOk, IfErr, map};
ghost use Rattle.farm.specs.Faults.{IsFaultOf};
ghost use Rattle.farm.specs.Runs.{terms_for};

use crate::faults::FarmFault;
use crate::settings::Settings;
use cards::Layout;
use lease_book::{Book, BookFault};
use pbn_deals::Board;
use std::alloc::{AllocError, Global};

/// Returns the deals of boards, by their numbers.
pub(crate) fn deals_of(alloc: Global, boards: &[Board]) -> Result<Vec<Option<Layout>>, AllocError>
    ensures { IfOk result (λ deals. deals.items ≡ map (λ board. board.deal) boards.now) }
{
    boards.iter().map(|board| board.deal).collect(alloc)
}

/// Makes a new book over the boards, with the settings' term and tries.
pub(crate) fn open_book(
    alloc: Global,
    boards: Vec<Board>,
    settings: Settings,
) -> Result<Book, FarmFault>
    ensures book { IfOk result (λ book. book ≡ record { terms = terms_for boards.items settings; events = [] }) }
    ensures fault { IfErr result (IsFaultOf boards.items) }
{
    match Book::new(alloc, boards, settings.term, settings.tries) {
        Ok(book) => Ok(book),
        Err(BookFault::OutOfMemory) => Err(FarmFault::OutOfMemory),
        Err(BookFault::TooManyBoards) => Err(FarmFault::Book(BookFault::TooManyBoards)),
        Err(BookFault::Tries) => unreachable!(),
    }
}
