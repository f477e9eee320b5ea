//! Copies of boards.

ghost use Rattle.std.specs.Prelude.{◌≡◌, IfOk};

use pbn_deals::{Board, BoardName};
use std::alloc::{AllocError, Global};

/// A board like this one.
fn copy_of(alloc: Global, board: &Board) -> Result<Board, AllocError>
    ensures { IfOk result (λ copy. copy ≡ board.now) }
{
    let mut name = Vec::new(alloc);
    name.extend_from_slice(board.name.as_bytes())?;
    Ok(Board {
        name: BoardName::new(name),
        deal: board.deal,
    })
}

/// Boards like these.
pub(crate) fn copies_of(alloc: Global, boards: &[Board]) -> Result<Vec<Board>, AllocError>
    ensures { IfOk result (λ copies. copies.items ≡ boards.now) }
{
    let mut copies = Vec::new(alloc);
    for board in boards {
        copies.push(copy_of(alloc, board)?)?;
    }
    Ok(copies)
}
