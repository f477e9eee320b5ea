//! Pieces of evidence, cut a batch at a time.

ghost use Rattle.audits.specs.Batches.{ReadsBatch};

use cards::Source;
use evidence::{Piece, Sections};
use std::alloc::Global;
use streams::InputFault;

/// The most pieces of a batch.
const MOST_PIECES: usize = 256;

/// The first batch is full with 8 MiB: while it is cut, nothing is judged.
pub(crate) const FIRST_FULL: usize = 8_388_608;

/// No batch is full with more than 64 MiB.
const GREATEST_FULL: usize = 67_108_864;

/// Pieces that were cut.
#[derive(Drop)]
pub(crate) struct Batch {
    pub(crate) pieces: Vec<Piece>,
    /// How the evidence ended, if it did.
    pub(crate) ended: Option<Result<(), InputFault>>,
}

/// How many bytes the pieces hold.
pub(crate) fn bytes_of(pieces: &[Piece]) -> usize {
    let mut bytes = 0usize;
    for piece in pieces {
        bytes = bytes.saturating_add(piece.len());
    }
    bytes
}

/// With how many bytes the batch after these pieces is full: twice as many as they hold, and 8 to 64 MiB.
pub(crate) fn full_after(pieces: &[Piece]) -> usize {
    bytes_of(pieces)
        .saturating_mul(2)
        .clamp(FIRST_FULL, GREATEST_FULL)
}

/// Cuts pieces until a batch is full with this number of bytes, or the evidence ends.
pub(crate) fn read_batch<E: Source>(alloc: Global, full: usize, evidence: &mut Sections<E>) -> Batch
    ensures { ReadsBatch evidence.old evidence.new result.pieces.items result.ended }
{
    let mut pieces = Vec::new(alloc);
    let mut bytes = 0usize;
    for _piece in 0..MOST_PIECES {
        if pieces.reserve(1).is_err() {
            let ended = Some(Err(InputFault::OutOfMemory));
            return Batch { pieces, ended };
        }
        match evidence.next_piece(alloc) {
            Ok(Some(piece)) => {
                bytes = bytes.saturating_add(piece.len());
                pieces.push_reserved(piece);
            }
            Ok(None) => {
                return Batch {
                    pieces,
                    ended: Some(Ok(())),
                };
            }
            Err(fault) => {
                return Batch {
                    pieces,
                    ended: Some(Err(fault)),
                };
            }
        }
        if bytes >= full {
            break;
        }
    }
    Batch {
        pieces,
        ended: None,
    }
}
