//! The reading of a whole source.

ghost use Rattle.std.specs.Prelude.{IfOk, IfErr};
ghost use Rattle.cards.specs.Orders.{SaysSame};
ghost use Rattle.streams.specs.Inputs.{IsReadToEnd, StopsReading};

use crate::reader_sources::PIECE;
use cards::Source;
use std::alloc::Global;
use thiserror::Error;

/// Why a source could not be read to its end.
#[derive(Clone, Copy, Debug, PartialEq, Eq, Error)]
pub enum InputFault {
    /// Memory ran out.
    #[error("out of memory")]
    OutOfMemory,
    /// The device failed.
    #[error("reading failed")]
    Read,
}

/// `==` of two faults says whether they are the same. A law: it does nothing.
pub fn equal_faults_are_one()
    ensures { SaysSame ⟦<InputFault as PartialEq>⟧.eq }
{}

/// Reads the source to its end, and answers all its bytes. What was read before a fault is lost.
pub fn read_all<S: Source>(alloc: Global, source: &mut S) -> Result<Vec<u8>, InputFault>
    ensures all { IfOk result (λ text. IsReadToEnd (S.state source.old) (S.state source.new) text.items) }
    ensures fault { IfErr result (StopsReading (S.state source.old) (S.state source.new)) }
{
    let mut text = Vec::new(alloc);
    let mut buffer = [0u8; PIECE];
    for _turn in 0..u64::MAX {
        let count = match source.read(&mut buffer) {
            Ok(count) => count,
            Err(_) => return Err(InputFault::Read),
        };
        let is_end = count == 0;
        if is_end {
            return Ok(text);
        }
        if let Err(_full) = text.extend_from_slice(&buffer[..count]) {
            return Err(InputFault::OutOfMemory);
        }
    }
    unreachable!()
}
