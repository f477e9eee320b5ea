//! Where bytes come from and where they go, with a count of the calls that failed.

ghost use Rattle.cards.specs.Devices.{Writes};

use thiserror::Error;

/// A device failed. No bytes of the call that failed have come or gone.
#[derive(Clone, Copy, Debug, PartialEq, Eq, Error)]
#[error("the device failed")]
pub struct DeviceFault;

/// A source of bytes.
pub trait Source {
    ghost use Rattle.cards.specs.Devices.{Device, Reads};

    /// The bytes that are left, where the source tells them, and how many calls have failed.
    ghost state: { Self → Device };

    /// Reads bytes into the beginning of the buffer, and answers how many. `Ok(0)` for a buffer that is not
    /// empty is the end of the source.
    fn read(&mut self, buffer: &mut [u8]) -> Result<usize, DeviceFault>
        ensures { Reads (state self.old) (state self.new) buffer.old buffer.new result };
}

/// A sink for bytes.
pub trait Sink {
    ghost use Rattle.cards.specs.Devices.{Device, WritesPiece};

    /// The bytes that it has taken, where the sink tells them, and how many calls have failed.
    ghost state: { Self → Device };

    /// Takes bytes from the beginning of the piece, and answers how many: at least 1 of a piece that is not empty.
    fn write(&mut self, piece: &[u8]) -> Result<usize, DeviceFault>
        ensures { WritesPiece (state self.old) (state self.new) piece.now result };
}

/// Writes the whole text, in as many pieces as the sink wants. After a fault a beginning of the text has gone out; a
/// fault comes only while some of it is still to go out.
pub fn write_all<S: Sink>(sink: &mut S, text: &[u8]) -> Result<(), DeviceFault>
    ensures { Writes (S.state sink.old) (S.state sink.new) text.now result }
{
    let mut gone = 0;
    while gone < text.len() {
        gone += sink.write(&text[gone..])?;
    }
    Ok(())
}
