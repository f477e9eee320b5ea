//! A reader as a source of bytes.

ghost use Rattle.std.specs.Prelude.{◌≡◌};

use cards::{DeviceFault, Source};
use std::io::Read;

/// How many bytes are asked for at a time, at the most.
pub(crate) const PIECE: usize = 16384;

/// A reader as a source of bytes. It reads into a piece of its own first, since a reader that fails doesn't tell what
/// it did with the buffer.
#[derive(Drop)]
pub struct ReaderSource<R> {
    reader: R,
    piece: [u8; PIECE],
    failures: u64,
}

impl<R: Read> ReaderSource<R> {
    /// The reader, with no call failed yet.
    pub fn new(reader: R) -> ReaderSource<R>
        ensures { ⟦<ReaderSource<R> as Source>⟧.state result ≡ record { bytes = R.remaining reader; failed = 0 } }
    {
        ReaderSource {
            reader,
            piece: [0; PIECE],
            failures: 0,
        }
    }
}

impl<R: Read> Source for ReaderSource<R> {
    ghost state = { λ source. record { bytes = R.remaining source.reader; failed = source.failures } };

    fn read(&mut self, buffer: &mut [u8]) -> Result<usize, DeviceFault> {
        let piece = &mut self.piece[..];
        let room = buffer.len().min(piece.len());
        let Ok(count) = self.reader.read(&mut piece[..room]) else {
            self.failures = self.failures.saturating_add(1);
            return Err(DeviceFault);
        };
        buffer[..count].copy_from_slice(&piece[..count]);
        Ok(count)
    }
}
