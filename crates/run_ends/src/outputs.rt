//! Outputs that hold bytes back.

ghost use Rattle.streams.specs.Flushes.{inner_contents};

use cards::{Buffer, DeviceFault, Sink};
use std::io::{BufWriter, Write};
use streams::WriterSink;

/// An output, which may hold bytes back.
pub trait Output: Sink {
    ghost use Rattle.std.specs.Prelude.{ℕ, List, Option};
    ghost use Rattle.streams.specs.Flushes.{Flushes};

    /// The bytes that it has handed on, where that is known.
    ghost handed_on: { Self → Option (List ℕ) };

    /// Hands on all that it holds back. A call that fails loses nothing.
    fn hand_on(&mut self) -> Result<(), DeviceFault>
        ensures { Flushes (Self.state self.old) (Self.state self.new) (handed_on self.new) result };
}

impl<W: Write + Drop> Output for WriterSink<BufWriter<W>> {
    ghost handed_on = { λ sink. inner_contents W.contents sink };

    fn hand_on(&mut self) -> Result<(), DeviceFault> {
        self.flush()
    }
}

impl Output for Buffer {
    ghost use Rattle.std.specs.Prelude.{Some};

    ghost handed_on = { λ buffer. Some buffer.bytes };

    fn hand_on(&mut self) -> Result<(), DeviceFault> {
        Ok(())
    }
}
