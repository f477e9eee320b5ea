//! A writer as a sink for bytes.

ghost use Rattle.std.specs.Prelude.{◌≡◌};
ghost use Rattle.cards.specs.Devices.{one_more};
ghost use Rattle.streams.specs.Flushes.{Flushes, inner_contents};

use cards::{DeviceFault, Sink};
use std::io::{BufWriter, Write};

/// A writer as a sink for bytes. A writer that takes no byte of a piece has failed.
#[derive(Drop)]
pub struct WriterSink<W> {
    writer: W,
    failures: u64,
}

impl<W: Write> WriterSink<W> {
    /// The writer, with no call failed yet.
    pub fn new(writer: W) -> WriterSink<W>
        ensures { ⟦<WriterSink<W> as Sink>⟧.state result ≡ record { bytes = W.contents writer; failed = 0 } }
    {
        WriterSink {
            writer,
            failures: 0,
        }
    }

    /// The writer, lent.
    pub fn get_ref(&self) -> &W
        ensures { result.now ≡ self.now.writer }
    {
        &self.writer
    }

    /// Counts a call that failed.
    fn failed(&mut self) -> DeviceFault
        ensures { self.new ≡ record self.old { failures = one_more self.old.failures } }
    {
        self.failures = self.failures.saturating_add(1);
        DeviceFault
    }
}

impl<W: Write + Drop> WriterSink<BufWriter<W>> {
    /// Hands on all that the buffer holds back, so that its writer has got everything that the sink took. A flush that
    /// fails loses nothing.
    pub fn flush(&mut self) -> Result<(), DeviceFault>
        ensures { Flushes (⟦<WriterSink<BufWriter<W>> as Sink>⟧.state self.old)
            (⟦<WriterSink<BufWriter<W>> as Sink>⟧.state self.new)
            (inner_contents W.contents self.new) result }
    {
        match self.writer.flush() {
            Ok(()) => Ok(()),
            Err(_) => Err(self.failed()),
        }
    }
}

impl<W: Write> Sink for WriterSink<W> {
    ghost state = { λ sink. record { bytes = W.contents sink.writer; failed = sink.failures } };

    fn write(&mut self, piece: &[u8]) -> Result<usize, DeviceFault> {
        match self.writer.write(piece) {
            Ok(count) if count > 0 || piece.is_empty() => Ok(count),
            _ => Err(self.failed()),
        }
    }
}
