//! The output of a run: a text that was asked for, and its end.

ghost use Rattle.std.specs.Prelude.{◌≡◌};
ghost use Rattle.streams.specs.Flushes.{inner_contents};
ghost use Rattle.streams.specs.RunStreams.{devices_of};
ghost use Rattle.command_line.specs.Outputs.{EndsStreams, Shows, room_for};

use crate::faults::ProgramFault;
use crate::subcommands::Subcommand;
use cards::{Sink, Source, write_all};
use clap::Error;
use run_ends::{Status, tell};
use std::io::{BufWriter, Write};
use streams::{Streams, WriterSink};

/// How many bytes of the output are held back at the most.
const ROOM: usize = 8192;

/// How many bytes of the output may be held back, by what was read of the words: none where `play` asks for cards,
/// since each text has to be there before a line is read.
pub fn room_for(read: &Result<Subcommand<'_>, Error>) -> usize
    ensures { result ≡ room_for read.now }
{
    match read {
        Ok(Subcommand::Play(_)) => 0,
        _ => ROOM,
    }
}

/// Writes a text that was asked for, such as help, and answers how the run ends: a write that failed is reported on the
/// error output.
pub fn show<I: Source, O: Sink, E: Sink>(text: &[u8], streams: &mut Streams<I, O, E>) -> Status
    ensures { Shows (devices_of I.state O.state E.state streams.old) (devices_of I.state O.state E.state streams.new)
        text.now result }
{
    match write_all(&mut streams.output, text) {
        Ok(()) => Status::Done,
        Err(_) => tell(ProgramFault::Write, None, &mut streams.errors),
    }
}

/// Flushes the output, however the run ended, and answers the exit status. So what was written is there also after a
/// fault, such as tables whose evidence could not be kept. If the flush fails, a run that was done has failed, and the
/// error output says so. A run that had failed or was refused has said why, and ends as it did.
pub fn close_output<I: Source, W: Write + Drop, E: Sink>(
    code: u8,
    streams: &mut Streams<I, WriterSink<BufWriter<W>>, E>,
) -> u8
    ensures { EndsStreams (devices_of I.state ⟦<WriterSink<BufWriter<W>> as Sink>⟧.state E.state streams.old)
        (devices_of I.state ⟦<WriterSink<BufWriter<W>> as Sink>⟧.state E.state streams.new)
        (inner_contents W.contents streams.new.output) code result }
{
    match streams.output.flush() {
        Ok(()) => code,
        Err(_) if code == Status::Failed.code() || code == Status::Refused.code() => code,
        Err(_) => tell(ProgramFault::Write, None, &mut streams.errors).code(),
    }
}
