//! The line that `plain` prints.

ghost use Rattle.deal_subcommands.specs.Plain.Runs.{MeetsPlainLine};
ghost use Rattle.streams.specs.RunStreams.{devices_of};
ghost use Rattle.deal_subcommands.specs.Plain.Runs.{RunsPlain};

use crate::faults::{DealFault, done, write_failed};
use cards::{Seat, Sink, Source, Trump, write_all};
use command_words::LayoutWords;
use pbn_deals::read_layout;
use run_ends::{Status, end};
use strategies::plain_value;
use streams::Streams;

/// Writes `NS `, the number of tricks that North and South can win and an LF, for the layout that the bytes spell.
/// Refuses bytes that spell no layout, and layouts of over 4 cards a hand; then nothing was written, and after a failed
/// output a beginning of the line. Takes no memory.
pub fn plain_line<S: Sink>(
    value: &[u8],
    leader: Seat,
    trump: Trump,
    output: &mut S,
) -> Result<(), DealFault>
    ensures { MeetsPlainLine value.now leader trump (S.state output.old) (S.state output.new) result }
{
    let layout = read_layout(value).map_err(DealFault::Layout)?;
    let tricks = plain_value(&layout, leader, trump)?;
    write_all(output, &[b'N', b'S', b' ', b'0' + tricks, b'\n']).map_err(write_failed)
}

/// Writes the line for the layout of the words, or tells why it can't, and answers how the run ends.
pub fn run<I: Source, O: Sink, E: Sink>(
    options: LayoutWords<'_>,
    streams: &mut Streams<I, O, E>,
) -> Status
    ensures { RunsPlain options.entry (devices_of I.state O.state E.state streams.old)
        (devices_of I.state O.state E.state streams.new) result }
{
    let (value, output) = (options.layout.as_bytes(), &mut streams.output);
    let answer = done(plain_line(value, options.seat, options.trump, output));
    end(answer, None, &mut streams.errors)
}
