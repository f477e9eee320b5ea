//! The lines that are written.

ghost use Rattle.cards.specs.Devices.{Writes};
ghost use Rattle.progress.specs.Lines.{counted, counts_text, incomplete_text, last_line_text, line_text};

use crate::counts::Counts;
use cards::{DeviceFault, Sink, write_all, write_number};

/// Writes how many of how many are done, and of what, such as `37 of 200 results, `.
fn write_counted<S: Sink>(done: u64, all: u64, name: &[u8], sink: &mut S) -> Result<(), DeviceFault>
    ensures { Writes (S.state sink.old) (S.state sink.new) (counted done all name.now) result }
{
    write_number(sink, done)?;
    write_all(sink, b" of ")?;
    write_number(sink, all)?;
    write_all(sink, name)
}

/// Writes `ddfarm: 37 of 200 results, 1 of 10 boards, `.
fn write_counts<S: Sink>(counts: &Counts, sink: &mut S) -> Result<(), DeviceFault>
    ensures { Writes (S.state sink.old) (S.state sink.new) (counts_text counts.now) result }
{
    write_all(sink, b"ddfarm: ")?;
    write_counted(counts.published, counts.results, b" results, ", sink)?;
    write_counted(counts.finished, counts.boards, b" boards, ", sink)
}

/// Writes a line of the counts after so many seconds.
pub(crate) fn write_line<S: Sink>(
    counts: &Counts,
    seconds: u64,
    sink: &mut S,
) -> Result<(), DeviceFault>
    ensures { Writes (S.state sink.old) (S.state sink.new) (line_text counts.now seconds) result }
{
    write_counts(counts, sink)?;
    write_number(sink, seconds)?;
    write_all(sink, b" s\n")
}

/// Writes how many tables are incomplete, at the end of the last line.
fn write_incomplete<S: Sink>(incomplete: u64, sink: &mut S) -> Result<(), DeviceFault>
    ensures { Writes (S.state sink.old) (S.state sink.new) (incomplete_text incomplete) result }
{
    if incomplete == 1 {
        return write_all(sink, b"1 table incomplete\n");
    }
    write_number(sink, incomplete)?;
    write_all(sink, b" tables incomplete\n")
}

/// Writes the last line, such as `ddfarm: 200 of 200 results, 10 of 10 boards, 41 s, 0 tables incomplete`.
pub(crate) fn write_last_line<S: Sink>(
    counts: &Counts,
    seconds: u64,
    sink: &mut S,
) -> Result<(), DeviceFault>
    ensures { Writes (S.state sink.old) (S.state sink.new) (last_line_text counts.now seconds) result }
{
    write_counts(counts, sink)?;
    write_number(sink, seconds)?;
    write_all(sink, b" s, ")?;
    write_incomplete(counts.incomplete(), sink)
}
