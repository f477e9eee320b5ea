//! The check of an answer.

ghost use Rattle.std.specs.Prelude.{◌≡◌};
ghost use Rattle.streams.specs.RunStreams.{devices};
ghost use Rattle.deal_subcommands.specs.Check.Runs.{ChecksAnswer, IsVerdictLine, Prints, RunsCheck};
ghost use Rattle.deal_subcommands.specs.VerdictLines.{verdict_status};
ghost use Rattle.streams.specs.RunStreams.{devices_of};

use crate::faults::{DealFault, write_failed};
use crate::judging::judge_input;
use crate::verdict_lines::write_verdict;
use cards::{Seat, Sink, Source, Trump};
use checker::Verdict;
use command_words::LayoutWords;
use pbn_deals::read_layout;
use run_ends::{Status, end};
use std::alloc::Global;
use streams::Streams;

/// Reads an answer to its end, checks that its certificates show its number of tricks for the layout that the bytes
/// spell, and writes the verdict. A number that it writes as accepted is the double-dummy value.
///
/// Refuses bytes that spell no layout before anything is read, and a text whose first line is not a result line.
/// Nothing was written after any fault but a failed output, and after that one a beginning of the line.
pub fn check_answer<I: Source, O: Sink>(
    alloc: Global,
    value: &[u8],
    declarer: Seat,
    trump: Trump,
    input: &mut I,
    output: &mut O,
) -> Result<Status, DealFault>
    ensures { ChecksAnswer value.now declarer trump (devices (I.state input.old) (O.state output.old))
        (devices (I.state input.new) (O.state output.new)) result }
{
    let layout = match read_layout(value) {
        Ok(layout) => layout,
        Err(fault) => return Err(DealFault::Layout(fault)),
    };
    match judge_input(alloc, input, &layout, declarer, trump) {
        Ok(Ok(accepted)) => print_verdict(Ok(accepted.proven), output),
        Ok(Err(fault)) => print_verdict(Err(fault), output),
        Err(fault) => Err(fault),
    }
}

/// Writes the line of a verdict, and answers how the run ends with it.
pub(crate) fn print_verdict<O: Sink>(verdict: Verdict, output: &mut O) -> Result<Status, DealFault>
    ensures { Prints IsVerdictLine verdict (O.state output.old) (O.state output.new) result }
{
    let status = status_of(&verdict);
    match write_verdict(verdict, output) {
        Ok(()) => Ok(status),
        Err(fault) => Err(write_failed(fault)),
    }
}

/// How a run ends with this verdict.
fn status_of(verdict: &Verdict) -> Status
    ensures { result ≡ verdict_status verdict.now }
{
    match verdict {
        Ok(_) => Status::Done,
        Err(_) => Status::Rejected,
    }
}

/// Checks the answer that is the input, or tells why it can't, and answers how the run ends.
pub fn run<I: Source, O: Sink, E: Sink>(
    alloc: Global,
    options: LayoutWords<'_>,
    streams: &mut Streams<I, O, E>,
) -> Status
    ensures { RunsCheck options.entry (devices_of I.state O.state E.state streams.old)
        (devices_of I.state O.state E.state streams.new) result }
{
    let (input, output) = (&mut streams.input, &mut streams.output);
    let value = options.layout.as_bytes();
    let answer = check_answer(alloc, value, options.seat, options.trump, input, output);
    end(answer, None, &mut streams.errors)
}
