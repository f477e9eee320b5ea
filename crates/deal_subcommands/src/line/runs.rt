//! The line of play of an answer.

ghost use Rattle.std.specs.Prelude.{◌++◌, Ok, Err};
ghost use Rattle.cards.specs.Devices.{Writes};
ghost use Rattle.certificate_play.specs.Sides.{AreBegun};
ghost use Rattle.checker.specs.Judging.{IsAccepted};
ghost use Rattle.play_dialogues.specs.PlayText.{play_text};
ghost use Rattle.streams.specs.RunStreams.{devices};
ghost use Rattle.deal_subcommands.specs.Check.Runs.{Prints};
ghost use Rattle.deal_subcommands.specs.Line.Runs.{FollowsAnswer, IsLineOf, IsLineText, RunsLine};
ghost use Rattle.deal_subcommands.specs.VerdictLines.{verdict_line};
ghost use Rattle.streams.specs.RunStreams.{devices_of};

use crate::faults::{DealFault, write_failed};
use crate::judging::judge_input;
use crate::verdict_lines::write_verdict;
use arrayvec::ArrayVec;
use cards::{Card, DeviceFault, Seat, Sink, Source, Trump};
use certificate_play::{Playing, Sides, line};
use checker::{Accepted, HandFault, Proven};
use command_words::LayoutWords;
use pbn_deals::read_layout;
use play_dialogues::write_play;
use run_ends::{Status, end};
use std::alloc::Global;
use streams::Streams;

/// Reads an answer to its end, checks it as [`check_answer`](crate::check::check_answer) does, and writes the verdict;
/// behind one that accepts, a line of play in which each side has just the tricks that were shown for it.
///
/// Refuses bytes that spell no layout before anything is read, and a text whose first line is not a result line.
/// Nothing was written after any fault but a failed output, and after that one a beginning of the text.
pub fn follow_answer<I: Source, O: Sink>(
    alloc: Global,
    value: &[u8],
    declarer: Seat,
    trump: Trump,
    input: &mut I,
    output: &mut O,
) -> Result<Status, DealFault>
    ensures { FollowsAnswer value.now declarer trump (devices (I.state input.old) (O.state output.old))
        (devices (I.state input.new) (O.state output.new)) result }
{
    let layout = match read_layout(value) {
        Ok(layout) => layout,
        Err(fault) => return Err(DealFault::Layout(fault)),
    };
    match judge_input(alloc, input, &layout, declarer, trump) {
        Ok(Ok(accepted)) => follow(&accepted, output),
        Ok(Err(fault)) => refuse(fault, output),
        Err(fault) => Err(fault),
    }
}

/// Writes that an answer is refused, and why.
fn refuse<O: Sink>(fault: HandFault, output: &mut O) -> Result<Status, DealFault>
    ensures { Prints IsLineText (Err fault) (O.state output.old) (O.state output.new) result }
{
    match write_verdict(Err(fault), output) {
        Ok(()) => Ok(Status::Rejected),
        Err(fault) => Err(write_failed(fault)),
    }
}

/// Writes that an answer is accepted, and its line of play.
fn follow<O: Sink>(accepted: &Accepted, output: &mut O) -> Result<Status, DealFault>
    requires { IsAccepted accepted.now }
    ensures { Prints IsLineText (Ok accepted.now.proven) (O.state output.old) (O.state output.new) result }
{
    let sides = begin(accepted);
    let cards = line_of(&accepted.proven, sides);
    match write_line(&accepted.proven, cards.as_slice(), output) {
        Ok(()) => Ok(Status::Done),
        Err(fault) => Err(write_failed(fault)),
    }
}

/// Both sides before the opening lead.
pub(crate) fn begin(accepted: &Accepted) -> Sides<'_>
    requires { IsAccepted accepted.now }
    ensures { AreBegun accepted.now.proven.layout accepted.now.proven.declarer accepted.now.proven.trump
        accepted.now.proven.k result }
{
    let shown = accepted.proven.shown();
    let leader = shown.declarer.next();
    let others = shown.layout.len() as u8 - shown.k;
    Sides {
        declarers: Playing::begin(&accepted.declarers, shown.layout, leader, shown.k),
        defenders: Playing::begin(&accepted.defenders, shown.layout, leader, others),
    }
}

/// The cards of a play in which each side has just the tricks that were shown for it.
fn line_of(proven: &Proven, sides: Sides<'_>) -> ArrayVec<Card, 52>
    requires { AreBegun proven.now.layout proven.now.declarer proven.now.trump proven.now.k sides }
    ensures { IsLineOf proven.now result.items }
{
    proven.invariant();
    line(sides.declarers, sides.defenders)
}

/// Writes the verdict and the tricks of the line.
fn write_line<O: Sink>(proven: &Proven, cards: &[Card], output: &mut O) -> Result<(), DeviceFault>
    ensures { Writes (O.state output.old) (O.state output.new)
        (verdict_line (Ok proven.now) ++ play_text proven.now.declarer proven.now.trump cards.now) result }
{
    let shown = proven.shown();
    write_verdict(Ok(*proven), output)?;
    write_play(shown.declarer, shown.trump, cards, output)
}

/// Writes the line of play of the answer that is the input, or tells why it can't, and answers how the run ends.
pub fn run<I: Source, O: Sink, E: Sink>(
    alloc: Global,
    options: LayoutWords<'_>,
    streams: &mut Streams<I, O, E>,
) -> Status
    ensures { RunsLine options.entry (devices_of I.state O.state E.state streams.old)
        (devices_of I.state O.state E.state streams.new) result }
{
    let (input, output) = (&mut streams.input, &mut streams.output);
    let value = options.layout.as_bytes();
    let answer = follow_answer(alloc, value, options.seat, options.trump, input, output);
    end(answer, None, &mut streams.errors)
}
