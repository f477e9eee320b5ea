//! A play of the cards against the certificate of an answer.

ghost use Rattle.std.specs.Prelude.{◌≡◌};
ghost use Rattle.checker.specs.Judging.{IsAccepted};
ghost use Rattle.streams.specs.RunStreams.{devices};
ghost use Rattle.deal_subcommands.specs.Play.Runs.{Converses, PlaysAnswer, ReadsFile, RunsPlay, ended_by};
ghost use Rattle.streams.specs.RunStreams.{devices_of};

use crate::check::runs::print_verdict;
use crate::faults::DealFault;
use crate::judging::judge_answer;
use crate::line::runs::begin;
use crate::play::options::PlayOptions;
use crate::play::sides::ContractSide;
use cards::{Sink, Source};
use checker::Accepted;
use pbn_deals::read_layout;
use play_dialogues::{End, play_dialogue};
use run_ends::{FileFault, NamedFiles, Status, end};
use std::alloc::Global;
use streams::{InputFault, Streams, read_all};

/// The bytes of the file of this name.
pub(crate) fn read_file<R: NamedFiles>(
    rt: &R,
    alloc: Global,
    name: &str,
) -> Result<Vec<u8>, DealFault>
    ensures { ReadsFile (R.may_open rt.now) name.now result }
{
    let mut file = match rt.open_named(name) {
        Ok(file) => file,
        Err(why) => return Err(DealFault::AnswerFile(FileFault::Open(why))),
    };
    match read_all(alloc, &mut file) {
        Ok(text) => Ok(text),
        Err(InputFault::OutOfMemory) => Err(DealFault::OutOfMemory),
        Err(InputFault::Read) => Err(DealFault::AnswerFile(FileFault::Read)),
    }
}

/// Reads the answer in the file that is named, checks it as [`check_answer`](crate::check::check_answer) does, and
/// where it is accepted plays for the side that is asked for by its certificate, against the cards that are typed. A
/// refused answer has its verdict written.
pub fn play_answer<R: NamedFiles, I: Source, O: Sink>(
    rt: &R,
    alloc: Global,
    options: PlayOptions<'_>,
    input: &mut I,
    output: &mut O,
) -> Result<Status, DealFault>
    ensures { PlaysAnswer (R.may_open rt.now) options.entry (devices (I.state input.old) (O.state output.old))
        (devices (I.state input.new) (O.state output.new)) result }
{
    let layout = match read_layout(options.layout.as_bytes()) {
        Ok(layout) => layout,
        Err(fault) => return Err(DealFault::Layout(fault)),
    };
    let text = match read_file(rt, alloc, options.answer) {
        Ok(text) => text,
        Err(fault) => return Err(fault),
    };
    match judge_answer(
        alloc,
        text.as_slice(),
        &layout,
        options.declarer,
        options.trump,
    ) {
        Ok(Ok(accepted)) => converse(alloc, &accepted, options.side, input, output),
        Ok(Err(fault)) => print_verdict(Err(fault), output),
        Err(fault) => Err(fault),
    }
}

/// Plays for a side by its certificate.
fn converse<I: Source, O: Sink>(
    alloc: Global,
    accepted: &Accepted,
    side: ContractSide,
    input: &mut I,
    output: &mut O,
) -> Result<Status, DealFault>
    requires { IsAccepted accepted.now }
    ensures { Converses accepted.now.proven side (devices (I.state input.old) (O.state output.old))
        (devices (I.state input.new) (O.state output.new)) result }
{
    let sides = begin(accepted);
    let playing = match side {
        ContractSide::Declarer => sides.declarers,
        ContractSide::Defenders => sides.defenders,
    };
    ended_by(play_dialogue(alloc, playing, input, output).end)
}

/// How a run ends with the end of a dialogue.
fn ended_by(end: End) -> Result<Status, DealFault>
    ensures { result ≡ ended_by end }
{
    match end {
        End::Played | End::Quit => Ok(Status::Done),
        End::InputEnds => Ok(Status::Incomplete),
        End::ReadFails => Err(DealFault::Read),
        End::WriteFails => Err(DealFault::Write),
        End::OutOfMemory => Err(DealFault::OutOfMemory),
    }
}

/// Plays for a side by the certificate of the answer in the file of the words, or tells why it can't, and answers how
/// the run ends.
pub fn run<R: NamedFiles, I: Source, O: Sink, E: Sink>(
    rt: &R,
    alloc: Global,
    options: PlayOptions<'_>,
    streams: &mut Streams<I, O, E>,
) -> Status
    ensures { RunsPlay (R.may_open rt.now) options.entry (devices_of I.state O.state E.state streams.old)
        (devices_of I.state O.state E.state streams.new) result }
{
    let (input, output) = (&mut streams.input, &mut streams.output);
    let answer = play_answer(rt, alloc, options, input, output);
    end(answer, Some(options.answer), &mut streams.errors)
}
