//! Plays whose numbers evidence shows.

ghost use Rattle.streams.specs.RunStreams.{devices};
ghost use Rattle.board_subcommands.specs.Plays.Audit.{AuditsPlays, ReadsSections};

use crate::faults::BoardFault;
use crate::plays::ends::PlaysOutcome;
use crate::plays::games::play_games;
use crate::plays::options::PlaysOptions;
use cards::{Sink, Source};
use play_evidence::{FromEvidence, WholeEvidence, read_sections};
use run_ends::{FileFault, NamedFiles};
use std::alloc::Global;
use std::thread::Threads;
use streams::{InputFault, read_all};

/// The sections of the file of this name, and its damage.
fn read_evidence<R: NamedFiles>(
    rt: &R,
    alloc: Global,
    name: &str,
) -> Result<WholeEvidence, BoardFault>
    ensures { ReadsSections (R.may_open rt.now) name.now result }
{
    let mut file = match rt.open_named(name) {
        Ok(file) => file,
        Err(why) => return Err(BoardFault::Evidence(FileFault::Open(why))),
    };
    let text = match read_all(alloc, &mut file) {
        Ok(text) => text,
        Err(InputFault::OutOfMemory) => return Err(BoardFault::OutOfMemory),
        Err(InputFault::Read) => return Err(BoardFault::Evidence(FileFault::Read)),
    };
    match read_sections(alloc, text.as_slice()) {
        Ok(whole) => Ok(whole),
        Err(_) => Err(BoardFault::OutOfMemory),
    }
}

/// Reads the evidence in the file of this name, and writes the plays of the games with the numbers that it shows.
/// Nothing is searched. If the file can't be read, nothing of the games is.
pub(crate) fn audit_plays<I: Source, O: Sink, R: Threads + Sync + NamedFiles>(
    rt: &R,
    alloc: Global,
    options: PlaysOptions<'_>,
    name: &str,
    input: &mut I,
    output: &mut O,
) -> Result<PlaysOutcome, BoardFault>
    ensures { AuditsPlays (R.may_open rt.now) options.entry name.now
        (devices (I.state input.old) (O.state output.old))
        (devices (I.state input.new) (O.state output.new)) result }
{
    let WholeEvidence { sections, damage } = read_evidence(rt, alloc, name)?;
    let evidence = FromEvidence { sections };
    match play_games(rt, alloc, options, &evidence, input, output) {
        Ok(made) => Ok(PlaysOutcome {
            report: made.report,
            damage,
            kept: Ok(()),
        }),
        Err(fault) => Err(fault),
    }
}
