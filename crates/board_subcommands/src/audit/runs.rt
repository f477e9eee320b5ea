//! What `audit` does, and how its run ends.

ghost use Rattle.streams.specs.RunStreams.{devices, devices_of};
ghost use Rattle.board_subcommands.specs.Audit.Runs.{AuditsFile, RunsAudit};
ghost use Rattle.board_subcommands.specs.NamedBoards.{DoesOn};

use crate::audit::options::AuditOptions;
use crate::ends::{FileNames, end};
use crate::faults::BoardFault;
use crate::finished_runs::FinishedRun;
use crate::named_boards::of_boards;
use crate::reports::{page_status, unshown_notes};
use audits::audit_tables;
use cards::{Sink, Source};
use evidence::{Damage, Sections};
use run_ends::{FileFault, NamedFiles, Output, Status};
use std::alloc::Global;
use std::thread::Threads;
use streams::Streams;

/// Opens the file with the evidence, and writes the page of what it shows for the boards of the input.
///
/// A file that can't be opened is refused before anything of the input is read. With all faults but a failed output
/// nothing was written, and after that one a beginning of the page.
fn audit_file<R: Threads + Sync + NamedFiles, I: Source, O: Sink>(
    rt: &R,
    alloc: Global,
    options: AuditOptions<'_>,
    input: &mut I,
    output: &mut O,
) -> Result<FinishedRun, BoardFault>
    ensures { AuditsFile (R.may_open rt.now) options.entry.file.now options.entry.page
        (devices (I.state input.old) (O.state output.old))
        (devices (I.state input.new) (O.state output.new)) result }
{
    let file = match rt.open_named(options.file) {
        Ok(file) => file,
        Err(why) => return Err(BoardFault::Evidence(FileFault::Open(why))),
    };
    let mut evidence = Sections::new(alloc, file);
    match audit_tables(rt, alloc, options.page, input, &mut evidence, output) {
        Ok((report, book, damage)) => Ok(FinishedRun {
            status: page_status(options.page.form, report, book.boards()),
            damage,
            notes: unshown_notes(report, &book),
            read: Ok(()),
            kept: Ok(()),
        }),
        Err(fault) => Err(BoardFault::from(fault)),
    }
}

/// Writes the tables that evidence shows for the boards of the file that is named, or of the input. The input is not
/// read if a file is named. If the file can't be opened, nothing else is.
fn audit_boards<R: Threads + Sync + NamedFiles, I: Source, O: Sink>(
    rt: &R,
    alloc: Global,
    options: AuditOptions<'_>,
    input: &mut I,
    output: &mut O,
) -> Result<FinishedRun, BoardFault>
    ensures { DoesOn (R.may_open rt.now) options.entry.boards
        (AuditsFile (R.may_open rt.now) options.entry.file.now options.entry.page)
        (devices (I.state input.old) (O.state output.old))
        (devices (I.state input.new) (O.state output.new)) result }
{
    let Some(name) = options.boards else {
        return audit_file(rt, alloc, options, input, output);
    };
    match rt.open_named(name) {
        Ok(mut file) => of_boards(audit_file(rt, alloc, options, &mut file, output)),
        Err(why) => Err(BoardFault::Boards(FileFault::Open(why))),
    }
}

/// Writes the tables that the evidence of a file shows for the boards that the words name, or tells why it can't, and
/// answers how the run ends.
pub fn run<R: Threads + Sync + NamedFiles, I: Source, O: Output, E: Sink>(
    rt: &R,
    alloc: Global,
    options: AuditOptions<'_>,
    streams: &mut Streams<I, O, E>,
) -> Status
    ensures { RunsAudit (R.may_open rt.now) options.entry (devices_of I.state O.state E.state streams.old)
        (devices_of I.state O.state E.state streams.new)
        (O.handed_on streams.new.output) result }
{
    let (input, output) = (&mut streams.input, &mut streams.output);
    let answer = audit_boards(rt, alloc, options, input, output);
    let names = FileNames {
        boards: options.boards,
        evidence: Some(options.file),
    };
    end(answer, names, output, &mut streams.errors)
}
