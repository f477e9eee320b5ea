//! What `table` does, and how its run ends.

ghost use Rattle.std.specs.Prelude.{option_map};
ghost use Rattle.streams.specs.RunStreams.{devices, devices_of};
ghost use Rattle.board_subcommands.specs.NamedBoards.{DoesOn};
ghost use Rattle.board_subcommands.specs.Table.Kept.{FillsTables};
ghost use Rattle.board_subcommands.specs.Table.Runs.{RunsTable};

use crate::ends::{FileNames, end};
use crate::faults::BoardFault;
use crate::named_boards::of_boards;
use crate::table::kept::{Ended, fill_tables};
use crate::table::kept_files::KeptFiles;
use crate::table::options::TableOptions;
use crate::table::pages::Unwatched;
use cards::{Sink, Source};
use certificate_graph::Solver;
use farm::{Clock, Means};
use lease_book::Gate;
use run_ends::{FileFault, NamedFiles, Output, Status};
use std::alloc::Global;
use std::sync::Wait;
use std::thread::Threads;
use streams::Streams;

/// How a run ends, and the file that evidence was added to, if there is one.
#[derive(Drop)]
pub struct TableRun<F> {
    pub status: Status,
    pub file: Option<F>,
}

/// Writes the tables of the boards of the named file, or of the input. The input is not read if a file is named. If the
/// file can't be opened, nothing else is.
fn table_boards<
    P: Solver + Sync,
    G: Gate + Sync,
    C: Clock + Sync,
    I: Source,
    O: Sink,
    R: Threads + Wait + Sync + NamedFiles + KeptFiles,
>(
    rt: &R,
    alloc: Global,
    options: TableOptions<'_>,
    means: &Means<'_, P, G, C>,
    input: &mut I,
    output: &mut O,
) -> Ended<R::Kept>
    ensures { DoesOn (R.may_open rt.now) options.entry.boards
        (FillsTables (P.may_find means.now.solver.now) (R.may_keep rt.now) (C.may_tell means.now.clock.now)
        options.entry options.entry.evidence (option_map R.Kept.contents result.file))
        (devices (I.state input.old) (O.state output.old))
        (devices (I.state input.new) (O.state output.new)) result.answer }
{
    let Some(name) = options.boards else {
        return fill_tables(rt, alloc, options, means, input, output);
    };
    match rt.open_named(name) {
        Ok(mut boards) => {
            let Ended { answer, file } = fill_tables(
                rt,
                alloc,
                options,
                means,
                &mut boards,
                output,
            );
            Ended {
                answer: of_boards(answer),
                file,
            }
        }
        Err(why) => Ended {
            answer: Err(BoardFault::Boards(FileFault::Open(why))),
            file: None,
        },
    }
}

/// Writes the tables of the boards that the words name, or tells why it can't, and answers how the run ends. The gate
/// is told of the work if progress is asked for. The file that evidence was added to is handed out.
pub fn run<
    P: Solver + Sync,
    G: Gate + Sync,
    C: Clock + Sync,
    I: Source,
    O: Output,
    E: Sink,
    R: Threads + Wait + Sync + NamedFiles + KeptFiles,
>(
    rt: &R,
    alloc: Global,
    options: TableOptions<'_>,
    means: &Means<'_, P, G, C>,
    streams: &mut Streams<I, O, E>,
) -> TableRun<R::Kept>
    ensures { RunsTable (P.may_find means.now.solver.now) (C.may_tell means.now.clock.now) (R.may_open rt.now)
        (R.may_keep rt.now) options.entry (option_map R.Kept.contents result.file)
        (devices_of I.state O.state E.state streams.old) (devices_of I.state O.state E.state streams.new)
        (O.handed_on streams.new.output) result.status }
{
    let names = FileNames {
        boards: options.boards,
        evidence: options.evidence,
    };
    let (input, output) = (&mut streams.input, &mut streams.output);
    if options.progress {
        let Ended { answer, file } = table_boards(rt, alloc, options, means, input, output);
        let status = end(answer, names, output, &mut streams.errors);
        return TableRun { status, file };
    }
    let unwatched = &Means {
        solver: means.solver,
        gate: &Unwatched,
        clock: means.clock,
    };
    let Ended { answer, file } = table_boards(rt, alloc, options, unwatched, input, output);
    let status = end(answer, names, output, &mut streams.errors);
    TableRun { status, file }
}
