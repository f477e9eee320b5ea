//! The tables of the boards of the input, with evidence in a file beside them if one is named.

ghost use Rattle.std.specs.Prelude.{◌≡◌, option_map};
ghost use Rattle.std.specs.Io.Take.{take_remaining};
ghost use Rattle.evidence_solvers.specs.Added.{Covers};
ghost use Rattle.evidence_solvers.specs.Tails.{tail_contents};
ghost use Rattle.streams.specs.RunStreams.{devices};
ghost use Rattle.board_subcommands.specs.Table.Kept.{FillsTables, WritesKept, with_file};

use crate::faults::BoardFault;
use crate::finished_runs::FinishedRun;
use crate::notes::Notes;
use crate::table::beside::{Making, write_tables_beside};
use crate::table::kept_files::KeptFiles;
use crate::table::options::TableOptions;
use crate::table::pages::write_page;
use cards::{Sink, Source};
use certificate_graph::Solver;
use evidence_solvers::{Access, Held, KeepFault, Keeping, Opened};
use farm::{Clock, Means};
use lease_book::Gate;
use run_ends::FileFault;
use std::alloc::Global;
use std::marker::Brand;
use std::sync::Wait;
use std::thread::Threads;

/// What came of the tables, and the file that evidence was added to, if there is one.
#[derive(Drop)]
pub(crate) struct Ended<F> {
    pub(crate) answer: Result<FinishedRun, BoardFault>,
    pub(crate) file: Option<F>,
}

/// What came of tables, with what is said of the file to which evidence is added: how it can be used, and whether all
/// was kept.
fn with_file(outcome: FinishedRun, access: Access, kept: Result<(), KeepFault>) -> FinishedRun
    ensures { result ≡ with_file outcome access kept }
{
    let notes = Notes {
        read_only: access.is_read_only(),
        ..outcome.notes
    };
    FinishedRun {
        notes,
        kept,
        ..outcome
    }
}

/// Writes the tables beside a file, which has what the type `T` names. What is found is added to it.
fn write_beside<
    P: Solver + Sync,
    G: Gate + Sync,
    C: Clock + Sync,
    I: Source,
    O: Sink,
    R: Threads + Wait + Sync + KeptFiles,
    T: Held + Send,
>(
    rt: &R,
    alloc: Global,
    making: Making<'_, P, G, C>,
    opened: Opened<R::Kept>,
    input: &mut I,
    output: &mut O,
) -> Ended<R::Kept>
    requires held { tail_contents R.Kept.contents opened.tail ≡ T.held }
    requires covers { Covers (P.may_find making.means.now.solver.now) T.may_be }
    ensures { WritesKept (P.may_find making.entry.means.now.solver.now) T.may_be T.held
        (take_remaining R.Kept.remaining opened.front) opened.access
        (C.may_tell making.entry.means.now.clock.now) making.entry.options
        (devices (I.state input.old) (O.state output.old)) (devices (I.state input.new) (O.state output.new))
        (option_map R.Kept.contents result.file) result.answer }
{
    let Making { options, means } = making;
    let Opened {
        front,
        tail,
        access,
        ..
    } = opened;
    let keeping = Keeping::<'_, '_, R, C, P, R::Kept, T>::new(
        rt,
        alloc,
        means.clock,
        means.solver,
        tail,
    );
    let made = {
        let means = &Means {
            solver: &keeping,
            gate: means.gate,
            clock: means.clock,
        };
        let making = Making { options, means };
        write_tables_beside(rt, alloc, making, front, input, output)
    };
    let tables = match made {
        Ok(tables) => tables,
        Err(fault) => {
            let (file, _kept) = keeping.close(&[]).into_parts();
            return Ended {
                answer: Err(fault),
                file: Some(file),
            };
        }
    };
    let (file, kept) = keeping.close(tables.later()).into_parts();
    Ended {
        answer: Ok(with_file(tables.outcome, access, kept)),
        file: Some(file),
    }
}

/// Writes the tables of the boards of the input. If a file of evidence is named, what it shows is published, the rest
/// is searched, and what is found is added to it. The file is handed out.
///
/// A file that can't be opened is refused before anything of the input is read.
pub(crate) fn fill_tables<
    P: Solver + Sync,
    G: Gate + Sync,
    C: Clock + Sync,
    I: Source,
    O: Sink,
    R: Threads + Wait + Sync + KeptFiles,
>(
    rt: &R,
    alloc: Global,
    options: TableOptions<'_>,
    means: &Means<'_, P, G, C>,
    input: &mut I,
    output: &mut O,
) -> Ended<R::Kept>
    ensures { FillsTables (P.may_find means.now.solver.now) (R.may_keep rt.now) (C.may_tell means.now.clock.now)
        options.entry options.entry.evidence (option_map R.Kept.contents result.file)
        (devices (I.state input.old) (O.state output.old))
        (devices (I.state input.new) (O.state output.new)) result.answer }
{
    let Some(name) = options.evidence else {
        return Ended {
            answer: write_page(rt, alloc, options, means, input, output),
            file: None,
        };
    };
    let opened = match rt.open_kept(name) {
        Ok(opened) => opened,
        Err(why) => {
            return Ended {
                answer: Err(BoardFault::Evidence(FileFault::Open(why))),
                file: None,
            };
        }
    };
    let making = Making { options, means };
    write_beside::<P, G, C, I, O, R, Brand>(rt, alloc, making, opened, input, output)
}
