//! What `leads` does, and how its run ends.

ghost use Rattle.std.specs.Prelude.{◌≡◌};
ghost use Rattle.streams.specs.RunStreams.{devices, devices_of};
ghost use Rattle.board_subcommands.specs.Leads.Runs.{LeadsBoards, RunsLeads, lead_lacking, lead_notes};
ghost use Rattle.board_subcommands.specs.Leads.Runs.{lead_outcome, lead_status};
ghost use Rattle.board_subcommands.specs.NamedBoards.{DoesOn};

use crate::ends::{FileNames, end};
use crate::faults::BoardFault;
use crate::finished_runs::FinishedRun;
use crate::leads::options::LeadsOptions;
use crate::named_boards::of_boards;
use crate::notes::{Lacking, Notes, Searches};
use crate::table::Unwatched;
use cards::{Sink, Source};
use certificate_graph::CardSolver;
use farm::Means;
use lease_book::Gate;
use opening_leads::{LeadFault, LeadLimits, LeadMeans, LeadReport, make_leads};
use run_ends::{FileFault, NamedFiles, Output, Status};
use std::alloc::Global;
use std::thread::Threads;
use streams::Streams;

/// How a run ends that wrote leads.
fn lead_status(report: LeadReport) -> Status
    ensures { result ≡ lead_status report.missing }
{
    if report.missing == 0 {
        Status::Done
    } else {
        Status::Incomplete
    }
}

/// Which rows are missing, if any are, and why.
fn lead_lacking(report: LeadReport) -> Lacking
    ensures { result ≡ lead_lacking report }
{
    if report.missing == 0 {
        return Lacking::Nothing;
    }
    let searches = Searches {
        steps: report.steps as u64,
        memory: report.memory as u64,
        refused: report.refused as u64,
    };
    Lacking::Rows(report.missing as u64, searches)
}

/// What is said of leads.
fn lead_notes(report: LeadReport) -> Notes
    ensures { result ≡ lead_notes report }
{
    Notes {
        lacks_boards: report.boards == 0,
        undealt: report.undealt as u64,
        read_only: false,
        lacking: lead_lacking(report),
    }
}

/// What came of leads.
fn lead_outcome(answer: Result<LeadReport, LeadFault>) -> Result<FinishedRun, BoardFault>
    ensures { result ≡ lead_outcome answer }
{
    match answer {
        Ok(report) => Ok(FinishedRun {
            notes: lead_notes(report),
            ..FinishedRun::quiet(lead_status(report))
        }),
        Err(fault) => Err(BoardFault::from(fault)),
    }
}

/// Writes the opening leads of the boards of the input.
fn write_leads<P: CardSolver + Sync, G: Gate + Sync, I: Source, O: Sink, R: Threads + Sync>(
    rt: &R,
    alloc: Global,
    options: LeadsOptions<'_>,
    means: &LeadMeans<'_, P, G>,
    input: &mut I,
    output: &mut O,
) -> Result<FinishedRun, BoardFault>
    ensures { LeadsBoards (P.may_find_cards means.now.solver.now) options.entry
        (devices (I.state input.old) (O.state output.old)) (devices (I.state input.new) (O.state output.new)) result }
{
    let limits = LeadLimits {
        solvers: options.solvers,
        budget: options.budget,
    };
    lead_outcome(make_leads(rt, alloc, input, output, limits, means))
}

/// Writes the opening leads of the boards of the file that is named, or of the input. The input is not read if a file
/// is named. If the file can't be opened, nothing else is.
fn lead_boards<
    P: CardSolver + Sync,
    G: Gate + Sync,
    I: Source,
    O: Sink,
    R: Threads + Sync + NamedFiles,
>(
    rt: &R,
    alloc: Global,
    options: LeadsOptions<'_>,
    means: &LeadMeans<'_, P, G>,
    input: &mut I,
    output: &mut O,
) -> Result<FinishedRun, BoardFault>
    ensures { DoesOn (R.may_open rt.now) options.entry.boards
        (LeadsBoards (P.may_find_cards means.now.solver.now) options.entry)
        (devices (I.state input.old) (O.state output.old)) (devices (I.state input.new) (O.state output.new)) result }
{
    let Some(name) = options.boards else {
        return write_leads(rt, alloc, options, means, input, output);
    };
    match rt.open_named(name) {
        Ok(mut file) => of_boards(write_leads(rt, alloc, options, means, &mut file, output)),
        Err(why) => Err(BoardFault::Boards(FileFault::Open(why))),
    }
}

/// Writes the opening leads of the boards that the words name, or tells why it can't, and answers how the run ends. The
/// gate is told of the work if progress is asked for.
pub fn run<
    P: CardSolver + Sync,
    G: Gate + Sync,
    C,
    I: Source,
    O: Output,
    E: Sink,
    R: Threads + Sync + NamedFiles,
>(
    rt: &R,
    alloc: Global,
    options: LeadsOptions<'_>,
    means: &Means<'_, P, G, C>,
    streams: &mut Streams<I, O, E>,
) -> Status
    ensures { RunsLeads (P.may_find_cards means.now.solver.now) (R.may_open rt.now) options.entry
        (devices_of I.state O.state E.state streams.old) (devices_of I.state O.state E.state streams.new)
        (O.handed_on streams.new.output) result }
{
    let names = FileNames {
        boards: options.boards,
        evidence: None,
    };
    let (input, output) = (&mut streams.input, &mut streams.output);
    if options.progress {
        let watched = &LeadMeans {
            solver: means.solver,
            gate: means.gate,
        };
        let answer = lead_boards(rt, alloc, options, watched, input, output);
        return end(answer, names, output, &mut streams.errors);
    }
    let unwatched = &LeadMeans {
        solver: means.solver,
        gate: &Unwatched,
    };
    let answer = lead_boards(rt, alloc, options, unwatched, input, output);
    end(answer, names, output, &mut streams.errors)
}
