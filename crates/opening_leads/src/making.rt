//! From the text of boards to the text of their opening leads.

ghost use Rattle.std.specs.Prelude.{◌≡◌, ◌≤◌, IfOk, length};
ghost use Rattle.streams.specs.RunStreams.{devices};
ghost use Rattle.opening_leads.specs.Making.{MakesLeads, TakesBoards};

use crate::counts::{LeadReport, report_of};
use crate::faults::LeadFault;
use crate::threads::find_all;
use crate::writing::write_leads;
use cards::{Sink, Source};
use certificate_graph::CardSolver;
use lease_book::{Gate, first_boards};
use pbn_deals::{Board, PbnFault, boards_are_printable, read_boards};
use std::alloc::Global;
use std::thread::Threads;
use streams::read_all;

/// How the leads are looked for.
#[derive(Clone, Copy, Debug, PartialEq, Eq)]
pub struct LeadLimits {
    /// How many threads look for leads.
    pub solvers: usize,
    /// How many steps the solver has for each lead.
    pub budget: u64,
}

/// Who looks for the leads, and who is told of the work.
#[derive(Drop)]
pub struct LeadMeans<'a, S, G> {
    /// Who looks for them.
    pub solver: &'a S,
    /// Who is told: of each row that was found, as of a number of a table.
    pub gate: &'a G,
}

/// Returns the boards of a PBN text, or the reason why there are none.
fn take_boards(alloc: Global, text: &[u8]) -> Result<Vec<Board>, LeadFault>
    ensures boards { TakesBoards text.now result }
    ensures few { IfOk result (λ boards. length boards.items ≤ 4096) }
{
    boards_are_printable();
    match read_boards(alloc, text) {
        Ok(boards) => Ok(boards),
        Err(PbnFault::OutOfMemory) => Err(LeadFault::OutOfMemory),
        Err(fault) => Err(LeadFault::Pbn(fault)),
    }
}

/// Reads the boards of a PBN text to its end, asks the solver for the opening leads of each board with a deal in each
/// denomination, with the budget, and writes a row for each contract whose leads are known. Returns how many rows are
/// missing, and why.
///
/// The solver may answer anything. A row that is written has each legal lead once, with the number of tricks that the
/// defenders take after it, double dummy. A row is missing only if the solver's answer does not show it: there is no
/// answer, memory ran out in the call, or a claim for one of the leads is missing or false. The rows do not depend on
/// the number of threads, if the solver's answers don't. If there is a fault other than a failed sink, nothing was
/// written.
pub fn make_leads<R: Threads + Sync, I: Source, O: Sink, S: CardSolver + Sync, G: Gate + Sync>(
    rt: &R,
    alloc: Global,
    input: &mut I,
    output: &mut O,
    limits: LeadLimits,
    means: &LeadMeans<'_, S, G>,
) -> Result<LeadReport, LeadFault>
    ensures { MakesLeads (S.may_find_cards means.now.solver.now) limits.budget
        (devices (I.state input.old) (O.state output.old)) (devices (I.state input.new) (O.state output.new)) result }
{
    let text = read_all(alloc, input)?;
    let boards = take_boards(alloc, text.as_slice())?;
    let firsts = first_boards(alloc, boards.as_slice())?;
    means.gate.before_work(boards.as_slice(), firsts.as_slice());
    let table = find_all(rt, alloc, boards.as_slice(), limits, means)?;
    means.gate.after_work();
    write_leads(output, boards.as_slice(), &table)?;
    Ok(report_of(boards.as_slice(), &table))
}
