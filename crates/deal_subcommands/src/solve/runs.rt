//! The answer that a solver finds.

ghost use Rattle.std.specs.Prelude.{◌∷◌, ◌++◌, codes};
ghost use Rattle.std.specs.Fmt.{decimal};
ghost use Rattle.cards.specs.Devices.{Writes};
ghost use Rattle.certificate_graph.specs.Texts.{graph_text};
ghost use Rattle.deal_subcommands.specs.Solve.Runs.{FindsAnswer, SolvesLayout, answer_text};
ghost use Rattle.deal_subcommands.specs.Solve.Runs.{result_line};
ghost use Rattle.streams.specs.RunStreams.{devices_of};
ghost use Rattle.deal_subcommands.specs.Solve.Runs.{RunsSolve};

use crate::faults::{DealFault, done, write_failed};
use crate::solve::options::SolveOptions;
use cards::{DeviceFault, Layout, Seat, Sink, Source, Trump, write_all, write_number};
use certificate_graph::{Answer, Graph, Solver};
use pbn_deals::read_layout;
use run_ends::{Status, end};
use std::alloc::Global;
use streams::Streams;

/// Has the solver look for an answer for the layout that the bytes spell, and writes its text.
///
/// Refuses bytes that spell no layout before the solver is asked. Nothing was written after any fault but a failed
/// output, and after that one a beginning of the text.
pub fn solve_layout<P: Solver, O: Sink>(
    alloc: Global,
    value: &[u8],
    declarer: Seat,
    trump: Trump,
    budget: u64,
    solver: &P,
    output: &mut O,
) -> Result<(), DealFault>
    ensures { SolvesLayout (P.may_find solver.now) value.now declarer trump budget (O.state output.old)
        (O.state output.new) result }
{
    let layout = read_layout(value).map_err(DealFault::Layout)?;
    let answer = find_answer(alloc, &layout, declarer, trump, budget, solver)?;
    match write_answer(&answer, output) {
        Ok(()) => Ok(()),
        Err(fault) => Err(write_failed(fault)),
    }
}

/// The solver's answer for this declarer alone, or that there is none: also where it claims over 13 tricks, which no
/// result line can say.
fn find_answer<P: Solver>(
    alloc: Global,
    layout: &Layout,
    declarer: Seat,
    trump: Trump,
    budget: u64,
    solver: &P,
) -> Result<Answer, DealFault>
    ensures { FindsAnswer (P.may_find solver.now) layout.now declarer trump budget result }
{
    let Ok(found) = solver.solve(alloc, layout, &[declarer], trump, budget) else {
        return Err(DealFault::OutOfMemory);
    };
    let Some(bundle) = found else {
        return Err(DealFault::NoAnswer);
    };
    let Ok(answered) = bundle.answer_for(alloc, declarer) else {
        return Err(DealFault::OutOfMemory);
    };
    match answered {
        Some(answer) if answer.k <= 13 => {
            answer.declarer.invariant();
            answer.defenders.invariant();
            Ok(answer)
        }
        _ => Err(DealFault::NoAnswer),
    }
}

/// Writes the text of an answer: the line of its tricks, and the texts of two graphs with an empty line between them.
fn write_answer<O: Sink>(answer: &Answer, output: &mut O) -> Result<(), DeviceFault>
    ensures { Writes (O.state output.old) (O.state output.new)
        (answer_text answer.now.k answer.now.declarer answer.now.defenders) result }
{
    write_result(answer.k, output)?;
    write_graphs(&answer.declarer, &answer.defenders, output)
}

/// Writes the line of so many tricks.
fn write_result<O: Sink>(tricks: u8, output: &mut O) -> Result<(), DeviceFault>
    ensures { Writes (O.state output.old) (O.state output.new) (result_line tricks) result }
{
    write_all(output, b"result ")?;
    write_number(output, u64::from(tricks))?;
    write_all(output, b"\n")
}

/// Writes the texts of two graphs with an empty line between them.
fn write_graphs<O: Sink>(
    declarers: &Graph,
    defenders: &Graph,
    output: &mut O,
) -> Result<(), DeviceFault>
    ensures { Writes (O.state output.old) (O.state output.new)
        (graph_text declarers.now ++ 10 ∷ graph_text defenders.now) result }
{
    declarers.write(output)?;
    write_all(output, b"\n")?;
    defenders.write(output)
}

/// Finds an answer for the layout of the words and writes it, or tells why it can't, and answers how the run ends.
pub fn run<P: Solver, I: Source, O: Sink, E: Sink>(
    alloc: Global,
    options: SolveOptions<'_>,
    solver: &P,
    streams: &mut Streams<I, O, E>,
) -> Status
    ensures { RunsSolve (P.may_find solver.now) options.entry (devices_of I.state O.state E.state streams.old)
        (devices_of I.state O.state E.state streams.new) result }
{
    let (deal, output) = (options.deal, &mut streams.output);
    let value = deal.layout.as_bytes();
    let found = solve_layout(
        alloc,
        value,
        deal.seat,
        deal.trump,
        options.budget,
        solver,
        output,
    );
    end(done(found), None, &mut streams.errors)
}
