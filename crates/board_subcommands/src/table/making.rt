//! The tables by many threads.

ghost use Rattle.std.specs.Prelude.{◌≡◌, IsSome, Some};
ghost use Rattle.streams.specs.RunStreams.{devices};
ghost use Rattle.board_subcommands.specs.Table.Halts.{halted_fault};
ghost use Rattle.board_subcommands.specs.Table.Made.{MakesBook, MakesTables};

use crate::table::options::TableOptions;
use cards::{Sink, Source};
use certificate_graph::Solver;
use farm::{Clock, FarmFault, Means, Settings, Unclaimed, run_farm};
use lease_book::{Book, Gate};
use std::alloc::Global;
use std::sync::Wait;
use std::thread::Threads;
use streams::read_all;
use tables::Report;
use tournaments::{MakeFault, put_page, take_boards};

/// Why nothing is made where a farm over boards of a text was halted.
pub(crate) fn halted(fault: FarmFault) -> MakeFault
    requires { IsSome (halted_fault fault) }
    ensures { halted_fault fault ≡ Some result }
{
    match fault {
        FarmFault::OutOfMemory => MakeFault::OutOfMemory,
        FarmFault::NoThread => MakeFault::NoThread,
        FarmFault::Book(_) => unreachable!(),
    }
}

/// Reads a PBN text to its end, and has a farm work through its boards, as the settings say. The text and the book of
/// the run are handed out, and how many leases got no claim.
fn make_book<
    I: Source,
    S: Solver + Sync,
    G: Gate + Sync,
    C: Clock + Sync,
    R: Threads + Wait + Sync,
>(
    rt: &R,
    alloc: Global,
    input: &mut I,
    settings: Settings,
    means: &Means<'_, S, G, C>,
) -> Result<(Vec<u8>, Book, Unclaimed), MakeFault>
    ensures { MakesBook (S.may_find means.now.solver.now) (C.may_tell means.now.clock.now) settings
        (I.state input.old) (I.state input.new) result }
{
    let text = read_all(alloc, input)?;
    let boards = take_boards(alloc, text.as_slice())?;
    match run_farm(rt, alloc, boards, settings, means) {
        Ok((book, unclaimed)) => Ok((text, book, unclaimed)),
        Err(fault) => Err(halted(fault)),
    }
}

/// Reads the boards of a PBN text to its end, has a farm work through them, and writes the page of what was shown, as
/// the settings and the page of the options say. (The other options are not looked at.) The book of the run is handed
/// out, and how many leases got no claim.
///
/// Whatever the solver answers, the gate does and the clock tells, and in whatever order the threads work, a number
/// that is written is the double-dummy value of its deal, and is written once: an answer whose certificates don't show
/// it gives none. Each entry whose board has a deal has a number, or was leased as often as the settings allow, and no
/// lease was settled twice (`IsRun`). The solver was asked for each lease, but for those that are counted as lost for
/// want of memory (`AreSearched`). With all refusals but a failed sink nothing was written.
pub fn make_tables<
    I: Source,
    O: Sink,
    S: Solver + Sync,
    G: Gate + Sync,
    C: Clock + Sync,
    R: Threads + Wait + Sync,
>(
    rt: &R,
    alloc: Global,
    options: TableOptions<'_>,
    means: &Means<'_, S, G, C>,
    input: &mut I,
    output: &mut O,
) -> Result<(Report, Book, Unclaimed), MakeFault>
    ensures { MakesTables (S.may_find means.now.solver.now) (C.may_tell means.now.clock.now) options.entry
        (devices (I.state input.old) (O.state output.old))
        (devices (I.state input.new) (O.state output.new)) result }
{
    let (text, book, unclaimed) = make_book(rt, alloc, input, options.settings, means)?;
    let report = put_page(alloc, text.as_slice(), &book, options.page, output)?;
    Ok((report, book, unclaimed))
}
