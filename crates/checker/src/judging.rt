//! The verdict on two texts.

ghost use Rattle.std.specs.Prelude.{◌≡◌, Ok, Err, MatchOption, IfOk};
ghost use Rattle.checker.specs.declared.hand_faults.HandFault.TheVariants.{NoDeal};
ghost use Rattle.checker.specs.Judging.{JudgesGraphs};
ghost use Rattle.checker.specs.Verdicts.{IsVerdict};

use crate::entries::{Proven, check_entry};
use crate::hand_faults::HandFault;
use cards::{Layout, OutOfMemory, Seat, Trump};
use certificate_graph::{Graph, TextFault};
use std::alloc::Global;

/// The verdict on texts that were handed in: the proof, or the first fault.
pub type Verdict = Result<Proven, HandFault>;

/// The texts of two certificates.
#[derive(Clone, Copy)]
pub struct Texts<'a> {
    /// For declarer's side.
    pub declarers: &'a [u8],
    /// For the defenders.
    pub defenders: &'a [u8],
}

/// A number that was accepted, with the graphs that show it.
#[derive(Drop)]
pub struct Accepted {
    pub proven: Proven,
    pub declarers: Graph,
    pub defenders: Graph,
}

/// Reads the graphs of both sides from their texts, and checks that they show that declarer's side takes just this many
/// tricks of the layout. If they do, the graphs are handed out. Otherwise the answer is the first fault: that of the
/// text for declarer's side, then that of the text for the defenders, then that of the graphs. If memory ran out, it is
/// [`OutOfMemory`].
pub fn judge_graphs(
    alloc: Global,
    layout: &Layout,
    declarer: Seat,
    trump: Trump,
    k: u8,
    texts: Texts<'_>,
) -> Result<Result<Accepted, HandFault>, OutOfMemory>
    ensures { IfOk result
        (JudgesGraphs layout.now declarer trump k texts.entry.declarers.now texts.entry.defenders.now) }
{
    let declarers = match Graph::read(alloc, texts.declarers) {
        Ok(graph) => graph,
        Err(TextFault::OutOfMemory) => return Err(OutOfMemory),
        Err(fault) => return Ok(Err(HandFault::DeclarerText(fault))),
    };
    let defenders = match Graph::read(alloc, texts.defenders) {
        Ok(graph) => graph,
        Err(TextFault::OutOfMemory) => return Err(OutOfMemory),
        Err(fault) => return Ok(Err(HandFault::DefendersText(fault))),
    };
    match check_entry(layout, declarer, trump, k, &declarers, &defenders) {
        Ok(proven) => Ok(Ok(Accepted {
            proven,
            declarers,
            defenders,
        })),
        Err(fault) => Ok(Err(HandFault::Entry(fault))),
    }
}

/// The same without the graphs. If there is no layout, the fault is [`HandFault::NoDeal`].
pub fn judge(
    alloc: Global,
    layout: Option<&Layout>,
    declarer: Seat,
    trump: Trump,
    k: u8,
    texts: Texts<'_>,
) -> Result<Verdict, OutOfMemory>
    ensures { MatchOption layout.entry
        (result ≡ Ok (Err NoDeal))
        (λ layout. IfOk result
        (IsVerdict layout.now declarer trump k texts.entry.declarers.now texts.entry.defenders.now)) }
{
    let Some(layout) = layout else {
        return Ok(Err(HandFault::NoDeal));
    };
    match judge_graphs(alloc, layout, declarer, trump, k, texts)? {
        Ok(accepted) => Ok(Ok(accepted.proven)),
        Err(fault) => Ok(Err(fault)),
    }
}
