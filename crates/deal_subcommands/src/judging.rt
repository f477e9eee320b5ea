//! The verdict on an answer.

ghost use Rattle.deal_subcommands.specs.Judging.{JudgesAnswer, JudgesInput};

use crate::answers::read_answer;
use crate::faults::DealFault;
use cards::{Layout, OutOfMemory, Seat, Source, Trump};
use checker::{Accepted, HandFault, Texts, judge_graphs};
use std::alloc::Global;
use streams::read_all;

/// Reads an answer to its end and checks it. The graphs of an accepted answer are handed out.
pub(crate) fn judge_input<I: Source>(
    alloc: Global,
    input: &mut I,
    layout: &Layout,
    declarer: Seat,
    trump: Trump,
) -> Result<Result<Accepted, HandFault>, DealFault>
    ensures { JudgesInput layout.now declarer trump (I.state input.old) (I.state input.new) result }
{
    let text = read_all(alloc, input)?;
    judge_answer(alloc, text.as_slice(), layout, declarer, trump)
}

/// Checks the text of an answer, whose graphs are handed out if it is accepted.
pub(crate) fn judge_answer(
    alloc: Global,
    text: &[u8],
    layout: &Layout,
    declarer: Seat,
    trump: Trump,
) -> Result<Result<Accepted, HandFault>, DealFault>
    ensures { JudgesAnswer text.now layout.now declarer trump result }
{
    let Some((tricks, declarers, defenders)) = read_answer(text) else {
        return Err(DealFault::NoResult);
    };
    let texts = Texts {
        declarers,
        defenders,
    };
    match judge_graphs(alloc, layout, declarer, trump, tricks, texts) {
        Ok(Ok(accepted)) => {
            accepted.proven.invariant();
            Ok(Ok(accepted))
        }
        Ok(Err(fault)) => Ok(Err(fault)),
        Err(OutOfMemory) => Err(DealFault::OutOfMemory),
    }
}
