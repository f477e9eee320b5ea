//! The whole of some evidence, as it is read.

ghost use Rattle.std.specs.Prelude.{◌≡◌, [], IfOk};
ghost use Rattle.std.specs.Thread.{IsSync};
ghost use Rattle.lease_book.specs.Books.{AreBoards};
ghost use Rattle.audits.specs.Firsts.{HasPlaces};
ghost use Rattle.audits.specs.Batches.{AreJudged, ReadsBehind, fault_behind};
ghost use Rattle.audits.specs.Shows.{ReadsFirsts};

use crate::batches::{Batch, FIRST_FULL, full_after, read_batch};
use crate::firsts::FirstProofs;
use crate::judging::{Judged, judge_all};
use cards::Source;
use evidence::{Damage, Piece, Sections};
use pbn_deals::Board;
use std::alloc::{AllocError, Global};
use std::thread::{Threads, join_mut};
use streams::InputFault;

/// How far evidence was read.
#[derive(Clone, Copy, Debug, PartialEq, Eq)]
pub struct EvidenceRead {
    /// The pieces that were passed over.
    pub damage: Damage,
    /// Ok if the evidence was read to its end. If not, the pieces before the fault were read.
    pub ended: Result<(), InputFault>,
}

/// How reading ended, if memory ran out for a piece after this was read: a fault of the reading itself comes first.
fn fault_of(ended: &Option<Result<(), InputFault>>) -> InputFault
    ensures { result ≡ fault_behind ended.now }
{
    match ended {
        Some(Err(fault)) => *fault,
        Some(Ok(())) | None => InputFault::OutOfMemory,
    }
}

/// A batch that is to be judged, and the pieces of the batch before it. These are of no more use.
#[derive(Drop)]
struct Course {
    batch: Batch,
    spent: Vec<Piece>,
}

/// Frees pieces, and reads the batch after this one. After the last batch it returns one without pieces, which ended as
/// that one did.
fn batch_after<E: Source>(
    alloc: Global,
    batch: &Batch,
    spent: &mut Vec<Piece>,
    evidence: &mut Sections<E>,
) -> Batch
    ensures { ReadsBehind batch.now.ended evidence.old evidence.new result.pieces.items result.ended }
{
    spent.clear();
    if batch.ended.is_some() {
        return Batch {
            pieces: Vec::new(alloc),
            ended: batch.ended,
        };
    }
    read_batch(alloc, full_after(batch.pieces.as_slice()), evidence)
}

/// Judges the pieces of a batch. At the same time it frees those of the batch before, and reads the batch after, as
/// `batch_after` does.
fn judge_and_read<R: Threads + Sync, E: Source>(
    rt: &R,
    alloc: Global,
    boards: &[Board],
    firsts: &FirstProofs,
    course: &mut Course,
    evidence: &mut Sections<E>,
) -> (Result<Vec<Judged>, AllocError>, Batch)
    requires { AreBoards boards.now }
    ensures judged { IfOk result.0
        (λ judged. AreJudged boards.now firsts.now course.old.batch.pieces.items judged.items) }
    ensures behind { ReadsBehind course.old.batch.ended evidence.old evidence.new
        result.1.pieces.items result.1.ended }
    ensures kept { course.new.batch ≡ course.old.batch }
{
    let Course { batch, spent } = course;
    let pieces = batch.pieces.as_slice();
    join_mut(
        rt,
        &mut || -> Result<Vec<Judged>, AllocError>
            requires { IsSync R.row × AreBoards boards.now }
            ensures { IfOk result (λ made. AreJudged boards.entry.now firsts.entry.now pieces.entry.now made.items) }
        { judge_all(rt, alloc, boards, firsts, pieces) },
        &mut || batch_after(alloc, batch, spent, evidence),
    )
}

/// Reads evidence to its end, a batch of pieces at a time, checks each section whose deal is on a board, on several
/// processors, and notes the first proof of each entry.
pub(crate) fn read_firsts<R: Threads + Sync, E: Source>(
    rt: &R,
    alloc: Global,
    boards: &[Board],
    evidence: &mut Sections<E>,
    firsts: &mut FirstProofs,
) -> EvidenceRead
    requires boards { AreBoards boards.now }
    requires none { firsts.old ≡ [] }
    ensures reads { ReadsFirsts boards.now evidence.old evidence.new firsts.new result }
    ensures places { HasPlaces boards.now firsts.new }
{
    let mut damage = Damage::none();
    let mut course = Course {
        batch: read_batch(alloc, FIRST_FULL, evidence),
        spent: Vec::new(alloc),
    };
    for _turn in 0..u64::MAX {
        let (judged, next) = judge_and_read(rt, alloc, boards, firsts, &mut course, evidence);
        let Ok(judged) = judged else {
            let ended = Err(fault_of(&next.ended));
            return EvidenceRead { damage, ended };
        };
        let (after, is_whole) = firsts.note_batch(alloc, boards, damage, judged.as_slice());
        damage = after;
        if !is_whole {
            let ended = Err(fault_of(&next.ended));
            return EvidenceRead { damage, ended };
        }
        if let Some(ended) = course.batch.ended {
            return EvidenceRead { damage, ended };
        }
        course = Course {
            batch: next,
            spent: course.batch.pieces,
        };
    }
    let ended = Err(fault_of(&course.batch.ended));
    EvidenceRead { damage, ended }
}
