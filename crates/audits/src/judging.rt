//! What pieces of evidence show.

ghost use Rattle.std.specs.Prelude.{◌≡◌, ◌≤◌, IfOk, length};
ghost use Rattle.std.specs.Thread.{IsSync};
ghost use Rattle.lease_book.specs.Books.{AreBoards};
ghost use Rattle.checker.specs.Pairs.{IsPairOf};
ghost use Rattle.audits.specs.Firsts.{AreShownBy};
ghost use Rattle.audits.specs.Batches.{AreJudged, Judges, JudgesSection};

use crate::batches::bytes_of;
use crate::boards::board_with;
use crate::firsts::FirstProofs;
use cards::OutOfMemory;
use certificate_graph::{Bundle, Graph};
use checker::{CheckedGraph, CheckedPair, Proven, check_claim, graphs_have_one_answer};
use evidence::{Part, Piece, Section};
use pbn_deals::Board;
use std::alloc::{AllocError, Global};
use std::sync::Arc;
use std::thread;
use std::thread::Threads;

/// A section is large if its piece has 4 MiB or more.
const LARGE: usize = 4_194_304;

/// What a piece of evidence shows.
#[derive(Drop)]
pub(crate) enum Judged {
    /// Its section shows this. The number is that of the first board with its deal.
    Shows { board: usize, proofs: Vec<Proven> },
    /// Its section adds nothing.
    Passed,
    /// It is damaged.
    Damaged { at: u64 },
    /// Memory ran out.
    NoMemory,
}

/// Checks a graph once, on this thread.
fn checked(alloc: Global, graph: &Arc<Graph>) -> Result<Arc<CheckedGraph>, AllocError>
    ensures { IfOk result (λ checked. checked.value ≡ graph.now.value) }
{
    let graph = graph.clone()?;
    Ok(Arc::new(alloc, CheckedGraph::of(graph))?)
}

/// Checks the graphs of a bundle. If its section is large, several threads check a large graph: one alone would be at
/// work when the other sections are done. Else each new thread would cost more than it gains.
fn checked_pair<R: Threads + Sync>(
    rt: &R,
    alloc: Global,
    bundle: &Bundle,
    is_large: bool,
) -> Result<CheckedPair, AllocError>
    ensures { IfOk result (IsPairOf bundle.now) }
{
    if is_large {
        return CheckedPair::of(rt, alloc, bundle);
    }
    Ok(CheckedPair {
        ns: checked(alloc, &bundle.ns)?,
        ew: checked(alloc, &bundle.ew)?,
    })
}

/// Checks the graphs of a section, and gives the proofs of those of its claims that they show.
fn proofs_of<R: Threads + Sync>(
    rt: &R,
    alloc: Global,
    section: Section,
    is_large: bool,
) -> Result<Vec<Proven>, OutOfMemory>
    ensures { IfOk result (λ proofs. AreShownBy section proofs.items) }
{
    let (layout, trump) = (*section.layout(), section.trump());
    let bundle = section.into_bundle();
    let Ok(pair) = checked_pair(rt, alloc, &bundle, is_large) else {
        return Err(OutOfMemory);
    };
    graphs_have_one_answer();
    let mut proofs = Vec::new(alloc);
    for claim in bundle.claims.iter() {
        let Ok(claimed) = pair.claimed(*claim) else {
            return Err(OutOfMemory);
        };
        let Ok(proven) = check_claim(&layout, claim.declarer, trump, &claimed) else {
            continue;
        };
        if proofs.push(proven).is_err() {
            return Err(OutOfMemory);
        }
    }
    Ok(proofs)
}

/// Checks a section, unless its deal is on no board, or there is a proof for each of its claims.
fn judge_section<R: Threads + Sync>(
    rt: &R,
    alloc: Global,
    boards: &[Board],
    firsts: &FirstProofs,
    section: Section,
    is_large: bool,
) -> Judged
    requires { AreBoards boards.now }
    ensures { JudgesSection boards.now firsts.now section result }
{
    let Some(board) = board_with(boards, section.layout()) else {
        return Judged::Passed;
    };
    if firsts.are_known(board, section.trump(), section.claims()) {
        return Judged::Passed;
    }
    match proofs_of(rt, alloc, section, is_large) {
        Ok(proofs) => Judged::Shows { board, proofs },
        Err(_) => Judged::NoMemory,
    }
}

/// Reads a piece, and checks its section.
fn judge<R: Threads + Sync>(
    rt: &R,
    alloc: Global,
    boards: &[Board],
    firsts: &FirstProofs,
    piece: &Piece,
) -> Judged
    requires { AreBoards boards.now }
    ensures { Judges boards.now firsts.now piece.now result }
{
    match piece.read(alloc) {
        Ok(Part::Found(section)) => {
            judge_section(rt, alloc, boards, firsts, section, piece.len() >= LARGE)
        },
        Ok(Part::Damaged { at }) => Judged::Damaged { at },
        Ok(Part::End) | Err(_) => Judged::NoMemory,
    }
}

/// Reads pieces and checks their sections, one after another.
fn judge_each<R: Threads + Sync>(
    rt: &R,
    alloc: Global,
    boards: &[Board],
    firsts: &FirstProofs,
    pieces: &[Piece],
) -> Result<Vec<Judged>, AllocError>
    requires { AreBoards boards.now }
    ensures { IfOk result (λ judged. AreJudged boards.now firsts.now pieces.now judged.items) }
{
    let mut judged = Vec::with_capacity(alloc, pieces.len())?;
    for piece in pieces {
        judged.push(judge(rt, alloc, boards, firsts, piece))?;
    }
    Ok(judged)
}

/// The place, from 1 on, before which about half of the bytes lie.
fn middle_of(pieces: &[Piece]) -> usize
    ensures { result ≤ length pieces.now }
{
    let all = bytes_of(pieces);
    let mut before = 0usize;
    for place in 0..pieces.len() {
        let own = pieces[place].len();
        if place > 0 && before.saturating_add(own / 2) >= all / 2 {
            return place;
        }
        before = before.saturating_add(own);
    }
    pieces.len()
}

/// Reads pieces and checks their sections: those of one half of the bytes in a thread of its own, and so on with each
/// half, so many times.
fn judge_halves<R: Threads + Sync>(
    rt: &R,
    alloc: Global,
    boards: &[Board],
    firsts: &FirstProofs,
    pieces: &[Piece],
    halvings: u32,
) -> Result<Vec<Judged>, AllocError>
    requires { AreBoards boards.now }
    ensures { IfOk result (λ judged. AreJudged boards.now firsts.now pieces.now judged.items) }
{
    if halvings == 0 || pieces.len() < 2 {
        return judge_each(rt, alloc, boards, firsts, pieces);
    }
    let fewer = halvings - 1;
    let (left, right) = pieces.split_at(middle_of(pieces));
    let (one, other) = thread::join(
        rt,
        || -> Result<Vec<Judged>, AllocError>
            requires { IsSync R.row × AreBoards boards.now }
            ensures { IfOk result (λ judged. AreJudged boards.entry.now firsts.entry.now left.entry.now judged.items) }
        { judge_halves(rt, alloc, boards, firsts, left, fewer) },
        || -> Result<Vec<Judged>, AllocError>
            requires { IsSync R.row × AreBoards boards.now }
            ensures { IfOk result (λ judged. AreJudged boards.entry.now firsts.entry.now right.entry.now judged.items) }
        { judge_halves(rt, alloc, boards, firsts, right, fewer) },
    );
    let (mut one, mut other) = (one?, other?);
    one.append(&mut other)?;
    Ok(one)
}

/// Reads pieces and checks their sections, with at most two to four threads per processor: so few processors are idle
/// where some threads have less to do than others.
pub(crate) fn judge_all<R: Threads + Sync>(
    rt: &R,
    alloc: Global,
    boards: &[Board],
    firsts: &FirstProofs,
    pieces: &[Piece],
) -> Result<Vec<Judged>, AllocError>
    requires { AreBoards boards.now }
    ensures { IfOk result (λ judged. AreJudged boards.now firsts.now pieces.now judged.items) }
{
    let others = rayon::current_num_threads(rt).saturating_sub(1);
    if others == 0 {
        return judge_each(rt, alloc, boards, firsts, pieces);
    }
    let halvings = usize::BITS.saturating_sub(others.leading_zeros());
    judge_halves(
        rt,
        alloc,
        boards,
        firsts,
        pieces,
        halvings.saturating_add(1),
    )
}
