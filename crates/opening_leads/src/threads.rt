//! The tasks, on several threads.

ghost use Rattle.std.specs.Prelude.{◌≡◌, ◌<◌, ◌≤◌, ◌*◌, ℕ, None, All, IfOk, length, vec_len, slice_index_or};
ghost use Rattle.opening_leads.specs.Answers.{AreFoundOn};
ghost use Rattle.opening_leads.specs.Tasks.{IsDone, IsShare, AreNoted, NotesDone, leads_in};

use crate::finding::find_rows;
use crate::making::{LeadLimits, LeadMeans};
use crate::rows::{DeclarerRows, Lack, LeadTable};
use card_values::CardValue;
use cards::{Seat, Trump};
use certificate_graph::CardSolver;
use lease_book::{Entry, Gate, Reply};
use pbn_deals::Board;
use std::alloc::{AllocError, Global};
use std::sync::atomic::{AtomicUsize, Ordering};
use std::thread;
use std::thread::Threads;

/// How many tasks a board has: one for each denomination.
const TASKS: usize = 5;

/// What a task found, with its number.
type Done = (usize, DeclarerRows);

/// The tricks of declarer's side after the best of these leads.
fn tricks_left(leads: &[CardValue]) -> u8 {
    let mut most = 0;
    for lead in leads {
        most = lead.tricks.max(most);
    }
    13u8.saturating_sub(most)
}

/// Tells the gate of the rows that were found for a board, by its place from 0, in a denomination: what each contract
/// comes to.
fn tell_rows<G: Gate>(gate: &G, board: usize, trump: Trump, rows: &DeclarerRows) {
    for declarer in Seat::ALL {
        if let Ok(leads) = rows.row(declarer) {
            let entry = Entry {
                board,
                declarer,
                trump,
            };
            gate.after_check(entry, Reply::Published(tricks_left(leads)));
        }
    }
}

/// Does a task: the leads of a board in a denomination.
fn do_task<S: CardSolver, G: Gate>(
    alloc: Global,
    boards: &[Board],
    task: usize,
    budget: u64,
    means: &LeadMeans<'_, S, G>,
) -> DeclarerRows
    requires { task < 5 * length boards.now }
    ensures { IsDone (S.may_find_cards means.now.solver.now) budget boards.now task result }
{
    match &boards[task / TASKS].deal {
        Some(layout) => {
            let trump = Trump::ALL[task % TASKS];
            let rows = find_rows(alloc, layout, trump, budget, means.solver);
            tell_rows(means.gate, task / TASKS, trump, &rows);
            rows
        }
        None => DeclarerRows::lacking(Lack::Deal),
    }
}

/// Takes one task after another, each the next one that no thread has taken, and does it. If memory runs out, no thread
/// takes another task.
fn take_tasks<S: CardSolver, G: Gate>(
    alloc: Global,
    boards: &[Board],
    budget: u64,
    means: &LeadMeans<'_, S, G>,
    next: &AtomicUsize,
) -> Result<Vec<Done>, AllocError>
    requires { length boards.now ≤ 4096 }
    ensures { IsShare (S.may_find_cards means.now.solver.now) budget boards.now result }
{
    let count = TASKS * boards.len();
    let mut done = Vec::new(alloc);
    for _turn in 0..count {
        let task = next.fetch_add(1, Ordering::SeqCst);
        if task >= count {
            break;
        }
        let found = do_task(alloc, boards, task, budget, means);
        if done.push((task, found)).is_err() {
            next.store(count, Ordering::SeqCst);
            return Err(AllocError);
        }
    }
    Ok(done)
}

/// Makes places for notes, with nothing noted.
fn make_places(alloc: Global, count: usize) -> Result<Vec<Option<DeclarerRows>>, AllocError>
    ensures len { IfOk result (λ noted. vec_len noted ≡ count) }
    ensures none { IfOk result (λ noted. (task : ℕ) → slice_index_or noted.items task None ≡ None) }
{
    let mut noted = Vec::with_capacity(alloc, count)?;
    for _task in 0..count {
        noted.push(None)?;
    }
    Ok(noted)
}

/// Notes what tasks found, at their places.
fn note_all(noted: &mut Vec<Option<DeclarerRows>>, mut done: Vec<Done>)
    ensures len { vec_len noted.new ≡ vec_len noted.old }
    ensures notes { NotesDone noted.old.items noted.new.items done.items }
{
    while let Some((task, rows)) = done.pop() {
        if task < noted.len() {
            noted[task] = Some(rows);
        }
    }
}

/// Does the tasks of which nothing is noted. There are none if the threads have taken all tasks.
fn do_others<S: CardSolver, G: Gate>(
    alloc: Global,
    boards: &[Board],
    budget: u64,
    means: &LeadMeans<'_, S, G>,
    mut noted: Vec<Option<DeclarerRows>>,
) -> LeadTable
    requires few { length boards.now ≤ 4096 }
    requires len { vec_len noted ≡ 5 * length boards.now }
    requires noted { AreNoted (S.may_find_cards means.now.solver.now) budget boards.now noted.items }
    ensures { AreFoundOn (S.may_find_cards means.now.solver.now) budget boards.now (leads_in result) }
{
    for task in 0..noted.len() {
        if noted[task].is_none() {
            noted[task] = Some(do_task(alloc, boards, task, budget, means));
        }
    }
    LeadTable::new(noted)
}

/// Notes what the threads found, and does the tasks that no thread has taken.
fn gather<S: CardSolver, G: Gate>(
    alloc: Global,
    boards: &[Board],
    budget: u64,
    means: &LeadMeans<'_, S, G>,
    mut shares: Vec<Result<Vec<Done>, AllocError>>,
) -> Result<LeadTable, AllocError>
    requires few { length boards.now ≤ 4096 }
    requires shares { All (IsShare (S.may_find_cards means.now.solver.now) budget boards.now) shares.items }
    ensures { IfOk result (λ table. AreFoundOn (S.may_find_cards means.now.solver.now) budget boards.now (leads_in table)) }
{
    let mut noted = make_places(alloc, TASKS * boards.len())?;
    while let Some(share) = shares.pop() {
        note_all(&mut noted, share?);
    }
    Ok(do_others(alloc, boards, budget, means, noted))
}

/// Finds the leads of all boards, with as many threads as there are to be solvers. Whatever the schedule, the rows are
/// those that one answer for each board and denomination shows. If a thread can't be started, others do its share.
pub(crate) fn find_all<R: Threads + Sync, S: CardSolver + Sync, G: Gate + Sync>(
    rt: &R,
    alloc: Global,
    boards: &[Board],
    limits: LeadLimits,
    means: &LeadMeans<'_, S, G>,
) -> Result<LeadTable, AllocError>
    requires { length boards.now ≤ 4096 }
    ensures { IfOk result (λ table.
        AreFoundOn (S.may_find_cards means.now.solver.now) limits.budget boards.now (leads_in table)) }
{
    let next = AtomicUsize::new(0);
    let LeadLimits { solvers, budget } = limits;
    let shares = thread::map_indices(
        rt,
        alloc,
        solvers.min(TASKS * boards.len()),
        &|_thread: usize| -> Result<Vec<Done>, AllocError>
            requires { length boards.now ≤ 4096 }
            ensures { IsShare (S.may_find_cards means.entry.now.solver.now) budget boards.entry.now result }
        { take_tasks(alloc, boards, budget, means, &next) },
    )?;
    gather(alloc, boards, budget, means, shares)
}
