//! The games, on several threads.

ghost use Rattle.std.specs.Prelude.{◌≡◌, ◌<◌, ℕ, None, All, IfOk, length, vec_len, slice_index_or};
ghost use Rattle.play_pages.specs.Answers.{AreFoundOn};
ghost use Rattle.play_pages.specs.Tasks.{AreLegal, IsDone, IsShare, AreNoted, NotesDone, lines_in};

use crate::finding::find_lines;
use crate::lines::PlayLines;
use crate::page_tables::PageTable;
use crate::queries::PlayQuery;
use play_claims::PlaySolver;
use recorded_plays::RecordedGame;
use std::alloc::{AllocError, Global};
use std::sync::atomic::{AtomicUsize, Ordering};
use std::thread;
use std::thread::Threads;

/// What a task found, with its number.
type Done = (usize, PlayLines);

/// Does a task: the lines of the game in this place.
fn do_task<S: PlaySolver>(
    alloc: Global,
    games: &[RecordedGame<'_>],
    task: usize,
    query: PlayQuery,
    solver: &S,
) -> PlayLines
    requires within { task < length games.now }
    requires legal { AreLegal games.now }
    ensures { IsDone (S.may_find_play solver.now) query games.now task result }
{
    match &games[task].play {
        Ok(play) => find_lines(alloc, play, query, solver),
        Err(_) => PlayLines::none(),
    }
}

/// Takes one task after another, each the next one that no thread has taken, and does it. If memory runs out, no thread
/// takes another task.
fn take_tasks<S: PlaySolver>(
    alloc: Global,
    games: &[RecordedGame<'_>],
    query: PlayQuery,
    solver: &S,
    next: &AtomicUsize,
) -> Result<Vec<Done>, AllocError>
    requires { AreLegal games.now }
    ensures { IsShare (S.may_find_play solver.now) query games.now result }
{
    let mut done = Vec::new(alloc);
    for _turn in 0..games.len() {
        let task = next.fetch_add(1, Ordering::SeqCst);
        if task >= games.len() {
            break;
        }
        let found = do_task(alloc, games, task, query, solver);
        if done.push((task, found)).is_err() {
            next.store(games.len(), Ordering::SeqCst);
            return Err(AllocError);
        }
    }
    Ok(done)
}

/// Makes places for notes, with nothing noted.
fn make_places(alloc: Global, count: usize) -> Result<Vec<Option<PlayLines>>, AllocError>
    ensures len { IfOk result (λ noted. vec_len noted ≡ count) }
    ensures none { IfOk result (λ noted. (task : ℕ) → slice_index_or noted.items task None ≡ None) }
{
    let mut noted = Vec::with_capacity(alloc, count)?;
    for _task in 0..count {
        noted.push(None)?;
    }
    Ok(noted)
}

/// Notes what tasks found, at their places.
fn note_all(noted: &mut Vec<Option<PlayLines>>, mut done: Vec<Done>)
    ensures len { vec_len noted.new ≡ vec_len noted.old }
    ensures notes { NotesDone noted.old.items noted.new.items done.items }
{
    while let Some((task, lines)) = done.pop() {
        if task < noted.len() {
            noted[task] = Some(lines);
        }
    }
}

/// Does the tasks of which nothing is noted. There are none if the threads have taken all tasks.
fn do_others<S: PlaySolver>(
    alloc: Global,
    games: &[RecordedGame<'_>],
    query: PlayQuery,
    solver: &S,
    mut noted: Vec<Option<PlayLines>>,
) -> PageTable
    requires legal { AreLegal games.now }
    requires len { vec_len noted ≡ length games.now }
    requires noted { AreNoted (S.may_find_play solver.now) query games.now noted.items }
    ensures len { length result ≡ length games.now }
    ensures found { AreFoundOn (S.may_find_play solver.now) query games.now (lines_in result) }
{
    for task in 0..noted.len() {
        if noted[task].is_none() {
            noted[task] = Some(do_task(alloc, games, task, query, solver));
        }
    }
    PageTable::new(noted)
}

/// Notes what the threads found, and does the tasks that no thread has taken.
fn gather<S: PlaySolver>(
    alloc: Global,
    games: &[RecordedGame<'_>],
    query: PlayQuery,
    solver: &S,
    mut shares: Vec<Result<Vec<Done>, AllocError>>,
) -> Result<PageTable, AllocError>
    requires legal { AreLegal games.now }
    requires shares { All (IsShare (S.may_find_play solver.now) query games.now) shares.items }
    ensures { IfOk result (λ table. AreFoundOn (S.may_find_play solver.now) query games.now (lines_in table)) }
{
    let mut noted = make_places(alloc, games.len())?;
    while let Some(share) = shares.pop() {
        note_all(&mut noted, share?);
    }
    Ok(do_others(alloc, games, query, solver, noted))
}

/// Finds the lines of all games that have a play, with as many threads as there are to be solvers. Whatever the
/// schedule, the numbers of a play are those that one answer shows. If a thread can't be started, others do its share.
pub(crate) fn find_all<R: Threads + Sync, S: PlaySolver + Sync>(
    rt: &R,
    alloc: Global,
    games: &[RecordedGame<'_>],
    solvers: usize,
    query: PlayQuery,
    solver: &S,
) -> Result<PageTable, AllocError>
    requires { AreLegal games.now }
    ensures { IfOk result (λ table. AreFoundOn (S.may_find_play solver.now) query games.now (lines_in table)) }
{
    let next = AtomicUsize::new(0);
    let shares = thread::map_indices(
        rt,
        alloc,
        solvers.min(games.len()),
        &|_thread: usize| -> Result<Vec<Done>, AllocError>
            requires { AreLegal games.now }
            ensures { IsShare (S.may_find_play solver.entry.now) query games.entry.now result }
        { take_tasks(alloc, games, query, solver, &next) },
    )?;
    gather(alloc, games, query, solver, shares)
}
