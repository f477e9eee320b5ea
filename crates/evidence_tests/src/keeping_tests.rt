//! What is added to a file, when the file is synced, and what is answered meanwhile.

use crate::asking::{Counts, Steps, expect_tricks, keeping_of, kept, tail_of, tricks_of_north};
use crate::disks::Disk;
use crate::expect::{expect, expect_eq};
use crate::untrue_sections::{layout, nines, section};
use cards::{Layout, Seat, Suit, Trump};
use certificate_graph::Solver;
use checker::Shown;
use evidence_solvers::KeepFault;
use lease_book::{Asked, Entry, Event, HandedIn, Reply};
use std::alloc::Global;
use std::process::Abort;
use std::sync::Wait;
use std::sync::atomic::Ordering::SeqCst;
use std::thread;
use std::thread::Threads;

/// Keeps five answers in the file of a disk, with a clock that goes on by this many seconds between two of them. Each
/// is handed on unchanged. Says what the file lacks at the end.
fn keep_five<R: Wait + Abort>(
    rt: &R,
    alloc: Global,
    disk: &Disk<'_, R>,
    step: u64,
) -> Result<(), KeepFault> {
    let layout = layout(rt, alloc);
    let text = section(rt, alloc, 9);
    let inner = Counts::of(text.as_str());
    let clock = Steps::new(step);
    let keeping = keeping_of(rt, alloc, &clock, &inner, tail_of(rt, disk));
    for _turn in 0..5u8 {
        expect_tricks(rt, alloc, &keeping, &layout, 9);
    }
    let kept = kept(keeping);
    expect_eq(rt, &inner.asked.load(SeqCst), &5);
    kept
}

/// Keeps five answers on a disk with this much room, and expects what is lacking and how often the file is written and
/// synced. It has these bytes then.
fn expect_five<R: Abort + Wait>(
    rt: &R,
    alloc: Global,
    disk: &Disk<'_, R>,
    step: u64,
    wanted: Result<(), KeepFault>,
    bytes: &[u8],
) {
    expect_eq(rt, &keep_five(rt, alloc, disk, step), &wanted);
    disk.expect_bytes(bytes);
}

/// Each answer is written by one call. The file is synced at the end, and after an answer if ten seconds have passed
/// since the last sync: with a clock that stands still only at the end.
#[test]
fn syncs(rt: HostRuntime) {
    let alloc = rt.alloc();
    let five = nines(&rt, alloc, 5);
    for (step, syncs) in [(0, 1), (2, 1), (3, 2), (4, 2), (9, 3), (10, 5), (3600, 5)] {
        let disk = Disk::new(&rt, Vec::new(alloc), usize::MAX);
        expect_five(&rt, alloc, &disk, step, Ok(()), five.as_bytes());
        expect_eq(&rt, &disk.calls(), &(5, syncs));
    }
}

/// A sync that fails is told at the end, and after it nothing is written. Each answer is still handed on.
#[test]
fn failing_syncs(rt: HostRuntime) {
    let alloc = rt.alloc();
    for (step, written) in [(0, 5), (4, 4), (10, 2)] {
        let disk = Disk::new(&rt, Vec::new(alloc), usize::MAX);
        disk.fails_syncs();
        let wanted = nines(&rt, alloc, written);
        let lacks = Err(KeepFault::Write);
        expect_five(&rt, alloc, &disk, step, lacks, wanted.as_bytes());
    }
}

/// A disk with this much room stops no answer. After a write that it didn't take whole there is none, and that is told
/// once, at the end.
fn expect_room<R: Abort + Wait>(rt: &R, alloc: Global, room: usize, length: usize, wanted: &[u8]) {
    let disk = Disk::new(rt, Vec::new(alloc), room);
    let whole = room.checked_div(length).unwrap_or(0);
    let (kept, writes) = if whole < 5 {
        (Err(KeepFault::Write), whole.saturating_add(1))
    } else {
        (Ok(()), 5)
    };
    expect_five(rt, alloc, &disk, 0, kept, wanted);
    expect_eq(rt, &disk.calls().0, &(writes as u64));
}

/// A disk whose room ends at any byte.
#[test]
fn full_disk(rt: HostRuntime) {
    let alloc = rt.alloc();
    let five = nines(&rt, alloc, 5);
    let length = section(&rt, alloc, 9).len();
    for room in 0..=five.len() {
        expect_room(&rt, alloc, room, length, &five.as_bytes()[..room]);
    }
}

/// An answer that is no section is handed on, and at the end it is said that it was left out: here the graphs are of
/// another denomination than the one that was asked for.
#[test]
fn no_section(rt: HostRuntime) {
    let alloc = rt.alloc();
    let text = section(&rt, alloc, 9);
    let disk = Disk::new(&rt, Vec::new(alloc), usize::MAX);
    let inner = Counts::of(text.as_str());
    let clock = Steps::new(1);
    let keeping = keeping_of(&rt, alloc, &clock, &inner, tail_of(&rt, &disk));
    let trump = Trump::Suit(Suit::Spades);
    let found = keeping.solve(alloc, &layout(&rt, alloc), &[Seat::North], trump, 1);
    expect(&rt, matches!(found, Ok(Some(_))));
    expect_eq(&rt, &kept(keeping), &Err(KeepFault::TooLong));
    disk.expect_bytes(b"");
}

/// The event that publishes so many tricks of North in no-trump.
fn published(layout: Layout, k: u8) -> Event {
    let shown = Shown {
        layout,
        declarer: Seat::North,
        trump: Trump::Nt,
        k,
    };
    Event {
        asked: Asked::HandIn {
            lease: 1,
            entry: Entry {
                board: 0,
                declarer: Seat::North,
                trump: Trump::Nt,
            },
            evidence: HandedIn::Shows(shown),
        },
        reply: Reply::Published(k),
    }
}

/// After an answer of nine tricks was kept, all is there if nine were published. If eight were, a part is missing.
#[test]
fn published_numbers(rt: HostRuntime) {
    let alloc = rt.alloc();
    let layout = layout(&rt, alloc);
    let text = section(&rt, alloc, 9);
    for (k, wanted) in [(9, Ok(())), (8, Err(KeepFault::Write))] {
        let disk = Disk::new(&rt, Vec::new(alloc), usize::MAX);
        let inner = Counts::of(text.as_str());
        let clock = Steps::new(1);
        let keeping = keeping_of(&rt, alloc, &clock, &inner, tail_of(&rt, &disk));
        expect_tricks(&rt, alloc, &keeping, &layout, 9);
        let (_file, kept) = keeping.close(&[published(layout, k)]).into_parts();
        expect_eq(&rt, &kept, &wanted);
    }
}

/// Whether the answer to each of six questions claims nine tricks.
fn six_answers<S: Solver>(alloc: Global, solver: &S, layout: &Layout) -> bool {
    let mut all = true;
    for _turn in 0..6u8 {
        all = all && tricks_of_north(alloc, solver, layout) == 9;
    }
    all
}

/// Whether two threads that ask six questions each at once are answered.
fn ask_at_once<R: Threads + Sync, S: Solver + Sync>(
    rt: &R,
    alloc: Global,
    solver: &S,
    layout: &Layout,
) -> (bool, bool) {
    thread::join(
        rt,
        || six_answers(alloc, solver, layout),
        || six_answers(alloc, solver, layout),
    )
}

/// The answers to two threads are all added, each whole.
fn expect_twelve<R: Abort + Threads + Wait + Sync>(
    rt: &R,
    alloc: Global,
    layout: &Layout,
    text: &str,
    twelve: &str,
) {
    let disk = Disk::new(rt, Vec::new(alloc), usize::MAX);
    let inner = Counts::of(text);
    let clock = Steps::new(1);
    let keeping = keeping_of(rt, alloc, &clock, &inner, tail_of(rt, &disk));
    expect_eq(rt, &ask_at_once(rt, alloc, &keeping, layout), &(true, true));
    expect_eq(rt, &kept(keeping), &Ok(()));
    disk.expect_bytes(twelve.as_bytes());
}

/// Two threads ask at once, ten times.
#[test]
fn two_threads(rt: HostRuntime) {
    let alloc = rt.alloc();
    let layout = layout(&rt, alloc);
    let text = section(&rt, alloc, 9);
    let twelve = nines(&rt, alloc, 12);
    for _turn in 0..10u8 {
        expect_twelve(&rt, alloc, &layout, text.as_str(), twelve.as_str());
    }
}
