//! The two sections with one byte changed, for each place and each byte, and each beginning of them.

use crate::audited::{Shown, audit};
use crate::expect::{expect_eq, got, some};
use crate::two_boards::RUNS;
use evidence::Damage;
use std::alloc::Global;
use std::process::Abort;
use std::thread::Threads;
use test_support::four_suits::RUFFS;
use test_support::texts::joined;

/// How many bytes a section has, and its title.
const FIRST: usize = 931;

const SECOND: usize = 933;

const TITLE: usize = 6;

/// Where the versions of the four graphs stand.
const VERSIONS: [usize; 4] = [111, 905, 1042, 1074];

/// The sections, one behind the other.
fn both(rt: &impl Abort, alloc: Global) -> Vec<u8> {
    got(rt, joined(alloc, &[RUFFS.as_bytes(), RUNS.as_bytes()]))
}

/// The text with this byte in this place.
fn with_byte(rt: &impl Abort, alloc: Global, text: &[u8], place: usize, byte: u8) -> Vec<u8> {
    let mut changed = got(rt, Vec::from_slice(alloc, text));
    if let Some(spot) = changed.get_mut(place) {
        *spot = byte;
    }
    changed
}

/// What is shown where this byte stands in this place, and another did. Nothing can be changed but a version: what is
/// right by the first is right by the second, and graphs that name no card are right by both. A change costs its own
/// section alone, but for one of the second title, or of the line feed before it, which makes one piece of both.
fn shown_with(place: usize, byte: u8) -> Shown {
    let is_right = VERSIONS.contains(&place) && (byte == b'1' || byte == b'2');
    if place < FIRST - 1 {
        Shown::by(is_right, true)
    } else {
        Shown::by(place >= FIRST + TITLE, is_right)
    }
}

/// Changes the byte in this place in each way. Answers how many texts that makes, and how many show both numbers.
fn change<R: Abort + Threads + Sync>(rt: &R, alloc: Global, text: &[u8], place: usize) -> [u64; 2] {
    let mut counts = [0u64; 2];
    for byte in 0..=u8::MAX {
        let changed = with_byte(rt, alloc, text, place, byte);
        if changed.as_slice() != text {
            let (shown, _damage) = audit(rt, alloc, changed.as_slice(), 4096);
            expect_eq(rt, &shown, &shown_with(place, byte));
            counts[0] = counts[0].saturating_add(1);
            counts[1] = counts[1].saturating_add(u64::from(shown.numbers == 2));
        }
    }
    counts
}

/// Changes the bytes from one place up to another, each in each way. So many texts show both numbers.
fn expect_changed<R: Abort + Threads + Sync>(
    rt: &R,
    alloc: Global,
    start: usize,
    end: usize,
    wanted: [u64; 2],
) {
    let text = both(rt, alloc);
    expect_eq(rt, &text.len(), &(FIRST + SECOND));
    let mut counts = [0u64; 2];
    for place in start..end {
        let [texts, kept] = change(rt, alloc, text.as_slice(), place);
        counts = [
            counts[0].saturating_add(texts),
            counts[1].saturating_add(kept),
        ];
    }
    expect_eq(rt, &counts, &wanted);
}

/// Each byte can be changed in 255 ways.
#[test]
fn first_466_bytes(rt: HostRuntime) {
    expect_changed(&rt, rt.alloc(), 0, 466, [118_830, 1]);
}

#[test]
fn next_465_bytes(rt: HostRuntime) {
    expect_changed(&rt, rt.alloc(), 466, FIRST, [118_575, 1]);
}

#[test]
fn next_467_bytes(rt: HostRuntime) {
    expect_changed(&rt, rt.alloc(), FIRST, 1398, [119_085, 2]);
}

#[test]
fn last_466_bytes(rt: HostRuntime) {
    expect_changed(&rt, rt.alloc(), 1398, FIRST + SECOND, [118_830, 0]);
}

/// What the first so many bytes show, and what is passed over. A title that is cut off takes the first section along.
fn shown_by_first(count: usize) -> (Shown, Damage) {
    let is_whole = count == 0 || count == FIRST || count == FIRST + SECOND;
    let has_first = count == FIRST || count >= FIRST + TITLE;
    let damage = Damage {
        count: u64::from(!is_whole),
        first: if has_first && !is_whole {
            FIRST as u64
        } else {
            0
        },
    };
    (Shown::by(has_first, count == FIRST + SECOND), damage)
}

#[test]
fn beginnings(rt: HostRuntime) {
    let text = both(&rt, rt.alloc());
    for count in 0..=text.len() {
        let beginning = some(&rt, text.as_slice().get(..count));
        let got = audit(&rt, rt.alloc(), beginning, 1000);
        expect_eq(&rt, &got, &shown_by_first(count));
    }
}
