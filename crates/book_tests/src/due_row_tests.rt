//! Rows against a slow search.

use crate::expect::expect_eq;
use crate::fixed_numbers::next;
use due_rows::DueRow;
use std::alloc::Global;
use std::process::Abort;
use std::test::Fail;

/// The first place from this one on with a moment of at most `now`.
fn slow_first(moments: &[Option<u64>], now: u64, from: usize) -> Option<usize> {
    for (place, moment) in moments.iter().enumerate() {
        if place >= from
            && let Some(moment) = moment
            && *moment <= now
        {
            return Some(place);
        }
    }
    None
}

/// Changes a place of a row and of its slow twin.
fn change(
    rt: &impl Abort,
    row: &mut DueRow,
    slow: &mut [Option<u64>],
    place: usize,
    moment: Option<u64>,
) {
    assert!(rt; place < row.len() && place < slow.len());
    row.set(place, moment);
    slow[place] = moment;
}

/// A search from each place, and beyond, finds what a slow one finds.
fn expect_same(rt: &impl Abort, row: &DueRow, slow: &[Option<u64>], now: u64) {
    for from in 0..slow.len().saturating_add(2) {
        expect_eq(rt, &row.first_due(now, from), &slow_first(slow, now, from));
    }
}

/// A run of changes to a row of so many places and one more, each followed by searches from each place.
fn run<R: Abort>(rt: &R, alloc: Global, more: u8) {
    let count = usize::from(more) + 1;
    let mut row = DueRow::new(alloc, count).expect(rt, "memory for a row");
    let mut slow = vec![in alloc; None; count].expect(rt, "memory for its twin");
    let mut number = 7;
    for _ in 0..60 {
        number = next(number);
        let place = (number / 16 % 1_000_000) as usize % count;
        number = next(number);
        let moment = if number / 64 % 4 == 0 {
            None
        } else {
            Some(number / 1024 % 20)
        };
        change(rt, &mut row, slow.as_mut_slice(), place, moment);
        number = next(number);
        expect_same(rt, &row, slow.as_slice(), number / 256 % 20);
    }
}

/// Rows of one place, of powers of two, and of numbers beside them.
#[test]
fn finds_what_a_slow_search_finds(rt: HostRuntime) {
    for more in [0, 1, 2, 3, 4, 6, 7, 8, 19] {
        run(&rt, rt.alloc(), more);
    }
}

/// In a row of three places, which place gets which moment, and until when and from where the first one is found where.
type Step = (usize, Option<u64>, u64, usize, Option<usize>);

const STEPS: [Step; 5] = [
    (2, Some(u64::MAX), u64::MAX - 1, 0, None),
    (2, Some(u64::MAX), u64::MAX, 0, Some(2)),
    (1, Some(0), 0, 0, Some(1)),
    (1, Some(0), 0, 2, None),
    (1, None, 0, 0, None),
];

/// A row without places, and moments at the ends of their range.
#[test]
fn ends_of_ranges(rt: HostRuntime) -> Result<(), Fail> {
    let none = DueRow::new(rt.alloc(), 0)?;
    expect_eq(&rt, &none.first_due(u64::MAX, 0), &None);
    let mut row = DueRow::new(rt.alloc(), 3)?;
    for (place, moment, now, from, found) in STEPS {
        assert!(rt; place < row.len());
        row.set(place, moment);
        expect_eq(&rt, &row.first_due(now, from), &found);
    }
    Ok(())
}
