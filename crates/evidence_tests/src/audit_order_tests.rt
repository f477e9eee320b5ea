//! The two sections in either order, repeated, and beside others that show less.

use crate::audited::{Shown, audit};
use crate::expect::expect_eq;
use crate::pieces::Piece::{Both, Fewer, Hearts, Line, Ruffs, Runs};
use crate::pieces::{Piece, evidence_of, large_section};
use evidence::Damage;
use std::alloc::Global;
use std::process::Abort;
use std::thread::Threads;

const NO_DAMAGE: Damage = Damage { count: 0, first: 0 };

/// Evidence, whether each of the two numbers is shown, and how many pieces are passed over and where the first begins.
const ROWS: [(&[Piece], [bool; 2], Damage); 9] = [
    (&[Ruffs, Runs], [true, true], NO_DAMAGE),
    (&[Runs, Ruffs], [true, true], NO_DAMAGE),
    (&[Ruffs, Ruffs, Ruffs], [true, false], NO_DAMAGE),
    (&[Fewer, Runs], [false, true], NO_DAMAGE),
    (&[Fewer, Ruffs], [true, false], NO_DAMAGE),
    (&[Ruffs, Fewer], [true, false], NO_DAMAGE),
    (&[Both, Fewer], [true, false], NO_DAMAGE),
    (
        &[Hearts, Runs],
        [false, true],
        Damage { count: 1, first: 0 },
    ),
    (
        &[Runs, Hearts, Line, Hearts, Ruffs],
        [true, true],
        Damage {
            count: 2,
            first: 933,
        },
    ),
];

/// The evidence shows these numbers, and this is passed over.
fn expect_shown<R: Abort + Threads + Sync>(
    rt: &R,
    alloc: Global,
    pieces: &[Piece],
    shown: [bool; 2],
    damage: Damage,
) {
    let evidence = evidence_of(rt, alloc, pieces);
    let got = audit(rt, alloc, evidence.as_bytes(), 1000);
    expect_eq(rt, &got, &(Shown::by(shown[0], shown[1]), damage));
}

/// What a section shows neither a later nor an earlier one takes away, of whatever deal it is, false or damaged.
#[test]
fn which_sections_count(rt: HostRuntime) {
    for &(pieces, shown, damage) in &ROWS {
        expect_shown(&rt, rt.alloc(), pieces, shown, damage);
    }
}

/// A section of over 4 MiB, whose nodes are checked by several threads.
#[test]
fn large_sections(rt: HostRuntime) {
    let evidence = large_section(&rt, rt.alloc());
    let got = audit(&rt, rt.alloc(), evidence.as_bytes(), 1_000_000);
    expect_eq(&rt, &(evidence.len() > 4_194_304), &true);
    expect_eq(&rt, &got, &(Shown::by(false, true), NO_DAMAGE));
}
