//! How a file of evidence is opened, and what is read of it then.

use crate::asking::{Counts, Steps, expect_tricks, front_of, keeping_of, kept, open, tail_of};
use crate::disks::{Allows, Disk, NAME, Open};
use crate::expect::{expect, expect_eq, got, joined};
use crate::untrue_sections::{layout, section};
use evidence::{Part, Sections};
use evidence_solvers::{Access, KeepFault, Tail};
use std::alloc::Global;
use std::io::Take;
use std::process::Abort;
use std::sync::Wait;
use streams::{CannotOpen, ReaderSource};

/// How many sections and how many damaged pieces are read of a file. It has fewer than a hundred of both.
fn parts_of<R: Wait + Abort>(rt: &R, alloc: Global, front: Take<Open<'_, R>>) -> (u8, u8) {
    let mut sections = Sections::new(alloc, ReaderSource::new(front));
    let mut found = 0u8;
    let mut damaged = 0u8;
    for _turn in 0..100u8 {
        match got(rt, sections.next(alloc)) {
            Part::Found(_) => found = found.saturating_add(1),
            Part::Damaged { .. } => damaged = damaged.saturating_add(1),
            Part::End => return (found, damaged),
        }
    }
    expect(rt, false);
    (found, damaged)
}

/// A disk whose file has the text.
fn disk_of<'a, R: Abort + Wait>(rt: &'a R, alloc: Global, text: &[u8]) -> Disk<'a, R> {
    Disk::new(rt, got(rt, Vec::from_slice(alloc, text)), usize::MAX)
}

/// A file with this text has the text `after` when it was opened. `parts` says how many sections and how many damaged
/// pieces are read of it.
fn expect_opened<R: Abort + Wait>(
    rt: &R,
    alloc: Global,
    text: &[u8],
    after: &[u8],
    parts: (u8, u8),
) {
    let disk = disk_of(rt, alloc, text);
    let front = front_of(rt, &disk);
    disk.expect_bytes(after);
    expect_eq(rt, &parts_of(rt, alloc, front), &parts);
}

/// If the last line has no end, a line feed is written, and read as a part of that line: so a sound last section whose
/// last byte is missing is read as a section.
#[test]
fn line_end(rt: HostRuntime) {
    let alloc = rt.alloc();
    let text = section(&rt, alloc, 9);
    let one = text.as_bytes();
    let cut = &one[..one.len().saturating_sub(1)];
    expect_opened(&rt, alloc, b"", b"", (0, 0));
    expect_opened(&rt, alloc, one, one, (1, 0));
    expect_opened(&rt, alloc, cut, one, (1, 0));
    expect_opened(&rt, alloc, b"x", b"x\n", (0, 1));
}

/// The file of this name on a disk can't be opened, and this is why. Nothing is written.
fn expect_refused<R: Abort + Wait>(rt: &R, disk: &Disk<'_, R>, name: &str, wanted: CannotOpen) {
    let fault = open(disk, name).err();
    expect_eq(rt, &disk.calls().0, &0);
    expect_eq(rt, &fault, &Some(wanted));
}

/// A name, whether the file is a folder, what may be done with it, and why it can't be opened.
const REFUSALS: [(&str, bool, Allows, CannotOpen); 3] = [
    ("other.dde", false, Allows::All, CannotOpen::Missing),
    (NAME, true, Allows::All, CannotOpen::NotAFile),
    (NAME, true, Allows::Nothing, CannotOpen::Denied),
];

/// What isn't there, isn't a regular file or may not be read can't be opened, and the reason is given.
#[test]
fn refusals(rt: HostRuntime) {
    let disk = disk_of(&rt, rt.alloc(), b"x");
    for (name, is_folder, allows, why) in REFUSALS {
        disk.becomes(is_folder, allows);
        expect_refused(&rt, &disk, name, why);
    }
}

/// Beginnings of PBN texts.
const PBN_TEXTS: [&[u8]; 3] = [b"% PBN 2.1\n[Board \"1\"]", b"[Event \"Club\"]", b"["];

/// A file that begins as a PBN text does is refused, and nothing is written, although its last line has no end.
#[test]
fn pbn_files(rt: HostRuntime) {
    for text in PBN_TEXTS {
        let disk = disk_of(&rt, rt.alloc(), text);
        expect_refused(&rt, &disk, NAME, CannotOpen::PbnText);
    }
}

/// The section of this text that is to be added to this tail is lost, and that is said.
fn expect_lost<'a, R: Abort + Wait>(rt: &'a R, alloc: Global, tail: Tail<Open<'a, R>>, text: &str) {
    let inner = Counts::of(text);
    let clock = Steps::new(1);
    let keeping = keeping_of(rt, alloc, &clock, &inner, tail);
    expect_tricks(rt, alloc, &keeping, &layout(rt, alloc), 9);
    expect_eq(rt, &kept(keeping), &Err(KeepFault::Write));
}

/// A file that can only be read is read as it is: its last line gets no end, so its last section is damaged. A section
/// that is to be added to it is lost, and that is said.
#[test]
fn read_only(rt: HostRuntime) {
    let alloc = rt.alloc();
    let text = section(&rt, alloc, 9);
    let without_end = text.as_str().strip_suffix("\n").unwrap_or("");
    let cut = joined(&rt, alloc, &[text.as_str(), without_end]);
    let disk = disk_of(&rt, alloc, cut.as_bytes());
    disk.becomes(false, Allows::Reading);
    let opened = got(&rt, open(&disk, NAME));
    expect_eq(
        &rt,
        &(opened.access, disk.calls().0),
        &(Access::ReadOnly, 0),
    );
    expect_eq(&rt, &parts_of(&rt, alloc, opened.front), &(1, 1));
    expect_lost(&rt, alloc, opened.tail, text.as_str());
    disk.expect_bytes(cut.as_bytes());
}

/// Sections that are added after a file was opened aren't read.
#[test]
fn added_sections(rt: HostRuntime) {
    let alloc = rt.alloc();
    let text = section(&rt, alloc, 13);
    let disk = disk_of(&rt, alloc, text.as_bytes());
    let opened = got(&rt, open(&disk, NAME));
    expect_eq(&rt, &opened.access, &Access::ReadAndAdd);
    let inner = Counts::of(text.as_str());
    let clock = Steps::new(1);
    let keeping = keeping_of(&rt, alloc, &clock, &inner, opened.tail);
    expect_tricks(&rt, alloc, &keeping, &layout(&rt, alloc), 13);
    expect_eq(&rt, &parts_of(&rt, alloc, opened.front), &(1, 0));
    expect_eq(&rt, &kept(keeping), &Ok(()));
    let front = front_of(&rt, &disk);
    expect_eq(&rt, &parts_of(&rt, alloc, front), &(2, 0));
}

/// Two runs add the sections of these texts to one file by turns, twice each.
fn add_by_turns<R: Abort + Wait>(rt: &R, alloc: Global, disk: &Disk<'_, R>, texts: [&str; 2]) {
    let layout = layout(rt, alloc);
    let (one, other) = (tail_of(rt, disk), tail_of(rt, disk));
    let (eight, nine) = (Counts::of(texts[0]), Counts::of(texts[1]));
    let clock = Steps::new(1);
    let keeping = keeping_of(rt, alloc, &clock, &eight, one);
    let beside = keeping_of(rt, alloc, &clock, &nine, other);
    for _turn in 0..2u8 {
        expect_tricks(rt, alloc, &keeping, &layout, 8);
        expect_tricks(rt, alloc, &beside, &layout, 9);
    }
    expect_eq(rt, &(kept(keeping), kept(beside)), &(Ok(()), Ok(())));
}

/// Two runs that add to one file by turns overwrite nothing: neither what the file held, nor what the other one added.
#[test]
fn two_runs(rt: HostRuntime) {
    let alloc = rt.alloc();
    let held = section(&rt, alloc, 7);
    let ours = section(&rt, alloc, 8);
    let theirs = section(&rt, alloc, 9);
    let disk = disk_of(&rt, alloc, held.as_bytes());
    add_by_turns(&rt, alloc, &disk, [ours.as_str(), theirs.as_str()]);
    let (held, ours, theirs) = (held.as_str(), ours.as_str(), theirs.as_str());
    let wanted = joined(&rt, alloc, &[held, ours, theirs, ours, theirs]);
    disk.expect_bytes(wanted.as_bytes());
}
