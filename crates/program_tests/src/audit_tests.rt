//! Audits, and tables whose evidence is kept, where the input, the output or the file with the evidence fails.

use crate::disks::EVIDENCE;
use crate::expect::{End, got, joined_bytes, joined_text, some};
use crate::file_runs::{Devices, SOUND, audit, expect_both, expect_end, table};
use crate::sections::{NO_TRUMP, ONE, TWO};
use run_ends::Status;
use std::alloc::Global;
use std::process::Abort;
use std::sync::Wait;
use std::thread::Threads;
use test_support::four_suits::{BOARD, RUFFS};

const READING: &str = "ddfarm: reading failed\n";

const WRITING: &str = "ddfarm: writing failed\n";

/// What is told of a file that fails while it is opened.
const OPENING_FILE: &str = "ddfarm: evidence: cannot open
  club.dde: the system does not open it
";

const READING_FILE: &str = "ddfarm: evidence: reading failed
  the file cannot be read to its end; a folder cannot be read at all
";

const WRITING_FILE: &str = "ddfarm: evidence: writing failed
  the numbers are written, but some of their evidence is not in the file
";

/// What is told of the board's table after an audit.
const UNSHOWN: &str = "ddfarm: note: 1 table is incomplete: the evidence does not show all results
  table --evidence searches the rest and adds it to the file
";

/// What is told of it after `steps` searches that found nothing.
fn searched(rt: &impl Abort, alloc: Global, steps: u8) -> String {
    let told = format!(in alloc;
        "ddfarm: note: 1 table is incomplete: {steps} searches ran out of steps, 0 out of memory, \
        0 answers were refused
  each missing result was tried as often as --tries says; --budget gives a search more steps
"
    );
    got(rt, told)
}

/// The evidence of North's no-trump and spades.
fn both(rt: &impl Abort, alloc: Global) -> Vec<u8> {
    joined_bytes(rt, alloc, &[NO_TRUMP, RUFFS.as_bytes()])
}

/// Names of files that aren't there, and how they are shown.
const NAMES: [(&str, &str); 5] = [
    ("", ""),
    ("club", "club"),
    ("club.dde2", "club.dde2"),
    ("/club.dde", "/club.dde"),
    ("\u{1b}club\n\u{7f}", "?club??"),
];

/// A file that isn't there is told, with its name, before anything of the input, of which the first call would fail, is
/// read. A control character of the name is shown as a question mark.
#[test]
fn no_file(rt: HostRuntime) {
    let alloc = rt.alloc();
    let devices = Devices {
        input_fails: 0,
        ..SOUND
    };
    for (name, shown) in NAMES {
        let parts = [
            "ddfarm: evidence: cannot open\n  ",
            shown,
            ": no such file\n",
        ];
        let told = joined_text(&rt, alloc, &parts);
        let wanted = (Status::Failed, "", told.as_str());
        expect_both(&rt, alloc, name, None, devices, wanted);
    }
}

/// An input that fails at any call, also at the one that would tell its end: nothing is printed or kept.
#[test]
fn torn_inputs(rt: HostRuntime) {
    for input_fails in 0..=BOARD.len() as u64 {
        let devices = Devices {
            input_fails,
            ..SOUND
        };
        let wanted = (Status::Failed, "", READING);
        expect_both(&rt, rt.alloc(), EVIDENCE, None, devices, wanted);
    }
}

/// How a run ends on an output with this room that would print the page.
fn cut_off<'a>(rt: &impl Abort, page: &'a str, room: usize) -> End<'a> {
    (Status::Failed, some(rt, page.get(..room)), WRITING)
}

/// An output that is full after any number of bytes has these, and the file what was found.
#[test]
fn full_outputs(rt: HostRuntime) {
    let alloc = rt.alloc();
    let both = both(&rt, alloc);
    for output_room in 0..ONE.len() {
        let devices = Devices {
            output_room,
            ..SOUND
        };
        let wanted = cut_off(&rt, ONE, output_room);
        expect_end(&rt, alloc, audit(EVIDENCE, None), devices, wanted, NO_TRUMP);
        let wanted = cut_off(&rt, TWO, output_room);
        let asked = table(&rt, EVIDENCE, None);
        expect_end(&rt, alloc, asked, devices, wanted, both.as_slice());
    }
}

const DAMAGED: &str = "ddfarm: evidence: 1 section is damaged, at byte 0\n";

/// A file with a line that has no end, on a disk that has no room behind the first `length` bytes: the damage is told
/// first, the tables are printed, and the file has what there was room for.
fn expect_full<R: Abort + Threads + Wait + Sync>(
    rt: &R,
    alloc: Global,
    length: usize,
    whole: &[u8],
    noted: &str,
) {
    let devices = Devices {
        file: b"x",
        file_room: length.saturating_sub(1),
        ..SOUND
    };
    let (status, fault) = if length < whole.len() {
        (Status::Failed, WRITING_FILE)
    } else {
        (Status::Incomplete, "")
    };
    let told = joined_text(rt, alloc, &[DAMAGED, noted, fault]);
    let kept = some(rt, whole.get(..length));
    let asked = table(rt, EVIDENCE, None);
    expect_end(
        rt,
        alloc,
        asked,
        devices,
        (status, ONE, told.as_str()),
        kept,
    );
}

/// A disk that is full after any number of bytes.
#[test]
fn full_files(rt: HostRuntime) {
    let alloc = rt.alloc();
    let whole = joined_bytes(&rt, alloc, &[b"x\n", RUFFS.as_bytes()]);
    let noted = searched(&rt, alloc, 19);
    for length in 1..=whole.len() {
        expect_full(&rt, alloc, length, whole.as_slice(), noted.as_str());
    }
}

/// What is shown of North's spades, claimed by a root that doesn't show it.
fn false_ruffs(rt: &impl Abort, alloc: Global) -> Vec<u8> {
    let (before, after) = some(rt, RUFFS.split_once("N 13 0 -"));
    joined_bytes(
        rt,
        alloc,
        &[before.as_bytes(), b"N 13 1 -", after.as_bytes()],
    )
}

/// False claims in front of a true one, and without it, more of them than an entry is tried: the entry has its number,
/// by the evidence or by a search, and what was searched is kept.
#[test]
fn false_claims(rt: HostRuntime) {
    let alloc = rt.alloc();
    let lie = false_ruffs(&rt, alloc);
    let lie = lie.as_slice();
    let lies = joined_bytes(&rt, alloc, &[lie, lie, lie, NO_TRUMP]);
    let all = joined_bytes(&rt, alloc, &[lies.as_slice(), RUFFS.as_bytes()]);
    let noted = searched(&rt, alloc, 18);
    let wanted = (Status::Incomplete, TWO, noted.as_str());
    for file in [lies.as_slice(), all.as_slice()] {
        let devices = Devices { file, ..SOUND };
        let asked = table(&rt, EVIDENCE, None);
        expect_end(&rt, alloc, asked, devices, wanted, all.as_slice());
    }
}

/// How many calls go to read the file to its end: one a byte, one that tells the end behind its section, and one more.
const READS: u64 = NO_TRUMP.len() as u64 + 2;

/// The calls of the file of an audit, and how it ends where one of them fails.
const OF_AUDIT: [(u64, End<'static>); 3] = [
    (1, (Status::Failed, "", OPENING_FILE)),
    (READS, (Status::Failed, "", READING_FILE)),
    (1, (Status::Incomplete, ONE, UNSHOWN)),
];

/// Those of tables: the opening, for which the first and the last byte are read; the reading of the section for North's
/// no-trump, to where the file ended when it was opened (if that fails, a search finds nothing); the adding of what was
/// found of the spades; the sync; and none. And how many searches find nothing, and whether the section of the spades
/// is kept.
const OF_TABLE: [(u64, End<'static>, u8, bool); 5] = [
    (6, (Status::Failed, "", OPENING_FILE), 0, false),
    (READS - 2, (Status::Failed, ONE, READING_FILE), 19, true),
    (1, (Status::Failed, TWO, WRITING_FILE), 18, false),
    (1, (Status::Failed, TWO, WRITING_FILE), 18, true),
    (1, (Status::Incomplete, TWO, ""), 18, true),
];

/// An audit of a file of which some call fails.
fn expect_failing_audits<R: Abort + Threads + Wait + Sync>(rt: &R, alloc: Global) {
    let mut devices = Devices {
        file_fails: 0,
        ..SOUND
    };
    for (calls, wanted) in OF_AUDIT {
        for _ in 0..calls {
            expect_end(rt, alloc, audit(EVIDENCE, None), devices, wanted, NO_TRUMP);
            devices.file_fails = devices.file_fails.saturating_add(1);
        }
    }
}

/// What is told after `steps` searches that found nothing, if there were any, and of the fault.
fn told_of(rt: &impl Abort, alloc: Global, steps: u8, fault: &str) -> String {
    if steps == 0 {
        return joined_text(rt, alloc, &[fault]);
    }
    let noted = searched(rt, alloc, steps);
    joined_text(rt, alloc, &[noted.as_str(), fault])
}

/// Tables whose evidence is kept in a file of which some call fails. That file has these sections if the spades are
/// kept.
fn expect_failing_tables<R: Abort + Threads + Wait + Sync>(rt: &R, alloc: Global, both: &[u8]) {
    let mut devices = Devices {
        file_fails: 0,
        ..SOUND
    };
    for (calls, (status, page, fault), steps, is_kept) in OF_TABLE {
        devices.input_fails = if page.is_empty() { 0 } else { u64::MAX };
        let kept = if is_kept { both } else { NO_TRUMP };
        let told = told_of(rt, alloc, steps, fault);
        for _ in 0..calls {
            let wanted = (status, page, told.as_str());
            expect_end(rt, alloc, table(rt, EVIDENCE, None), devices, wanted, kept);
            devices.file_fails = devices.file_fails.saturating_add(1);
        }
    }
}

/// A file of which some call fails. If it can't be opened, the input isn't read. If it can't be read on, that is told
/// after the tables, and after what they lack.
#[test]
fn failing_files(rt: HostRuntime) {
    let alloc = rt.alloc();
    expect_failing_audits(&rt, alloc);
    let both = both(&rt, alloc);
    expect_failing_tables(&rt, alloc, both.as_slice());
}
