//! Boards of a file that is named, in place of the input: it is not touched, so its first call would fail.

use crate::disks::{BOARDS, EVIDENCE};
use crate::expect::joined_bytes;
use crate::file_runs::{Devices, SOUND, audit, expect_both, expect_end, table};
use crate::sections::{NO_TRUMP, ONE, TWO};
use run_ends::Status;
use test_support::four_suits::{BOARD, RUFFS};

const UNTOUCHED: Devices<'static> = Devices {
    input_fails: 0,
    ..SOUND
};

/// What is told of the board's table after an audit, and after a search for eighteen results.
const UNSHOWN: &str = "ddfarm: note: 1 table is incomplete: the evidence does not show all results
  table --evidence searches the rest and adds it to the file
";

const UNFOUND: &str =
    "ddfarm: note: 1 table is incomplete: 18 searches ran out of steps, 0 out of memory, \
0 answers were refused
  each missing result was tried as often as --tries says; --budget gives a search more steps
";

/// The page is that of the same boards in the input.
#[test]
fn same_pages(rt: HostRuntime) {
    let alloc = rt.alloc();
    let asked = audit(EVIDENCE, Some(BOARDS));
    let wanted = (Status::Incomplete, ONE, UNSHOWN);
    expect_end(&rt, alloc, asked, UNTOUCHED, wanted, NO_TRUMP);
    let both = joined_bytes(&rt, alloc, &[NO_TRUMP, RUFFS.as_bytes()]);
    let asked = table(&rt, EVIDENCE, Some(BOARDS));
    let wanted = (Status::Incomplete, TWO, UNFOUND);
    expect_end(&rt, alloc, asked, UNTOUCHED, wanted, both.as_slice());
}

/// A file of boards that isn't there is told with its name, before the file with the evidence is opened, of which the
/// first call would fail, or which isn't there either.
#[test]
fn no_boards(rt: HostRuntime) {
    let devices = Devices {
        file_fails: 0,
        ..UNTOUCHED
    };
    let told = "ddfarm: boards: cannot open\n  clubs: no such file\n";
    let wanted = (Status::Failed, "", told);
    for file in [EVIDENCE, "club"] {
        expect_both(&rt, rt.alloc(), file, Some("clubs"), devices, wanted);
    }
}

/// A file of evidence that isn't there is told with its own name.
#[test]
fn no_evidence(rt: HostRuntime) {
    let told = "ddfarm: evidence: cannot open\n  club: no such file\n";
    let wanted = (Status::Failed, "", told);
    expect_both(&rt, rt.alloc(), "club", Some(BOARDS), UNTOUCHED, wanted);
}

/// A file of boards that fails when it is opened, or at any later call: nothing is printed or kept.
#[test]
fn failing_boards(rt: HostRuntime) {
    let opening = "ddfarm: boards: cannot open\n  club.pbn: the system does not open it\n";
    let reading = "ddfarm: boards: reading failed
  the file cannot be read to its end; a folder cannot be read at all
";
    for boards_fail in 0..=BOARD.len() as u64 + 1 {
        let devices = Devices {
            boards_fail,
            ..UNTOUCHED
        };
        let told = if boards_fail == 0 { opening } else { reading };
        let wanted = (Status::Failed, "", told);
        expect_both(&rt, rt.alloc(), EVIDENCE, Some(BOARDS), devices, wanted);
    }
}
