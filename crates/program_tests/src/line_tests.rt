//! Lines of play by the certificates of answers.

use crate::expect::{CARD_TWICE, End, NO_RESULT, ROOM, expect_run, joined_bytes};
use board_subcommands::table::KeptFiles;
use cards::{Seat, Trump};
use command_line::Subcommand;
use command_words::LayoutWords;
use run_ends::{NamedFiles, NewFiles, Status};
use std::alloc::Global;
use std::process::Abort;
use std::sync::Wait;
use std::thread::Threads;
use test_support::idle::FindsNothing;

/// The finesse: North covers West's card, and wins two tricks.
const WINS_TWO: &[u8] = b"DDC 1
trump NT
side NS
nodes 2
S 2 2.2.2.2/NWN 0.0.0.0/ 0.0.0.0/ 0.0.0.0/ Sx(SbSa(Sx{N1})SxSc(Sx{N1}))
N 1 1.1.1.1/N 0.0.0.0/ 0.0.0.0/ 0.0.0.0/ Sa(SxSx(Sx{}))
";

/// East and West need nothing.
const NEEDS_NONE: &[u8] = b"DDC 1\ntrump NT\nside EW\nnodes 0\n";

/// East declares without trumps, and South leads.
const BY_EAST: Subcommand<'static> = Subcommand::Line(LayoutWords {
    layout: "N:AQ... 65... 32... K4...",
    seat: Seat::East,
    trump: Trump::Nt,
});

/// South leads its lowest card; West, who needs nothing, plays its lowest; so North's queen wins, and then the ace.
const LINE: &str = "accepted 0
1 S: S2 S4 SQ S5 N
2 N: SA S6 S3 SK N
declarer 0, defenders 2
";

/// What stands before the two certificates, which are swapped or not, what becomes of it.
const ANSWERS: [(&[u8], bool, End<'static>); 8] = [
    (b"result 0\n", false, (Status::Done, LINE, "")),
    (
        b"result 0\n",
        true,
        (Status::Rejected, "refused declarer 2 RootNeedless\n", ""),
    ),
    (
        b"result 1\n",
        false,
        (Status::Rejected, "refused declarer 1 RootMissing\n", ""),
    ),
    (
        b"result 2\n",
        true,
        (Status::Rejected, "refused declarer 4 RootSide\n", ""),
    ),
    (
        b"result 3\n",
        false,
        (Status::Rejected, "refused 9 KTooLarge\n", ""),
    ),
    (
        b"result 0\n\n",
        false,
        (
            Status::Rejected,
            "refused declarer 10 Text 1 Head line 1\n",
            "",
        ),
    ),
    (b"result 14\n", false, (Status::Refused, "", NO_RESULT)),
    (b"", false, (Status::Refused, "", NO_RESULT)),
];

/// The answer is followed as `line` says, and where it is refused `check` refuses it with the same words.
fn expect_followed<R: Abort + NamedFiles + KeptFiles + NewFiles + Threads + Wait + Sync>(
    rt: &R,
    alloc: Global,
    text: &[u8],
    wanted: End<'_>,
) {
    expect_run(rt, alloc, BY_EAST, &FindsNothing, text, ROOM, wanted);
    if wanted.0 == Status::Done {
        return;
    }
    let check = Subcommand::Check(LayoutWords {
        layout: "N:AQ... 65... 32... K4...",
        seat: Seat::East,
        trump: Trump::Nt,
    });
    expect_run(rt, alloc, check, &FindsNothing, text, ROOM, wanted);
}

#[test]
fn accepted_and_refused(rt: HostRuntime) {
    let alloc = rt.alloc();
    for (front, is_swapped, wanted) in ANSWERS {
        let parts = if is_swapped {
            [front, WINS_TWO, b"\n", NEEDS_NONE]
        } else {
            [front, NEEDS_NONE, b"\n", WINS_TWO]
        };
        let text = joined_bytes(&rt, alloc, &parts);
        expect_followed(&rt, alloc, &text, wanted);
    }
}

/// An output that is full after any number of bytes has a beginning of the text.
#[test]
fn full_outputs(rt: HostRuntime) {
    let alloc = rt.alloc();
    let text = joined_bytes(&rt, alloc, &[b"result 0\n", NEEDS_NONE, b"\n", WINS_TWO]);
    for room in 0..LINE.len() {
        let printed = LINE.get(..room).unwrap_or("");
        let wanted = (Status::Failed, printed, "ddfarm: writing failed\n");
        expect_run(&rt, alloc, BY_EAST, &FindsNothing, &text, room, wanted);
    }
}

/// A layout that is none is refused before anything is read.
#[test]
fn no_layout(rt: HostRuntime) {
    let asked = Subcommand::Line(LayoutWords {
        layout: "N:A... A... Q... J...",
        seat: Seat::East,
        trump: Trump::Nt,
    });
    let wanted = (Status::Refused, "", CARD_TWICE);
    expect_run(&rt, rt.alloc(), asked, &FindsNothing, b"", ROOM, wanted);
}
