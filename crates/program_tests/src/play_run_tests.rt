//! The numbers of recorded plays, by a search: endings worked out by hand.

use crate::card_run_tests::{THERE, WRITING_FILE};
use crate::disks::{Disk, EVIDENCE, System};
use crate::expect::{End, ROOM, expect_ended, got, means, memory, some};
use crate::file_runs::{disk_of, expect_held};
use crate::solve_tests::STEPS;
use board_subcommands::plays::{PlaysForm, PlaysOptions};
use board_subcommands::table::KeptFiles;
use cards::Bytes;
use command_line::{Subcommand, run_subcommand};
use command_words::Proof;
use partition_solver::Partition;
use run_ends::{NamedFiles, NewFiles, Status};
use std::alloc::Global;
use std::process::Abort;
use std::sync::Wait;
use std::thread::Threads;
use test_support::idle::LetsPass;

/// Three games without trumps that West declares, or East.
///
/// 1. North has two spades to cash, and leads the lower one. East's king wins, and then East's heart.
/// 2. The finesse: North plays the ace over West's low card, and West's king wins the second trick.
/// 3. North leads the queen. West's king would win it, but West plays low, and North's ace takes the king.
const GAMES: &str = r#"[Board "1"]
[Deal "N:AQ... K.2.. 32... 54..."]
[Declarer "W"]
[Contract "1NT"]
[Play "N"]
SQ SK S2 S4
SA H2 S3 S5

[Board "2"]
[Deal "N:AQ... 65... 32... K4..."]
[Declarer "E"]
[Contract "3NX"]
[Play "S"]
S3 S4 SA S5
S2 SK SQ S6

[Board "3"]
[Deal "N:AQ... 65... 32... K4..."]
[Declarer "W"]
[Contract "7NTXX"]
[Play "W"]
S4 SQ S5 S2
SK SA S6 S3
*
"#;

/// Their blocks.
const PAGE: &str = r#"% ddfarm plays 1
[Board "1"]
[Declarer "W"]
[Contract "1NT"]
start 0
1 N SQ 2 N loses 2
1 E SK 2
1 S S2 2
1 W S4 2
2 E H2 2
2 S S3 2
2 W S5 2
2 N SA 2
end 2
lost N 2 E 0 S 0 W 0

[Board "2"]
[Declarer "E"]
[Contract "3NX"]
start 0
1 S S3 0
1 W S4 0
1 N SA 1 N loses 1
1 E S5 1
2 N SQ 1
2 E S6 1
2 S S2 1
2 W SK 1
end 1
lost N 1 E 0 S 0 W 0

[Board "3"]
[Declarer "W"]
[Contract "7NTXX"]
start 1
1 N SQ 1
1 E S5 1
1 S S2 1
1 W S4 0 W loses 1
2 N SA 0
2 E S6 0
2 S S3 0
2 W SK 0
end 0
lost N 0 E 0 S 0 W 1

"#;

/// The cards of them that lose tricks.
const MISTAKES: &str = r#"% ddfarm plays 1
[Board "1"]
[Declarer "W"]
[Contract "1NT"]
1 N SQ 2 N loses 2
lost N 2 E 0 S 0 W 0

[Board "2"]
[Declarer "E"]
[Contract "3NX"]
1 N SA 1 N loses 1
lost N 1 E 0 S 0 W 0

[Board "3"]
[Declarer "W"]
[Contract "7NTXX"]
1 W S4 0 W loses 1
lost N 0 E 0 S 0 W 1

"#;

/// A game in which East revokes.
const REVOKE: &str = r#"[Deal "N:AQ... K.2.. 32... 54..."]
[Declarer "W"]
[Contract "1NT"]
[Play "N"]
SQ H2 S2 S4
"#;

/// Its block.
const REVOKED: &str = r#"% ddfarm plays 1
[Board ""]
[Declarer "W"]
[Contract "1NT"]
start 0
1 N SQ 2 N loses 2
illegal 1 E H2: holds spades
end 2
lost N 2 E 0 S 0 W 0

"#;

const ILLEGAL: &str = "ddfarm: note: 1 play ends at a card that is not legal\n";

/// What is asked of plays.
fn plays_of<'a>(form: PlaysForm, proof: Proof<'a>) -> Subcommand<'a> {
    Subcommand::Plays(PlaysOptions {
        solvers: 2,
        budget: STEPS,
        form,
        proof,
        games: None,
    })
}

/// Does a run for plays over an input and an output with this much room.
fn expect_plays<R: Abort + NamedFiles + KeptFiles + NewFiles + Threads + Wait + Sync>(
    rt: &R,
    alloc: Global,
    form: PlaysForm,
    games: &str,
    room: usize,
    wanted: End<'_>,
) {
    let asked = plays_of(form, Proof::Dropped);
    let input = Bytes::new(games.as_bytes(), 7);
    let mut streams = memory(rt, alloc, input, (room, 3), (ROOM, 7));
    let solver = Partition::new();
    let means = means(&solver, &LetsPass);
    let status = run_subcommand(rt, alloc, asked, &means, &mut streams).0;
    expect_ended(rt, status, &streams, wanted);
}

/// All cards, those that lose tricks, and a card that is not legal.
#[test]
fn endings(rt: HostRuntime) {
    let alloc = rt.alloc();
    let cases = [
        (PlaysForm::Text, GAMES, (Status::Done, PAGE, "")),
        (PlaysForm::Mistakes, GAMES, (Status::Done, MISTAKES, "")),
        (
            PlaysForm::Text,
            REVOKE,
            (Status::Incomplete, REVOKED, ILLEGAL),
        ),
    ];
    for (form, games, wanted) in cases {
        expect_plays(&rt, alloc, form, games, ROOM, wanted);
    }
}

/// An output that is full after each number of bytes has a beginning of the page.
#[test]
fn full(rt: HostRuntime) {
    for room in 0..REVOKED.len() {
        let printed = REVOKED.get(..room).unwrap_or("");
        let wanted = (Status::Failed, printed, "ddfarm: writing failed\n");
        expect_plays(&rt, rt.alloc(), PlaysForm::Text, REVOKE, room, wanted);
    }
}

/// Does a run for the games over a disk with a file of evidence.
fn expect_on_disk<R: Abort + Threads + Wait + Sync>(
    rt: &R,
    alloc: Global,
    proof: Proof<'_>,
    disk: &Disk,
    wanted: End<'_>,
) {
    let boards = disk_of(rt, alloc, b"", 0, u64::MAX);
    let system = System {
        rt,
        evidence: disk,
        boards: &boards,
    };
    let input = Bytes::new(GAMES.as_bytes(), 7);
    let mut streams = memory(rt, alloc, input, (ROOM, 3), (ROOM, 7));
    let solver = Partition::new();
    let means = means(&solver, &LetsPass);
    let asked = plays_of(PlaysForm::Text, proof);
    let status = run_subcommand(&system, alloc, asked, &means, &mut streams).0;
    expect_ended(rt, status, &streams, wanted);
}

/// The evidence of the games, as it is kept.
fn kept_text<R: Abort + Threads + Wait + Sync>(rt: &R, alloc: Global) -> Vec<u8> {
    let disk = disk_of(rt, alloc, b"", ROOM, u64::MAX);
    expect_on_disk(
        rt,
        alloc,
        Proof::Kept(EVIDENCE),
        &disk,
        (Status::Done, PAGE, ""),
    );
    got(rt, disk.bytes(alloc))
}

/// An audit of the evidence that was kept prints the same.
#[test]
fn evidence(rt: HostRuntime) {
    let alloc = rt.alloc();
    let kept = kept_text(&rt, alloc);
    let disk = disk_of(&rt, alloc, kept.as_slice(), 0, u64::MAX);
    expect_on_disk(
        &rt,
        alloc,
        Proof::Audited(EVIDENCE),
        &disk,
        (Status::Done, PAGE, ""),
    );
}

/// A file that takes fewer bytes has a beginning of the evidence, and one that is there stays as it is. The page is
/// printed all the same.
#[test]
fn evidence_that_is_not_kept(rt: HostRuntime) {
    let alloc = rt.alloc();
    let kept = kept_text(&rt, alloc);
    for room in [0, 1, kept.len().saturating_sub(1)] {
        let disk = disk_of(&rt, alloc, b"", room, u64::MAX);
        let wanted = (Status::Failed, PAGE, WRITING_FILE);
        expect_on_disk(&rt, alloc, Proof::Kept(EVIDENCE), &disk, wanted);
        expect_held(&rt, alloc, &disk, some(&rt, kept.as_slice().get(..room)));
    }
    let disk = disk_of(&rt, alloc, b"x", ROOM, u64::MAX);
    expect_on_disk(
        &rt,
        alloc,
        Proof::Kept(EVIDENCE),
        &disk,
        (Status::Failed, PAGE, THERE),
    );
    expect_held(&rt, alloc, &disk, b"x");
}
