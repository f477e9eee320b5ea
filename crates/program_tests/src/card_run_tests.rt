//! The tricks of cards and of opening leads, by a search and by evidence.

use crate::disks::{BOARDS, Disk, EVIDENCE, System};
use crate::expect::{End, ROOM, expect_ended, got, joined_text, means, memory, some};
use crate::file_runs::{disk_of, expect_held};
use crate::solve_tests::STEPS;
use board_subcommands::leads::LeadsOptions;
use cards::{Bytes, Card, Layout, Seat, Trump};
use certificate_graph::{Bundle, CardBundle, CardSolver, Solver};
use command_line::{Subcommand, run_subcommand};
use command_words::Proof;
use deal_subcommands::card_tricks::{CardsOptions, PlayedWords};
use partition_solver::Partition;
use play_claims::{PlayBundle, PlaySolver};
use run_ends::Status;
use std::alloc::{AllocError, Global};
use std::process::Abort;
use std::sync::Wait;
use std::thread::Threads;
use test_support::four_suits::BOARD;
use test_support::idle::{FindsNothing, LetsPass};

/// A board without a deal, below another.
const NO_DEAL: &str = "
[Board \"2\"]
[Deal \"?\"]
";

/// Does a run over a disk, with a file of two boards, and an input that fails if it is read.
fn expect_done_by<R: Abort + Threads + Wait + Sync, P: Solver + CardSolver + PlaySolver + Sync>(
    rt: &R,
    alloc: Global,
    asked: Subcommand<'_>,
    disk: &Disk,
    solver: &P,
    wanted: End<'_>,
) {
    let boards = joined_text(rt, alloc, &[BOARD, NO_DEAL]);
    let boards = disk_of(rt, alloc, boards.as_bytes(), 0, u64::MAX);
    let system = System {
        rt,
        evidence: disk,
        boards: &boards,
    };
    let input = Bytes::failing_after(b"", 1, 0);
    let mut streams = memory(rt, alloc, input, (ROOM, 3), (ROOM, 7));
    let means = means(solver, &LetsPass);
    let status = run_subcommand(&system, alloc, asked, &means, &mut streams).0;
    expect_ended(rt, status, &streams, wanted);
}

/// Does such a run with the search.
fn expect_done<R: Abort + Threads + Wait + Sync>(
    rt: &R,
    alloc: Global,
    asked: Subcommand<'_>,
    disk: &Disk,
    wanted: End<'_>,
) {
    expect_done_by(rt, alloc, asked, disk, &Partition::new(), wanted);
}

/// The search, which leaves out what it claims of one card.
#[derive(Drop)]
struct LeavesOut;

impl Solver for LeavesOut {
    fn solve(
        &self,
        _alloc: Global,
        _layout: &Layout,
        _declarers: &[Seat],
        _trump: Trump,
        _budget: u64,
    ) -> Result<Option<Bundle>, AllocError> {
        Ok(None)
    }
}

impl CardSolver for LeavesOut {
    fn solve_cards(
        &self,
        alloc: Global,
        layout: &Layout,
        leaders: &[Seat],
        trump: Trump,
        played: &[Card],
        budget: u64,
    ) -> Result<Option<CardBundle>, AllocError> {
        let solver = Partition::new();
        let found = solver.solve_cards(alloc, layout, leaders, trump, played, budget)?;
        let Some(mut bundle) = found else {
            return Ok(None);
        };
        let _ = bundle.claims.pop();
        Ok(Some(bundle))
    }
}

impl PlaySolver for LeavesOut {
    fn solve_play(
        &self,
        alloc: Global,
        layout: &Layout,
        leader: Seat,
        trump: Trump,
        cards: &[Card],
        budget: u64,
    ) -> Result<PlayBundle, AllocError> {
        FindsNothing.solve_play(alloc, layout, leader, trump, cards, budget)
    }
}

/// The cards that may be played in a finesse without trumps, after those that these words name.
pub fn finesse<'a>(played: [Option<&'a str>; 3], proof: Proof<'a>) -> CardsOptions<'a> {
    CardsOptions {
        layout: "N:AQ... 65... 32... K4...",
        leader: Seat::South,
        trump: Trump::Nt,
        played: PlayedWords {
            first: played[0],
            second: played[1],
            third: played[2],
        },
        budget: STEPS,
        proof,
    }
}

/// The words for the two of spades and the four.
pub const TWO_PLAYED: [Option<&str>; 3] = [Some("S2"), Some("S4"), None];

/// The cards after these, for North.
pub const NORTH: &str = "N to play\n2  SQ\n1  SA\n";

/// The words for the cards played, and the text of the cards after them. If West plays low, North wins with the queen
/// and then with the ace. If North plays the ace first, West's king wins the second trick.
const FINESSES: [([Option<&str>; 3], &str); 6] = [
    ([None, None, None], "S to play\n2  S3 S2\n"),
    ([Some("S2"), None, None], "W to play\n0  SK S4\n"),
    ([Some("s2"), Some("4s"), None], NORTH),
    ([Some("S2"), Some("SK"), None], "N to play\n2  SA\n1  SQ\n"),
    (
        [Some("S3"), Some("S4"), Some("SQ")],
        "E to play\n0  S6 S5\n",
    ),
    (
        [Some("S3"), Some("S4"), Some("SA")],
        "E to play\n1  S6 S5\n",
    ),
];

/// A search without a file, one whose evidence is kept in a new file, and an audit of that file print the same.
#[test]
fn finesses(rt: HostRuntime) {
    let alloc = rt.alloc();
    for (played, printed) in FINESSES {
        let disk = disk_of(&rt, alloc, b"", ROOM, u64::MAX);
        for proof in [
            Proof::Dropped,
            Proof::Kept(EVIDENCE),
            Proof::Audited(EVIDENCE),
        ] {
            let asked = Subcommand::Cards(finesse(played, proof));
            expect_done(&rt, alloc, asked, &disk, (Status::Done, printed, ""));
        }
    }
}

/// What is told if a card has no number.
const NO_ANSWER: &str = "ddfarm: no answer
  --budget gives the search more steps
";

/// If one card has no claim, nothing is printed or kept, and the status is that of a missing answer.
#[test]
fn missing_claims(rt: HostRuntime) {
    let alloc = rt.alloc();
    let disk = disk_of(&rt, alloc, b"", ROOM, u64::MAX);
    for proof in [Proof::Dropped, Proof::Kept(EVIDENCE)] {
        let asked = Subcommand::Cards(finesse(TWO_PLAYED, proof));
        let wanted = (Status::Incomplete, "", NO_ANSWER);
        expect_done_by(&rt, alloc, asked, &disk, &LeavesOut, wanted);
    }
    expect_held(&rt, alloc, &disk, b"");
}

/// The evidence of North's cards, as it is kept.
fn kept_text<R: Abort + Threads + Wait + Sync>(rt: &R, alloc: Global) -> Vec<u8> {
    let disk = disk_of(rt, alloc, b"", ROOM, u64::MAX);
    let asked = Subcommand::Cards(finesse(TWO_PLAYED, Proof::Kept(EVIDENCE)));
    expect_done(rt, alloc, asked, &disk, (Status::Done, NORTH, ""));
    got(rt, disk.bytes(alloc))
}

/// A part of the evidence, another in its place, and the line that refuses the changed evidence.
const CHANGES: [(&str, &str, &str); 4] = [
    ("DDP 1", "DDP 2", "refused 1 Text\n"),
    ("leader S", "leader N", "refused 1 Text\n"),
    ("played 2 S2", "played 2 S3", "refused 2 Position\n"),
    ("SQ 2\n", "SQ 1\n", "refused 5 Player SQ RootNeed\n"),
];

/// The text with one part replaced.
fn changed(rt: &impl Abort, alloc: Global, text: &[u8], old: &str, new: &str) -> String {
    let text = got(rt, str::from_utf8(text));
    let (before, after) = some(rt, text.split_once(old));
    joined_text(rt, alloc, &[before, new, after])
}

/// Changed evidence is refused.
#[test]
fn changed_evidence(rt: HostRuntime) {
    let alloc = rt.alloc();
    let kept = kept_text(&rt, alloc);
    let asked = Subcommand::Cards(finesse(TWO_PLAYED, Proof::Audited(EVIDENCE)));
    for (old, new, line) in CHANGES {
        let text = changed(&rt, alloc, kept.as_slice(), old, new);
        let disk = disk_of(&rt, alloc, text.as_bytes(), 0, u64::MAX);
        expect_done(&rt, alloc, asked, &disk, (Status::Rejected, line, ""));
    }
}

/// The refusal to make a file that is there.
pub const THERE: &str = "ddfarm: evidence: cannot open
  club.dde: the file is there already
";

/// The refusal to read a file that is missing.
const MISSING: &str = "ddfarm: evidence: cannot open
  finesse.ddp: no such file
";

/// A file that is there stays as it is, and one that is missing shows nothing.
#[test]
fn files_that_are_of_no_use(rt: HostRuntime) {
    let alloc = rt.alloc();
    let disk = disk_of(&rt, alloc, b"x", ROOM, u64::MAX);
    for (proof, told) in [
        (Proof::Kept(EVIDENCE), THERE),
        (Proof::Audited("finesse.ddp"), MISSING),
    ] {
        let asked = Subcommand::Cards(finesse(TWO_PLAYED, proof));
        expect_done(&rt, alloc, asked, &disk, (Status::Failed, "", told));
    }
    expect_held(&rt, alloc, &disk, b"x");
}

/// The lines that follow if not all evidence is in the file.
pub const WRITING_FILE: &str = "ddfarm: evidence: writing failed
  the numbers are written, but some of their evidence is not in the file
";

/// A file that takes fewer bytes than the evidence has a beginning of it, and the numbers are printed.
#[test]
fn full_files(rt: HostRuntime) {
    let alloc = rt.alloc();
    let kept = kept_text(&rt, alloc);
    let asked = Subcommand::Cards(finesse(TWO_PLAYED, Proof::Kept(EVIDENCE)));
    for room in 0..kept.len() {
        let disk = disk_of(&rt, alloc, b"", room, u64::MAX);
        let wanted = (Status::Failed, NORTH, WRITING_FILE);
        expect_done(&rt, alloc, asked, &disk, wanted);
        expect_held(&rt, alloc, &disk, some(&rt, kept.as_slice().get(..room)));
    }
}

/// A declarer, the suit of the seat at the left, and the tricks that the defenders take in each denomination: all if
/// they have the trumps, or lead without trumps.
const ROWS: [(&str, &str, [u8; 5]); 4] = [
    ("N", "H", [13, 0, 13, 0, 13]),
    ("S", "C", [13, 0, 13, 0, 13]),
    ("E", "D", [13, 13, 0, 13, 0]),
    ("W", "S", [13, 13, 0, 13, 0]),
];

/// Adds a card to a row.
fn push_card(rt: &impl Abort, text: &mut String, suit: &str, rank: char) {
    got(rt, write!(text, " {suit}{rank}"));
}

/// Writes a row: each card of the suit leads to so many tricks.
fn push_row(rt: &impl Abort, text: &mut String, contract: [&str; 2], tricks: u8, suit: &str) {
    let [declarer, denomination] = contract;
    got(rt, write!(text, "{declarer} {denomination}  {tricks}"));
    for rank in "AKQJT98765432".chars() {
        push_card(rt, text, suit, rank);
    }
    got(rt, text.push_str("\n"));
}

/// Writes the rows of a declarer.
fn push_rows(rt: &impl Abort, text: &mut String, declarer: &str, suit: &str, row: [u8; 5]) {
    for (denomination, tricks) in ["NT", " S", " H", " D", " C"].into_iter().zip(row) {
        push_row(rt, text, [declarer, denomination], tricks, suit);
    }
}

/// The opening leads of the file with boards.
fn leads_text(rt: &impl Abort, alloc: Global) -> String {
    let title = "[OpeningLeads \"Declarer;Denomination\\2R;Leads\"]\n";
    let mut text = joined_text(rt, alloc, &["% PBN 2.1\n", BOARD, title]);
    for (declarer, suit, row) in ROWS {
        push_rows(rt, &mut text, declarer, suit, row);
    }
    joined_text(rt, alloc, &[text.as_str(), NO_DEAL, "\n"])
}

/// What is told of the board without a deal.
const UNDEALT: &str = "ddfarm: note: 1 board has no deal, so there is no table\n";

/// The leads of a file with boards, by one thread and by several.
#[test]
fn opening_leads(rt: HostRuntime) {
    let alloc = rt.alloc();
    let disk = disk_of(&rt, alloc, b"", 0, u64::MAX);
    let printed = leads_text(&rt, alloc);
    for solvers in [1, 3] {
        let asked = Subcommand::Leads(LeadsOptions {
            solvers,
            budget: STEPS,
            progress: false,
            boards: Some(BOARDS),
        });
        let wanted = (Status::Done, printed.as_str(), UNDEALT);
        expect_done(&rt, alloc, asked, &disk, wanted);
    }
}
