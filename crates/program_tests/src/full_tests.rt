//! Runs on outputs that are full, after each number of bytes.

use crate::expect::expect_run;
use crate::solve_tests::{ACE, Claims, STEPS, THIRTEEN, east};
use crate::table_tests::tables;
use board_subcommands::table::KeptFiles;
use cards::{Seat, Trump};
use certificate_graph::Solver;
use command_line::Subcommand;
use command_words::LayoutWords;
use run_ends::{NamedFiles, NewFiles, Status};
use std::alloc::Global;
use std::process::Abort;
use std::sync::Wait;
use std::thread::Threads;
use test_support::idle::FindsNothing;

/// A finesse: South leads, North covers West's card, and wins two tricks. East's side needs none.
const FINESSE: &[u8] = b"result 0
DDC 1
trump NT
side EW
nodes 0

DDC 1
trump NT
side NS
nodes 2
S 2 2.2.2.2/NWN 0.0.0.0/ 0.0.0.0/ 0.0.0.0/ Sx(SbSa(Sx{N1})SxSc(Sx{N1}))
N 1 1.1.1.1/N 0.0.0.0/ 0.0.0.0/ 0.0.0.0/ Sa(SxSx(Sx{}))
";

/// East's contract where the finesse wins.
const CHECK: Subcommand<'static> = Subcommand::Check(LayoutWords {
    layout: "N:AQ... 65... 32... K4...",
    seat: Seat::East,
    trump: Trump::Nt,
});

const UNNAMED: &str = "% PBN 2.1\n[Board \"\"]\n[Deal \"?\"]\n; table incomplete: 0 of 20\n\n";

/// A run that would print this has failed on each output that has not the room for it, and is told so.
fn expect_cut<
    R: Abort + NamedFiles + KeptFiles + NewFiles + Threads + Wait + Sync,
    S: Solver + Sync,
>(rt: &R, alloc: Global, run: Subcommand<'_>, solver: &S, text: &[u8], whole: &str) {
    for room in 0..whole.len() {
        let printed = whole.get(..room).unwrap_or("");
        let wanted = (Status::Failed, printed, "ddfarm: writing failed\n");
        expect_run(rt, alloc, run, solver, text, room, wanted);
    }
}

/// A verdict, an answer and tables.
#[test]
fn full_outputs(rt: HostRuntime) {
    let alloc = rt.alloc();
    expect_cut(&rt, alloc, CHECK, &FindsNothing, FINESSE, "accepted 0\n");
    for batch in [1, 20] {
        let (asked, text) = (tables(&rt, false, batch), b"[Deal \"?\"]");
        expect_cut(&rt, alloc, asked, &FindsNothing, text, UNNAMED);
    }
    let solver = Claims { tricks: Some(13) };
    expect_cut(&rt, alloc, east(ACE, STEPS), &solver, b"", THIRTEEN);
}
