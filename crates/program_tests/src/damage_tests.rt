//! A certificate of each version with one byte changed, for each place and each byte, and the beginnings of an answer.

use crate::expect::{
    Memory, NO_RESULT, buffer, expect_bytes, expect_ended, expect_eq, got, joined_bytes, memory,
    some, text_on,
};
use board_subcommands::table::KeptFiles;
use cards::{Bytes, Seat, Trump};
use certificate_graph::{Graph, TextFault};
use command_line::{Subcommand, run_subcommand};
use command_words::LayoutWords;
use farm::Means;
use partition_solver::Partition;
use run_ends::{NamedFiles, NewFiles, Status};
use std::alloc::Global;
use std::process::Abort;
use std::sync::Wait;
use std::thread::Threads;
use test_support::idle::{LetsPass, StandsStill};

/// A finesse: South leads, North covers West's card, and wins two tricks.
const FINESSE: &[u8] = b"DDC 1
trump NT
side NS
nodes 2
S 2 2.2.2.2/NWN 0.0.0.0/ 0.0.0.0/ 0.0.0.0/ Sx(SbSa(Sx{N1})SxSc(Sx{N1}))
N 1 1.1.1.1/N 0.0.0.0/ 0.0.0.0/ 0.0.0.0/ Sa(SxSx(Sx{}))
";

/// The digits of the versions, and the place where one stands.
const VERSIONS: [u8; 2] = [b'1', b'2'];

const VERSION_PLACE: usize = 4;

/// What stands before it in the answer to East's no-trump: East's side needs no trick.
const NONE_FOR_EAST: &[u8] = b"result 0
DDC 1
trump NT
side EW
nodes 0

";

/// The pieces of the finesse, and how many texts with another byte in a piece are those of a graph.
///
/// A seat has three others, but none owns more cards than it has. A need may be 1 to 13. The suit of a card has three
/// others, its letter thirteen, but a branch has to come after the one before it. A child may be node 0 too, and there
/// is another version. Each other change breaks a form or gives a hand another size.
const PIECES: [(&[u8], u64); 29] = [
    (b"DDC ", 0),
    (b"1", 1),
    (b"\ntrump NT\nside NS\nnodes 2\n", 0),
    (b"S", 3),
    (b" ", 0),
    (b"2", 8),
    (b" 2.2.2.2/", 0),
    (b"N", 3),
    (b"W", 2),
    (b"N", 3),
    (b" 0.0.0.0/ 0.0.0.0/ 0.0.0.0/ ", 0),
    (b"Sx", 16),
    (b"(Sb", 12),
    (b"Sa", 16),
    (b"(Sx", 16),
    (b"{N1", 4),
    (b"})Sx", 14),
    (b"Sc", 16),
    (b"(Sx", 16),
    (b"{N1", 4),
    (b"}))\n", 0),
    (b"N", 3),
    (b" 1", 8),
    (b" 1.1.1.1/N", 3),
    (b" 0.0.0.0/ 0.0.0.0/ 0.0.0.0/ Sa", 16),
    (b"(Sx", 16),
    (b"Sx", 16),
    (b"(Sx", 16),
    (b"{}))\n", 0),
];

/// The finesse as a certificate of this version.
fn finesse(rt: &impl Abort, alloc: Global, version: u8) -> Vec<u8> {
    let text = got(rt, Vec::from_slice(alloc, FINESSE));
    with_byte(text, VERSION_PLACE, version)
}

/// The text with this byte in this place.
fn with_byte(mut text: Vec<u8>, place: usize, byte: u8) -> Vec<u8> {
    if let Some(spot) = text.get_mut(place) {
        *spot = byte;
    }
    text
}

/// The finesse of this version with this byte in this place.
fn damaged(rt: &impl Abort, alloc: Global, version: u8, place: usize, byte: u8) -> Vec<u8> {
    with_byte(finesse(rt, alloc, version), place, byte)
}

/// The graph is written as the text.
fn expect_written(rt: &impl Abort, alloc: Global, graph: &Graph, text: &[u8]) {
    let mut sink = buffer(rt, alloc, (200, 200));
    expect_eq(rt, &graph.write(&mut sink), &Ok(()));
    expect_bytes(rt, sink.bytes(), text);
}

/// Whether the text is that of a graph. The graph is written as it was read, and memory doesn't run out.
fn is_graph(rt: &impl Abort, alloc: Global, text: &[u8]) -> bool {
    match Graph::read(alloc, text) {
        Ok(graph) => {
            expect_written(rt, alloc, &graph, text);
            true
        }
        Err(fault) => {
            expect_eq(rt, &(fault == TextFault::OutOfMemory), &false);
            false
        }
    }
}

/// How many texts of this version with another byte in this place are those of a graph.
fn graphs_at(rt: &impl Abort, alloc: Global, version: u8, place: usize) -> u64 {
    let whole = finesse(rt, alloc, version);
    let mut graphs = 0u64;
    for byte in 0..=u8::MAX {
        let text = damaged(rt, alloc, version, place, byte);
        if text.as_slice() != whole.as_slice() && is_graph(rt, alloc, text.as_slice()) {
            graphs = graphs.saturating_add(1);
        }
    }
    graphs
}

/// A text with one byte changed is refused, or is that of another graph: 212 are of 40,545.
fn expect_graphs(rt: &impl Abort, alloc: Global, version: u8) {
    let mut place = 0usize;
    for (piece, wanted) in PIECES {
        let mut graphs = 0u64;
        for byte in piece {
            expect_eq(rt, &FINESSE.get(place), &Some(byte));
            graphs = graphs.saturating_add(graphs_at(rt, alloc, version, place));
            place = place.saturating_add(1);
        }
        expect_eq(rt, &graphs, &wanted);
    }
    expect_eq(rt, &place, &FINESSE.len());
}

#[test]
fn texts_with_one_byte_changed(rt: HostRuntime) {
    for version in VERSIONS {
        expect_graphs(&rt, rt.alloc(), version);
    }
}

/// How `check` ends on an answer to East's no-trump where the finesse wins, over these streams, whose input is the
/// answer.
fn check<R: NamedFiles + KeptFiles + NewFiles + Threads + Wait + Sync>(
    rt: &R,
    alloc: Global,
    streams: &mut Memory<'_>,
) -> Status {
    let asked = Subcommand::Check(LayoutWords {
        layout: "N:AQ... 65... 32... K4...",
        seat: Seat::East,
        trump: Trump::Nt,
    });
    let means = Means {
        solver: &Partition::new(),
        gate: &LetsPass,
        clock: &StandsStill,
    };
    run_subcommand(rt, alloc, asked, &means, streams).0
}

/// The answer with this in the finesse's place.
fn answer_with(rt: &impl Abort, alloc: Global, text: &[u8]) -> Vec<u8> {
    joined_bytes(rt, alloc, &[NONE_FOR_EAST, text])
}

/// Whether this says that an answer was accepted. Otherwise it refuses it, in one line.
fn says_accepted(rt: &impl Abort, status: Status, printed: &str) -> bool {
    if printed.starts_with("refused ") {
        expect_eq(rt, &status, &Status::Rejected);
        let end = printed.len().saturating_sub(1);
        expect_eq(rt, &printed.find('\n'), &Some(end));
        return false;
    }
    expect_eq(rt, &(status, printed), &(Status::Done, "accepted 0\n"));
    true
}

/// Whether `check` accepts this in the finesse's place. It says so, or refuses it, in one line.
fn is_accepted<R: Abort + NamedFiles + KeptFiles + NewFiles + Threads + Wait + Sync>(
    rt: &R,
    alloc: Global,
    text: &[u8],
) -> bool {
    let answer = answer_with(rt, alloc, text);
    let input = Bytes::new(answer.as_slice(), 100);
    let mut streams = memory(rt, alloc, input, (100, 100), (100, 100));
    let status = check(rt, alloc, &mut streams);
    expect_bytes(rt, streams.errors.bytes(), b"");
    says_accepted(rt, status, text_on(rt, &streams.output))
}

/// Whether this byte in this place, in which another may stand, leaves the answer right.
fn is_right(place: usize, old: u8, byte: u8) -> bool {
    if place == VERSION_PLACE {
        VERSIONS.contains(&byte)
    } else {
        byte == old
    }
}

/// No byte can be changed but the version: two rounds of the finesse are told with no card, seat or number to spare.
#[test]
fn answers_with_one_byte_changed(rt: HostRuntime) {
    for version in VERSIONS {
        for (place, old) in FINESSE.iter().enumerate() {
            for byte in 0..=u8::MAX {
                let text = damaged(&rt, rt.alloc(), version, place, byte);
                let accepted = is_accepted(&rt, rt.alloc(), text.as_slice());
                expect_eq(&rt, &accepted, &is_right(place, *old, byte));
            }
        }
    }
}

/// How `check` ends on the first so many bytes of the answer, what it prints, and what it tells.
fn end_of_beginning(count: usize) -> (Status, &'static str, &'static str) {
    let printed = match count {
        0..9 => {
            return (Status::Refused, "", NO_RESULT);
        }
        9..15 => "refused declarer 10 Text 1 Head line 1\n",
        15..24 => "refused declarer 10 Text 1 Head line 2\n",
        24..32 => "refused declarer 10 Text 1 Head line 3\n",
        32..40 => "refused declarer 10 Text 1 Head line 4\n",
        40..47 => "refused defenders 10 Text 1 Head line 1\n",
        47..56 => "refused defenders 10 Text 1 Head line 2\n",
        56..64 => "refused defenders 10 Text 1 Head line 3\n",
        64..72 => "refused defenders 10 Text 1 Head line 4\n",
        72 => "refused defenders 10 Text 5 Count line 5\n",
        73..144 => "refused defenders 10 Text 2 NodeForm line 5\n",
        144 => "refused defenders 10 Text 5 Count line 6\n",
        145..200 => "refused defenders 10 Text 2 NodeForm line 6\n",
        _ => return (Status::Done, "accepted 0\n", ""),
    };
    (Status::Rejected, printed, "")
}

/// A run on the first `count` bytes of the answer ends as it should.
fn expect_beginning<R: Abort + NamedFiles + KeptFiles + NewFiles + Threads + Wait + Sync>(
    rt: &R,
    alloc: Global,
    answer: &[u8],
    count: usize,
) {
    let input = Bytes::new(some(rt, answer.get(..count)), 100);
    let mut streams = memory(rt, alloc, input, (100, 3), (200, 3));
    let status = check(rt, alloc, &mut streams);
    expect_ended(rt, status, &streams, end_of_beginning(count));
}

/// Each beginning of the answer with the finesse of this version ends as it should.
fn expect_beginnings<R: Abort + NamedFiles + KeptFiles + NewFiles + Threads + Wait + Sync>(
    rt: &R,
    alloc: Global,
    version: u8,
) {
    let text = finesse(rt, alloc, version);
    let answer = answer_with(rt, alloc, text.as_slice());
    expect_eq(rt, &answer.len(), &200);
    for count in 0..=answer.len() {
        expect_beginning(rt, alloc, answer.as_slice(), count);
    }
}

#[test]
fn beginnings_of_the_answer(rt: HostRuntime) {
    for version in VERSIONS {
        expect_beginnings(&rt, rt.alloc(), version);
    }
}
