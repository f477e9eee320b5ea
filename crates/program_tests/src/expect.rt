//! What runs are expected to print, to tell and to end with. A call of these costs the prover next to nothing, an
//! `assert_eq!` or a `?` a second or more.

use board_subcommands::table::KeptFiles;
use cards::{Buffer, Bytes};
use certificate_graph::Solver;
use command_line::{Subcommand, run_subcommand};
use farm::Means;
use lease_book::Gate;
use run_ends::{NamedFiles, NewFiles, Status};
use std::alloc::Global;
use std::fmt::Debug;
use std::process::Abort;
use std::sync::Wait;
use std::thread::Threads;
use streams::Streams;
use test_support::idle::{LetsPass, OnlyTables, StandsStill};
use test_support::texts::joined;

/// Room for all that a run prints.
pub const ROOM: usize = 8192;

/// What is told of a text whose first line is not that of an answer.
pub const NO_RESULT: &str = "ddfarm: first line is not a result line
  an answer begins with a line as solve prints it: result 9
";

/// What is told of a layout with a card twice.
pub const CARD_TWICE: &str = "ddfarm: layout: 5 CardTwice
  this layout has a card twice
";

/// What is told of a word that is no layout.
pub const NO_LAYOUT: &str = "ddfarm: layout: 4 DealForm
  a layout is one word, in quotes: a seat and four hands as spades.hearts.diamonds.clubs, T for the ten
";

/// What is told of a layout whose hands have no cards.
pub const NO_CARDS: &str = "ddfarm: layout: 6 HandSize
  the four hands must have equally many cards, 1 to 13
";

/// How a run ends, what is on its output, and what is on its error output.
pub type End<'a> = (Status, &'a str, &'a str);

/// An input and both outputs, over memory.
pub type Memory<'a> = Streams<Bytes<'a>, Buffer, Buffer>;

/// The value of a call, which has to succeed.
pub fn got<T, E: Debug>(rt: &impl Abort, value: Result<T, E>) -> T {
    value.expect(rt, "an error")
}

/// The value, which has to be there.
pub fn some<T>(rt: &impl Abort, value: Option<T>) -> T {
    value.expect(rt, "no value")
}

/// The value is the one that is wanted.
pub fn expect_eq<T: PartialEq + Debug>(rt: &impl Abort, got: &T, wanted: &T) {
    assert_eq!(rt; *got, *wanted);
}

/// The bytes are those that are wanted.
pub fn expect_bytes(rt: &impl Abort, got: &[u8], wanted: &[u8]) {
    assert_eq!(rt; got, wanted);
}

/// The parts in one text.
pub fn joined_text(rt: &impl Abort, alloc: Global, parts: &[&str]) -> String {
    let mut text = String::new(alloc);
    for part in parts {
        got(rt, text.push_str(part));
    }
    text
}

/// The parts in one text.
pub fn joined_bytes(rt: &impl Abort, alloc: Global, parts: &[&[u8]]) -> Vec<u8> {
    got(rt, joined(alloc, parts))
}

/// A solver and a gate, and a clock that stands still.
pub fn means<'a, S, G>(solver: &'a S, gate: &'a G) -> Means<'a, S, G, StandsStill> {
    Means {
        solver,
        gate,
        clock: &StandsStill,
    }
}

/// A buffer with this room, which takes at most `piece` bytes a call.
pub fn buffer(rt: &impl Abort, alloc: Global, (room, piece): (usize, usize)) -> Buffer {
    got(rt, Buffer::new(alloc, room, piece))
}

/// This input, and outputs: each pair is the room and how many bytes a call takes at most.
pub fn memory<'a>(
    rt: &impl Abort,
    alloc: Global,
    input: Bytes<'a>,
    output: (usize, usize),
    errors: (usize, usize),
) -> Memory<'a> {
    Streams {
        input,
        output: buffer(rt, alloc, output),
        errors: buffer(rt, alloc, errors),
    }
}

/// Does a run that asks for no cards.
pub fn run_on<
    R: NamedFiles + KeptFiles + NewFiles + Threads + Wait + Sync,
    S: Solver + Sync,
    G: Gate + Sync,
>(
    rt: &R,
    alloc: Global,
    run: Subcommand<'_>,
    solver: &S,
    gate: &G,
    streams: &mut Memory<'_>,
) -> Status {
    let solver = OnlyTables { solver };
    run_subcommand(rt, alloc, run, &means(&solver, gate), streams).0
}

/// What is on an output, as text.
pub fn text_on<'a>(rt: &impl Abort, output: &'a Buffer) -> &'a str {
    got(rt, str::from_utf8(output.bytes()))
}

/// A run has ended so.
pub fn expect_ended(rt: &impl Abort, status: Status, streams: &Memory<'_>, wanted: End<'_>) {
    let printed = text_on(rt, &streams.output);
    let told = text_on(rt, &streams.errors);
    expect_eq(rt, &(status, printed, told), &wanted);
}

/// Does a run that asks for no cards over an input and an output with this much room.
pub fn expect_run<
    R: Abort + NamedFiles + KeptFiles + NewFiles + Threads + Wait + Sync,
    S: Solver + Sync,
>(
    rt: &R,
    alloc: Global,
    run: Subcommand<'_>,
    solver: &S,
    text: &[u8],
    room: usize,
    wanted: End<'_>,
) {
    let mut streams = memory(rt, alloc, Bytes::new(text, 7), (room, 3), (ROOM, 7));
    let status = run_on(rt, alloc, run, solver, &LetsPass, &mut streams);
    expect_ended(rt, status, &streams, wanted);
}
