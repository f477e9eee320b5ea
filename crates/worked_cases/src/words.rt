//! Cases on runs of the program, by the words of a command line.

use crate::answers::Answer;
use crate::texts::{bytes_of, field, number, repeated, say_field, text_of};
use board_subcommands::table::KeptFiles;
use cards::{Buffer, Bytes, Source};
use command_line::run_command;
use farm::Means;
use run_ends::{NamedFiles, NewFiles};
use std::alloc::Global;
use std::sync::Wait;
use std::thread::Threads;
use streams::Streams;
use test_support::idle::{FindsNothing, LetsPass, StandsStill};

/// Room for what a run prints.
const ROOM: usize = 8192;

/// How many processors the machine is said to have.
const PROCESSORS: usize = 2;

/// An input, and both outputs.
type Memory<'a> = Streams<Bytes<'a>, Buffer, Buffer>;

/// An input that gives at most `piece` bytes a call, and outputs with these rooms. Nothing where memory ran out.
fn memory<'a>(
    alloc: Global,
    text: &'a [u8],
    piece: usize,
    rooms: [usize; 2],
    out: &mut Answer,
) -> Option<Memory<'a>> {
    let output = Buffer::new(alloc, rooms[0], 3).ok();
    let errors = Buffer::new(alloc, rooms[1], 3).ok();
    if let (Some(output), Some(errors)) = (output, errors) {
        return Some(Streams {
            input: Bytes::new(text, piece),
            output,
            errors,
        });
    }
    out.fails();
    None
}

/// Does what words ask for, with a solver that finds nothing.
fn run_words<R: NamedFiles + KeptFiles + NewFiles + Threads + Wait + Sync>(
    rt: &R,
    alloc: Global,
    words: &[&str],
    streams: &mut Memory<'_>,
) -> u8 {
    let means = Means {
        solver: &FindsNothing,
        gate: &LetsPass,
        clock: &StandsStill,
    };
    run_command(rt, alloc, words, PROCESSORS, &means, streams)
}

/// Says the exit status of words, and what is on both outputs.
fn say_run<R: NamedFiles + KeptFiles + NewFiles + Threads + Wait + Sync>(
    rt: &R,
    alloc: Global,
    words: &[&str],
    streams: &mut Memory<'_>,
    out: &mut Answer,
) {
    let status = run_words(rt, alloc, words, streams);
    out.say("status ");
    out.show(status);
    out.say(" |");
    say_field(streams.output.bytes(), out);
    say_field(streams.errors.bytes(), out);
}

/// Says what comes of words over an input: the exit status, and what is on both outputs.
fn say_run_on<R: NamedFiles + KeptFiles + NewFiles + Threads + Wait + Sync>(
    rt: &R,
    alloc: Global,
    words: &[&str],
    text: &[u8],
    out: &mut Answer,
) {
    if let Some(mut streams) = memory(alloc, text, 100, [ROOM, ROOM], out) {
        say_run(rt, alloc, words, &mut streams, out);
    }
}

/// The words of a subcommand on the first three fields of a case.
fn words_for<'a>(subcommand: &'a str, case: &'a str) -> [&'a str; 5] {
    [
        "ddfarm",
        subcommand,
        field(case, 1),
        field(case, 2),
        field(case, 3),
    ]
}

/// What `plain` prints of a layout.
pub fn answer_plain<R: NamedFiles + KeptFiles + NewFiles + Threads + Wait + Sync>(
    rt: &R,
    alloc: Global,
    case: &str,
    out: &mut Answer,
) {
    say_run_on(rt, alloc, &words_for("plain", case), b"", out);
}

/// What `check` or `line` prints of an answer.
pub fn answer_check<R: NamedFiles + KeptFiles + NewFiles + Threads + Wait + Sync>(
    rt: &R,
    alloc: Global,
    subcommand: &str,
    case: &str,
    out: &mut Answer,
) {
    let text = bytes_of(alloc, field(case, 4), out);
    say_run_on(
        rt,
        alloc,
        &words_for(subcommand, case),
        text.as_slice(),
        out,
    );
}

/// What `table` prints of a PBN text.
pub fn answer_table<R: NamedFiles + KeptFiles + NewFiles + Threads + Wait + Sync>(
    rt: &R,
    alloc: Global,
    case: &str,
    out: &mut Answer,
) {
    let text = repeated(alloc, case, out);
    say_run_on(rt, alloc, &["ddfarm", "table"], text.as_slice(), out);
}

/// The words of a line.
fn words_of<'a>(alloc: Global, line: &'a str, out: &mut Answer) -> Vec<&'a str> {
    let mut words = Vec::new(alloc);
    for word in line.split(';') {
        out.needs(words.push(word));
    }
    words
}

/// The room that a field tells, or enough.
fn room_of(field: &str) -> usize {
    if field.is_empty() {
        ROOM
    } else {
        number(field) as usize
    }
}

/// Says what is left of an input of at most 64 bytes.
fn say_left(input: &mut Bytes<'_>, out: &mut Answer) {
    let mut left = [0; 64];
    if let Ok(count) = input.read(&mut left) {
        say_field(&left[..count], out);
    }
}

/// What comes of the words of a case: the exit status, what is on the output and on the error output, and what is left
/// of an input of at most 64 bytes.
pub fn answer_words<R: NamedFiles + KeptFiles + NewFiles + Threads + Wait + Sync>(
    rt: &R,
    alloc: Global,
    case: &str,
    out: &mut Answer,
) {
    let line = bytes_of(alloc, field(case, 1), out);
    let words = words_of(alloc, text_of(line.as_slice()), out);
    let text = bytes_of(alloc, field(case, 2), out);
    let rooms = [room_of(field(case, 3)), room_of(field(case, 4))];
    if let Some(mut streams) = memory(alloc, text.as_slice(), 64, rooms, out) {
        say_run(rt, alloc, words.as_slice(), &mut streams, out);
        say_left(&mut streams.input, out);
    }
}

/// Whether what is printed begins with the text of a case, or has it.
fn comparison(printed: &[u8], told: &[u8]) -> &'static str {
    for start in 0..printed.len() {
        if printed[start..].starts_with(told) {
            return if start == 0 { "begins so" } else { "has it" };
        }
    }
    if printed.is_empty() {
        "empty"
    } else {
        "is another"
    }
}

/// The exit status of the words of a case, over no input. The outputs are in these streams then.
fn status_of<R: NamedFiles + KeptFiles + NewFiles + Threads + Wait + Sync>(
    rt: &R,
    alloc: Global,
    case: &str,
    streams: &mut Memory<'_>,
    out: &mut Answer,
) -> u8 {
    let words = words_of(alloc, field(case, 1), out);
    run_words(rt, alloc, words.as_slice(), streams)
}

/// Whether what comes of the words of a case is what it tells.
pub fn answer_told<R: NamedFiles + KeptFiles + NewFiles + Threads + Wait + Sync>(
    rt: &R,
    alloc: Global,
    case: &str,
    out: &mut Answer,
) {
    let text = bytes_of(alloc, field(case, 2), out);
    let told = text.as_slice();
    if let Some(mut streams) = memory(alloc, b"", 1, [ROOM, ROOM], out) {
        let status = status_of(rt, alloc, case, &mut streams, out);
        out.say("status ");
        out.show(status);
        out.say(", output ");
        out.say(comparison(streams.output.bytes(), told));
        out.say(", error output ");
        out.say(comparison(streams.errors.bytes(), told));
    }
}

/// Says each line of what is printed on an output, if anything is.
fn say_lines(name: &str, printed: &[u8], out: &mut Answer) {
    if printed.is_empty() {
        return;
    }
    out.say("\n= ");
    out.say(name);
    let text = text_of(printed);
    let lines = text.strip_suffix("\n");
    if lines.is_none() {
        out.say(", whose last line is not ended");
    }
    for line in lines.unwrap_or(text).split('\n') {
        out.say("\n= |");
        out.say(line);
    }
}

/// What comes of the words of a case, over no input: the exit status, and the lines on the output and on the error
/// output.
pub fn answer_lines<R: NamedFiles + KeptFiles + NewFiles + Threads + Wait + Sync>(
    rt: &R,
    alloc: Global,
    case: &str,
    out: &mut Answer,
) {
    if let Some(mut streams) = memory(alloc, b"", 1, [ROOM, ROOM], out) {
        let status = status_of(rt, alloc, case, &mut streams, out);
        out.say("status ");
        out.show(status);
        say_lines("output", streams.output.bytes(), out);
        say_lines("error output", streams.errors.bytes(), out);
    }
}
