//! How runs end whose last bytes can't go out.

use crate::card_run_tests::{NORTH, TWO_PLAYED, WRITING_FILE, finesse};
use crate::disks::{EVIDENCE, System};
use crate::expect::{ROOM, buffer, expect_bytes, expect_eq, got, means};
use crate::file_runs::{disk_of, table};
use cards::{Bytes, Sink};
use command_line::{Subcommand, close_output, run_subcommand};
use command_words::Proof;
use partition_solver::Partition;
use run_ends::Status;
use std::alloc::Global;
use std::io;
use std::io::BufWriter;
use std::process::Abort;
use std::sync::Wait;
use std::thread::Threads;
use streams::{Streams, WriterSink};
use test_support::four_suits::BOARD;
use test_support::idle::LetsPass;

/// A writer that takes no byte, or one that fails.
#[derive(Drop)]
struct Broken {
    takes_none: bool,
}

impl io::Write for Broken {
    fn write(&mut self, _buf: &[u8]) -> io::Result<usize> {
        if self.takes_none {
            return Ok(0);
        }
        Err(io::Error::from(io::ErrorKind::BrokenPipe))
    }

    fn flush(&mut self) -> io::Result<()> {
        Ok(())
    }
}

/// Closes an output with five bytes in its buffer.
fn expect_closed<W: io::Write + Drop>(
    rt: &impl Abort,
    alloc: Global,
    writer: W,
    code: u8,
    wanted: (u8, &str),
) {
    let mut streams = Streams {
        input: Bytes::new(b"", ROOM),
        output: WriterSink::new(got(rt, BufWriter::new(alloc, writer))),
        errors: buffer(rt, alloc, (ROOM, ROOM)),
    };
    expect_eq(rt, &streams.output.write(b"NS 1\n"), &Ok(5));
    expect_eq(rt, &close_output(code, &mut streams), &wanted.0);
    expect_bytes(rt, streams.errors.bytes(), wanted.1.as_bytes());
}

/// How runs end, with which exit status, and with which they end where the last bytes can't go out, and what is told of
/// it.
const ENDS: [(Status, u8, u8, &str); 5] = [
    (Status::Done, 0, 1, "ddfarm: writing failed\n"),
    (Status::Incomplete, 3, 1, "ddfarm: writing failed\n"),
    (Status::Failed, 1, 1, ""),
    (Status::Refused, 2, 2, ""),
    (Status::Rejected, 4, 1, "ddfarm: writing failed\n"),
];

/// A run whose last bytes can't go out has failed, and is told so, once.
#[test]
fn failed_flush(rt: HostRuntime) {
    for &(status, code, ended, told) in &ENDS {
        expect_eq(&rt, &status.code(), &code);
        for &takes_none in &[false, true] {
            expect_closed(&rt, rt.alloc(), Broken { takes_none }, code, (ended, told));
        }
        expect_closed(&rt, rt.alloc(), Vec::new(rt.alloc()), code, (code, ""));
    }
}

/// Does a run whose evidence finds no room, with an output whose buffer holds the page, and returns the output. The run
/// has failed, and this was told.
fn without_room<R: Abort + Threads + Wait + Sync, W: io::Write + Drop>(
    rt: &R,
    alloc: Global,
    asked: Subcommand<'_>,
    writer: W,
    told: &str,
) -> WriterSink<BufWriter<W>> {
    let disk = disk_of(rt, alloc, b"", 0, u64::MAX);
    let boards = disk_of(rt, alloc, BOARD.as_bytes(), 0, u64::MAX);
    let system = System {
        rt,
        evidence: &disk,
        boards: &boards,
    };
    let mut streams = Streams {
        input: Bytes::new(BOARD.as_bytes(), ROOM),
        output: WriterSink::new(got(rt, BufWriter::new(alloc, writer))),
        errors: buffer(rt, alloc, (ROOM, ROOM)),
    };
    let solver = Partition::new();
    let means = means(&solver, &LetsPass);
    let (status, _, _) = run_subcommand(&system, alloc, asked, &means, &mut streams);
    expect_eq(rt, &status, &Status::Failed);
    expect_bytes(rt, streams.errors.bytes(), told.as_bytes());
    let Streams {
        input: _,
        output,
        errors: _,
    } = streams;
    output
}

/// A run that keeps evidence, and the end of what it prints.
type Kept<'a> = (Subcommand<'a>, &'a str);

/// The tricks of the finesse's cards, and the table of hands with one suit each, where West takes all tricks in clubs.
fn kept_runs(rt: &impl Abort) -> [Kept<'static>; 2] {
    let cards = finesse(TWO_PLAYED, Proof::Kept(EVIDENCE));
    [
        (Subcommand::Cards(cards), NORTH),
        (table(rt, EVIDENCE, None), "W  C 13\n\n"),
    ]
}

/// If the disc is full, the output and the evidence may both find no room. The output is flushed first: if that fails,
/// it is told, and nothing else. Otherwise the page has gone out when it is told that evidence is missing.
#[test]
fn full_disc(rt: HostRuntime) {
    let alloc = rt.alloc();
    for (asked, end) in kept_runs(&rt) {
        let broken = Broken { takes_none: false };
        without_room(&rt, alloc, asked, broken, "ddfarm: writing failed\n");
        let output = without_room(&rt, alloc, asked, Vec::new(alloc), WRITING_FILE);
        let written = output.get_ref().get_ref();
        expect_eq(&rt, &written.as_slice().ends_with(end.as_bytes()), &true);
    }
}
