//! Double-dummy results of bridge deals, from the command line.
//!
//! `main` gives `run_program` what was read of the words of the process, and its streams.
#![tactic(auto)]

use command_line::{ProgramFault, parse_arguments, room_for, run_program};
use farm::{Clock, Means};
use partition_solver::Partition;
use progress::Progress;
use run_ends::tell;
use std::io::{BufWriter, ErrorKind};
use std::process::ExitCode;
use std::thread::{Threads, available_parallelism};
use std::time::Instant;
use streams::{ReaderSource, Streams, WriterSink};

/// Whole seconds since the program's start.
#[derive(Drop)]
struct Seconds<'a> {
    rt: &'a HostRuntime,
    start: Option<Instant>,
}

impl Clock for Seconds<'_> {
    /// 0 where the time can't be read.
    fn now(&self) -> u64 {
        let Some(start) = &self.start else {
            return 0;
        };
        match start.elapsed(self.rt) {
            Ok(time) => time.as_secs(),
            Err(_) => 0,
        }
    }
}

/// The words that the process was started with.
fn words_of_process(rt: &HostRuntime) -> Result<Vec<String>, ProgramFault> {
    match std::env::args(rt) {
        Ok(words) => words
            .collect(rt.alloc())
            .map_err(|_| ProgramFault::OutOfMemory),
        Err(error) if error.kind() == ErrorKind::InvalidData => Err(ProgramFault::NotText),
        Err(_) => Err(ProgramFault::OutOfMemory),
    }
}

/// How many processors the machine has, or 2 if it doesn't say.
fn processors(rt: &impl Threads) -> usize {
    match available_parallelism(rt) {
        Ok(count) => count.get(),
        Err(_) => 2,
    }
}

fn main(rt: HostRuntime) -> ExitCode {
    let clock = Seconds {
        rt: &rt,
        start: Instant::now(&rt).ok(),
    };
    let mut errors = WriterSink::new(rt.stderr());
    let words = match words_of_process(&rt) {
        Ok(words) => words,
        Err(fault) => return ExitCode::from(tell(fault, None, &mut errors).code()),
    };
    let read = parse_arguments(rt.alloc(), words.as_slice(), processors(&rt));
    let Ok(buffered) = BufWriter::with_capacity(rt.alloc(), room_for(&read), rt.stdout()) else {
        return ExitCode::from(tell(ProgramFault::OutOfMemory, None, &mut errors).code());
    };
    let progress = Progress::new(&rt, &clock, WriterSink::new(rt.stderr()));
    let means = Means {
        solver: &Partition::new(),
        gate: &progress,
        clock: &clock,
    };
    let mut streams = Streams {
        input: ReaderSource::new(rt.stdin()),
        output: WriterSink::new(buffered),
        errors,
    };
    ExitCode::from(run_program(&rt, rt.alloc(), read, &means, &mut streams))
}
