//! Tables made by threads, from a source or to a sink that fails after each number of bytes.

use crate::expect::{buffer, expect_bytes, expect_eq, got, means};
use crate::pages::tables_by;
use board_subcommands::table::{TableOptions, make_tables};
use cards::{Buffer, Bytes};
use partition_solver::Partition;
use settings_support::one_of_each;
use std::alloc::Global;
use std::process::Abort;
use std::sync::Wait;
use std::thread::Threads;
use tables::Report;
use test_support::four_suits::{BOARD, TABLE};
use test_support::idle::LetsPass;
use tournaments::MakeFault;

/// How many steps the solver has for an entry.
const BUDGET: u64 = 10_000_000;

/// Makes the tables of the source by these options.
fn made_of<R: Threads + Wait + Sync>(
    rt: &R,
    alloc: Global,
    options: TableOptions<'_>,
    source: &mut Bytes<'_>,
    sink: &mut Buffer,
) -> Result<Report, MakeFault> {
    let solver = Partition::new();
    match make_tables(rt, alloc, options, &means(&solver, &LetsPass), source, sink) {
        Ok((report, _, _)) => Ok(report),
        Err(fault) => Err(fault),
    }
}

/// Makes the tables of the source, with one solver and one checker in threads. The sink has this then.
fn expect_made<R: Abort + Threads + Wait + Sync>(
    rt: &R,
    alloc: Global,
    source: &mut Bytes<'_>,
    sink: &mut Buffer,
    wanted: Result<Report, MakeFault>,
    written: &[u8],
) {
    let options = tables_by(got(rt, one_of_each(1, BUDGET)));
    expect_eq(rt, &made_of(rt, alloc, options, source, sink), &wanted);
    expect_bytes(rt, sink.bytes(), written);
}

/// A source that gives one byte a call and fails at some call, also at the one that would tell its end: nothing is
/// written.
#[test]
fn torn_sources(rt: HostRuntime) {
    let alloc = rt.alloc();
    for calls in 0..=BOARD.len() as u64 {
        let mut source = Bytes::failing_after(BOARD.as_bytes(), 1, calls);
        let mut sink = buffer(&rt, alloc, (400, 1));
        let wanted = Err(MakeFault::Read);
        expect_made(&rt, alloc, &mut source, &mut sink, wanted, b"");
    }
}

/// A sink that takes one byte a call has the whole tables; one that fails after so many bytes has just these.
#[test]
fn full_sinks(rt: HostRuntime) {
    let alloc = rt.alloc();
    let complete = Report {
        boards: 1,
        complete: 1,
    };
    let table = TABLE.as_bytes();
    for room in 0..=table.len() {
        let mut source = Bytes::new(BOARD.as_bytes(), 1);
        let mut sink = buffer(&rt, alloc, (room, 1));
        let wanted = if room < table.len() {
            Err(MakeFault::Write)
        } else {
            Ok(complete)
        };
        expect_made(&rt, alloc, &mut source, &mut sink, wanted, &table[..room]);
    }
}
