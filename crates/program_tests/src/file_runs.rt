//! Runs with a file of evidence and one of boards, over memory.

use crate::disks::{Disk, System};
use crate::expect::{End, ROOM, expect_bytes, expect_ended, got, memory, run_on};
use crate::pages::{TABLES, tables_by};
use crate::sections::NO_TRUMP;
use board_subcommands::audit::AuditOptions;
use board_subcommands::table::TableOptions;
use cards::{Bytes, Layout, Seat, Suit, Trump};
use certificate_graph::{Bundle, Solver};
use command_line::Subcommand;
use evidence::read_section;
use settings_support::once;
use std::alloc::{AllocError, Global};
use std::process::Abort;
use std::sync::Wait;
use std::thread::Threads;
use test_support::four_suits::{BOARD, RUFFS};
use test_support::idle::LetsPass;

/// A solver that finds what is shown of North's spades, and nothing else.
#[derive(Drop)]
struct FindsSpades;

impl Solver for FindsSpades {
    fn solve(
        &self,
        alloc: Global,
        _layout: &Layout,
        declarers: &[Seat],
        trump: Trump,
        _budget: u64,
    ) -> Result<Option<Bundle>, AllocError> {
        if declarers != [Seat::North].as_slice() || trump != Trump::Suit(Suit::Spades) {
            return Ok(None);
        }
        match read_section(alloc, RUFFS.as_bytes()) {
            Ok(Some(section)) => Ok(Some(section.into_bundle())),
            _ => Err(AllocError),
        }
    }
}

/// The devices of a run: what the file of evidence holds, how many bytes more it has room for and which of its calls
/// fails, which call of the file of boards and of the input fails, and how many bytes the output takes. That file and
/// the input hold the same.
#[derive(Clone, Copy)]
pub struct Devices<'a> {
    pub file: &'a [u8],
    pub file_room: usize,
    pub file_fails: u64,
    pub boards_fail: u64,
    pub input_fails: u64,
    pub output_room: usize,
}

/// Devices of which none fails. The file shows that North takes no trick without trumps.
pub const SOUND: Devices<'static> = Devices {
    file: NO_TRUMP,
    file_room: RUFFS.len(),
    file_fails: u64::MAX,
    boards_fail: u64::MAX,
    input_fails: u64::MAX,
    output_room: ROOM,
};

/// The audit of a file, for the boards of this one, or of the input.
pub fn audit<'a>(file: &'a str, boards: Option<&'a str>) -> Subcommand<'a> {
    Subcommand::Audit(AuditOptions {
        file,
        page: TABLES,
        boards,
    })
}

/// The tables whose evidence is kept in a file, of the boards of that one or of the input. Each entry is looked for
/// once.
pub fn table<'a>(rt: &impl Abort, file: &'a str, boards: Option<&'a str>) -> Subcommand<'a> {
    Subcommand::Table(TableOptions {
        boards,
        evidence: Some(file),
        ..tables_by(got(rt, once(1, 1, 10_000_000, 1)))
    })
}

/// A disk whose file has these bytes, and room for `room` more. One of its calls fails.
pub fn disk_of(rt: &impl Abort, alloc: Global, bytes: &[u8], room: usize, failing: u64) -> Disk {
    got(rt, Disk::new(alloc, bytes, room, failing))
}

/// The file of a disk has these bytes.
pub fn expect_held(rt: &impl Abort, alloc: Global, disk: &Disk, wanted: &[u8]) {
    let held = got(rt, disk.bytes(alloc));
    expect_bytes(rt, held.as_slice(), wanted);
}

/// How the run ends over these devices, and what the file holds then.
pub fn expect_end<R: Abort + Threads + Wait + Sync>(
    rt: &R,
    alloc: Global,
    asked: Subcommand<'_>,
    devices: Devices<'_>,
    wanted: End<'_>,
    kept: &[u8],
) {
    let disk = disk_of(
        rt,
        alloc,
        devices.file,
        devices.file_room,
        devices.file_fails,
    );
    let boards = disk_of(rt, alloc, BOARD.as_bytes(), 0, devices.boards_fail);
    let system = System {
        rt,
        evidence: &disk,
        boards: &boards,
    };
    let input = Bytes::failing_after(BOARD.as_bytes(), 1, devices.input_fails);
    let mut streams = memory(rt, alloc, input, (devices.output_room, 3), (ROOM, 7));
    let status = run_on(&system, alloc, asked, &FindsSpades, &LetsPass, &mut streams);
    expect_ended(rt, status, &streams, wanted);
    expect_held(rt, alloc, &disk, kept);
}

/// An audit of a file and tables whose evidence is kept in it both end so, and keep nothing.
pub fn expect_both<R: Abort + Threads + Wait + Sync>(
    rt: &R,
    alloc: Global,
    file: &str,
    boards: Option<&str>,
    devices: Devices<'_>,
    wanted: End<'_>,
) {
    expect_end(
        rt,
        alloc,
        audit(file, boards),
        devices,
        wanted,
        devices.file,
    );
    expect_end(
        rt,
        alloc,
        table(rt, file, boards),
        devices,
        wanted,
        devices.file,
    );
}
