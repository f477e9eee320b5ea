//! What is asked, and a solver that counts how often it is.

use crate::disks::{Disk, NAME, Open, System};
use crate::expect::{expect_eq, got};
use cards::{Layout, Seat, Trump};
use certificate_graph::{Bundle, Solver};
use evidence::read_section;
use evidence_solvers::{KeepFault, Keeping, Opened, Tail, open_evidence};
use lease_book::Clock;
use std::alloc::{AllocError, Global};
use std::io::Take;
use std::marker::Brand;
use std::process::Abort;
use std::sync::Wait;
use std::sync::atomic::AtomicU64;
use std::sync::atomic::Ordering::SeqCst;
use streams::CannotOpen;

/// What stands for an answer that is none.
const NO_ANSWER: u8 = 255;

/// A solver that counts how often it is asked, and answers what the section of a text holds.
#[derive(Drop)]
pub struct Counts<'a> {
    pub asked: AtomicU64,
    pub text: &'a str,
}

impl<'a> Counts<'a> {
    /// A solver that wasn't asked yet.
    pub fn of(text: &'a str) -> Counts<'a> {
        Counts {
            asked: AtomicU64::new(0),
            text,
        }
    }
}

/// A solver around [`Counts`] whose answers are kept on a disk.
pub type DiskKeeping<'a, R> = Keeping<'a, 'a, R, Steps, Counts<'a>, Open<'a, R>, Brand>;

impl Solver for Counts<'_> {
    fn solve(
        &self,
        alloc: Global,
        _layout: &Layout,
        _declarers: &[Seat],
        _trump: Trump,
        _budget: u64,
    ) -> Result<Option<Bundle>, AllocError> {
        self.asked.fetch_add(1, SeqCst);
        match read_section(alloc, self.text.as_bytes()) {
            Ok(Some(section)) => Ok(Some(section.into_bundle())),
            Ok(None) => Ok(None),
            Err(_) => Err(AllocError),
        }
    }
}

/// A clock that goes on by so many seconds whenever it is looked at.
#[derive(Drop)]
pub struct Steps {
    now: AtomicU64,
    step: u64,
}

impl Steps {
    /// A clock that goes on by so many seconds, from 0 on.
    pub fn new(step: u64) -> Steps {
        Steps {
            now: AtomicU64::new(0),
            step,
        }
    }
}

impl Clock for Steps {
    fn now(&self) -> u64 {
        self.now.fetch_add(self.step, SeqCst)
    }
}

/// A solver around this one whose answers are kept on a disk.
pub fn keeping_of<'a, R: Wait>(
    rt: &'a R,
    alloc: Global,
    clock: &'a Steps,
    inner: &'a Counts<'a>,
    tail: Tail<Open<'a, R>>,
) -> DiskKeeping<'a, R> {
    Keeping::new(rt, alloc, clock, inner, tail)
}

/// Whether the file has all that was to be added to it.
pub fn kept<R: Wait>(keeping: DiskKeeping<'_, R>) -> Result<(), KeepFault> {
    keeping.close(&[]).into_parts().1
}

/// A file of a disk, opened, or why it can't be.
pub fn open<'a, R: Wait>(
    disk: &'a Disk<'a, R>,
    name: &str,
) -> Result<Opened<Open<'a, R>>, CannotOpen> {
    open_evidence(&System(disk), name)
}

/// The file of a disk, opened to be read. What is added later isn't read.
pub fn front_of<'a, R: Wait + Abort>(rt: &R, disk: &'a Disk<'a, R>) -> Take<Open<'a, R>> {
    got(rt, open(disk, NAME)).front
}

/// The file of a disk, opened to be added to.
pub fn tail_of<'a, R: Wait + Abort>(rt: &R, disk: &'a Disk<'a, R>) -> Tail<Open<'a, R>> {
    got(rt, open(disk, NAME)).tail
}

/// The solver claims this number of tricks for North in no-trump.
pub fn expect_tricks<S: Solver>(
    rt: &impl Abort,
    alloc: Global,
    solver: &S,
    layout: &Layout,
    tricks: u8,
) {
    expect_eq(rt, &tricks_of_north(alloc, solver, layout), &tricks);
}

/// How many tricks are claimed for North in no-trump.
pub fn tricks_of_north<S: Solver>(alloc: Global, solver: &S, layout: &Layout) -> u8 {
    let Ok(Some(bundle)) = solver.solve(alloc, layout, &[Seat::North], Trump::Nt, 1) else {
        return NO_ANSWER;
    };
    match bundle.claims.as_slice().first() {
        Some(claim) => claim.k,
        None => NO_ANSWER,
    }
}
