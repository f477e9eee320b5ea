//! Work at a desk by many threads, each with a chair.

ghost use Rattle.std.specs.Prelude.{◌≡◌};
ghost use Rattle.lease_desk.specs.Desks.{IsChairOf, AreChairsOf, number_of};

use super::asking::expect_told_once;
use crate::lease_tests::certificates::boards;
use lease_book::BookFault;
use lease_desk::{Chair, Closed, Desk};
use std::alloc::Global;
use std::process::Abort;
use std::sync::Wait;
use std::thread;
use std::thread::Threads;

/// What is done from each chair of a desk.
pub trait Shift: Sync {
    /// Works from this chair.
    fn work<R: Abort + Wait>(&self, rt: &R, alloc: Global, desk: &Desk, chair: &mut Chair)
        requires chair { IsChairOf desk.now chair.old }
        ensures chair { IsChairOf desk.now chair.new }
        ensures number { number_of chair.new ≡ number_of chair.old };
}

/// Works from all chairs of a desk, each in a thread of its own.
fn work_side_by_side<R: Abort + Threads + Wait + Sync, S: Shift>(
    rt: &R,
    alloc: Global,
    desk: &Desk,
    chairs: &mut [Chair],
    shift: &S,
)
    requires { AreChairsOf desk.now chairs.old }
    ensures { AreChairsOf desk.now chairs.new }
{
    let count = chairs.len();
    if count > 0 {
        let work = |_: usize, chair: &mut Chair|
            requires { IsChairOf desk.now chair.old }
            ensures chair { IsChairOf desk.entry.now chair.new }
            ensures number { number_of chair.new ≡ number_of chair.old }
        { shift.work(rt, alloc, desk, chair) };
        thread::for_each_mut(rt, chairs, count, &work);
    }
}

/// Opens a desk over boards with these layouts, and closes it after the work from so many chairs. All receipts are the
/// closed history.
pub fn closed_after<R: Abort + Threads + Wait + Sync, S: Shift>(
    rt: &R,
    alloc: Global,
    (layouts, term, tries): (&[Option<&str>], u64, u32),
    chairs: usize,
    shift: &S,
) -> Result<Closed, BookFault> {
    let boards = boards(rt, alloc, layouts);
    let (desk, mut chairs) = Desk::open(rt, alloc, boards, term, tries, chairs)?;
    work_side_by_side(rt, alloc, &desk, chairs.as_mut_slice(), shift);
    let closed = desk.close(rt, chairs);
    expect_told_once(rt, alloc, &closed);
    Ok(closed)
}
