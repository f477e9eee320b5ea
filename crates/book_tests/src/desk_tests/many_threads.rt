//! Four and eight threads at one desk, each with a chair: the receipts are one history, and its replies are those that
//! a plain search finds.

ghost use Rattle.std.specs.Prelude.{◌≡◌};
ghost use Rattle.lease_desk.specs.Desks.{IsChairOf, number_of};

use super::asking::ask;
use super::drawn_requests::Worker;
use super::plain_book::PlainBook;
use super::shifts::{Shift, closed_after};
use crate::expect::expect_eq;
use crate::lease_tests::certificates::boards;
use crate::lease_tests::long_list::{LAYOUTS, asked_by, count_kind, expect_kinds};
use lease_book::Event;
use lease_desk::{Chair, Desk};
use pbn_deals::Board;
use std::alloc::Global;
use std::process::Abort;
use std::sync::Wait;
use std::test::Fail;
use test_support::idle::LetsPass;

/// How many chairs there are, and how many calls are made from all of them.
const DESKS: [(usize, usize); 2] = [(4, 8_000), (8, 16_000)];

/// Whether each of the boards has a deal.
const DEALS: [bool; 3] = [true, false, true];

/// How many calls are made from each.
const CALLS: u64 = 2_000;

/// How long a lease lasts.
const TERM: u64 = 30;

/// How often an entry may be leased.
const TRIES: u32 = 60;

/// Calls that each chair draws, over these boards.
#[derive(Drop)]
struct Drawn<'a> {
    boards: &'a [Board],
}

impl Shift for Drawn<'_> {
    fn work<R: Abort + Wait>(&self, rt: &R, alloc: Global, desk: &Desk, chair: &mut Chair) {
        let mut worker = Worker::new(alloc, chair.number() as u64 % 64 * 1_001);
        for step in 0..CALLS {
            let request = worker.draw(alloc, step).expect(rt, "memory to draw");
            let told = ask(rt, alloc, desk, chair, &request, &LetsPass);
            let asked = asked_by(alloc, self.boards, &request).expect(rt, "memory to judge");
            expect_eq(rt, &told.event.asked, &asked);
            worker.note(told.event.reply).expect(rt, "memory to note");
        }
    }
}

/// The replies are those of a plain book. Counts them by their kinds.
fn expect_plain_replies<R: Abort>(rt: &R, alloc: Global, history: &[Event]) -> [u64; 10] {
    let mut book = PlainBook::new(alloc, &DEALS, TERM, TRIES as u64);
    let mut kinds = [0u64; 10];
    for event in history {
        let reply = book.reply(event.asked).expect(rt, "memory to reply");
        expect_eq(rt, &event.reply, &reply);
        count_kind(&mut kinds, event.reply);
    }
    kinds
}

#[test]
fn threads_make_one_history(rt: HostRuntime) -> Result<(), Fail> {
    let alloc = rt.alloc();
    let boards = boards(&rt, alloc, &LAYOUTS);
    let shift = Drawn {
        boards: boards.as_slice(),
    };
    for (chairs, calls) in DESKS {
        let closed = closed_after(&rt, alloc, (&LAYOUTS, TERM, TRIES), chairs, &shift)?;
        let history = closed.book.history();
        expect_eq(&rt, &history.len(), &calls);
        expect_kinds(&rt, &expect_plain_replies(&rt, alloc, history), 10);
    }
    Ok(())
}
