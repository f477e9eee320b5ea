//! An answer that is being checked holds nobody else up.

ghost use Rattle.std.specs.Prelude.{◌≡◌};
ghost use Rattle.lease_desk.specs.Desks.{IsChairOf, number_of};

use super::asking::{ask, expect_replies};
use super::shifts::{Shift, closed_after};
use crate::expect::expect;
use crate::lease_tests::certificates::{Answer, NORTH_HIGH, NT, SPADES};
use cards::{Seat, Trump};
use lease_book::{Gate, Reply};
use lease_desk::{Chair, Desk};
use plain_runs::Request;
use std::alloc::Global;
use std::process::Abort;
use std::sync::Wait;
use std::sync::atomic::AtomicBool;
use std::sync::atomic::Ordering::SeqCst;
use std::test::Fail;
use std::thread;
use test_support::idle::LetsPass;

/// Waits until it is set, a billion turns at most, and says whether it was.
fn is_set_in_time(sign: &AtomicBool) -> bool {
    for turn in 0..1_000_000_000u32 {
        if sign.load(SeqCst) {
            return true;
        }
        if turn % 1_024 == 0 {
            thread::yield_now();
        }
    }
    false
}

/// Two chairs: under the first lease one hands in, and its check begins when the other has leased. The other leases
/// when the one is about to be checked.
#[derive(Drop)]
struct Overtaking {
    handed_in: AtomicBool,
    leased: AtomicBool,
    in_time: AtomicBool,
}

impl Gate for Overtaking {
    fn before_solve(&self, _lease: u64) {}

    fn before_check(&self, _lease: u64) {
        self.handed_in.store(true, SeqCst);
        if is_set_in_time(&self.leased) {
            self.in_time.store(true, SeqCst);
        }
    }
}

/// The replies to the first chair's lease, the second chair's lease, and the first chair's answer.
const REPLIES: [Reply; 3] = [
    Reply::Given {
        lease: 1,
        entry: NT,
        deadline: 10,
    },
    Reply::Given {
        lease: 2,
        entry: SPADES,
        deadline: 11,
    },
    Reply::Published(1),
];

impl Shift for Overtaking {
    fn work<R: Abort + Wait>(&self, rt: &R, alloc: Global, desk: &Desk, chair: &mut Chair) {
        if chair.number() == 0 {
            let answer = Answer::of(alloc, Seat::North, Seat::North, Trump::Nt);
            let request = answer.expect(rt, "memory for an answer").hand_in(1, NT);
            ask(
                rt,
                alloc,
                desk,
                chair,
                &Request::Lease { now: 0 },
                &LetsPass,
            );
            ask(rt, alloc, desk, chair, &request, self);
        } else {
            expect(rt, is_set_in_time(&self.handed_in));
            ask(
                rt,
                alloc,
                desk,
                chair,
                &Request::Lease { now: 1 },
                &LetsPass,
            );
            self.leased.store(true, SeqCst);
        }
    }
}

#[test]
fn others_go_on_while_an_answer_is_checked(rt: HostRuntime) -> Result<(), Fail> {
    let overtaking = Overtaking {
        handed_in: AtomicBool::new(false),
        leased: AtomicBool::new(false),
        in_time: AtomicBool::new(false),
    };
    let terms: (&[Option<&str>], u64, u32) = (&[Some(NORTH_HIGH)], 10, 1);
    let closed = closed_after(&rt, rt.alloc(), terms, 2, &overtaking)?;
    expect(&rt, overtaking.in_time.load(SeqCst));
    expect_replies(&rt, closed.book.history(), &REPLIES);
    Ok(())
}
