//! Answers that are handed in for boards without a deal, for other boards and for the lease's own.

ghost use Rattle.std.specs.Prelude.{◌≡◌};
ghost use Rattle.lease_desk.specs.Desks.{IsChairOf, number_of};

use super::asking::ask;
use super::shifts::{Shift, closed_after};
use crate::expect::expect_eq;
use crate::lease_tests::certificates::{Answer, EAST_HIGH, NORTH_HIGH, NT};
use cards::{Seat, Trump};
use checker::{EntryFault, HandFault, PartFault};
use lease_book::{Asked, Entry, Event, Gate, HandedIn, Reply};
use lease_desk::{Chair, Desk};
use plain_runs::Request;
use std::alloc::Global;
use std::process::Abort;
use std::sync::Wait;
use std::sync::atomic::{AtomicU64, Ordering};
use std::test::Fail;
use test_support::idle::LetsPass;

/// A gate that remembers the leases of which it was told before a check, as the digits of a number.
#[derive(Drop)]
struct Digits(AtomicU64);

impl Digits {
    /// Remembers one more.
    fn add(&self, digit: u64) {
        let digits = self.0.load(Ordering::SeqCst);
        self.0.store(
            digits.wrapping_mul(10).wrapping_add(digit),
            Ordering::SeqCst,
        );
    }
}

impl Gate for Digits {
    fn before_solve(&self, _lease: u64) {
        self.add(9);
    }

    fn before_graphs(&self, _lease: u64) {
        self.add(8);
    }

    fn before_check(&self, lease: u64) {
        self.add(lease);
    }
}

/// North declares no-trump on a board.
fn entry_on(board: usize) -> Entry {
    Entry { board, ..NT }
}

/// A lease, a board, who has the ace by the answer, what is wrong with the answer, and the reply.
type HandIn = (u64, usize, Seat, Option<HandFault>, Reply);

/// The board has no deal.
const NO_DEAL: Option<HandFault> = Some(HandFault::NoDeal);

/// The answer is one for another deal.
const OTHER_DEAL: HandFault = HandFault::Entry(EntryFault::Defenders(PartFault::RootPattern));

/// The reply to that.
const BAD: Reply = Reply::BadCertificate(OTHER_DEAL);

/// What is handed in. North has the ace on board 1, East on board 2; boards 0 and 3 have no deal.
const HAND_INS: [HandIn; 7] = [
    (1, 0, Seat::North, NO_DEAL, Reply::OtherEntry),
    (1, 3, Seat::North, NO_DEAL, Reply::OtherEntry),
    (7, 0, Seat::North, NO_DEAL, Reply::UnknownLease),
    (1, 2, Seat::East, None, Reply::OtherEntry),
    (1, 1, Seat::East, Some(OTHER_DEAL), BAD),
    (1, 1, Seat::North, None, Reply::Published(1)),
    (1, 1, Seat::East, Some(OTHER_DEAL), Reply::AlreadyPublished),
];

/// The fault of what was handed in.
fn fault_of(asked: Asked) -> Option<HandFault> {
    match asked {
        Asked::HandIn {
            evidence: HandedIn::Faulty(fault),
            ..
        } => Some(fault),
        _ => None,
    }
}

/// Hands an answer in. It is judged so, and gets the reply.
fn expect_judged<R: Abort + Wait>(
    rt: &R,
    alloc: Global,
    desk: &Desk,
    chair: &mut Chair,
    hand_in: &HandIn,
    gate: &Digits,
)
    requires chair { IsChairOf desk.now chair.old }
    ensures chair { IsChairOf desk.now chair.new }
    ensures number { number_of chair.new ≡ number_of chair.old }
{
    let (lease, board, holder, fault, reply) = *hand_in;
    let answer = Answer::of(alloc, holder, Seat::North, Trump::Nt).expect(rt, "memory");
    let request = answer.hand_in(lease, entry_on(board));
    let Event {
        asked,
        reply: replied,
    } = ask(rt, alloc, desk, chair, &request, gate).event;
    expect_eq(rt, &fault_of(asked), &fault);
    expect_eq(rt, &replied, &reply);
}

impl Shift for Digits {
    fn work<R: Abort + Wait>(&self, rt: &R, alloc: Global, desk: &Desk, chair: &mut Chair) {
        let told = ask(
            rt,
            alloc,
            desk,
            chair,
            &Request::Lease { now: 0 },
            &LetsPass,
        );
        let given = Reply::Given {
            lease: 1,
            entry: entry_on(1),
            deadline: 10,
        };
        expect_eq(rt, &told.event.reply, &given);
        for hand_in in &HAND_INS {
            expect_judged(rt, alloc, desk, chair, hand_in, self);
        }
    }
}

#[test]
fn answers_are_checked_on_the_deals_of_their_boards(rt: HostRuntime) -> Result<(), Fail> {
    let digits = Digits(AtomicU64::new(0));
    let terms: (&[Option<&str>], u64, u32) = (&[None, Some(NORTH_HIGH), Some(EAST_HIGH)], 10, 1);
    let closed = closed_after(&rt, rt.alloc(), terms, 1, &digits)?;
    expect_eq(&rt, &closed.book.history().len(), &8);
    expect_eq(&rt, &digits.0.load(Ordering::SeqCst), &1_171_111);
    Ok(())
}
