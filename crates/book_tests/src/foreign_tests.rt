//! One answer that is handed in for three boards, under leases for them, in a list that is replayed and at a desk.

ghost use Rattle.std.specs.Prelude.{◌≡◌};
ghost use Rattle.lease_desk.specs.Desks.{IsChairOf, number_of};

use crate::desk_tests::asking::claimed_by;
use crate::expect::expect_eq;
use crate::lease_tests::certificates::{Answer, EAST_HIGH, NORTH_HIGH, NT, boards};
use crate::lease_tests::slow_book::{DECLARERS, TRUMPS};
use crate::lease_tests::twins::leases;
use cards::{Seat, Trump};
use checker::{Claimed, EntryFault, HandFault, PartFault};
use lease_book::{Entry, Reply};
use lease_desk::{Chair, Desk};
use plain_runs::{GraphText, Request, replay};
use std::alloc::{AllocError, Global};
use std::process::Abort;
use std::sync::Wait;
use std::test::Fail;
use test_support::idle::LetsPass;

/// North has the highest card on the first two boards, and East on the third.
const LAYOUTS: [Option<&str>; 3] = [
    Some(NORTH_HIGH),
    Some("N:A... Q... K... J..."),
    Some(EAST_HIGH),
];

/// How long a lease lasts.
const TERM: u64 = 10;

/// How many leases are given: all of the first two boards, and one of the third.
const LEASES: usize = 41;

/// The third board doesn't match the pattern.
const NO_MATCH: HandFault = HandFault::Entry(EntryFault::Declarer(PartFault::RootPattern));

/// Under which lease the answer is handed in for North's no-trump on which board, and the reply. Leases 1, 21 and 41
/// are for North's no-trump on the three boards.
const HAND_INS: [(u64, usize, Reply); 5] = [
    (1, 0, Reply::Published(1)),
    (21, 1, Reply::Published(1)),
    (41, 2, Reply::BadCertificate(NO_MATCH)),
    (1, 0, Reply::AlreadyPublished),
    (1, 1, Reply::OtherEntry),
];

/// North's no-trump on a board.
fn entry_on(board: usize) -> Entry {
    Entry { board, ..NT }
}

/// The entries of the three boards in the order in which they are leased.
fn entries(alloc: Global) -> Result<Vec<Entry>, AllocError> {
    let mut entries = Vec::new(alloc);
    for board in 0..LAYOUTS.len() {
        for declarer in DECLARERS {
            for trump in TRUMPS {
                entries.push(Entry {
                    board,
                    declarer,
                    trump,
                })?;
            }
        }
    }
    Ok(entries)
}

/// What is replied to the requests for leases and to the hand-ins.
fn replies(rt: &impl Abort, alloc: Global) -> Vec<Reply> {
    let entries = entries(alloc).expect(rt, "memory for entries");
    let mut replies = Vec::new(alloc);
    for (place, entry) in entries.iter().take(LEASES).enumerate() {
        let given = Reply::Given {
            lease: (place as u64).wrapping_add(1),
            entry: *entry,
            deadline: TERM,
        };
        replies.push(given).expect(rt, "memory for a reply");
    }
    for (_, _, reply) in HAND_INS {
        replies.push(reply).expect(rt, "memory for a reply");
    }
    replies
}

/// The answer: North has the highest card and takes the trick that East leads to. It is so on every such board.
fn answer(rt: &impl Abort, alloc: Global) -> Answer {
    let answer = Answer::of(alloc, Seat::North, Seat::North, Trump::Nt);
    answer.expect(rt, "memory for an answer")
}

/// The requests for leases, and then the hand-ins.
fn requests(rt: &impl Abort, alloc: Global) -> Vec<Request> {
    let mut requests = leases(rt, alloc, LEASES);
    for (lease, board, _) in HAND_INS {
        let request = answer(rt, alloc).hand_in(lease, entry_on(board));
        requests.push(request).expect(rt, "memory for a request");
    }
    requests
}

#[test]
fn in_a_list(rt: HostRuntime) -> Result<(), Fail> {
    let alloc = rt.alloc();
    let requests = requests(&rt, alloc);
    let boards = boards(&rt, alloc, &LAYOUTS);
    let (book, told) = replay(alloc, boards, TERM, 1, requests.as_slice())?;
    expect_eq(&rt, &told, &replies(&rt, alloc));
    for (board, published) in [Some(1), Some(1), None].iter().enumerate() {
        expect_eq(&rt, &book.published(entry_on(board)), published);
    }
    Ok(())
}

/// The answer, as a claim.
fn claimed(rt: &impl Abort, alloc: Global) -> Claimed {
    let Answer {
        k,
        declarer,
        defenders,
    } = answer(rt, alloc);
    let texts = (GraphText::new(declarer), GraphText::new(defenders));
    claimed_by(rt, alloc, k, &texts.0, &texts.1)
}

/// Asks for so many leases.
fn lease_some<R: Abort + Wait>(rt: &R, desk: &Desk, chair: &mut Chair, count: usize)
    requires chair { IsChairOf desk.now chair.old }
    ensures chair { IsChairOf desk.now chair.new }
    ensures number { number_of chair.new ≡ number_of chair.old }
{
    for place in 0..count {
        let told = desk.lease(rt, chair, 0).expect(rt, "memory for a lease");
        expect_eq(rt, &told.place, &(place as u64));
    }
}

/// Hands the answer in, time after time.
fn hand_in_each<R: Abort + Wait>(
    rt: &R,
    desk: &Desk,
    chair: &mut Chair,
    claimed: &Claimed,
    hand_ins: &[(u64, usize, Reply)],
)
    requires chair { IsChairOf desk.now chair.old }
    ensures chair { IsChairOf desk.now chair.new }
    ensures number { number_of chair.new ≡ number_of chair.old }
{
    for hand_in in hand_ins {
        let (lease, board, _) = hand_in;
        let told = desk.hand_in(rt, chair, *lease, entry_on(*board), claimed, &LetsPass);
        told.expect(rt, "memory for a hand-in");
    }
}

#[test]
fn at_a_desk(rt: HostRuntime) -> Result<(), Fail> {
    let alloc = rt.alloc();
    let claimed = claimed(&rt, alloc);
    let boards = boards(&rt, alloc, &LAYOUTS);
    let (desk, mut chairs) = Desk::open(&rt, alloc, boards, TERM, 1, 1)?;
    let mut chair = chairs.pop().ok_or("no chair")?;
    lease_some(&rt, &desk, &mut chair, LEASES);
    hand_in_each(&rt, &desk, &mut chair, &claimed, &HAND_INS);
    let wanted = replies(&rt, alloc);
    expect_eq(&rt, &chair.receipts().len(), &wanted.len());
    for (receipt, reply) in chair.receipts().iter().zip(wanted.as_slice()) {
        expect_eq(&rt, &receipt.event.reply, reply);
    }
    Ok(())
}
