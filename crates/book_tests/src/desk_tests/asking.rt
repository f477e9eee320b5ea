//! Requests at a desk, and what is told of them.

ghost use Rattle.std.specs.Prelude.{◌≡◌};
ghost use Rattle.lease_desk.specs.Desks.{IsChairOf, number_of};

use crate::expect::expect_eq;
use certificate_graph::Graph;
use checker::Claimed;
use lease_book::{Event, Gate, Reply};
use lease_desk::{Chair, Closed, Desk, Receipt};
use plain_runs::{GraphText, Request};
use std::alloc::{AllocError, Global};
use std::process::Abort;
use std::sync::Wait;
use test_support::claimed::claimed_of;

/// What two texts claim, each of which has to be that of a graph.
pub fn claimed_by<R: Abort>(
    rt: &R,
    alloc: Global,
    k: u8,
    declarer: &GraphText,
    defenders: &GraphText,
) -> Claimed {
    let declarer = Graph::read(alloc, declarer.as_bytes()).expect(rt, "a graph for declarer");
    let defenders = Graph::read(alloc, defenders.as_bytes()).expect(
        rt,
        "a graph for the defenders",
    );
    claimed_of(alloc, k, declarer, defenders).expect(rt, "memory for a claim")
}

/// Asks it at the desk, from this chair.
pub fn ask<R: Abort + Wait, G: Gate>(
    rt: &R,
    alloc: Global,
    desk: &Desk,
    chair: &mut Chair,
    request: &Request,
    gate: &G,
) -> Receipt
    requires chair { IsChairOf desk.now chair.old }
    ensures chair { IsChairOf desk.now chair.new }
    ensures number { number_of chair.new ≡ number_of chair.old }
{
    let told = match request {
        Request::Lease { now } => desk.lease(rt, chair, *now),
        Request::Expire { now } => desk.expire(rt, chair, *now),
        Request::GiveUp { lease } => desk.give_up(rt, chair, *lease),
        Request::HandIn {
            lease,
            entry,
            k,
            declarer,
            defenders,
        } => {
            let claimed = claimed_by(rt, alloc, *k, declarer, defenders);
            desk.hand_in(rt, chair, *lease, *entry, &claimed, gate)
        }
    };
    told.expect(rt, "memory for a call")
}

/// The receipts of all chairs, sorted by their places.
fn receipts_of(alloc: Global, chairs: &[Chair]) -> Result<Vec<Receipt>, AllocError> {
    let mut receipts: Vec<Receipt> = Vec::new(alloc);
    for chair in chairs {
        receipts.extend_from_slice(chair.receipts())?;
    }
    receipts.sort_unstable_by_key(|receipt| receipt.place);
    Ok(receipts)
}

/// The receipts of all chairs, sorted by their places, are the history of the closed book.
pub fn expect_told_once<R: Abort>(rt: &R, alloc: Global, closed: &Closed) {
    let receipts = receipts_of(alloc, closed.chairs.as_slice()).expect(rt, "memory for receipts");
    let history = closed.book.history();
    expect_eq(rt, &receipts.len(), &history.len());
    for (place, (receipt, event)) in receipts.iter().zip(history).enumerate() {
        expect_eq(rt, &receipt.place, &(place as u64));
        expect_eq(rt, &receipt.event, event);
    }
}

/// The events have these replies, one by one.
pub fn expect_replies<R: Abort>(rt: &R, events: &[Event], replies: &[Reply]) {
    expect_eq(rt, &events.len(), &replies.len());
    for (event, reply) in events.iter().zip(replies) {
        expect_eq(rt, &event.reply, reply);
    }
}
