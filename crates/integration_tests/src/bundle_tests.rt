//! Several declarers in one call: claims on two graphs that they share, with DDS's numbers.

use crate::checked::{checked, rooted};
use crate::expect::{expect_eq, got, some};
use crate::solver_tests::{ENDINGS, NINE, Row, SMALL, TRUMPS, expect_for, number_in};
use cards::{Layout, Seat, Side, Trump};
use certificate_graph::{Bundle, Claim, Solver};
use checker::{CheckedGraph, Claimed, Rooted, check_claim, check_entry};
use partition_solver::Partition;
use pbn_deals::read_layout;
use std::alloc::Global;
use std::process::Abort;
use std::sync::Arc;

/// Steps that are enough for a declarer.
const BUDGET: u64 = 10_000_000;

/// The graphs of a bundle, each checked once.
#[derive(Drop)]
struct Shared {
    ns: Arc<CheckedGraph>,
    ew: Arc<CheckedGraph>,
}

impl Shared {
    fn of(rt: &impl Abort, alloc: Global, bundle: &Bundle) -> Shared {
        Shared {
            ns: checked(rt, alloc, got(rt, Arc::try_clone(&bundle.ns))),
            ew: checked(rt, alloc, got(rt, Arc::try_clone(&bundle.ew))),
        }
    }

    /// A root of the graph of a side.
    fn at(&self, rt: &impl Abort, side: Side, root: Option<u32>) -> Rooted {
        let graph = match side {
            Side::NorthSouth => &self.ns,
            Side::EastWest => &self.ew,
        };
        rooted(rt, graph, root)
    }

    /// The tricks that a claim shows by these graphs.
    fn tricks_of(
        &self,
        rt: &impl Abort,
        layout: &Layout,
        trump: Trump,
        claim: Claim,
    ) -> Option<u8> {
        let side = claim.declarer.side();
        let claimed = Claimed {
            k: claim.k,
            declarer: self.at(rt, side, claim.declarer_root),
            defenders: self.at(rt, side.other(), claim.defenders_root),
        };
        match check_claim(layout, claim.declarer, trump, &claimed) {
            Ok(proven) => Some(proven.shown().k),
            Err(_) => None,
        }
    }
}

/// The tricks that an answer of its own shows for a declarer.
fn answered(
    rt: &impl Abort,
    alloc: Global,
    layout: &Layout,
    declarer: Seat,
    trump: Trump,
    bundle: &Bundle,
) -> Option<u8> {
    let answer = got(rt, bundle.answer_for(alloc, declarer))?;
    let (by_declarer, defenders) = (&answer.declarer, &answer.defenders);
    match check_entry(layout, declarer, trump, answer.k, by_declarer, defenders) {
        Ok(proven) => Some(proven.shown().k),
        Err(_) => None,
    }
}

/// Each claim of the bundle shows the number of the row, on the shared graphs and as an answer of its own. There are so
/// many.
fn expect_claims(
    rt: &impl Abort,
    alloc: Global,
    (text, numbers): Row,
    place: usize,
    bundle: &Bundle,
    count: usize,
) {
    let (place, trump) = (place % 5, TRUMPS[place % 5]);
    let layout = got(rt, read_layout(text.as_bytes()));
    let shared = Shared::of(rt, alloc, bundle);
    let mut claims = 0usize;
    for declarer in Seat::ALL {
        if let Some(claim) = bundle.claim_for(declarer) {
            let number = Some(number_in(numbers, declarer, place));
            let shown = shared.tricks_of(rt, &layout, trump, claim);
            expect_for(rt, text, declarer, trump, shown == number);
            let own = answered(rt, alloc, &layout, declarer, trump, bundle);
            expect_for(rt, text, declarer, trump, own == number);
            claims = claims.wrapping_add(1);
        }
    }
    expect_eq(rt, &(claims, bundle.claims.len()), &(count, count));
}

/// What the solver finds for these declarers.
fn found(
    rt: &impl Abort,
    alloc: Global,
    solver: &Partition,
    text: &str,
    (declarers, trump): (&[Seat], Trump),
    budget: u64,
) -> Option<Bundle> {
    let layout = got(rt, read_layout(text.as_bytes()));
    got(rt, solver.solve(alloc, &layout, declarers, trump, budget))
}

/// Asks a new solver for these declarers in a denomination, in one call. All of them have claims.
fn expect_all_claimed(rt: &impl Abort, alloc: Global, row: Row, place: usize, declarers: &[Seat]) {
    let (text, trump) = (row.0, TRUMPS[place % 5]);
    let solver = Partition::new();
    let bundle = found(rt, alloc, &solver, text, (declarers, trump), BUDGET);
    let bundle = some(rt, bundle);
    expect_claims(rt, alloc, row, place, &bundle, declarers.len());
    for declarer in declarers {
        let claim = bundle.claim_for(*declarer);
        expect_for(rt, text, *declarer, trump, claim.is_some());
    }
}

/// Some declarers, in some order.
const SOME: [&[Seat]; 6] = [
    &[Seat::West, Seat::South, Seat::East, Seat::North],
    &[Seat::South],
    &[Seat::East, Seat::West],
    &[Seat::South, Seat::East],
    &[Seat::West, Seat::North, Seat::South],
    &[Seat::North, Seat::East, Seat::South, Seat::West],
];

#[test]
fn declarers_share_graphs(rt: HostRuntime) {
    for place in 0..5usize {
        for row in ENDINGS {
            expect_all_claimed(&rt, rt.alloc(), row, place, &Seat::ALL);
        }
        for (row, declarers) in SMALL.as_slice().iter().zip(SOME.as_slice()) {
            expect_all_claimed(&rt, rt.alloc(), *row, place, declarers);
        }
        expect_all_claimed(&rt, rt.alloc(), NINE, place, &Seat::ALL);
    }
}

/// A solver that has too few steps for the search of a declarer goes on where it stopped, and what it claims meanwhile
/// is right.
#[test]
fn parts_of_a_denomination(rt: HostRuntime) {
    let solver = Partition::new();
    let asked = (Seat::ALL.as_slice(), TRUMPS[3]);
    let mut count = 0;
    for _call in 0..8 {
        if let Some(bundle) = found(&rt, rt.alloc(), &solver, NINE.0, asked, 10_000) {
            count = bundle.claims.len();
            expect_claims(&rt, rt.alloc(), NINE, 3, &bundle, count);
        }
        if count == 4 {
            break;
        }
    }
    expect_eq(&rt, &count, &4);
}

/// Where its steps are too few for one declarer, it has some of those that the others leave.
#[test]
fn one_takes_what_others_leave(rt: HostRuntime) {
    let (text, trump) = (NINE.0, TRUMPS[3]);
    let north = ([Seat::North].as_slice(), trump);
    let alone = found(&rt, rt.alloc(), &Partition::new(), text, north, 8_000);
    expect_eq(&rt, &alone.is_some(), &false);
    let all = (Seat::ALL.as_slice(), trump);
    let bundle = found(&rt, rt.alloc(), &Partition::new(), text, all, 8_000);
    expect_claims(&rt, rt.alloc(), NINE, 3, &some(&rt, bundle), 4);
}
