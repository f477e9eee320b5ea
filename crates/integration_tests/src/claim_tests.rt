//! Claims on checked graphs, each read from a root of its own. Faults of whole graphs are among the worked cases
//! (`worked_cases`).

use crate::certificates::NOTHING;
use crate::checked::{checked, rooted};
use crate::expect::{expect_eq, got};
use cards::{Seat, Trump};
use certificate_graph::Graph;
use checker::{CheckedGraph, Claimed, EntryFault, NodeFault, PartFault, StepFault, check_claim};
use pbn_deals::read_layout;
use std::alloc::Global;
use std::process::Abort;
use std::sync::Arc;

/// Two cards each. South leads, and North covers West's card.
const FINESSE_DEAL: &str = "N:AQ... 65... 32... K4...";

/// The finesse, from the second node on.
const FINESSE: &[u8] = b"DDC 1
trump NT
side NS
nodes 2
N 1 1.1.1.1/N 0.0.0.0/ 0.0.0.0/ 0.0.0.0/ Sa(SxSx(Sx{}))
S 2 2.2.2.2/NWN 0.0.0.0/ 0.0.0.0/ 0.0.0.0/ Sx(SbSa(Sx{N0})SxSc(Sx{N0}))
";

/// One card each, and North has the ace.
const ACE_DEAL: &str = "N:A... K... Q... J...";

/// The ace, with each seat to lead.
const ACES: &[u8] = b"DDC 1
trump NT
side NS
nodes 4
E 1 1.1.1.1/N 0.0.0.0/ 0.0.0.0/ 0.0.0.0/ (SxSx(SxSa{}))
W 1 1.1.1.1/N 0.0.0.0/ 0.0.0.0/ 0.0.0.0/ (SxSa(SxSx{}))
S 1 1.1.1.1/N 0.0.0.0/ 0.0.0.0/ 0.0.0.0/ Sx(SxSa(Sx{}))
N 1 1.1.1.1/N 0.0.0.0/ 0.0.0.0/ 0.0.0.0/ Sa(SxSx(Sx{}))
";

/// A node without a trick.
const WRONG: &[u8] = b"DDC 1
trump NT
side EW
nodes 1
N 1 1.1.1.1/N 0.0.0.0/ 0.0.0.0/ 0.0.0.0/ {}
";

/// A declarer, the tricks, the roots of declarer's graph and of the defenders', and the fault, if there is one.
type Row = (Seat, u8, Option<u32>, Option<u32>, Option<EntryFault>);

/// The graph of a text, checked.
fn read_checked(rt: &impl Abort, alloc: Global, text: &[u8]) -> Arc<CheckedGraph> {
    let graph = got(rt, Graph::read(alloc, text));
    checked(rt, alloc, got(rt, Arc::new(alloc, graph)))
}

/// The claims on these two graphs, declarer's first, get the answers of the rows.
fn expect_answers(
    rt: &impl Abort,
    deal: &str,
    declarers: &Arc<CheckedGraph>,
    defenders: &Arc<CheckedGraph>,
    rows: &[Row],
) {
    let layout = got(rt, read_layout(deal.as_bytes()));
    for (declarer, k, root, other, fault) in rows {
        let claimed = Claimed {
            k: *k,
            declarer: rooted(rt, declarers, *root),
            defenders: rooted(rt, defenders, *other),
        };
        let answer = check_claim(&layout, *declarer, Trump::Nt, &claimed);
        expect_eq(rt, &answer.err(), fault);
    }
}

const NORTH: Seat = Seat::North;

const EAST: Seat = Seat::East;

const SOUTH: Seat = Seat::South;

const WEST: Seat = Seat::West;

const MISSING: Option<EntryFault> = Some(EntryFault::Defenders(PartFault::RootMissing));

/// The finesse stands second, so that it is shown from there alone.
const ON_FINESSE: [Row; 6] = [
    (EAST, 0, None, Some(1), None),
    (
        EAST,
        0,
        None,
        Some(0),
        Some(EntryFault::Defenders(PartFault::RootLead)),
    ),
    (EAST, 0, None, Some(2), MISSING),
    (EAST, 0, None, None, MISSING),
    (
        EAST,
        0,
        Some(0),
        Some(1),
        Some(EntryFault::Declarer(PartFault::RootNeedless)),
    ),
    (EAST, 3, None, Some(1), Some(EntryFault::KTooLarge)),
];

/// One graph for North and South.
const FOR_ACE: [Row; 2] = [
    (NORTH, 1, Some(0), None, None),
    (SOUTH, 1, Some(1), None, None),
];

/// The same graph against East and West.
const AGAINST_ACE: [Row; 2] = [
    (EAST, 0, None, Some(2), None),
    (WEST, 0, None, Some(3), None),
];

/// What is wrong with a graph counts where it has a root.
const BY_WRONG: [Row; 2] = [
    (WEST, 0, None, Some(3), None),
    (
        WEST,
        1,
        Some(0),
        None,
        Some(EntryFault::Declarer(PartFault::Node(NodeFault {
            number: 0,
            fault: StepFault::TreeShape,
        }))),
    ),
];

#[test]
fn claims_by_roots(rt: HostRuntime) {
    let nothing = read_checked(&rt, rt.alloc(), NOTHING);
    let finesse = read_checked(&rt, rt.alloc(), FINESSE);
    let aces = read_checked(&rt, rt.alloc(), ACES);
    let wrong = read_checked(&rt, rt.alloc(), WRONG);
    expect_answers(&rt, FINESSE_DEAL, &nothing, &finesse, &ON_FINESSE);
    expect_answers(&rt, ACE_DEAL, &aces, &nothing, &FOR_ACE);
    expect_answers(&rt, ACE_DEAL, &nothing, &aces, &AGAINST_ACE);
    expect_answers(&rt, ACE_DEAL, &wrong, &aces, &BY_WRONG);
}
