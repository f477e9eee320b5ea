//! What is printed of faults.

use crate::expect::expect_printed;
use certificate_graph::TextFault;
use checker::{EntryFault, HandFault, NodeFault, PartFault, StepFault};

/// Faults of each form.
const FAULTS: [HandFault; 5] = [
    HandFault::Entry(EntryFault::Declarer(PartFault::Node(NodeFault {
        number: 12,
        fault: StepFault::BranchMissing,
    }))),
    HandFault::Entry(EntryFault::Defenders(PartFault::RootPattern)),
    HandFault::DefendersText(TextFault::Head { line: 1 }),
    HandFault::Entry(EntryFault::KTooLarge),
    HandFault::NoDeal,
];

/// What is printed of them.
const PRINTED: [&str; 5] = [
    "declarer 8 Node 12 2 BranchMissing",
    "defenders 7 RootPattern",
    "defenders 10 Text 1 Head line 1",
    "9 KTooLarge",
    "11 NoDeal",
];

#[test]
fn printed_faults(rt: HostRuntime) {
    expect_printed(&rt, rt.alloc(), &FAULTS, &PRINTED);
}
