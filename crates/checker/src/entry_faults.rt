//! Why two graphs don't show a value.

ghost use Rattle.std.specs.Prelude.{◌≡◌, Some};
ghost use Rattle.checker.specs.FaultWords.{part_fault_number, part_fault_name, part_fault_text, entry_fault_text};

use crate::faults::NodeFault;
use std::error::Error;
use std::fmt;

/// Why a graph doesn't show that its side wins the tricks that it has to win. Its root is the node that is read as its
/// first: node 0 of a whole graph, or none if there are no nodes. The fault is printed as its number and its name, the
/// fault of a node before the fault of its step: `7 RootPattern`, `8 Node 12 2 BranchMissing`.
#[derive(Clone, Copy, Debug, PartialEq, Eq)]
pub enum PartFault {
    /// Tricks are to be won, and there is no root, or no node with its number.
    RootMissing,
    /// No tricks are to be won, and there is a root.
    RootNeedless,
    /// The graph has another trump.
    RootTrump,
    /// The graph is of the other side.
    RootSide,
    /// Another seat leads in the root.
    RootLead,
    /// The root needs another number of tricks.
    RootNeed,
    /// The layout does not match the pattern of the root.
    RootPattern,
    /// The step of a node doesn't hold. If there is a root, the steps of all nodes count.
    Node(NodeFault),
}

/// Why two graphs don't show the value of a contract on a layout. The name of the side whose graph is at fault is
/// printed first: `declarer 7 RootPattern`, `9 KTooLarge`.
#[derive(Clone, Copy, Debug, PartialEq, Eq)]
pub enum EntryFault {
    /// The graph of declarer's side is at fault.
    Declarer(PartFault),
    /// The graph of the defenders is at fault.
    Defenders(PartFault),
    /// The claim has more tricks than a hand has cards.
    KTooLarge,
}

impl PartFault {
    /// Returns the printed number, 1 to 8.
    pub fn number(&self) -> u8
        ensures { result ≡ part_fault_number self.now }
    {
        match self {
            PartFault::RootMissing => 1,
            PartFault::RootNeedless => 2,
            PartFault::RootTrump => 3,
            PartFault::RootSide => 4,
            PartFault::RootLead => 5,
            PartFault::RootNeed => 6,
            PartFault::RootPattern => 7,
            PartFault::Node(_) => 8,
        }
    }

    /// Returns the printed name.
    pub fn name(&self) -> &'static str
        ensures { result.now ≡ part_fault_name self.now }
    {
        match self {
            PartFault::RootMissing => "RootMissing",
            PartFault::RootNeedless => "RootNeedless",
            PartFault::RootTrump => "RootTrump",
            PartFault::RootSide => "RootSide",
            PartFault::RootLead => "RootLead",
            PartFault::RootNeed => "RootNeed",
            PartFault::RootPattern => "RootPattern",
            PartFault::Node(_) => "Node",
        }
    }
}

impl fmt::Display for PartFault {
    ghost output = { λ fault. Some (part_fault_text fault) };

    fn fmt<W: fmt::Write>(&self, f: &mut fmt::Formatter<W>) -> fmt::Result {
        match self {
            PartFault::Node(fault) => write!(f, "{} {} {}", self.number(), self.name(), fault),
            _ => write!(f, "{} {}", self.number(), self.name()),
        }
    }
}

impl Error for PartFault {}

impl fmt::Display for EntryFault {
    ghost output = { λ fault. Some (entry_fault_text fault) };

    fn fmt<W: fmt::Write>(&self, f: &mut fmt::Formatter<W>) -> fmt::Result {
        match self {
            EntryFault::Declarer(fault) => write!(f, "declarer {fault}"),
            EntryFault::Defenders(fault) => write!(f, "defenders {fault}"),
            EntryFault::KTooLarge => write!(f, "9 KTooLarge"),
        }
    }
}

impl Error for EntryFault {}
