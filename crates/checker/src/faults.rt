//! Why the step of a node doesn't hold.

ghost use Rattle.std.specs.Prelude.{◌≡◌, Some};
ghost use Rattle.checker.specs.FaultWords.{step_fault_number, step_fault_name, step_fault_text, node_fault_text};

use std::error::Error;
use std::fmt;

/// Why the step of a node doesn't hold. It is printed as its number and its name: `2 BranchMissing`.
#[derive(Clone, Copy, Debug, PartialEq, Eq)]
pub enum StepFault {
    /// A card of the side is not legal, or a card that was played in a begun node.
    CardNotLegal,
    /// A legal card of the opponents has no branch.
    BranchMissing,
    /// A branch has a card that is not legal.
    BranchExtra,
    /// The seats that are listed after a trick are not those that may win it and leave tricks needed.
    LeafWinners,
    /// In a node that goes on another seat leads.
    ChildLead,
    /// A node that goes on needs fewer tricks than are still needed.
    ChildNeed,
    /// The pattern of a node that goes on does not cover the rest.
    ChildPattern,
    /// The tree has something else in this place than a card of the side, the opponents' cards or the end, whichever
    /// belongs there. Or the cards that were played in a begun node are no path in its tree.
    TreeShape,
}

/// A node whose step doesn't hold, and the reason. The number of the node is printed first: `12 2 BranchMissing`.
#[derive(Clone, Copy, Debug, PartialEq, Eq)]
pub struct NodeFault {
    /// The number of the node, from 0.
    pub number: u32,
    /// The first fault of its step.
    pub fault: StepFault,
}

impl StepFault {
    /// Returns the printed number, 1 to 8.
    pub fn number(&self) -> u8
        ensures { result ≡ step_fault_number self.now }
    {
        match self {
            StepFault::CardNotLegal => 1,
            StepFault::BranchMissing => 2,
            StepFault::BranchExtra => 3,
            StepFault::LeafWinners => 4,
            StepFault::ChildLead => 5,
            StepFault::ChildNeed => 6,
            StepFault::ChildPattern => 7,
            StepFault::TreeShape => 8,
        }
    }

    /// Returns the printed name.
    pub fn name(&self) -> &'static str
        ensures { result.now ≡ step_fault_name self.now }
    {
        match self {
            StepFault::CardNotLegal => "CardNotLegal",
            StepFault::BranchMissing => "BranchMissing",
            StepFault::BranchExtra => "BranchExtra",
            StepFault::LeafWinners => "LeafWinners",
            StepFault::ChildLead => "ChildLead",
            StepFault::ChildNeed => "ChildNeed",
            StepFault::ChildPattern => "ChildPattern",
            StepFault::TreeShape => "TreeShape",
        }
    }
}

impl fmt::Display for StepFault {
    ghost output = { λ fault. Some (step_fault_text fault) };

    fn fmt<W: fmt::Write>(&self, f: &mut fmt::Formatter<W>) -> fmt::Result {
        write!(f, "{} {}", self.number(), self.name())
    }
}

impl Error for StepFault {}

impl fmt::Display for NodeFault {
    ghost output = { λ fault. Some (node_fault_text fault) };

    fn fmt<W: fmt::Write>(&self, f: &mut fmt::Formatter<W>) -> fmt::Result {
        write!(f, "{} {}", self.number, self.fault)
    }
}

impl Error for NodeFault {}
