//! Why nodes make no graph, and why a text is that of none.

ghost use Rattle.std.specs.Prelude.{◌≡◌, Some};
ghost use Rattle.certificate_graph.specs.FaultWords.{fault_number, fault_name, fault_line, fault_text};

use std::error::Error;
use std::fmt;

/// Why nodes make no graph.
#[derive(Clone, Copy, Debug, PartialEq, Eq)]
pub enum GraphFault {
    /// There are over 1,000,000 nodes.
    TooLarge,
    /// The need of a node is not 1 to 13.
    Need,
    /// A tree is not of the form: a top past the thirteenth, branches or seats that do not rise, or over four cards
    /// one below another.
    TreeForm,
    /// A leaf names a node that is not there.
    ChildNumber,
}

/// Why a text is not one of a graph. Each fault but that memory ran out names its line, counted from 1.
#[derive(Clone, Copy, Debug, PartialEq, Eq)]
pub enum TextFault {
    /// One of the first four lines is missing, lacks its line feed, or is not of the form.
    Head {
        /// The number of the line, 1 to 4.
        line: usize,
    },
    /// The line of a node lacks its line feed, or is not of the form.
    NodeForm {
        /// The number of the line, 5 or more.
        line: usize,
    },
    /// The four suits of a node are no pattern.
    BadPattern {
        /// The number of the line, 5 or more.
        line: usize,
    },
    /// A leaf names a node that is not there.
    ChildNumber {
        /// The number of the line, 5 or more.
        line: usize,
    },
    /// The text ends before the line of a node, or does not end after the last one.
    Count {
        /// The number of the line that is missing, or of the first that is too many; 5 or more.
        line: usize,
    },
    /// There are to be over 1,000,000 nodes.
    TooLarge {
        /// The number of the line, 4.
        line: usize,
    },
    /// Memory ran out.
    OutOfMemory,
}

impl TextFault {
    /// The printed number.
    pub fn number(&self) -> u8
        ensures { result ≡ fault_number self.now }
    {
        match self {
            TextFault::Head { .. } => 1,
            TextFault::NodeForm { .. } => 2,
            TextFault::BadPattern { .. } => 3,
            TextFault::ChildNumber { .. } => 4,
            TextFault::Count { .. } => 5,
            TextFault::TooLarge { .. } => 6,
            TextFault::OutOfMemory => 7,
        }
    }

    /// The printed name.
    pub fn name(&self) -> &'static str
        ensures { result.now ≡ fault_name self.now }
    {
        match self {
            TextFault::Head { .. } => "Head",
            TextFault::NodeForm { .. } => "NodeForm",
            TextFault::BadPattern { .. } => "BadPattern",
            TextFault::ChildNumber { .. } => "ChildNumber",
            TextFault::Count { .. } => "Count",
            TextFault::TooLarge { .. } => "TooLarge",
            TextFault::OutOfMemory => "OutOfMemory",
        }
    }

    /// The line that is named, counted from 1; none where memory ran out.
    pub fn line(&self) -> Option<usize>
        ensures { result ≡ fault_line self.now }
    {
        match self {
            TextFault::Head { line }
            | TextFault::NodeForm { line }
            | TextFault::BadPattern { line }
            | TextFault::ChildNumber { line }
            | TextFault::Count { line }
            | TextFault::TooLarge { line } => Some(*line),
            TextFault::OutOfMemory => None,
        }
    }
}

impl fmt::Display for TextFault {
    ghost output = { λ fault. Some (fault_text fault) };

    fn fmt<W: fmt::Write>(&self, f: &mut fmt::Formatter<W>) -> fmt::Result {
        write!(f, "{} {}", self.number(), self.name())
    }
}

impl Error for TextFault {}
