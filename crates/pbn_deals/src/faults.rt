//! Why a PBN text is refused.

ghost use Rattle.std.specs.Prelude.{◌≡◌, Some};
ghost use Rattle.pbn_deals.specs.declared.faults.PbnFault.TheVariants as faults;
ghost use Rattle.pbn_deals.specs.Faults.{fault_number, fault_name, fault_line, fault_text};

use std::alloc::{AllocError, AllocFailed};
use std::error::Error;
use std::fmt;

/// Why a PBN text, or a Deal value alone, is refused (`docs/FORMATS.md`). All but `OutOfMemory` name the line, counted
/// from 1; of a Deal value alone it is 1.
#[derive(Clone, Copy, Debug, PartialEq, Eq)]
pub enum PbnFault {
    /// A `[` that should begin a tag pair does not.
    TagForm {
        /// Of the bracket.
        line: usize,
    },
    /// A brace comment is never closed.
    OpenComment {
        /// Of the opening brace.
        line: usize,
    },
    /// A game has two Deal tags.
    SecondDeal {
        /// Of the second tag.
        line: usize,
    },
    /// A Deal value is not of the form.
    DealForm {
        /// Of the tag.
        line: usize,
    },
    /// A Deal value names a card twice.
    CardTwice {
        /// Of the tag.
        line: usize,
    },
    /// The hands of a Deal value are not of the size that is wanted.
    HandSize {
        /// Of the tag.
        line: usize,
    },
    /// A Board or Deal value is handed on from another game (`#`).
    Inherited {
        /// Of the tag.
        line: usize,
    },
    /// The text has more boards than are taken.
    TooManyBoards {
        /// Of the Deal tag of the board that is too many.
        line: usize,
    },
    /// Memory ran out.
    OutOfMemory,
}

impl PbnFault {
    /// The printed number.
    pub fn number(&self) -> u8
        ensures { result ≡ fault_number self.now }
    {
        match self {
            PbnFault::TagForm { .. } => 1,
            PbnFault::OpenComment { .. } => 2,
            PbnFault::SecondDeal { .. } => 3,
            PbnFault::DealForm { .. } => 4,
            PbnFault::CardTwice { .. } => 5,
            PbnFault::HandSize { .. } => 6,
            PbnFault::Inherited { .. } => 7,
            PbnFault::TooManyBoards { .. } => 8,
            PbnFault::OutOfMemory => 9,
        }
    }

    /// The printed name.
    pub fn name(&self) -> &'static str
        ensures { result.now ≡ fault_name self.now }
    {
        match self {
            PbnFault::TagForm { .. } => "TagForm",
            PbnFault::OpenComment { .. } => "OpenComment",
            PbnFault::SecondDeal { .. } => "SecondDeal",
            PbnFault::DealForm { .. } => "DealForm",
            PbnFault::CardTwice { .. } => "CardTwice",
            PbnFault::HandSize { .. } => "HandSize",
            PbnFault::Inherited { .. } => "Inherited",
            PbnFault::TooManyBoards { .. } => "TooManyBoards",
            PbnFault::OutOfMemory => "OutOfMemory",
        }
    }

    /// The line that is named, counted from 1; none where memory ran out.
    pub fn line(&self) -> Option<usize>
        ensures { result ≡ fault_line self.now }
    {
        match self {
            PbnFault::TagForm { line }
            | PbnFault::OpenComment { line }
            | PbnFault::SecondDeal { line }
            | PbnFault::DealForm { line }
            | PbnFault::CardTwice { line }
            | PbnFault::HandSize { line }
            | PbnFault::Inherited { line }
            | PbnFault::TooManyBoards { line } => Some(*line),
            PbnFault::OutOfMemory => None,
        }
    }
}

impl fmt::Display for PbnFault {
    ghost output = { λ fault. Some (fault_text fault) };

    fn fmt<W: fmt::Write>(&self, f: &mut fmt::Formatter<W>) -> fmt::Result {
        write!(f, "{} {}", self.number(), self.name())
    }
}

impl Error for PbnFault {}

impl From<AllocError> for PbnFault {
    ghost from_gives = { λ _ fault. fault ≡ faults.OutOfMemory };

    fn from(_refused: AllocError) -> PbnFault {
        PbnFault::OutOfMemory
    }
}

impl<T: Drop> From<AllocFailed<T>> for PbnFault {
    ghost from_gives = { λ _ fault. fault ≡ faults.OutOfMemory };

    fn from(_refused: AllocFailed<T>) -> PbnFault {
        PbnFault::OutOfMemory
    }
}
