//! Why nothing comes of a layout or an answer.

ghost use Rattle.std.specs.Prelude.{◌≡◌};
ghost use Rattle.deal_subcommands.specs.Faults.{done_answer};
ghost use Rattle.deal_subcommands.specs.declared.faults.DealFault.TheVariants as faults;

use crate::card_tricks::WordPlace;
use crate::fault_words;
use cards::{DeviceFault, Sink};
use pbn_deals::PbnFault;
use play_rules::PlayFault;
use run_ends::{Fault, FileFault, Status};
use strategies::TooLarge;
use streams::{CannotOpen, InputFault};

/// Why nothing comes of a layout or an answer.
#[derive(Clone, Copy, Debug, PartialEq, Eq)]
pub enum DealFault {
    /// Memory ran out.
    OutOfMemory,
    /// The input failed.
    Read,
    /// The output failed.
    Write,
    /// The word of a layout spells none.
    Layout(PbnFault),
    /// The hands of a layout have over 4 cards.
    TooLarge,
    /// The first line of an answer is not a result line.
    NoResult,
    /// The solver has found no answer.
    NoAnswer,
    /// The file with an answer is of no use.
    AnswerFile(FileFault),
    /// The file of evidence is of no use.
    Evidence(FileFault),
    /// Not all evidence is in its file.
    Unkept,
    /// The word in this place names no card.
    NoCard(WordPlace),
    /// The word in this place names a card that may not be played.
    Unplayable(WordPlace, PlayFault),
}

impl From<InputFault> for DealFault {
    ghost use Rattle.deal_subcommands.specs.Faults.{input_fault};

    ghost from_gives = { λ fault answer. answer ≡ input_fault fault };

    fn from(fault: InputFault) -> DealFault {
        match fault {
            InputFault::OutOfMemory => DealFault::OutOfMemory,
            InputFault::Read => DealFault::Read,
        }
    }
}

impl From<TooLarge> for DealFault {
    ghost from_gives = { λ _ answer. answer ≡ faults.TooLarge };

    fn from(_fault: TooLarge) -> DealFault {
        DealFault::TooLarge
    }
}

/// The fault of an output. (That of an input is an `InputFault`.)
pub(crate) fn write_failed(_fault: DeviceFault) -> DealFault
    ensures { result ≡ faults.Write }
{
    DealFault::Write
}

/// What a run answers that answers no more than that all is done.
pub(crate) fn done(answer: Result<(), DealFault>) -> Result<Status, DealFault>
    ensures { result ≡ done_answer answer }
{
    match answer {
        Ok(()) => Ok(Status::Done),
        Err(fault) => Err(fault),
    }
}

impl Fault for DealFault {
    ghost use Rattle.deal_subcommands.specs.Faults.{explanation, opening, said, status};

    ghost status_of = { status };

    ghost said_of = { said };

    ghost opening_of = { opening };

    ghost explanation_of = { explanation };

    fn status(self) -> Status {
        fault_words::status(self)
    }

    fn write_said<E: Sink>(self, errors: &mut E) -> Result<(), DeviceFault> {
        fault_words::write_said(self, errors)
    }

    fn opening(self) -> Option<CannotOpen> {
        fault_words::opening(self)
    }

    fn explanation(self) -> &'static str {
        fault_words::explanation(self)
    }
}
