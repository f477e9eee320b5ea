//! What is printed of a fault.

ghost use Rattle.std.specs.Prelude.{◌≡◌, ◌++◌};
ghost use Rattle.cards.specs.Devices.{Writes};
ghost use Rattle.deal_subcommands.specs.Faults.{explanation, layout_explanation, opening, place_words};
ghost use Rattle.deal_subcommands.specs.Faults.{play_explanation, play_words, said, status};
ghost use Rattle.deal_subcommands.specs.declared.faults.DealFault.TheVariants as faults;

use crate::card_tricks::WordPlace;
use crate::faults::DealFault;
use cards::{DeviceFault, Sink, write_all};
use pbn_deals::PbnFault;
use play_rules::PlayFault;
use run_ends::{FileFault, Status, file_explanation, text_explanation, write_refusal};
use streams::CannotOpen;

/// How a run ends with this fault.
pub(crate) fn status(fault: DealFault) -> Status
    ensures { result ≡ status fault }
{
    match fault {
        DealFault::OutOfMemory
        | DealFault::Read
        | DealFault::Write
        | DealFault::AnswerFile(_)
        | DealFault::Evidence(_)
        | DealFault::Unkept => Status::Failed,
        DealFault::Layout(_)
        | DealFault::TooLarge
        | DealFault::NoCard(_)
        | DealFault::Unplayable(_, _)
        | DealFault::NoResult => Status::Refused,
        DealFault::NoAnswer => Status::Incomplete,
    }
}

/// Writes what is said of the fault.
pub(crate) fn write_said<E: Sink>(fault: DealFault, errors: &mut E) -> Result<(), DeviceFault>
    ensures { Writes (E.state errors.old) (E.state errors.new) (said fault) result }
{
    match fault {
        DealFault::OutOfMemory => write_all(errors, b"out of memory"),
        DealFault::Read => write_all(errors, b"reading failed"),
        DealFault::Write => write_all(errors, b"writing failed"),
        DealFault::Layout(refusal) => write_layout_refusal(refusal, errors),
        DealFault::TooLarge => write_all(errors, b"plain takes at most 4 cards a hand"),
        DealFault::NoResult => write_all(errors, b"first line is not a result line"),
        DealFault::NoAnswer => write_all(errors, b"no answer"),
        DealFault::AnswerFile(FileFault::Open(_)) => write_all(errors, b"answer: cannot open"),
        DealFault::AnswerFile(FileFault::Read) => write_all(errors, b"answer: reading failed"),
        DealFault::Evidence(FileFault::Open(_)) => write_all(errors, b"evidence: cannot open"),
        DealFault::Evidence(FileFault::Read) => write_all(errors, b"evidence: reading failed"),
        DealFault::Unkept => write_all(errors, b"evidence: writing failed"),
        DealFault::NoCard(place) => write_card_refusal(place, b"1 NoCard", errors),
        DealFault::Unplayable(place, why) => write_card_refusal(place, play_words(why), errors),
    }
}

/// Writes why the word of a layout is refused.
fn write_layout_refusal<E: Sink>(refusal: PbnFault, errors: &mut E) -> Result<(), DeviceFault>
    ensures { Writes (E.state errors.old) (E.state errors.new) (said (faults.Layout refusal)) result }
{
    write_all(errors, b"layout: ")?;
    write_refusal(refusal, errors)
}

/// Writes why the word in this place is refused.
fn write_card_refusal<E: Sink>(
    place: WordPlace,
    why: &[u8],
    errors: &mut E,
) -> Result<(), DeviceFault>
    ensures { Writes (E.state errors.old) (E.state errors.new) (place_words place ++ why.now) result }
{
    write_all(errors, place_words(place))?;
    write_all(errors, why)
}

/// Returns what precedes a refusal of the word in this place.
fn place_words(place: WordPlace) -> &'static [u8]
    ensures { result.now ≡ place_words place }
{
    match place {
        WordPlace::First => b"card 1: ",
        WordPlace::Second => b"card 2: ",
        WordPlace::Third => b"card 3: ",
    }
}

/// Returns the number and the name of why a card may not be played.
fn play_words(why: PlayFault) -> &'static [u8]
    ensures { result.now ≡ play_words why }
{
    match why {
        PlayFault::NotHeld => b"2 NotHeld",
        PlayFault::MustFollow => b"3 MustFollow",
        PlayFault::Over => b"4 Over",
    }
}

/// Why a file can't be opened, if that is the fault.
pub(crate) fn opening(fault: DealFault) -> Option<CannotOpen>
    ensures { result ≡ opening fault }
{
    match fault {
        DealFault::Evidence(FileFault::Open(why)) | DealFault::AnswerFile(FileFault::Open(why)) => {
            Some(why)
        }
        _ => None,
    }
}

/// What explains a fault. The text is empty if nothing does.
pub(crate) fn explanation(fault: DealFault) -> &'static str
    ensures { result.now ≡ explanation fault }
{
    match fault {
        DealFault::OutOfMemory | DealFault::Read | DealFault::Write | DealFault::TooLarge => "",
        DealFault::Layout(refusal) => layout_explanation(refusal),
        DealFault::NoResult => "an answer begins with a line as solve prints it: result 9",
        DealFault::NoAnswer => "--budget gives the search more steps",
        DealFault::AnswerFile(why) | DealFault::Evidence(why) => file_explanation(why),
        DealFault::Unkept =>
            "the numbers are written, but some of their evidence is not in the file",
        DealFault::NoCard(_) => "a card is its suit and its rank, as SQ, h10 or 9d",
        DealFault::Unplayable(_, why) => play_explanation(why),
    }
}

/// What explains a refused layout.
fn layout_explanation(refusal: PbnFault) -> &'static str
    ensures { result.now ≡ layout_explanation refusal }
{
    match refusal {
        PbnFault::DealForm { .. } => {
            "a layout is one word, in quotes: a seat and four hands as spades.hearts.diamonds.clubs, T for the ten"
        }
        PbnFault::CardTwice { .. } => "this layout has a card twice",
        PbnFault::HandSize { .. } => "the four hands must have equally many cards, 1 to 13",
        _ => text_explanation(refusal),
    }
}

/// What explains that a card may not be played.
fn play_explanation(why: PlayFault) -> &'static str
    ensures { result.now ≡ play_explanation why }
{
    match why {
        PlayFault::NotHeld => "the seat to play does not hold this card",
        PlayFault::MustFollow =>
            "the seat to play has a card of the suit led, and must follow suit",
        PlayFault::Over => "all cards were played",
    }
}
