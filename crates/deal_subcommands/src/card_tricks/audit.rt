//! The tricks of each card that evidence shows.

ghost use Rattle.std.specs.Prelude.{◌≡◌, ◌↔◌, IsTrue, IfOk};
ghost use Rattle.deal_subcommands.specs.CardTricks.Audit.{AuditsCards, IsJudgedText, PrintsVerdict};

use crate::card_tricks::options::CardsOptions;
use crate::card_tricks::played::trick_of;
use crate::card_tricks::refusals::write_card_refusal;
use crate::faults::{DealFault, write_failed};
use crate::play::runs::read_file;
use card_evidence::read_card_section;
use card_values::{CardFault, CardValues, TrickInProgress, write_values};
use cards::{OutOfMemory, Sink, equals_are_one};
use certified_cards::judge_bundle;
use run_ends::{NamedFiles, Status};
use std::alloc::Global;

/// Why evidence shows no values of the cards that may be played.
#[derive(Clone, Copy, Debug, PartialEq)]
pub enum EvidenceRefusal {
    /// It is the text of no section.
    Text,
    /// It is of another layout, leader, denomination or cards played.
    Position,
    /// A card has no claim, or a claim that is not shown.
    Card(CardFault),
}

/// Whether two tricks in progress are the same.
fn is_same_trick(one: &TrickInProgress, other: &TrickInProgress) -> bool
    ensures { IsTrue result ↔ (one.now ≡ other.now) }
{
    equals_are_one();
    if one.leader() != other.leader() || one.trump() != other.trump() {
        return false;
    }
    if one.layout() != other.layout() {
        return false;
    }
    one.played() == other.played()
}

/// Returns the values that the text of a section shows for this trick, or why it shows none. Fails only if memory runs
/// out.
fn judge_text(
    alloc: Global,
    text: &[u8],
    trick: TrickInProgress,
) -> Result<Result<CardValues, EvidenceRefusal>, OutOfMemory>
    ensures { IfOk result (IsJudgedText text.now trick) }
{
    let Some(section) = read_card_section(alloc, text)? else {
        return Ok(Err(EvidenceRefusal::Text));
    };
    let (kept, bundle) = section.into_parts();
    if !is_same_trick(&kept, &trick) {
        return Ok(Err(EvidenceRefusal::Position));
    }
    match judge_bundle(trick, &bundle)? {
        Ok(values) => Ok(Ok(values)),
        Err(fault) => Ok(Err(EvidenceRefusal::Card(fault))),
    }
}

/// Writes the values, or why there are none.
fn print_judged<O: Sink>(
    judged: &Result<CardValues, EvidenceRefusal>,
    output: &mut O,
) -> Result<Status, DealFault>
    ensures { PrintsVerdict judged.now (O.state output.old) (O.state output.new) result }
{
    let (written, status) = match judged {
        Ok(values) => (write_values(output, values), Status::Done),
        Err(refusal) => (write_card_refusal(*refusal, output), Status::Rejected),
    };
    match written {
        Ok(()) => Ok(status),
        Err(fault) => Err(write_failed(fault)),
    }
}

/// Reads the evidence in the file of this name, checks it, and writes the values that it shows of the cards that may be
/// played, or a line that says why it shows none. Nothing is searched.
///
/// Refuses bytes that spell no layout, and words that name no card or one that may not be played, before the file is
/// opened. Nothing was written after any fault but a failed output, and after that one a beginning of the text.
pub fn audit_cards<R: NamedFiles, O: Sink>(
    rt: &R,
    alloc: Global,
    options: CardsOptions<'_>,
    name: &str,
    output: &mut O,
) -> Result<Status, DealFault>
    ensures { AuditsCards (R.may_open rt.now) options.entry name.now (O.state output.old) (O.state output.new)
        result }
{
    let trick = match trick_of(options) {
        Ok(trick) => trick,
        Err(fault) => return Err(fault),
    };
    let text = match read_file(rt, alloc, name) {
        Ok(text) => text,
        Err(fault) => return Err(fault),
    };
    match judge_text(alloc, text.as_slice(), trick) {
        Ok(judged) => print_judged(&judged, output),
        Err(OutOfMemory) => Err(DealFault::OutOfMemory),
    }
}
