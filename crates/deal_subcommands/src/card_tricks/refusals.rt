//! The line that says why evidence of cards is refused.

ghost use Rattle.std.specs.Prelude.{◌++◌, ◌∷◌, codes};
ghost use Rattle.cards.specs.Devices.{Writes};
ghost use Rattle.cards.specs.CardTexts.{card_text};
ghost use Rattle.deal_subcommands.specs.CardTricks.Refusals.{after_fault_text, card_refusal_line, refusal_text};

use crate::card_tricks::audit::EvidenceRefusal;
use crate::verdict_lines::{write_node_fault, write_numbered};
use card_values::{AfterFault, CardFault};
use cards::{Card, DeviceFault, Sink, write_all, write_card};

/// Writes why a side is not shown to win its tricks after a card.
fn write_after_fault<S: Sink>(fault: AfterFault, output: &mut S) -> Result<(), DeviceFault>
    ensures { Writes (S.state output.old) (S.state output.new) (after_fault_text fault) result }
{
    match fault {
        AfterFault::RootMissing => write_all(output, b"RootMissing"),
        AfterFault::RootNeedless => write_all(output, b"RootNeedless"),
        AfterFault::RootTrump => write_all(output, b"RootTrump"),
        AfterFault::RootSide => write_all(output, b"RootSide"),
        AfterFault::RootForm => write_all(output, b"RootForm"),
        AfterFault::RootLead => write_all(output, b"RootLead"),
        AfterFault::RootNeed => write_all(output, b"RootNeed"),
        AfterFault::RootPattern => write_all(output, b"RootPattern"),
        AfterFault::Begun(fault) => {
            write_all(output, b"Begun ")?;
            write_numbered(fault.number(), fault.name(), output)
        }
        AfterFault::Node(fault) => {
            write_all(output, b"Node")?;
            write_node_fault(fault, output)
        }
    }
}

/// Writes the words for a side, a card after a blank, another blank and why the side is not shown to win its tricks.
fn write_side_fault<S: Sink>(
    side: &[u8],
    card: Card,
    fault: AfterFault,
    output: &mut S,
) -> Result<(), DeviceFault>
    ensures { Writes (S.state output.old) (S.state output.new)
        (side.now ++ (32 ∷ (card_text card ++ (32 ∷ after_fault_text fault)))) result }
{
    write_all(output, side)?;
    write_card(card, output)?;
    write_all(output, b" ")?;
    write_after_fault(fault, output)
}

/// Writes a word, and a card after a blank.
fn write_card_fault<S: Sink>(word: &[u8], card: Card, output: &mut S) -> Result<(), DeviceFault>
    ensures { Writes (S.state output.old) (S.state output.new) (word.now ++ (32 ∷ card_text card)) result }
{
    write_all(output, word)?;
    write_card(card, output)
}

/// Writes why evidence is refused.
fn write_refusal<S: Sink>(refusal: EvidenceRefusal, output: &mut S) -> Result<(), DeviceFault>
    ensures { Writes (S.state output.old) (S.state output.new) (refusal_text refusal) result }
{
    match refusal {
        EvidenceRefusal::Text => write_all(output, b"1 Text"),
        EvidenceRefusal::Position => write_all(output, b"2 Position"),
        EvidenceRefusal::Card(CardFault::ClaimMissing(card)) => {
            write_card_fault(b"3 ClaimMissing", card, output)
        }
        EvidenceRefusal::Card(CardFault::TricksTooLarge(card)) => {
            write_card_fault(b"4 TricksTooLarge", card, output)
        }
        EvidenceRefusal::Card(CardFault::Player(card, fault)) => {
            write_side_fault(b"5 Player", card, fault, output)
        }
        EvidenceRefusal::Card(CardFault::Others(card, fault)) => {
            write_side_fault(b"6 Others", card, fault, output)
        }
    }
}

/// Writes the line that says why evidence is refused.
pub(crate) fn write_card_refusal<S: Sink>(
    refusal: EvidenceRefusal,
    output: &mut S,
) -> Result<(), DeviceFault>
    ensures { Writes (S.state output.old) (S.state output.new) (card_refusal_line refusal) result }
{
    write_all(output, b"refused ")?;
    write_refusal(refusal, output)?;
    write_all(output, b"\n")
}
