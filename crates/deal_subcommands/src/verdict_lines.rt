//! The line that tells a verdict.

ghost use Rattle.std.specs.Prelude.{◌∷◌, ◌++◌, codes};
ghost use Rattle.std.specs.Fmt.{decimal};
ghost use Rattle.cards.specs.Devices.{Writes};
ghost use Rattle.certificate_graph.specs.FaultWords.{numbered};
ghost use Rattle.checker.specs.FaultWords.{after_part, after_text, hand_fault_text, node_fault_text, part_fault_text};
ghost use Rattle.checker.specs.FaultWords.{text_fault_text};
ghost use Rattle.deal_subcommands.specs.VerdictLines.{verdict_text, verdict_line};

use cards::{DeviceFault, Sink, write_all, write_number};
use certificate_graph::TextFault;
use checker::{EntryFault, HandFault, NodeFault, PartFault, Verdict};

/// Writes the line of a verdict: `accepted k`, or `refused` and the first fault.
pub fn write_verdict<S: Sink>(verdict: Verdict, output: &mut S) -> Result<(), DeviceFault>
    ensures { Writes (S.state output.old) (S.state output.new) (verdict_line verdict) result }
{
    write_verdict_text(verdict, output)?;
    write_all(output, b"\n")
}

/// Writes the line without its end.
fn write_verdict_text<S: Sink>(verdict: Verdict, output: &mut S) -> Result<(), DeviceFault>
    ensures { Writes (S.state output.old) (S.state output.new) (verdict_text verdict) result }
{
    match verdict {
        Ok(proven) => write_accepted(proven.shown().k, output),
        Err(fault) => write_refused(fault, output),
    }
}

/// Writes that so many tricks are accepted.
fn write_accepted<S: Sink>(tricks: u8, output: &mut S) -> Result<(), DeviceFault>
    ensures { Writes (S.state output.old) (S.state output.new) (codes "accepted " ++ decimal tricks) result }
{
    write_all(output, b"accepted ")?;
    write_number(output, u64::from(tricks))
}

/// Writes that the answer is refused, and why.
fn write_refused<S: Sink>(fault: HandFault, output: &mut S) -> Result<(), DeviceFault>
    ensures { Writes (S.state output.old) (S.state output.new) (codes "refused " ++ hand_fault_text fault) result }
{
    write_all(output, b"refused ")?;
    write_hand_fault(fault, output)
}

/// Writes why two texts show nothing.
fn write_hand_fault<S: Sink>(fault: HandFault, output: &mut S) -> Result<(), DeviceFault>
    ensures { Writes (S.state output.old) (S.state output.new) (hand_fault_text fault) result }
{
    match fault {
        HandFault::Entry(EntryFault::KTooLarge) => write_all(output, b"9 KTooLarge"),
        HandFault::Entry(EntryFault::Declarer(fault)) => {
            write_part_fault(b"declarer ", fault, output)
        }
        HandFault::Entry(EntryFault::Defenders(fault)) => {
            write_part_fault(b"defenders ", fault, output)
        }
        HandFault::DeclarerText(fault) => write_text_fault(b"declarer 10 Text ", fault, output),
        HandFault::DefendersText(fault) => write_text_fault(b"defenders 10 Text ", fault, output),
        HandFault::NoDeal => write_all(output, b"11 NoDeal"),
    }
}

/// Writes whose graph it is, and why it doesn't show what it is to show.
fn write_part_fault<S: Sink>(
    whose: &[u8],
    fault: PartFault,
    output: &mut S,
) -> Result<(), DeviceFault>
    ensures { Writes (S.state output.old) (S.state output.new) (whose.now ++ part_fault_text fault) result }
{
    write_all(output, whose)?;
    write_numbered(fault.number(), fault.name(), output)?;
    write_after_part(fault, output)
}

/// Writes the node of a fault that is one of a node.
fn write_after_part<S: Sink>(fault: PartFault, output: &mut S) -> Result<(), DeviceFault>
    ensures { Writes (S.state output.old) (S.state output.new) (after_part fault) result }
{
    match fault {
        PartFault::Node(fault) => write_node_fault(fault, output),
        _ => Ok(()),
    }
}

/// Writes a blank, the number of a node, and why its step doesn't hold.
pub(crate) fn write_node_fault<S: Sink>(fault: NodeFault, output: &mut S) -> Result<(), DeviceFault>
    ensures { Writes (S.state output.old) (S.state output.new) (32 ∷ node_fault_text fault) result }
{
    write_all(output, b" ")?;
    write_number(output, u64::from(fault.number))?;
    write_all(output, b" ")?;
    write_numbered(fault.fault.number(), fault.fault.name(), output)
}

/// Writes whose text it is, and why it is not that of a graph.
fn write_text_fault<S: Sink>(
    whose: &[u8],
    fault: TextFault,
    output: &mut S,
) -> Result<(), DeviceFault>
    ensures { Writes (S.state output.old) (S.state output.new) (whose.now ++ text_fault_text fault) result }
{
    write_all(output, whose)?;
    write_numbered(fault.number(), fault.name(), output)?;
    write_after_text(fault.line(), output)
}

/// Writes the number of a line, if there is one, after its word.
fn write_after_text<S: Sink>(line: Option<usize>, output: &mut S) -> Result<(), DeviceFault>
    ensures { Writes (S.state output.old) (S.state output.new) (after_text line) result }
{
    let Some(line) = line else {
        return Ok(());
    };
    write_all(output, b" line ")?;
    write_number(output, line as u64)
}

/// Writes a number, a blank and a name.
pub(crate) fn write_numbered<S: Sink>(
    number: u8,
    name: &str,
    output: &mut S,
) -> Result<(), DeviceFault>
    ensures { Writes (S.state output.old) (S.state output.new) (numbered number name.now) result }
{
    write_number(output, u64::from(number))?;
    write_all(output, b" ")?;
    write_all(output, name.as_bytes())
}
