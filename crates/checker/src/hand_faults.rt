//! Why texts that were handed in show nothing.

ghost use Rattle.std.specs.Prelude.{Some};
ghost use Rattle.checker.specs.FaultWords.{text_fault_text, hand_fault_text};

use crate::entry_faults::EntryFault;
use certificate_graph::TextFault;
use std::error::Error;
use std::fmt;

/// Why two texts show nothing for a board. The fault of a text is printed after the name of the side whose text it is,
/// and before its line: `declarer 10 Text 2 NodeForm line 5`.
#[derive(Clone, Copy, Debug, PartialEq, Eq)]
pub enum HandFault {
    /// The graphs don't show their claim.
    Entry(EntryFault),
    /// The text for declarer's side is not the text of a graph.
    DeclarerText(TextFault),
    /// The text for the defenders is not the text of a graph.
    DefendersText(TextFault),
    /// The board has no deal.
    NoDeal,
}

impl fmt::Display for HandFault {
    ghost output = { λ fault. Some (hand_fault_text fault) };

    fn fmt<W: fmt::Write>(&self, f: &mut fmt::Formatter<W>) -> fmt::Result {
        match self {
            HandFault::Entry(fault) => write!(f, "{fault}"),
            HandFault::DeclarerText(fault) => write!(f, "declarer 10 Text {}", TextWords(fault)),
            HandFault::DefendersText(fault) => write!(f, "defenders 10 Text {}", TextWords(fault)),
            HandFault::NoDeal => write!(f, "11 NoDeal"),
        }
    }
}

impl Error for HandFault {}

/// The printed words for a text that is not the text of a graph: the fault, and the line that it names.
#[derive(Drop)]
struct TextWords<'a>(&'a TextFault);

impl fmt::Display for TextWords<'_> {
    ghost output = { λ words. Some (text_fault_text words.0.now) };

    fn fmt<W: fmt::Write>(&self, f: &mut fmt::Formatter<W>) -> fmt::Result {
        let fault = self.0;
        match fault.line() {
            Some(line) => write!(f, "{fault} line {line}"),
            None => write!(f, "{fault}"),
        }
    }
}
