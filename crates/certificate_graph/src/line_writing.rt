//! The lines of a graph's text, as they are written.

ghost use Rattle.std.specs.Prelude.{◌≡◌, ◌∷◌, ◌++◌, [], length, All};
ghost use Rattle.std.specs.Fmt.{decimal};
ghost use Rattle.cards.specs.Devices.{Writes};
ghost use Rattle.certificate_graph.specs.Graphs.{IsTree};
ghost use Rattle.certificate_graph.specs.Texts.{claim_text, node_text, nodes_text, title_text, trump_text, side_text};
ghost use Rattle.certificate_graph.specs.Texts.{count_text};

use crate::nodes::Node;
use crate::versions::Version;
use crate::writing::{seat_byte, write_len, write_pattern, write_tree};
use cards::{DeviceFault, Seat, Side, Sink, Suit, Trump, write_all, write_number};

/// Writes a lead and a need, with a blank after each.
fn write_claim<S: Sink>(sink: &mut S, lead: Seat, need: u8) -> Result<(), DeviceFault>
    ensures { Writes (S.state sink.old) (S.state sink.new) (claim_text lead need []) result }
{
    write_all(sink, &[seat_byte(lead), b' '])?;
    write_len(sink, need, b' ')
}

/// Writes a node.
pub(crate) fn write_node<S: Sink>(sink: &mut S, node: &Node) -> Result<(), DeviceFault>
    requires { IsTree node.now.tree }
    ensures { Writes (S.state sink.old) (S.state sink.new) (node_text node.now []) result }
{
    write_claim(sink, node.lead, node.need)?;
    write_pattern(sink, &node.pattern)?;
    write_all(sink, b" ")?;
    write_tree(sink, node.tree.root())?;
    write_all(sink, b"\n")
}

/// Writes nodes.
pub(crate) fn write_nodes<S: Sink>(sink: &mut S, nodes: &[Node]) -> Result<(), DeviceFault>
    requires { All (λ node. IsTree node.tree) nodes.now }
    ensures { Writes (S.state sink.old) (S.state sink.new) (nodes_text nodes.now []) result }
{
    for node in nodes {
        write_node(sink, node)?;
    }
    Ok(())
}

/// The title, which tells the version.
pub(crate) fn title_line(version: Version) -> &'static [u8]
    ensures { result.now ≡ title_text version [] }
{
    match version {
        Version::One => b"DDC 1\n",
        Version::Two => b"DDC 2\n",
    }
}

/// The line of a trump.
pub(crate) fn trump_line(trump: Trump) -> &'static [u8]
    ensures { result.now ≡ trump_text trump [] }
{
    match trump {
        Trump::Nt => b"trump NT\n",
        Trump::Suit(Suit::Spades) => b"trump S\n",
        Trump::Suit(Suit::Hearts) => b"trump H\n",
        Trump::Suit(Suit::Diamonds) => b"trump D\n",
        Trump::Suit(Suit::Clubs) => b"trump C\n",
    }
}

/// The line of a side.
pub(crate) fn side_line(side: Side) -> &'static [u8]
    ensures { result.now ≡ side_text side [] }
{
    match side {
        Side::NorthSouth => b"side NS\n",
        Side::EastWest => b"side EW\n",
    }
}

/// Writes the title, the trump and the side.
pub(crate) fn write_heading<S: Sink>(
    sink: &mut S,
    version: Version,
    trump: Trump,
    side: Side,
) -> Result<(), DeviceFault>
    ensures { Writes (S.state sink.old) (S.state sink.new)
        (title_text version (trump_text trump (side_text side []))) result }
{
    write_all(sink, title_line(version))?;
    write_all(sink, trump_line(trump))?;
    write_all(sink, side_line(side))
}

/// Writes the number of nodes.
pub(crate) fn write_count<S: Sink>(sink: &mut S, count: u32) -> Result<(), DeviceFault>
    ensures { Writes (S.state sink.old) (S.state sink.new) (count_text (decimal count) []) result }
{
    write_all(sink, b"nodes ")?;
    write_number(sink, u64::from(count))?;
    write_all(sink, b"\n")
}
