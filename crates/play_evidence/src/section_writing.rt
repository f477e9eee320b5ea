//! A section, as it is written.

ghost use Rattle.std.specs.Prelude.{◌≡◌, ◌∷◌, ◌++◌, [], IfOk};
ghost use Rattle.std.specs.List.{AllByRecursion};
ghost use Rattle.cards.specs.Devices.{Writes};
ghost use Rattle.certificate_graph.specs.Texts.{nodes_text};
ghost use Rattle.evidence.specs.SectionTexts.{root_text};
ghost use Rattle.play_evidence.specs.Sections.{IsBegun, IsPlaySection, nodes_of, parts_of};
ghost use Rattle.play_evidence.specs.SectionTexts.{titled_deal, played_line, numbers_line, claim_text};
ghost use Rattle.play_evidence.specs.SectionTexts.{claims_text, counted_text, begun_text, play_text, bundle_text};
ghost use Rattle.play_evidence.specs.SectionTexts.{play_section_text};

use crate::sections::PlayContents;
use card_evidence::write_leader;
use cards::{Card, DeviceFault, Layout, OutOfMemory, Sink, write_all, write_cards};
use certificate_graph::Node;
use evidence::{VecSink, write_count, write_counted, write_graphs, write_trump};
use pbn_deals::write_layout;
use play_claims::{PlayBundle, PlayClaim};
use std::alloc::Global;

/// Writes the title and the line of the deal.
fn write_deal<S: Sink>(sink: &mut S, layout: &Layout) -> Result<(), DeviceFault>
    ensures { Writes (S.state sink.old) (S.state sink.new) (titled_deal layout.now []) result }
{
    write_all(sink, b"DPP 1\ndeal ")?;
    write_layout(sink, layout)?;
    write_all(sink, b"\n")
}

/// Writes the line of the cards played.
fn write_played<S: Sink>(sink: &mut S, cards: &[Card]) -> Result<(), DeviceFault>
    ensures { Writes (S.state sink.old) (S.state sink.new) (played_line cards.now []) result }
{
    write_all(sink, b"played")?;
    write_cards(cards, sink)?;
    write_all(sink, b"\n")
}

/// Writes the lines of the play.
fn write_play<S: Sink>(sink: &mut S, contents: &PlayContents<'_>) -> Result<(), DeviceFault>
    ensures { Writes (S.state sink.old) (S.state sink.new) (play_text (parts_of contents.now) []) result }
{
    write_deal(sink, contents.layout)?;
    write_trump(sink, contents.trump)?;
    write_leader(sink, contents.leader)?;
    write_played(sink, contents.cards)
}

/// Writes the number of a node, or `-` if there is none, and a byte.
fn write_root<S: Sink>(sink: &mut S, root: Option<u32>, end: u8) -> Result<(), DeviceFault>
    ensures { Writes (S.state sink.old) (S.state sink.new) (root_text root ++ (end ∷ [])) result }
{
    match root {
        Some(number) => write_counted(sink, u64::from(number), end),
        None => write_all(sink, &[b'-', end]),
    }
}

/// Writes the line of the numbers of a claim.
fn write_numbers<S: Sink>(sink: &mut S, claim: &PlayClaim) -> Result<(), DeviceFault>
    ensures { Writes (S.state sink.old) (S.state sink.new) (numbers_line claim.now []) result }
{
    write_counted(sink, u64::from(claim.tricks), b' ')?;
    write_root(sink, claim.ns, b' ')?;
    write_root(sink, claim.ew, b'\n')
}

/// Writes the line of a claim.
fn write_claim<S: Sink>(sink: &mut S, claim: &Option<PlayClaim>) -> Result<(), DeviceFault>
    ensures { Writes (S.state sink.old) (S.state sink.new) (claim_text claim.now []) result }
{
    match claim {
        Some(claim) => write_numbers(sink, claim),
        None => write_all(sink, b"-\n"),
    }
}

/// Writes claims, without their number.
fn write_each_claim<S: Sink>(sink: &mut S, claims: &[Option<PlayClaim>]) -> Result<(), DeviceFault>
    ensures { Writes (S.state sink.old) (S.state sink.new) (claims_text claims.now []) result }
{
    match claims {
        [] => Ok(()),
        [claim, more @ ..] => {
            write_claim(sink, claim)?;
            write_each_claim(sink, more)
        }
    }
}

/// Writes claims after their number.
fn write_claims<S: Sink>(sink: &mut S, claims: &[Option<PlayClaim>]) -> Result<(), DeviceFault>
    ensures { Writes (S.state sink.old) (S.state sink.new) (counted_text claims.now []) result }
{
    write_count(sink, claims.len())?;
    write_each_claim(sink, claims)
}

/// Writes the lines of nodes.
fn write_each_node<S: Sink>(sink: &mut S, nodes: &[Node]) -> Result<(), DeviceFault>
    requires { AllByRecursion IsBegun nodes.now }
    ensures { Writes (S.state sink.old) (S.state sink.new) (nodes_text nodes.now []) result }
{
    match nodes {
        [] => Ok(()),
        [node, more @ ..] => {
            node.write_line(sink)?;
            write_each_node(sink, more)
        }
    }
}

/// Writes begun nodes after their number.
fn write_begun<S: Sink>(sink: &mut S, nodes: &[Node]) -> Result<(), DeviceFault>
    requires { AllByRecursion IsBegun nodes.now }
    ensures { Writes (S.state sink.old) (S.state sink.new) (begun_text nodes.now []) result }
{
    write_all(sink, b"begun ")?;
    write_counted(sink, nodes.len() as u64, b'\n')?;
    write_each_node(sink, nodes)
}

/// Writes the claims, and the nodes of both sides.
fn write_bundle<S: Sink>(sink: &mut S, bundle: &PlayBundle) -> Result<(), DeviceFault>
    requires ns { AllByRecursion IsBegun bundle.now.ns.begun.items }
    requires ew { AllByRecursion IsBegun bundle.now.ew.begun.items }
    ensures { Writes (S.state sink.old) (S.state sink.new)
        (bundle_text bundle.now.claims.items (nodes_of bundle.now.ns) (nodes_of bundle.now.ew)) result }
{
    write_claims(sink, bundle.claims.as_slice())?;
    write_begun(sink, bundle.ns.begun.as_slice())?;
    write_begun(sink, bundle.ew.begun.as_slice())?;
    write_graphs(sink, &bundle.ns.graph, &bundle.ew.graph)
}

/// Writes the text of a section. If the sink fails, it has got a beginning of the text. Takes no memory.
pub fn write_play_section<S: Sink>(
    sink: &mut S,
    contents: &PlayContents<'_>,
) -> Result<(), DeviceFault>
    requires { IsPlaySection (parts_of contents.now) }
    ensures { Writes (S.state sink.old) (S.state sink.new) (play_section_text (parts_of contents.now)) result }
{
    write_play(sink, contents)?;
    write_bundle(sink, contents.bundle)
}

/// Returns the text of a section. Fails only if memory runs out.
pub fn play_section_bytes(
    alloc: Global,
    contents: &PlayContents<'_>,
) -> Result<Vec<u8>, OutOfMemory>
    requires { IsPlaySection (parts_of contents.now) }
    ensures { IfOk result (λ bytes. bytes.items ≡ play_section_text (parts_of contents.now)) }
{
    let mut sink = VecSink::new(alloc);
    match write_play_section(&mut sink, contents) {
        Ok(()) => Ok(sink.into_bytes()),
        Err(_) => Err(OutOfMemory),
    }
}
