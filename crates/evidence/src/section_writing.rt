//! A section, as it is written.

ghost use Rattle.std.specs.Prelude.{◌≡◌, ◌∷◌, ◌++◌, [], IfOk, length, codes};
ghost use Rattle.std.specs.Fmt.{decimal};
ghost use Rattle.cards.specs.Devices.{Writes};
ghost use Rattle.cards.specs.Pack.{trump_letters};
ghost use Rattle.cards.specs.Seats.{seat_letter};
ghost use Rattle.certificate_graph.specs.Texts.{trump_text};
ghost use Rattle.evidence.specs.Sections.{kept_of};
ghost use Rattle.evidence.specs.SectionTexts.{root_text, claim_line, claim_lines, deal_line, count_line};
ghost use Rattle.evidence.specs.SectionTexts.{title, head_text, graphs_text, section_text, IsTextIfAny};

use crate::claims::claims_in_order;
use crate::sections::{Contents, Section};
use crate::vec_sinks::VecSink;
use cards::{DeviceFault, Layout, OutOfMemory, Seat, Sink, Trump, write_all, write_number};
use certificate_graph::{Bundle, Claim, Graph};
use pbn_deals::write_layout;
use std::alloc::Global;

/// Writes a number and a byte.
pub fn write_counted<S: Sink>(sink: &mut S, number: u64, end: u8) -> Result<(), DeviceFault>
    ensures { Writes (S.state sink.old) (S.state sink.new) (decimal number ++ (end ∷ [])) result }
{
    write_number(sink, number)?;
    write_all(sink, &[end])
}

/// Writes a root and a byte.
fn write_root<S: Sink>(sink: &mut S, root: Option<u32>, end: u8) -> Result<(), DeviceFault>
    ensures { Writes (S.state sink.old) (S.state sink.new) (root_text root ++ (end ∷ [])) result }
{
    match root {
        Some(number) => write_counted(sink, u64::from(number), end),
        None => write_all(sink, &[b'-', end]),
    }
}

/// Writes both roots of a claim, and the end of its line.
fn write_roots<S: Sink>(sink: &mut S, claim: &Claim) -> Result<(), DeviceFault>
    ensures { Writes (S.state sink.old) (S.state sink.new)
        ((root_text claim.now.declarer_root ++ (32 ∷ [])) ++ (root_text claim.now.defenders_root ++ (10 ∷ []))) result }
{
    write_root(sink, claim.declarer_root, b' ')?;
    write_root(sink, claim.defenders_root, b'\n')
}

/// Writes the letter of a seat.
pub fn write_seat<S: Sink>(sink: &mut S, seat: Seat) -> Result<(), DeviceFault>
    ensures { Writes (S.state sink.old) (S.state sink.new) (seat_letter seat) result }
{
    write_all(sink, seat.letter().as_bytes())
}

/// Writes the line of a claim.
fn write_claim<S: Sink>(sink: &mut S, claim: &Claim) -> Result<(), DeviceFault>
    ensures { Writes (S.state sink.old) (S.state sink.new) (claim_line claim.now []) result }
{
    write_seat(sink, claim.declarer)?;
    write_all(sink, b" ")?;
    write_counted(sink, u64::from(claim.k), b' ')?;
    write_roots(sink, claim)
}

/// Writes the lines of claims.
fn write_claims<S: Sink>(sink: &mut S, claims: &[Claim]) -> Result<(), DeviceFault>
    ensures { Writes (S.state sink.old) (S.state sink.new) (claim_lines claims.now []) result }
{
    for claim in claims {
        write_claim(sink, claim)?;
    }
    Ok(())
}

/// Writes the title and the line of the deal.
fn write_deal<S: Sink>(sink: &mut S, layout: &Layout) -> Result<(), DeviceFault>
    ensures { Writes (S.state sink.old) (S.state sink.new) (title ++ deal_line layout.now []) result }
{
    write_all(sink, b"DDE 1\ndeal ")?;
    write_layout(sink, layout)?;
    write_all(sink, b"\n")
}

/// Writes the letters of a denomination.
fn write_letters<S: Sink>(sink: &mut S, trump: Trump) -> Result<(), DeviceFault>
    ensures { Writes (S.state sink.old) (S.state sink.new) (trump_letters trump) result }
{
    write_all(sink, trump.letters().as_bytes())
}

/// Writes the line of the denomination.
pub fn write_trump<S: Sink>(sink: &mut S, trump: Trump) -> Result<(), DeviceFault>
    ensures { Writes (S.state sink.old) (S.state sink.new) (trump_text trump []) result }
{
    write_all(sink, b"trump ")?;
    write_letters(sink, trump)?;
    write_all(sink, b"\n")
}

/// Writes the line of how many claims there are.
pub fn write_count<S: Sink>(sink: &mut S, count: usize) -> Result<(), DeviceFault>
    ensures { Writes (S.state sink.old) (S.state sink.new) (count_line count []) result }
{
    write_all(sink, b"claims ")?;
    write_counted(sink, count as u64, b'\n')
}

/// Writes what stands before the graphs.
pub(crate) fn write_head<S: Sink>(
    sink: &mut S,
    layout: &Layout,
    trump: Trump,
    claims: &[Claim],
) -> Result<(), DeviceFault>
    ensures { Writes (S.state sink.old) (S.state sink.new) (head_text layout.now trump claims.now []) result }
{
    write_deal(sink, layout)?;
    write_trump(sink, trump)?;
    write_count(sink, claims.len())?;
    write_claims(sink, claims)
}

/// Writes the texts of two graphs with an empty line between them.
pub fn write_graphs<S: Sink>(sink: &mut S, ns: &Graph, ew: &Graph) -> Result<(), DeviceFault>
    ensures { Writes (S.state sink.old) (S.state sink.new) (graphs_text ns.now ew.now) result }
{
    ns.write(sink)?;
    write_all(sink, b"\n")?;
    ew.write(sink)
}

/// Writes the text of a section that can be made of this.
fn write_contents<S: Sink>(sink: &mut S, contents: &Contents<'_>) -> Result<(), DeviceFault>
    ensures { Writes (S.state sink.old) (S.state sink.new) (section_text contents.now) result }
{
    write_head(sink, contents.layout, contents.trump, contents.claims)?;
    write_graphs(sink, contents.ns, contents.ew)
}

/// Writes the text of a section. After a fault of the sink a beginning of it has gone out. Takes no memory.
pub fn write_section<S: Sink>(sink: &mut S, section: &Section) -> Result<(), DeviceFault>
    ensures { Writes (S.state sink.old) (S.state sink.new) (section_text section.now) result }
{
    write_contents(sink, &section.contents())
}

/// The text of a section that can be made of this. Fails only where memory runs out.
fn contents_bytes(alloc: Global, contents: &Contents<'_>) -> Result<Vec<u8>, OutOfMemory>
    ensures { IfOk result (λ bytes. bytes.items ≡ section_text contents.now) }
{
    let mut sink = VecSink::new(alloc);
    match write_contents(&mut sink, contents) {
        Ok(()) => Ok(sink.into_bytes()),
        Err(_) => Err(OutOfMemory),
    }
}

/// The text of a section. Fails only where memory runs out.
pub fn section_bytes(alloc: Global, section: &Section) -> Result<Vec<u8>, OutOfMemory>
    ensures { IfOk result (λ bytes. bytes.items ≡ section_text section.now) }
{
    contents_bytes(alloc, &section.contents())
}

/// The text of the section of an answer, whose graphs are only borrowed: of its first claim for each declarer, in the
/// order North, East, South, West, and its graphs. None where these are no section. Fails only where memory runs out.
pub fn bundle_bytes(
    alloc: Global,
    layout: &Layout,
    trump: Trump,
    bundle: &Bundle,
) -> Result<Option<Vec<u8>>, OutOfMemory>
    ensures { IfOk result (IsTextIfAny (kept_of layout.now trump bundle.now)) }
{
    let claims = claims_in_order(bundle);
    let contents = Contents {
        layout,
        trump,
        claims: claims.as_slice(),
        ns: &bundle.ns,
        ew: &bundle.ew,
    };
    if !contents.is_section() {
        return Ok(None);
    }
    Ok(Some(contents_bytes(alloc, &contents)?))
}

/// What stands before the graphs. Fails only where memory runs out.
pub(crate) fn head_bytes(
    alloc: Global,
    layout: &Layout,
    trump: Trump,
    claims: &[Claim],
) -> Result<Vec<u8>, OutOfMemory>
    ensures { IfOk result (λ bytes. bytes.items ≡ head_text layout.now trump claims.now []) }
{
    let mut sink = VecSink::new(alloc);
    match write_head(&mut sink, layout, trump, claims) {
        Ok(()) => Ok(sink.into_bytes()),
        Err(_) => Err(OutOfMemory),
    }
}
