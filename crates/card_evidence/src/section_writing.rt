//! A section, as it is written.

ghost use Rattle.std.specs.Prelude.{◌++◌, []};
ghost use Rattle.std.specs.List.{AllByRecursion};
ghost use Rattle.std.specs.Option.{option_copied};
ghost use Rattle.cards.specs.Devices.{Writes};
ghost use Rattle.cards.specs.CardTexts.{card_text};
ghost use Rattle.evidence.specs.SectionTexts.{deal_line};
ghost use Rattle.card_evidence.specs.Sections.{IsBegun, IsKeptClaim};
ghost use Rattle.card_evidence.specs.SectionTexts.{title, leader_line, played_line, trick_text, claim_line, begun_text};
ghost use Rattle.card_evidence.specs.SectionTexts.{claim_text, claims_text, counted_text, card_section_text};

use crate::sections::CardSection;
use card_values::TrickInProgress;
use cards::{Card, DeviceFault, Layout, Seat, Sink, write_all, write_cards, write_number};
use certificate_graph::{CardClaim, Node};
use evidence::{write_count, write_counted, write_graphs, write_seat, write_trump};
use pbn_deals::write_layout;

/// Writes the title and the line of the deal.
fn write_deal<S: Sink>(sink: &mut S, layout: &Layout) -> Result<(), DeviceFault>
    ensures { Writes (S.state sink.old) (S.state sink.new) (title ++ deal_line layout.now []) result }
{
    write_all(sink, b"DDP 1\ndeal ")?;
    write_layout(sink, layout)?;
    write_all(sink, b"\n")
}

/// Writes the line of the leader.
pub fn write_leader<S: Sink>(sink: &mut S, leader: Seat) -> Result<(), DeviceFault>
    ensures { Writes (S.state sink.old) (S.state sink.new) (leader_line leader []) result }
{
    write_all(sink, b"leader ")?;
    write_seat(sink, leader)?;
    write_all(sink, b"\n")
}

/// Writes the line of the cards played.
fn write_played<S: Sink>(sink: &mut S, cards: &[Card]) -> Result<(), DeviceFault>
    ensures { Writes (S.state sink.old) (S.state sink.new) (played_line cards.now []) result }
{
    write_all(sink, b"played ")?;
    write_number(sink, cards.len() as u64)?;
    write_cards(cards, sink)?;
    write_all(sink, b"\n")
}

/// Writes the lines of the trick in progress.
fn write_trick<S: Sink>(sink: &mut S, trick: &TrickInProgress) -> Result<(), DeviceFault>
    ensures { Writes (S.state sink.old) (S.state sink.new) (trick_text trick.now []) result }
{
    write_deal(sink, trick.layout())?;
    write_trump(sink, trick.trump())?;
    write_leader(sink, trick.leader())?;
    write_played(sink, trick.played())
}

/// Writes the letters of a card.
fn write_letters<S: Sink>(sink: &mut S, card: Card) -> Result<(), DeviceFault>
    ensures { Writes (S.state sink.old) (S.state sink.new) (card_text card) result }
{
    write_all(sink, card.suit.letter().as_bytes())?;
    write_all(sink, card.rank.letter().as_bytes())
}

/// Writes the line of a claim.
fn write_claim_line<S: Sink>(sink: &mut S, card: Card, tricks: u8) -> Result<(), DeviceFault>
    ensures { Writes (S.state sink.old) (S.state sink.new) (claim_line card tricks []) result }
{
    write_letters(sink, card)?;
    write_all(sink, b" ")?;
    write_counted(sink, u64::from(tricks), b'\n')
}

/// Writes a begun node, or the line that says that there is none.
fn write_begun<S: Sink>(sink: &mut S, begun: Option<&Node>) -> Result<(), DeviceFault>
    requires { IsBegun (option_copied begun) }
    ensures { Writes (S.state sink.old) (S.state sink.new) (begun_text (option_copied begun.entry) []) result }
{
    match begun {
        Some(node) => node.write_line(sink),
        None => write_all(sink, b"-\n"),
    }
}

/// Writes a claim.
fn write_claim<S: Sink>(sink: &mut S, claim: &CardClaim) -> Result<(), DeviceFault>
    requires { IsKeptClaim claim.now }
    ensures { Writes (S.state sink.old) (S.state sink.new) (claim_text claim.now []) result }
{
    write_claim_line(sink, claim.card, claim.tricks)?;
    write_begun(sink, claim.player.as_ref())?;
    write_begun(sink, claim.others.as_ref())
}

/// Writes claims, without their number.
fn write_each<S: Sink>(sink: &mut S, claims: &[CardClaim]) -> Result<(), DeviceFault>
    requires { AllByRecursion IsKeptClaim claims.now }
    ensures { Writes (S.state sink.old) (S.state sink.new) (claims_text claims.now []) result }
{
    match claims {
        [] => Ok(()),
        [claim, more @ ..] => {
            write_claim(sink, claim)?;
            write_each(sink, more)
        }
    }
}

/// Writes claims after their number.
fn write_claims<S: Sink>(sink: &mut S, claims: &[CardClaim]) -> Result<(), DeviceFault>
    requires { AllByRecursion IsKeptClaim claims.now }
    ensures { Writes (S.state sink.old) (S.state sink.new) (counted_text claims.now []) result }
{
    write_count(sink, claims.len())?;
    write_each(sink, claims)
}

/// Writes the text of a section. If the sink fails, it has got a beginning of the text. Takes no memory.
pub fn write_card_section<S: Sink>(sink: &mut S, section: &CardSection) -> Result<(), DeviceFault>
    ensures { Writes (S.state sink.old) (S.state sink.new) (card_section_text section.now) result }
{
    section.invariant();
    write_trick(sink, section.trick())?;
    write_claims(sink, section.claims())?;
    write_graphs(sink, section.ns(), section.ew())
}
