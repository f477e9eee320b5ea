//! The lines of a play.

ghost use Rattle.std.specs.Prelude.{◌≡◌};
ghost use Rattle.play_pages.specs.Lines.{change};
ghost use Rattle.play_pages.specs.Tasks.{no_lines};

use arrayvec::ArrayVec;
use cards::{Card, Seat};
use play_evidence::PlaySection;

/// The line of a card.
#[derive(Clone, Copy)]
pub struct CardLine {
    /// The seat that played it.
    pub seat: Seat,
    /// The card.
    pub card: Card,
    /// The tricks of declarer's side in all after it, if they are known.
    pub after: Option<u8>,
    /// The tricks that it loses for the side that played it, if they are known.
    pub lost: Option<u8>,
}

impl Default for CardLine {
    fn default() -> CardLine {
        CardLine {
            seat: Seat::North,
            card: Card::default(),
            after: None,
            lost: None,
        }
    }
}

/// The lines of a play, and the numbers at its ends.
#[derive(Drop)]
pub struct PlayLines {
    /// The tricks of declarer's side in all before the first card, if they are known.
    pub start: Option<u8>,
    /// A line for each card, in the order of the play.
    pub lines: ArrayVec<CardLine, 52>,
    /// The tricks of declarer's side in all after the last card, if they are known.
    pub end: Option<u8>,
    /// The evidence of the numbers, if it is kept.
    pub section: Option<PlaySection>,
}

impl PlayLines {
    /// The lines of a play without cards of which nothing is known.
    pub fn none() -> PlayLines
        ensures { result ≡ no_lines }
    {
        PlayLines {
            start: None,
            lines: ArrayVec::new(),
            end: None,
            section: None,
        }
    }
}

/// By how much a number changes, if it is known before and after.
pub(crate) fn change(before: Option<u8>, after: Option<u8>) -> Option<u8>
    ensures { result ≡ change before after }
{
    match (before, after) {
        (Some(before), Some(after)) => Some(before.abs_diff(after)),
        _ => None,
    }
}
