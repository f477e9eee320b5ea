//! The line of a node, as it is read.

ghost use Rattle.std.specs.Prelude.{◌≡◌, ◌∷◌, ◌++◌, ℕ, List, length, MatchOption, IfOk};
ghost use Rattle.cards.specs.declared.seats.Seat.{Seat};
ghost use Rattle.patterns.specs.Words.{AreWords};
ghost use Rattle.certificate_graph.specs.Graphs.{IsNeed};
ghost use Rattle.certificate_graph.specs.TextFaults.{BeginsNode, LacksNode};
ghost use Rattle.certificate_graph.specs.Readings.{BeginsClaim, LacksClaim};
ghost use Rattle.certificate_graph.specs.Rows.{tree_row};
ghost use Rattle.certificate_graph.specs.Suits.{node_read, words_read};
ghost use Rattle.certificate_graph.specs.Trees.{TrickTree};

use crate::cursors::{Cursor, Stop};
use crate::forms::TRICK_CARDS;
use crate::pattern_reading::{Suits, read_suits};
use crate::rows::Token;
use crate::scanning::{after_byte, read_len, read_seat};
use crate::tree_reading::read_tree;
use cards::Seat;
use std::alloc::AllocError;

/// What the line of a node says.
#[derive(Drop)]
pub(crate) struct Line {
    /// The seat that leads.
    pub(crate) lead: Seat,
    /// The tricks that the side can win, 1 to 13.
    pub(crate) need: u8,
    /// The suits of the pattern.
    pub(crate) suits: Suits,
    /// How many tokens the tree has.
    pub(crate) count: usize,
}

/// A lead and a need, and the text after the blank that ends them.
fn read_claim(text: &[u8]) -> Option<(Seat, u8, &[u8])>
    ensures { MatchOption result (LacksClaim text.now) (λ p. BeginsClaim text.now p.0 p.1 p.2.now) }
{
    let Some((lead, rest)) = read_seat(text) else {
        return None;
    };
    let Some(rest) = after_byte(rest, b' ') else {
        return None;
    };
    let Some((need, rest)) = read_len(rest, b' ') else {
        return None;
    };
    if need == 0 {
        return None;
    }
    Some((lead, need, rest))
}

/// The line of a node, and the text after it. The tokens of its tree are put at the end of the row.
pub(crate) fn read_line<'a>(
    text: &'a [u8],
    row: &mut Vec<Token>,
) -> Result<Option<(Line, &'a [u8])>, AllocError>
    ensures { IfOk result (λ read. MatchOption read (LacksNode text.now)
        (λ p. (tree : TrickTree) × (row.new.items ≡ row.old.items ++ tree_row tree)
        × (p.0.count ≡ length (tree_row tree)) × AreWords (words_read p.0.suits)
        × BeginsNode text.now (node_read p.0 tree) p.1.now)) }
{
    let Some((lead, need, rest)) = read_claim(text) else {
        return Ok(None);
    };
    let Some((suits, rest)) = read_suits(rest) else {
        return Ok(None);
    };
    let before = row.len();
    let mut cursor = Cursor { rest };
    match read_tree(&mut cursor, TRICK_CARDS, row) {
        Ok(()) => {}
        Err(Stop::Other) => return Ok(None),
        Err(Stop::NoMemory) => return Err(AllocError),
    }
    let Some(rest) = after_byte(cursor.rest, b'\n') else {
        return Ok(None);
    };
    let line = Line {
        lead,
        need,
        suits,
        count: row.len() - before,
    };
    Ok(Some((line, rest)))
}
