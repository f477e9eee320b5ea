//! The games of a text, one by one.

ghost use Rattle.std.specs.Prelude.{◌≡◌, ◌≢◌, ◌<◌, ◌∷◌, ◌++◌, [], false, Bool, List, length};
ghost use Rattle.pbn_deals.specs.Pieces.{Kind, Line, rows_of, AreLines};
ghost use Rattle.tables.specs.declared.results.Renews.{Renews};
ghost use Rattle.whole_texts.specs.LineFacts.{FactsOfLine};
ghost use Rattle.whole_texts.specs.FirstGame.{IsDealEnd, IsFirstGame};

use crate::leaving::Before;
use crate::line_facts::{LineFacts, line_facts};
use pbn_deals::{first_row, front_of};
use tables::Renews;

/// A game of a text.
#[derive(Clone, Copy)]
pub(crate) struct GameText<'a> {
    /// Its lines up to the last of which more is left than a line that tells how many results were known.
    pub(crate) front: &'a [u8],
    /// Its lines behind that: of these go those that tell how many results were known.
    pub(crate) back: &'a [u8],
    /// The line that ends it, or nothing at the end of the text.
    pub(crate) gap: &'a [u8],
    /// What stands behind that.
    pub(crate) rest: &'a [u8],
    /// The end of the first line with a Deal tag, if it has one.
    pub(crate) deal_end: Option<&'a [u8]>,
}

/// The end of the first line with a Deal tag, once a line was read that does this and has this end.
fn with_deal_end<'a>(before: Option<&'a [u8]>, facts: LineFacts, end: &'a [u8]) -> Option<&'a [u8]>
    ensures { (lines : List Line) (old : Renews) (in_table : Bool) (kind : Kind) (is_open : Bool)
        → FactsOfLine old in_table kind is_open facts → IsDealEnd before.entry lines
        → IsDealEnd result (lines ++ record { kind = kind; end = end.entry.now } ∷ []) }
{
    if before.is_none() && facts.has_deal() {
        Some(end)
    } else {
        before
    }
}

/// The first game of a text.
pub(crate) fn first_game(renews: Renews, text: &[u8]) -> GameText<'_>
    ensures is { (lines : List Line) → AreLines false (rows_of text.now) lines false
        → IsFirstGame renews text.now lines result }
    ensures shorter { text.now ≢ [] → length result.rest.now < length text.now }
{
    let mut before = Before::first();
    let mut deal_end = None;
    let (mut back, mut rest) = (text, text);
    while let Some((row, after)) = first_row(rest) {
        let facts = line_facts(renews, before.is_open, before.in_table, row.bytes);
        if facts.is_gap() {
            return GameText {
                front: front_of(text, back),
                back: front_of(back, rest),
                gap: front_of(rest, after),
                rest: after,
                deal_end,
            };
        }
        deal_end = with_deal_end(deal_end, facts, row.end);
        if facts.is_solid() {
            back = after;
        }
        before = before.behind(renews, facts, None);
        rest = after;
    }
    GameText {
        front: front_of(text, back),
        back,
        gap: &[],
        rest: &[],
        deal_end,
    }
}
