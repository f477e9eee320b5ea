//! What a line does to a game whose old tables go.

ghost use Rattle.std.specs.Prelude.{◌≡◌, Bool};
ghost use Rattle.pbn_deals.specs.Pieces.{Kind, LineIs};
ghost use Rattle.tables.specs.declared.results.Renews.{Renews};
ghost use Rattle.whole_texts.specs.OldTables.{is_deal_kind};
ghost use Rattle.whole_texts.specs.WholeText.{is_gap_kind};
ghost use Rattle.whole_texts.specs.LineFacts.{FactsOfLine, is_solid};

use crate::lefts::Left;
use crate::piece_facts::{PieceFacts, add_pieces};
use pbn_deals::{LineStart, Piece, line_start};
use tables::Renews;

/// What a line does.
#[derive(Clone, Copy)]
pub(crate) enum LineFacts {
    /// It ends the game.
    Gap,
    /// It is passed over.
    Escaped,
    /// It is a line of the game, whose pieces do this.
    OfGame(PieceFacts),
}

impl LineFacts {
    /// Whether the line ends the game.
    pub(crate) fn is_gap(self) -> bool
        ensures { (old : Renews) (in_table : Bool) (kind : Kind) (is_open : Bool)
            → FactsOfLine old in_table kind is_open self → result ≡ is_gap_kind kind }
    {
        match self {
            LineFacts::Gap => true,
            LineFacts::Escaped | LineFacts::OfGame(_) => false,
        }
    }

    /// Whether it has a Deal tag.
    pub(crate) fn has_deal(self) -> bool
        ensures { (old : Renews) (in_table : Bool) (kind : Kind) (is_open : Bool)
            → FactsOfLine old in_table kind is_open self → result ≡ is_deal_kind kind }
    {
        match self {
            LineFacts::OfGame(facts) => facts.has_deal,
            LineFacts::Gap | LineFacts::Escaped => false,
        }
    }

    /// Whether it is a line of the game of which more is left than how many results were known.
    pub(crate) fn is_solid(self) -> bool
        ensures { (old : Renews) (in_table : Bool) (kind : Kind) (is_open : Bool)
            → FactsOfLine old in_table kind is_open self → result ≡ is_solid old in_table kind }
    {
        match self {
            LineFacts::OfGame(facts) => match facts.left {
                Left::More => true,
                Left::Nothing | Left::Blanks | Left::Count => false,
            },
            LineFacts::Gap | LineFacts::Escaped => false,
        }
    }
}

/// What a line does, where a brace comment is open before it or not, and section data is a table's or not.
pub(crate) fn line_facts(renews: Renews, is_open: bool, in_table: bool, line: &[u8]) -> LineFacts
    ensures { (kind : Kind) (last : Bool) → LineIs is_open line.now kind last
        → FactsOfLine renews in_table kind last result }
{
    let none = PieceFacts::new(renews, in_table);
    match line_start(is_open, line) {
        LineStart::Gap => LineFacts::Gap,
        LineStart::Escaped => LineFacts::Escaped,
        LineStart::InComment => LineFacts::OfGame(none.with(renews, Piece::OpenComment(line))),
        LineStart::OfGame { comment, rest } => {
            if comment.is_empty() {
                LineFacts::OfGame(add_pieces(renews, none, rest))
            } else {
                LineFacts::OfGame(add_pieces(
                    renews,
                    none.with(renews, Piece::Comment(comment)),
                    rest,
                ))
            }
        }
    }
}
