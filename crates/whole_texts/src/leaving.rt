//! What is left of lines whose old tables go.

ghost use Rattle.std.specs.Prelude.{◌≡◌, [], false, Bool, List, None};
ghost use Rattle.std.specs.List.{flat_map};
ghost use Rattle.pbn_deals.specs.Pieces as seen;
ghost use Rattle.pbn_deals.specs.Pieces.{bytes_of, body_of, HasPieces, Kind, LineIs, Line, line_bytes, rows_of};
ghost use Rattle.pbn_deals.specs.Pieces.{AreLines};
ghost use Rattle.pbn_deals.specs.FirstPieces.{ArePieces};
ghost use Rattle.whole_texts.specs.OldTables.{left_pieces, table_behind, put_left, table_behind_line, without_tables};
ghost use Rattle.whole_texts.specs.LineFacts.{FactsOfLine, line_is_dropped};
ghost use Rattle.whole_texts.specs.LeftText.{kind_left, kept, tables_behind, WritesLast, Passes, WritesLeft};

use crate::lefts::Left;
use crate::line_ends::last_of;
use crate::line_facts::{LineFacts, line_facts};
use crate::olds::is_old;
use cards::{DeviceFault, Sink, write_all};
use pbn_deals::{LineStart, Piece, Row, first_piece, first_row, line_start};
use tables::Renews;

/// What is known before a line of a game.
#[derive(Clone, Copy)]
pub(crate) struct Before {
    /// Whether a brace comment is open.
    pub(crate) is_open: bool,
    /// Whether section data is a table's.
    pub(crate) in_table: bool,
    /// The last byte that was written of the game.
    pub(crate) last: Option<u8>,
}

impl Before {
    /// What is known before the first line.
    pub(crate) fn first() -> Before
        ensures is_open { result.is_open ≡ false }
        ensures in_table { result.in_table ≡ false }
        ensures last { result.last ≡ None }
    {
        Before {
            is_open: false,
            in_table: false,
            last: None,
        }
    }

    /// What is known behind a line that does this, with this last byte.
    pub(crate) fn behind(self, renews: Renews, facts: LineFacts, last: Option<u8>) -> Before
        ensures { (kind : Kind) (is_open : Bool) → FactsOfLine renews self.in_table kind is_open facts
            → Passes last is_open (table_behind_line renews self.in_table kind) result }
    {
        match facts {
            LineFacts::OfGame(facts) => Before {
                is_open: facts.is_open,
                in_table: facts.in_table,
                last,
                ..self
            },
            LineFacts::Gap | LineFacts::Escaped => Before {
                is_open: false,
                last,
                ..self
            },
        }
    }
}

/// What is left of a piece, and whether section data behind it is a table's.
fn piece_left<'a>(renews: Renews, in_table: bool, piece: Piece<'a>) -> (&'a [u8], bool)
    ensures left { (pieces : List seen.Piece) → ArePieces piece.entry pieces
        → result.0.now ≡ flat_map bytes_of (left_pieces renews in_table pieces) }
    ensures behind { (pieces : List seen.Piece) → ArePieces piece.entry pieces
        → result.1 ≡ table_behind renews in_table pieces }
{
    match piece {
        Piece::Blanks(bytes)
        | Piece::Comment(bytes)
        | Piece::OpenComment(bytes)
        | Piece::NoPair(bytes) => (bytes, in_table),
        Piece::Pair { name, bytes, .. } => {
            let is_dropped = is_old(renews, name);
            (if is_dropped { &[] } else { bytes }, is_dropped)
        }
        Piece::Data(bytes) => (if in_table { &[] } else { bytes }, in_table),
    }
}

/// Writes what is left of the pieces of a line, from one of its places outside comments on. Answers the last byte.
fn write_pieces<S: Sink>(
    sink: &mut S,
    renews: Renews,
    in_table: bool,
    line: &[u8],
    last: Option<u8>,
) -> Result<Option<u8>, DeviceFault>
    ensures { (pieces : List seen.Piece) (is_open : Bool) → HasPieces false line.now pieces is_open
        → WritesLast (S.state sink.old) (S.state sink.new) last
        (flat_map bytes_of (left_pieces renews in_table pieces)) result }
{
    let (mut in_table, mut in_data, mut last) = (in_table, false, last);
    let mut rest = line;
    while let Some((piece, after)) = first_piece(in_data, rest) {
        let (bytes, is_table) = piece_left(renews, in_table, piece);
        write_all(sink, bytes)?;
        last = last_of(last, bytes);
        in_data = piece.is_data() | in_data;
        in_table = is_table;
        rest = after;
    }
    Ok(last)
}

/// Writes what is left of a line without its end. Answers the last byte.
fn write_left<S: Sink>(
    sink: &mut S,
    renews: Renews,
    before: Before,
    line: &[u8],
) -> Result<Option<u8>, DeviceFault>
    ensures { (kind : Kind) (is_open : Bool) → LineIs before.is_open line.now kind is_open
        → WritesLast (S.state sink.old) (S.state sink.new) before.last (body_of (kind_left renews before.in_table kind))
        result }
{
    match line_start(before.is_open, line) {
        LineStart::OfGame { comment, rest } => {
            write_all(sink, comment)?;
            let last = last_of(before.last, comment);
            write_pieces(sink, renews, before.in_table, rest, last)
        }
        LineStart::Gap | LineStart::Escaped | LineStart::InComment => {
            write_all(sink, line)?;
            Ok(last_of(before.last, line))
        }
    }
}

/// Whether the whole line is dropped, by what it does.
fn is_dropped(facts: LineFacts, drops_counts: bool) -> bool
    ensures { result ≡ line_is_dropped drops_counts facts }
{
    match facts {
        LineFacts::OfGame(facts) => match facts.left {
            Left::Nothing | Left::Blanks => true,
            Left::Count => drops_counts,
            Left::More => false,
        },
        LineFacts::Gap | LineFacts::Escaped => false,
    }
}

/// Writes what is left of a line. Answers what is known behind it.
fn write_line<S: Sink>(
    sink: &mut S,
    renews: Renews,
    before: Before,
    row: Row<'_>,
    drops_counts: bool,
) -> Result<Before, DeviceFault>
    ensures { (kind : Kind) (is_open : Bool) → LineIs before.is_open row.entry.bytes.now kind is_open
        → WritesLeft (S.state sink.old) (S.state sink.new) before.last
        (flat_map line_bytes (kept renews drops_counts (put_left renews before.in_table kind row.entry.end.now [])))
        is_open (table_behind_line renews before.in_table kind) result }
{
    let facts = line_facts(renews, before.is_open, before.in_table, row.bytes);
    if is_dropped(facts, drops_counts) {
        return Ok(before.behind(renews, facts, before.last));
    }
    let last = write_left(sink, renews, before, row.bytes)?;
    write_all(sink, row.end)?;
    Ok(before.behind(renews, facts, last_of(last, row.end)))
}

/// Writes what is left of lines of a game; lines that say how many results were known are dropped, or stay. Answers
/// what is known after them.
pub(crate) fn write_lines<S: Sink>(
    sink: &mut S,
    renews: Renews,
    before: Before,
    lines: &[u8],
    drops_counts: bool,
) -> Result<Before, DeviceFault>
    ensures { (those : List Line) (is_open : Bool) → AreLines before.is_open (rows_of lines.now) those is_open
        → WritesLeft (S.state sink.old) (S.state sink.new) before.last
        (flat_map line_bytes (kept renews drops_counts (without_tables renews before.in_table those)))
        is_open (tables_behind renews before.in_table those) result }
{
    let mut before = before;
    let mut rest = lines;
    while let Some((row, after)) = first_row(rest) {
        before = write_line(sink, renews, before, row, drops_counts)?;
        rest = after;
    }
    Ok(before)
}
