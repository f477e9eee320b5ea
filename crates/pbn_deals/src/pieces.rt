//! What stands in a text: its lines with their ends, and the pieces of a line.

ghost use Rattle.std.specs.Prelude.{◌≡◌, ◌≤◌, ◌∷◌, ◌++◌, [], false, ℕ, Bool, List, MatchOption, length};
ghost use Rattle.pbn_deals.specs.FirstPieces.{IsFirstRow, IsAfterData, IsFirst, FirstPiece, is_found_data, is_sign};
ghost use Rattle.pbn_deals.specs.Pieces as seen;
ghost use Rattle.pbn_deals.specs.Pieces.{HasPieces};

use crate::hands::{after_blanks, first_byte};
use crate::letters::is_blank;
use crate::line_cuts::without_return;
use crate::tags::{read_tag, split_at_byte};

/// A line of a text, and its end: LF, CR LF, or nothing at the end of the text.
#[derive(Clone, Copy)]
pub struct Row<'a> {
    /// The bytes before the end.
    pub bytes: &'a [u8],
    /// LF, CR LF, or nothing.
    pub end: &'a [u8],
}

/// The first line of a text, and what stands behind it; none where the text has no bytes.
pub fn first_row(text: &[u8]) -> Option<(Row<'_>, &[u8])>
    ensures { MatchOption result (text.now ≡ []) (λ found. IsFirstRow text.now found.0 found.1.now) }
{
    if text.is_empty() {
        return None;
    }
    let Some((part, after)) = split_at_byte(text, b'\n') else {
        return Some((
            Row {
                bytes: text,
                end: &[],
            },
            &[],
        ));
    };
    let bytes = without_return(part);
    let (_, rest) = text.split_at(bytes.len());
    let end = front_of(rest, after);
    Some((Row { bytes, end }, after))
}

/// What stands in a line, with its bytes. Runs of blanks and of section data are as long as they go.
#[derive(Clone, Copy)]
pub enum Piece<'a> {
    /// Blanks before all section data.
    Blanks(&'a [u8]),
    /// A comment with its signs.
    Comment(&'a [u8]),
    /// A brace comment that is open at the end of the line.
    OpenComment(&'a [u8]),
    /// A tag pair.
    Pair {
        /// Its name.
        name: &'a [u8],
        /// Its value.
        value: &'a [u8],
        /// All of it.
        bytes: &'a [u8],
    },
    /// Section data.
    Data(&'a [u8]),
    /// A bracket that begins no tag pair where one may stand, and what stands behind it.
    NoPair(&'a [u8]),
}

impl Piece<'_> {
    /// Whether it is section data.
    pub fn is_data(self) -> bool
        ensures { result ≡ is_found_data self.entry }
    {
        match self {
            Piece::Data(_) => true,
            Piece::Blanks(_)
            | Piece::Comment(_)
            | Piece::OpenComment(_)
            | Piece::Pair { .. }
            | Piece::NoPair(_) => false,
        }
    }
}

/// What stands before this rest of the text.
pub fn front_of<'a>(text: &'a [u8], rest: &[u8]) -> &'a [u8]
    requires { length rest.now ≤ length text.now }
    ensures { (front : List ℕ) → text.now ≡ front ++ rest.now → result.now ≡ front }
{
    &text[..text.len() - rest.len()]
}

/// Whether the byte ends section data, or a part of it.
fn is_sign(byte: u8) -> bool
    ensures { result ≡ is_sign byte }
{
    byte == b';' || byte == b'{' || byte == b'"'
}

/// What stands behind section data: from the first sign on that ends it.
fn after_data(text: &[u8]) -> &[u8]
    ensures { IsAfterData text.now result.now }
{
    for (i, byte) in text.iter().enumerate() {
        if is_sign(*byte) {
            return &text[i..];
        }
    }
    &[]
}

/// The comment that begins with a brace, of which the others are the bytes behind that.
fn first_comment<'a>(text: &'a [u8], others: &'a [u8]) -> (Piece<'a>, &'a [u8])
    requires { text.now ≡ 123 ∷ others.now }
    ensures { (in_data : Bool) (pieces : List seen.Piece) (is_open : Bool) → HasPieces in_data text.now pieces is_open
        → IsFirst in_data text.now pieces is_open result.0 result.1.now }
{
    match split_at_byte(others, b'}') {
        Some((_, after)) => (Piece::Comment(front_of(text, after)), after),
        None => (Piece::OpenComment(text), &[]),
    }
}

/// The quoted text that begins with a quote, of which the others are the bytes behind that.
fn first_quoted<'a>(text: &'a [u8], others: &'a [u8]) -> (Piece<'a>, &'a [u8])
    requires { text.now ≡ 34 ∷ others.now }
    ensures { (in_data : Bool) (pieces : List seen.Piece) (is_open : Bool) → HasPieces in_data text.now pieces is_open
        → IsFirst in_data text.now pieces is_open result.0 result.1.now }
{
    match split_at_byte(others, b'"') {
        Some((_, after)) => (Piece::Data(front_of(text, after)), after),
        None => (Piece::Data(text), &[]),
    }
}

/// The tag pair that begins with a bracket, of which the others are the bytes behind that, if there is one.
fn first_pair<'a>(text: &'a [u8], others: &'a [u8]) -> (Piece<'a>, &'a [u8])
    requires { text.now ≡ 91 ∷ others.now }
    ensures { (pieces : List seen.Piece) (is_open : Bool) → HasPieces false text.now pieces is_open
        → IsFirst false text.now pieces is_open result.0 result.1.now }
{
    match read_tag(others) {
        Some(tag) => {
            let (name, value) = (tag.name, tag.value);
            let bytes = front_of(text, tag.rest);
            (Piece::Pair { name, value, bytes }, tag.rest)
        }
        None => (Piece::NoPair(text), &[]),
    }
}

/// The first piece of a line from one of its places outside comments on, and what stands behind it; none at the line's
/// end. `in_data` says that section data stands before the place.
pub fn first_piece(in_data: bool, text: &[u8]) -> Option<(Piece<'_>, &[u8])>
    ensures { (pieces : List seen.Piece) (is_open : Bool) → HasPieces in_data text.now pieces is_open
        → FirstPiece in_data text.now pieces is_open result }
{
    let (first, others) = first_byte(text)?;
    if first == b';' {
        Some((Piece::Comment(text), &[]))
    } else if first == b'{' {
        Some(first_comment(text, others))
    } else if first == b'"' {
        Some(first_quoted(text, others))
    } else if first == b'[' && !in_data {
        Some(first_pair(text, others))
    } else if !in_data && is_blank(first) {
        let after = after_blanks(others);
        Some((Piece::Blanks(front_of(text, after)), after))
    } else {
        let after = after_data(others);
        Some((Piece::Data(front_of(text, after)), after))
    }
}
