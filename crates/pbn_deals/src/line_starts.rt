//! What a line of a text is.

ghost use Rattle.std.specs.Prelude.{Bool};
ghost use Rattle.pbn_deals.specs.FirstPieces.{Starts};
ghost use Rattle.pbn_deals.specs.Pieces.{Kind, LineIs};

use crate::line_cuts::{is_blank_line, is_escaped};
use crate::pieces::front_of;
use crate::tags::split_at_byte;

/// What a line is, by its beginning.
#[derive(Clone, Copy)]
pub enum LineStart<'a> {
    /// It has `%` in its first column, and is passed over.
    Escaped,
    /// It holds only blanks, and ends a game.
    Gap,
    /// All of it stands in a brace comment, which is open behind it too.
    InComment,
    /// It is a line of a game.
    OfGame {
        /// The end of the brace comment that was open before it, or nothing.
        comment: &'a [u8],
        /// What stands behind that.
        rest: &'a [u8],
    },
}

/// What a line is, where `is_open` says that a brace comment is open before it.
pub fn line_start(is_open: bool, line: &[u8]) -> LineStart<'_>
    ensures { (kind : Kind) (last : Bool) → LineIs is_open line.now kind last
        → Starts is_open line.now kind last result }
{
    if is_open {
        let Some((_, rest)) = split_at_byte(line, b'}') else {
            return LineStart::InComment;
        };
        let comment = front_of(line, rest);
        return LineStart::OfGame { comment, rest };
    }
    if is_escaped(line) {
        LineStart::Escaped
    } else if is_blank_line(line) {
        LineStart::Gap
    } else {
        LineStart::OfGame {
            comment: &[],
            rest: line,
        }
    }
}
