//! The lines of a text.

ghost use Rattle.std.specs.Prelude.{◌≡◌, ◌≤◌, ◌∷◌, [], length};
ghost use Rattle.pbn_deals.specs.Lines.{without_mark, without_return, is_escaped, is_blank_line};
ghost use Rattle.pbn_deals.specs.Views.{CutsLine};

use crate::hands::after_blanks;
use crate::tags::split_at_byte;

/// The byte order mark of UTF-8.
const BYTE_ORDER_MARK: &[u8] = b"\xef\xbb\xbf";

/// The text without the byte order mark at its start.
pub fn without_mark(text: &[u8]) -> &[u8]
    ensures value { result.now ≡ without_mark text.now }
    ensures within { length result.now ≤ length text.now }
{
    match text.strip_prefix(BYTE_ORDER_MARK) {
        Some(rest) => rest,
        None => text,
    }
}

/// The line without the carriage return at its end.
pub(crate) fn without_return(line: &[u8]) -> &[u8]
    ensures { result.now ≡ without_return line.now }
{
    match line {
        [front @ .., last] if *last == b'\r' => front,
        _ => line,
    }
}

/// The first line, and what stands after its line feed, where it has one.
pub(crate) fn cut_line(text: &[u8]) -> (&[u8], Option<&[u8]>)
    ensures { CutsLine text.now result }
{
    match split_at_byte(text, b'\n') {
        Some((line, after)) => (without_return(line), Some(after)),
        None => (text, None),
    }
}

/// Whether the line has `%` in its first column.
pub(crate) fn is_escaped(line: &[u8]) -> bool
    ensures { result ≡ is_escaped line.now }
{
    line.starts_with(b"%")
}

/// Whether the line holds only blanks.
pub(crate) fn is_blank_line(line: &[u8]) -> bool
    ensures { result ≡ is_blank_line line.now }
{
    after_blanks(line).is_empty()
}
