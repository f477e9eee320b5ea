//! Ends of lines, and the end that the last line of a text lacks.

ghost use Rattle.std.specs.Prelude.{◌≡◌};
ghost use Rattle.whole_texts.specs.LineEnds.{last_of, missing_end};
ghost use Rattle.whole_texts.specs.WholeText.{if_none};

/// The last byte of a text that ended with the first one, with these bytes more.
pub(crate) fn last_of(before: Option<u8>, bytes: &[u8]) -> Option<u8>
    ensures { result ≡ last_of before bytes.now }
{
    match bytes.split_last() {
        Some((byte, _)) => Some(*byte),
        None => before,
    }
}

/// An end, or another where it has no bytes.
pub(crate) fn if_none<'a>(other: &'a [u8], end: &'a [u8]) -> &'a [u8]
    ensures { result.now ≡ if_none other.entry.now end.entry.now }
{
    if end.is_empty() { other } else { end }
}

/// What lines with this last byte lack of an end: a carriage return of their own isn't made a part of it.
pub(crate) fn missing_end(last: Option<u8>, end: &[u8]) -> &[u8]
    ensures { result.now ≡ missing_end last end.now }
{
    let Some(byte) = last else {
        return &[];
    };
    if byte == b'\n' {
        &[]
    } else if byte == b'\r' {
        b"\r\n"
    } else {
        end
    }
}
