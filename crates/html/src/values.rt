//! How a value stands in a page.

ghost use Rattle.std.specs.Prelude.{◌≡◌};
ghost use Rattle.std.specs.Str.{chars};
ghost use Rattle.html.specs.Plain.{is_plain, is_plain_byte};
ghost use Rattle.html.specs.Values.{char_text, chars_text, shown_char, value_text};
ghost use Rattle.cards.specs.Devices.{Writes};

use cards::{DeviceFault, Sink, write_all};

/// What stands in place of a control character.
const REPLACEMENT: char = '\u{FFFD}';

/// Writes a character so that it is text.
fn write_char<S: Sink>(sink: &mut S, c: char) -> Result<(), DeviceFault>
    ensures { Writes (S.state sink.old) (S.state sink.new) (char_text (shown_char c)) result }
{
    let shown = if c.is_control() { REPLACEMENT } else { c };
    match shown {
        '&' => write_all(sink, b"&amp;"),
        '<' => write_all(sink, b"&lt;"),
        '>' => write_all(sink, b"&gt;"),
        _ => write_all(sink, shown.encode_utf8(&mut [0; 4]).as_bytes()),
    }
}

/// Writes characters so that they are text.
fn write_chars<S: Sink>(sink: &mut S, text: &str) -> Result<(), DeviceFault>
    ensures { Writes (S.state sink.old) (S.state sink.new) (chars_text (chars text.now)) result }
{
    for c in text.chars() {
        write_char(sink, c)?;
    }
    Ok(())
}

/// Writes bytes as the characters of Latin-1 that they are, so that they are text.
fn write_bytes<S: Sink>(sink: &mut S, bytes: &[u8]) -> Result<(), DeviceFault>
    ensures { Writes (S.state sink.old) (S.state sink.new) (chars_text bytes.now) result }
{
    for byte in bytes {
        write_char(sink, *byte as char)?;
    }
    Ok(())
}

/// Whether a character of ASCII prints, and could begin or end no markup.
fn is_plain_byte(byte: u8) -> bool
    ensures { result ≡ is_plain_byte byte }
{
    32 <= byte && byte < 127 && byte != b'&' && byte != b'<' && byte != b'>'
}

/// Whether a value stands in a page as it is.
fn is_plain(value: &[u8]) -> bool
    ensures { result ≡ is_plain value.now }
{
    value.iter().all(|byte| is_plain_byte(*byte))
}

/// Writes a value as text of a page: the characters that its bytes spell in UTF-8, or else one for each byte (Latin-1),
/// U+FFFD for each control character.
pub fn write_value<S: Sink>(sink: &mut S, value: &[u8]) -> Result<(), DeviceFault>
    ensures { Writes (S.state sink.old) (S.state sink.new) (value_text value.now) result }
{
    if is_plain(value) {
        return write_all(sink, value);
    }
    match str::from_utf8(value) {
        Ok(text) => write_chars(sink, text),
        Err(_) => write_bytes(sink, value),
    }
}
