//! How a case is written: words, fields between bars, and bytes by their names.

use crate::answers::Answer;
use cards::{Seat, Trump};
use std::alloc::Global;
use std::fmt::Display;

/// A word of a text, counted from 0; empty where there is none. A space stands between two words.
pub fn word(text: &str, place: usize) -> &str {
    text.split(' ').nth(place).unwrap_or("")
}

/// A field of a case, counted from 1; empty where there is none.
pub fn field(case: &str, place: usize) -> &str {
    case.split('|').nth(place).unwrap_or("")
}

/// A number; 0 where the text is none.
pub fn number(text: &str) -> u64 {
    text.parse::<u64>().unwrap_or(0)
}

/// A seat by its letter; North where it is none.
pub fn seat(letter: &str) -> Seat {
    Seat::of_letter(letter).unwrap_or(Seat::North)
}

/// A denomination by its letters; no-trump where they are none.
pub fn trump(letters: &str) -> Trump {
    Trump::of_letters(letters).unwrap_or(Trump::Nt)
}

/// The text of bytes; empty where they are none in UTF-8.
pub fn text_of(bytes: &[u8]) -> &str {
    str::from_utf8(bytes).unwrap_or("")
}

/// How far a byte in a field has been read.
#[derive(Clone, Copy)]
enum Reading {
    /// A byte stands for itself.
    Plain,
    /// A backslash was read.
    Named,
    /// A backslash and `x` were read.
    HighDigit,
    /// These and a digit were read.
    LowDigit(u8),
}

/// The value of a hexadecimal digit.
fn digit(byte: u8) -> u8 {
    if byte >= b'A' {
        byte.wrapping_sub(b'A').wrapping_add(10)
    } else {
        byte.wrapping_sub(b'0')
    }
}

/// Reads one byte more of a field.
fn read_on(text: &mut Vec<u8>, reading: Reading, byte: u8, out: &mut Answer) -> Reading {
    let meant = match (reading, byte) {
        (Reading::Plain, b'\\') => return Reading::Named,
        (Reading::Named, b'x') => return Reading::HighDigit,
        (Reading::HighDigit, _) => return Reading::LowDigit(digit(byte)),
        (Reading::LowDigit(high), _) => high.wrapping_mul(16).wrapping_add(digit(byte)),
        (Reading::Named, b'n') => b'\n',
        (Reading::Named, b'r') => b'\r',
        (Reading::Named, b't') => b'\t',
        _ => byte,
    };
    out.needs(text.push(meant));
    Reading::Plain
}

/// Adds the bytes that a field names.
fn add_bytes(text: &mut Vec<u8>, field: &str, out: &mut Answer) {
    let mut reading = Reading::Plain;
    for byte in field.as_bytes() {
        reading = read_on(text, reading, *byte, out);
    }
}

/// The bytes that a field names.
pub fn bytes_of(alloc: Global, field: &str, out: &mut Answer) -> Vec<u8> {
    let mut text = Vec::new(alloc);
    add_bytes(&mut text, field, out);
    text
}

/// The bytes of the third field, as often as the second says, and then those of the first.
pub fn repeated(alloc: Global, case: &str, out: &mut Answer) -> Vec<u8> {
    let mut text = Vec::new(alloc);
    for _time in 0..number(field(case, 2)) {
        add_bytes(&mut text, field(case, 3), out);
    }
    add_bytes(&mut text, field(case, 1), out);
    text
}

/// A copy of these bytes.
pub fn copy_of(alloc: Global, bytes: &[u8], out: &mut Answer) -> Vec<u8> {
    let mut copy = Vec::new(alloc);
    out.needs(copy.extend_from_slice(bytes));
    copy
}

/// Names a byte.
fn say_byte(byte: u8, out: &mut Answer) {
    match byte {
        b'\n' => out.say("\\n"),
        b'\r' => out.say("\\r"),
        b'\t' => out.say("\\t"),
        b'\\' => out.say("\\\\"),
        b'|' => out.say("\\x7C"),
        b' '..=b'~' => out.spell(char::from(byte)),
        _ => out.show(format_args!("\\x{byte:02X}")),
    }
}

/// Names bytes, and ends their field.
pub fn say_field(bytes: &[u8], out: &mut Answer) {
    for byte in bytes {
        say_byte(*byte, out);
    }
    out.say("|");
}

/// Says why a text is refused, and the line that the fault names.
pub fn say_refusal(fault: &impl Display, line: Option<usize>, out: &mut Answer) {
    out.say("refused ");
    out.show(fault);
    if let Some(line) = line {
        out.say(" line ");
        out.show(line);
    }
}
