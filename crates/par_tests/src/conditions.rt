//! What a text says of the conditions of its boards.

use board_conditions::{Conditions, first_conditions, read_conditions};
use par::VulnerableSides;
use pbn_deals::read_boards;
use std::alloc::{AllocError, Global};

/// Adds dealer and vulnerability of each board of a text.
pub fn answer_conditions(alloc: Global, case: &str, out: &mut String) -> Result<(), AllocError> {
    let text = text_of(alloc, case)?;
    let Ok(boards) = read_boards(alloc, text.as_slice()) else {
        return out.push_str("refused");
    };
    let list = read_conditions(alloc, text.as_slice())?;
    if list.len() != boards.len() {
        out.push_str("another number of boards: ")?;
    }
    if list.is_empty() {
        out.push_str("no board")?;
    }
    for (i, conditions) in list.iter().enumerate() {
        if i > 0 {
            out.push_str(", ")?;
        }
        add_conditions(conditions, out)?;
    }
    Ok(())
}

/// Adds dealer and vulnerability of the first game of a text.
pub fn answer_first(alloc: Global, case: &str, out: &mut String) -> Result<(), AllocError> {
    let text = text_of(alloc, case)?;
    add_conditions(&first_conditions(text.as_slice()), out)
}

/// The text between the bars of a case.
pub fn text_of(alloc: Global, case: &str) -> Result<Vec<u8>, AllocError> {
    let mut text = Vec::new(alloc);
    let mut is_escaped = false;
    for byte in case.split('|').nth(1).unwrap_or("").as_bytes() {
        if is_escaped {
            text.push(control(*byte))?;
            is_escaped = false;
        } else if *byte == b'\\' {
            is_escaped = true;
        } else {
            text.push(*byte)?;
        }
    }
    Ok(text)
}

/// Letters after a backslash, with the bytes that they stand for.
const CONTROLS: [(u8, u8); 3] = [(b'n', b'\n'), (b'r', b'\r'), (b't', b'\t')];

/// The byte that a letter after a backslash stands for.
fn control(letter: u8) -> u8 {
    for (name, byte) in CONTROLS {
        if name == letter {
            return byte;
        }
    }
    letter
}

/// Adds a dealer and a vulnerability, or `-` for what is not known.
fn add_conditions(conditions: &Conditions, out: &mut String) -> Result<(), AllocError> {
    match conditions.dealer {
        Some(dealer) => out.push_str(dealer.letter())?,
        None => out.push_str("-")?,
    }
    out.push_str(" ")?;
    out.push_str(match conditions.vulnerable {
        Some(VulnerableSides::Neither) => "None",
        Some(VulnerableSides::NorthSouth) => "NS",
        Some(VulnerableSides::EastWest) => "EW",
        Some(VulnerableSides::Both) => "All",
        None => "-",
    })
}
