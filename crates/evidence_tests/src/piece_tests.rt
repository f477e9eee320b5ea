//! Whole texts, with damage in them.

use crate::expect::{expect, expect_bytes, expect_eq, got};
use crate::finesse::{LENGTH, section};
use cards::Bytes;
use evidence::{Part, Sections};
use std::alloc::Global;
use std::process::Abort;
use streams::InputFault;

/// Adds to a text what was read: `+` for a section, the byte where it begins for a damaged piece. Answers whether it
/// was the end.
fn ends_at(rt: &impl Abort, part: Part, said: &mut String) -> bool {
    let added = match part {
        Part::Found(_) => said.push_str(" +"),
        Part::Damaged { at } => write!(said, " {at}"),
        Part::End => return true,
    };
    got(rt, added);
    false
}

/// What a text is read as, from a source that hands out so many bytes at a time: `+` for a section, the byte where it
/// begins for each damaged piece. No call fails, and the text ends before a hundred of them.
fn said(rt: &impl Abort, alloc: Global, text: &[u8], greatest_piece: usize) -> String {
    let mut sections = Sections::new(alloc, Bytes::new(text, greatest_piece));
    let mut said = String::new(alloc);
    for _part in 0..100u8 {
        let part = got(rt, sections.next(alloc));
        if ends_at(rt, part, &mut said) {
            return said;
        }
    }
    expect(rt, false);
    said
}

/// The text is read so, however its bytes come.
fn expect_said(rt: &impl Abort, alloc: Global, text: &str, wanted: &str) {
    for greatest_piece in [1usize, 5, 6, 7, 8, 300, 1_000_000] {
        let said = said(rt, alloc, text.as_bytes(), greatest_piece);
        expect_bytes(rt, said.as_bytes(), wanted.as_bytes());
    }
}

/// Texts without a section, and what they are read as.
const TITLES: [(&str, &str); 11] = [
    ("", ""),
    ("\n", " 0"),
    ("x", " 0"),
    ("DDE 1", " 0"),
    ("DDE 1\n", " 0"),
    ("DDE 1\nDDE 1\nDDE 1\n", " 0 6 12"),
    ("x\nDDE 1\n\nDDE 1\ny", " 0 2 9"),
    ("xDDE 1\nDDE 1\n", " 0 7"),
    ("\n\n\nDDE 1\r\n", " 0"),
    ("\nDDE 1\nDDE 1", " 0 1"),
    ("DDE 1 \n\nDDE 11\nDDE 2\nDDE 1\n", " 0 21"),
];

#[test]
fn titles(rt: HostRuntime) {
    for (text, wanted) in TITLES {
        expect_said(&rt, rt.alloc(), text, wanted);
    }
}

/// A piece of a text.
#[derive(Clone, Copy)]
enum Piece {
    /// The section.
    One,
    /// The section without its last line feed.
    Cut,
    /// Another text.
    Other(&'static str),
}

/// The pieces in one text.
fn text_of(rt: &impl Abort, alloc: Global, pieces: &[Piece]) -> String {
    let one = section(rt, alloc);
    let mut text = String::new(alloc);
    for piece in pieces {
        let added = match *piece {
            Piece::One => one.as_str(),
            Piece::Cut => one.as_str().trim_end_matches('\n'),
            Piece::Other(other) => other,
        };
        got(rt, text.push_str(added));
    }
    text
}

/// The pieces of a text, and what it is read as. The section has 254 bytes.
const PIECES: [(&[Piece], &str); 10] = [
    (&[Piece::One], " +"),
    (&[Piece::Cut], " 0"),
    (&[Piece::One, Piece::One, Piece::One], " + + +"),
    (&[Piece::Other("x\n"), Piece::One], " 0 +"),
    (&[Piece::One, Piece::Other("x\n"), Piece::One], " 0 +"),
    (&[Piece::One, Piece::Other("\n"), Piece::One], " 0 +"),
    (
        &[Piece::One, Piece::Other("DDE 1\n"), Piece::One],
        " + 254 +",
    ),
    (&[Piece::One, Piece::Other("DDE 1")], " 0"),
    (&[Piece::Cut, Piece::One], " 0"),
    (&[Piece::Cut, Piece::Other("\n"), Piece::Cut], " + 254"),
];

#[test]
fn sections_and_damage(rt: HostRuntime) {
    expect_eq(&rt, &LENGTH, &254);
    for (pieces, wanted) in PIECES {
        let text = text_of(&rt, rt.alloc(), pieces);
        expect_said(&rt, rt.alloc(), text.as_str(), wanted);
    }
}

/// How many sections come before anything else, at most 100.
fn sections_in(alloc: Global, source: Bytes<'_>) -> u64 {
    let mut sections = Sections::new(alloc, source);
    for found in 0..100u64 {
        let Ok(Part::Found(_)) = sections.next(alloc) else {
            return found;
        };
    }
    100
}

/// Why nothing is read of a source at first, if that is so.
fn first_fault(alloc: Global, source: Bytes<'_>) -> Option<InputFault> {
    let mut sections = Sections::new(alloc, source);
    sections.next(alloc).err()
}

/// A source that fails at one of its calls: what came before is read, and the fault is told.
#[test]
fn failing_source(rt: HostRuntime) {
    let alloc = rt.alloc();
    let text = text_of(&rt, alloc, &[Piece::One, Piece::One]);
    for calls in 0..60u64 {
        let found = sections_in(alloc, Bytes::failing_after(text.as_bytes(), 10, calls));
        // the second section is read by the call that finds its end
        let wanted = if calls * 10 < LENGTH + 6 { 0 } else { 1 };
        let all = 2 * LENGTH / 10 + 1;
        expect_eq(&rt, &found, &if calls > all { 2 } else { wanted });
    }
    let fault = first_fault(alloc, Bytes::failing_after(b"x", 1, 0));
    expect_eq(&rt, &fault, &Some(InputFault::Read));
}
