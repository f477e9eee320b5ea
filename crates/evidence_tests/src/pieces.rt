//! Texts of evidence, put together of pieces.

use crate::expect::got;
use crate::two_boards::RUNS;
use std::alloc::Global;
use std::process::Abort;
use test_support::four_suits::RUFFS;

/// North's claim of all tricks.
const CLAIM: &str = "claims 1\nN 13 0 -\n";

/// A piece of evidence.
#[derive(Clone, Copy)]
pub enum Piece {
    /// The section of the first board.
    Ruffs,
    /// The section of the second board.
    Runs,
    /// The first section with a claim of twelve tricks. Its graph shows thirteen.
    Fewer,
    /// The first section with a second claim, of South's, which its graph doesn't show.
    Both,
    /// The first section with graphs of another denomination.
    Hearts,
    /// A line that is no part of a section.
    Line,
    /// The title of a section.
    Title,
}

/// The first section with another text in place of a part of it.
fn changed(rt: &impl Abort, alloc: Global, part: &str, other: &str) -> String {
    got(rt, RUFFS.replacen(alloc, part, other, 1))
}

/// The changed section that a piece is; an empty text where it is none.
fn changed_section(rt: &impl Abort, alloc: Global, piece: Piece) -> String {
    match piece {
        Piece::Fewer => changed(rt, alloc, CLAIM, "claims 1\nN 12 0 -\n"),
        Piece::Both => changed(rt, alloc, CLAIM, "claims 2\nN 13 0 -\nS 13 0 -\n"),
        Piece::Hearts => changed(rt, alloc, "trump S", "trump H"),
        _ => String::new(alloc),
    }
}

/// The text of any other piece; empty where the piece is a changed section.
fn text_as_it_is(piece: Piece) -> &'static str {
    match piece {
        Piece::Ruffs => RUFFS,
        Piece::Runs => RUNS,
        Piece::Line => "x\n",
        Piece::Title => "DDE 1\n",
        _ => "",
    }
}

/// The last node of the second section.
const LAST: &str = "E 1 0.1.0.0/ 1.0.0.0/ 0.0.1.0/ 0.0.0.1/ Sx(DxCx(Hx{}))\n";

/// The second section with so many copies of its last node that it has over 4 MiB. It shows the same.
pub fn large_section(rt: &impl Abort, alloc: Global) -> String {
    let mut text = got(rt, RUNS.replacen(alloc, "nodes 13", "nodes 80013", 1));
    for _copy in 0..80_000u32 {
        got(rt, text.push_str(LAST));
    }
    text
}

/// The pieces in one text.
pub fn evidence_of(rt: &impl Abort, alloc: Global, pieces: &[Piece]) -> String {
    let mut text = String::new(alloc);
    for piece in pieces {
        let section = changed_section(rt, alloc, *piece);
        got(rt, text.push_str(section.as_str()));
        got(rt, text.push_str(text_as_it_is(*piece)));
    }
    text
}
