//! A whole text, as it is read from a source.

ghost use Rattle.std.specs.Prelude.{◌≡◌, [], MatchResult};
ghost use Rattle.evidence.specs.Wholes.{IsNextOf};
ghost use Rattle.evidence.specs.Cuts.{IsNextCutOf};
ghost use Rattle.evidence.specs.Pieces.{StopsSections};

use crate::parts::{PIECE, Part, Piece, Pieces};
use cards::Source;
use std::alloc::Global;
use std::marker::Model;
use streams::InputFault;

/// The sections of a text, as they are read from a source, in one pass. A piece of the text goes from a line `DDE 1`,
/// or from the beginning, to the next such line or to the end; it is a section, or damaged. One piece is in memory at a
/// time, and of one that is too long no more than a section may have.
#[derive(Drop)]
pub struct Sections<S: Source> {
    pieces: Pieces<S>,
}

impl<S: Source> Model for Sections<S> {
    ghost use Rattle.evidence.specs.Wholes.{Whole};

    ghost Value = { Whole };

    ghost view = { λ sections. record {
      source = S.state sections.pieces.source;
      held = sections.pieces.held.items;
      before = sections.pieces.before;
    } };
}

impl<S: Source> Sections<S> {
    /// What is left of the source. Nothing is read yet.
    pub fn new(alloc: Global, source: S) -> Sections<S>
        ensures { result ≡ record { source = S.state source; held = []; before = 0 } }
    {
        Sections {
            pieces: Pieces {
                source,
                held: Vec::new(alloc),
                before: 0,
                buffer: [0; PIECE],
            },
        }
    }

    /// How many bytes stand before what comes next, at most 2 to the power of 64 less 1.
    pub fn place(&self) -> u64
        ensures { result ≡ self.now.before }
    {
        self.pieces.before
    }

    /// What comes next: the first piece of what is left, or the end. After a fault the bytes that were read are lost;
    /// ask no more then.
    pub fn next(&mut self, alloc: Global) -> Result<Part, InputFault>
        ensures { MatchResult result (IsNextOf self.old self.new) (StopsSections self.old.source self.new.source) }
    {
        self.pieces.next(alloc)
    }

    /// The next piece of what is left, as it is cut, which [`Piece::read`] reads; none at the end. After a fault the
    /// bytes that were read are lost; ask no more then.
    pub fn next_piece(&mut self, alloc: Global) -> Result<Option<Piece>, InputFault>
        ensures { MatchResult result (IsNextCutOf self.old self.new) (StopsSections self.old.source self.new.source) }
    {
        self.pieces.cut(alloc)
    }
}
