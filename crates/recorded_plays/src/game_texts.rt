//! A game of a text, as it is read.

ghost use Rattle.std.specs.Prelude.{◌≡◌, ℕ, List, codes};
ghost use Rattle.pbn_deals.specs.Tags.{is_same_name};
ghost use Rattle.pbn_deals.specs.Pieces as seen;

use crate::follow::{Section, follow};
use crate::plays::RecordedGame;
use crate::slots::{is_irregular, slots_of};
use crate::tags::Tags;
use pbn_deals::{LineStart, Piece, first_piece, is_same_name, line_start};
use std::alloc::{AllocError, Global};

/// Where a game has been read to.
#[derive(Clone, Copy)]
pub(crate) enum Place {
    /// No Play tag has come.
    BeforeSection,
    /// In its Play section.
    InSection,
    /// After that.
    AfterSection,
}

impl Place {
    ghost use Rattle.recorded_plays.specs.Values.{after_pair, after_bracket};

    /// The place after a tag pair with this name.
    fn after_pair(self, name: &[u8]) -> Place
        ensures { result ≡ after_pair self (is_same_name (codes "PLAY") name.now) }
    {
        match self {
            Place::BeforeSection if is_same_name(b"PLAY", name) => Place::InSection,
            Place::BeforeSection => Place::BeforeSection,
            Place::InSection | Place::AfterSection => Place::AfterSection,
        }
    }

    /// The place after a bracket that begins no tag pair.
    fn after_bracket(self) -> Place
        ensures { result ≡ after_bracket self }
    {
        match self {
            Place::BeforeSection => Place::BeforeSection,
            Place::InSection | Place::AfterSection => Place::AfterSection,
        }
    }
}

/// A game of a text, as far as it was read.
#[derive(Drop)]
pub(crate) struct GameText<'a> {
    /// What its tags say.
    tags: Tags<'a>,
    /// The text of its Play section.
    section: Vec<u8>,
    place: Place,
    /// Whether a brace comment is open.
    is_open: bool,
}

impl<'a> GameText<'a> {
    ghost use Rattle.std.specs.Prelude.{[], ◌++◌, ◌∷◌, false, Bool, IfOk, OnOk};
    ghost use Rattle.pbn_deals.specs.Pieces.{HasPieces, Kind, Line, LineIs};
    ghost use Rattle.pbn_deals.specs.FirstPieces.{ArePieces, opens_comment};
    ghost use Rattle.board_conditions.specs.Games.{Game};
    ghost use Rattle.recorded_plays.specs.Sections.{lined_pieces};
    ghost use Rattle.recorded_plays.specs.Games.{SaysGame, is_recorded};
    ghost use Rattle.recorded_plays.specs.Values.{AreValues, TakesLine, AddsText};

    /// The game at the beginning of a text, of which nothing was read.
    pub(crate) fn new(alloc: Global) -> GameText<'a>
        ensures { AreValues [] false result }
    {
        GameText {
            tags: Tags::new(),
            section: Vec::new(alloc),
            place: Place::BeforeSection,
            is_open: false,
        }
    }

    /// Adds text to the section, if the place is in it.
    fn add(&mut self, text: &[u8]) -> Result<(), AllocError>
        ensures { OnOk result (AddsText text.now self.old self.new) }
    {
        if let Place::InSection = self.place {
            self.section.extend_from_slice(text)?;
        }
        Ok(())
    }

    /// Takes one piece more.
    fn take(&mut self, piece: Piece<'a>) -> Result<(), AllocError>
        ensures { OnOk result ((before pieces : List seen.Piece) → AreValues before false self.old
            → ArePieces piece.entry pieces → AreValues (before ++ pieces) (opens_comment piece.entry) self.new) }
    {
        match piece {
            Piece::Pair { name, value, .. } => {
                self.tags = self.tags.with(name, value);
                self.place = self.place.after_pair(name);
                Ok(())
            }
            Piece::NoPair(_) => {
                self.place = self.place.after_bracket();
                Ok(())
            }
            Piece::Blanks(blanks) => self.add(blanks),
            Piece::Data(text) => self.add(text),
            Piece::Comment(_) => self.add(b" "),
            Piece::OpenComment(_) => {
                self.is_open = true;
                self.add(b" ")
            }
        }
    }

    /// Takes the pieces of a line from one of its places outside comments on.
    fn take_pieces(&mut self, line: &'a [u8]) -> Result<(), AllocError>
        ensures { OnOk result ((pieces more : List seen.Piece) (is_open : Bool) → AreValues pieces false self.old
            → HasPieces false line.now more is_open → AreValues (pieces ++ more) is_open self.new) }
    {
        let mut rest = line;
        let mut in_data = false;
        while let Some((piece, after)) = first_piece(in_data, rest) {
            in_data = piece.is_data() | in_data;
            self.take(piece)?;
            rest = after;
        }
        Ok(())
    }

    /// Takes the blank before a line.
    fn begin_line(&mut self) -> Result<(), AllocError>
        ensures { OnOk result ((pieces : List seen.Piece) (is_open : Bool) → AreValues pieces is_open self.old
            → AreValues (pieces ++ seen.Space 32 ∷ []) false self.new) }
    {
        self.is_open = false;
        self.take(Piece::Blanks(b" "))
    }

    /// Takes one line more. `false` says that the line ends the game.
    pub(crate) fn take_line(&mut self, line: &'a [u8]) -> Result<bool, AllocError>
        ensures { (pieces : List seen.Piece) (kind : Kind) (last : Bool) → AreValues pieces self.old.is_open self.old
            → LineIs self.old.is_open line.now kind last → TakesLine result pieces kind last self.new }
    {
        match line_start(self.is_open, line) {
            LineStart::Gap => Ok(false),
            LineStart::Escaped => {
                self.begin_line()?;
                Ok(true)
            }
            LineStart::InComment => {
                self.begin_line()?;
                self.take(Piece::OpenComment(line))?;
                Ok(true)
            }
            LineStart::OfGame { comment, rest } => {
                self.begin_line()?;
                if !comment.is_empty() {
                    self.take(Piece::Comment(comment))?;
                }
                self.take_pieces(rest)?;
                Ok(true)
            }
        }
    }

    /// Whether the game has a Deal tag or a Play tag.
    pub(crate) fn is_recorded(&self) -> bool
        ensures { (game : Game) (is_open : Bool) → AreValues (lined_pieces game) is_open self.now
            → result ≡ is_recorded game }
    {
        self.tags.deal.is_some() || self.tags.play.is_some()
    }

    /// The play of the game.
    pub(crate) fn recorded(self, alloc: Global) -> Result<RecordedGame<'a>, AllocError>
        ensures { IfOk result (λ found. (game : Game) (is_open : Bool)
            → AreValues (lined_pieces game) is_open self.entry → SaysGame game found) }
    {
        let play = match self.tags.parts() {
            Err(lack) => Err(lack),
            Ok(parts) => {
                let text = self.section.as_slice();
                let slots = slots_of(alloc, text)?;
                let section = Section {
                    first: parts.first,
                    slots: slots.as_slice(),
                    is_irregular: is_irregular(text),
                };
                Ok(follow(parts.deal, parts.declarer, parts.trump, &section))
            }
        };
        Ok(RecordedGame {
            board: self.tags.board.unwrap_or(&[]),
            contract: self.tags.contract.unwrap_or(&[]),
            play,
        })
    }
}
