//! What the pieces of a line do to a game whose old tables go.

ghost use Rattle.std.specs.Prelude.{◌≢◌, ◌∷◌, ◌++◌, [], false, ℕ, Bool, List};
ghost use Rattle.pbn_deals.specs.Pieces as seen;
ghost use Rattle.pbn_deals.specs.Pieces.{Pair, HasPieces};
ghost use Rattle.pbn_deals.specs.FirstPieces.{ArePieces, opens_comment};
ghost use Rattle.whole_texts.specs.Facts.{AreFacts};

use crate::lefts::Left;
use crate::olds::is_old;
use pbn_deals::{Piece, first_piece, is_same_name};
use tables::Renews;

/// The capitals of the name of a Deal tag.
const DEAL: &[u8] = b"DEAL";

/// What the pieces of a line do.
#[derive(Clone, Copy)]
pub(crate) struct PieceFacts {
    /// What is left of them.
    pub(crate) left: Left,
    /// Whether a brace comment is open behind them.
    pub(crate) is_open: bool,
    /// Whether section data after them is dropped: it is a table's or an old par's.
    pub(crate) in_table: bool,
    /// Whether there is a Deal tag.
    pub(crate) has_deal: bool,
}

impl PieceFacts {
    /// Those of no piece, if section data is dropped or not.
    pub(crate) fn new(renews: Renews, in_table: bool) -> PieceFacts
        ensures { AreFacts renews in_table [] false result }
    {
        PieceFacts {
            left: Left::Nothing,
            is_open: false,
            in_table,
            has_deal: false,
        }
    }

    /// With one piece more.
    pub(crate) fn with(self, renews: Renews, piece: Piece<'_>) -> PieceFacts
        ensures { (in_table : Bool) (before pieces : List seen.Piece)
            → AreFacts renews in_table before false self → ArePieces piece.entry pieces → pieces ≢ []
            → AreFacts renews in_table (before ++ pieces) (opens_comment piece.entry) result }
    {
        match piece {
            Piece::OpenComment(_) => PieceFacts {
                left: self.left.with(renews, piece),
                is_open: true,
                ..self
            },
            Piece::Pair { name, .. } => self.with_pair(renews, piece, name),
            Piece::Data(_) => {
                if self.in_table {
                    self
                } else {
                    PieceFacts {
                        left: self.left.with(renews, piece),
                        ..self
                    }
                }
            }
            Piece::Blanks(_) | Piece::Comment(_) | Piece::NoPair(_) => PieceFacts {
                left: self.left.with(renews, piece),
                ..self
            },
        }
    }

    /// With one tag pair more, of this name.
    fn with_pair(self, renews: Renews, pair: Piece<'_>, name: &[u8]) -> PieceFacts
        ensures { (in_table : Bool) (before : List seen.Piece) (value bytes : List ℕ)
            → AreFacts renews in_table before false self → ArePieces pair.entry (Pair name.now value bytes ∷ [])
            → AreFacts renews in_table (before ++ Pair name.now value bytes ∷ []) false result }
    {
        let is_dropped = is_old(renews, name);
        PieceFacts {
            left: if is_dropped {
                self.left
            } else {
                self.left.with(renews, pair)
            },
            in_table: is_dropped,
            has_deal: self.has_deal | is_same_name(DEAL, name),
            ..self
        }
    }
}

/// With the pieces of a line from one of its places outside comments on.
pub(crate) fn add_pieces(renews: Renews, before: PieceFacts, line: &[u8]) -> PieceFacts
    ensures { (in_table : Bool) (pieces more : List seen.Piece) (is_open : Bool)
        → AreFacts renews in_table pieces false before → HasPieces false line.now more is_open
        → AreFacts renews in_table (pieces ++ more) is_open result }
{
    let mut facts = before;
    let mut rest = line;
    let mut in_data = false;
    while let Some((piece, after)) = first_piece(in_data, rest) {
        in_data = piece.is_data() | in_data;
        facts = facts.with(renews, piece);
        rest = after;
    }
    facts
}
