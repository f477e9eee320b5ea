//! What is left of a line whose old tables go.

ghost use Rattle.std.specs.Prelude.{◌≡◌, ◌≢◌, ◌++◌, [], List};
ghost use Rattle.pbn_deals.specs.Pieces as seen;
ghost use Rattle.pbn_deals.specs.FirstPieces.{ArePieces};
ghost use Rattle.whole_texts.specs.Lefts.{left_kind};

use crate::olds::is_old_comment;
use pbn_deals::Piece;
use tables::Renews;

/// What is left of a line.
#[derive(Clone, Copy)]
pub(crate) enum Left {
    /// No piece.
    Nothing,
    /// Blanks.
    Blanks,
    /// A comment that is dropped if it ends the game, and nothing else.
    Count,
    /// More than that.
    More,
}

impl Left {
    /// With one piece more, which stays.
    pub(crate) fn with(self, renews: Renews, piece: Piece<'_>) -> Left
        ensures { (before pieces : List seen.Piece) → self ≡ left_kind renews before → ArePieces piece.entry pieces
            → pieces ≢ [] → result ≡ left_kind renews (before ++ pieces) }
    {
        match piece {
            Piece::Blanks(_) => match self {
                Left::Nothing | Left::Blanks => Left::Blanks,
                Left::Count | Left::More => Left::More,
            },
            Piece::Comment(bytes) | Piece::OpenComment(bytes) => match self {
                Left::Nothing => {
                    if is_old_comment(renews, bytes) {
                        Left::Count
                    } else {
                        Left::More
                    }
                }
                Left::Blanks | Left::Count | Left::More => Left::More,
            },
            Piece::Pair { .. } | Piece::Data(_) | Piece::NoPair(_) => Left::More,
        }
    }
}
