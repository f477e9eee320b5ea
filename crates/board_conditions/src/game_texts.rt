//! A game of a text, as it is read.

ghost use Rattle.std.specs.Prelude.{◌≡◌, ◌≤◌, ◌∷◌, ◌++◌, [], ℕ, List, All, ◌&&◌, None, Some, if◌then◌else◌, codes};
ghost use Rattle.std.specs.Option.{option_copied};
ghost use Rattle.pbn_deals.specs.Pieces as seen;
ghost use Rattle.pbn_deals.specs.Pieces.{Pair};
ghost use Rattle.pbn_deals.specs.Tags.{is_same_name};
ghost use Rattle.board_conditions.specs.Games.{first_kept, first_named};
ghost use Rattle.board_conditions.specs.Titles.{first_title};
ghost use Rattle.board_conditions.specs.Words.{says_dealer, says_vulnerability};

use crate::conditions::{Conditions, settled_dealer, settled_vulnerability};
use crate::numbers::number_of;
use crate::titles::{Titles, is_title};
use crate::words::{says_dealer, says_vulnerability};
use pbn_deals::{LineStart, Piece, first_piece, is_same_name, line_start};

/// A game of a text, as far as it was read: the values of the first tag pairs with the names of board and deal, and the
/// first values of the others that say something.
#[derive(Clone, Copy)]
pub(crate) struct GameText<'a> {
    /// The name of the board.
    pub(crate) board: Option<&'a [u8]>,
    /// Its deal.
    pub(crate) deal: Option<&'a [u8]>,
    /// Its dealer.
    pub(crate) dealer: Option<&'a [u8]>,
    /// Its vulnerability.
    pub(crate) vulnerable: Option<&'a [u8]>,
    /// Its event.
    pub(crate) event: Option<&'a [u8]>,
    /// The section of the event.
    pub(crate) section: Option<&'a [u8]>,
    /// Where it was played.
    pub(crate) site: Option<&'a [u8]>,
    /// When.
    pub(crate) date: Option<&'a [u8]>,
    /// Whether a brace comment is open.
    pub(crate) is_open: bool,
    /// The text after the lines that were read.
    pub(crate) rest: &'a [u8],
}

/// The first value of a name, given in capitals, after one tag pair more.
fn first_of<'a>(
    capitals: &[u8],
    before: Option<&'a [u8]>,
    name: &[u8],
    value: &'a [u8],
) -> Option<&'a [u8]>
    requires { All (λ capital. capital ≤ 90) capitals.now }
    ensures { (pieces : List seen.Piece) (bytes : List ℕ) → option_copied before.entry ≡ first_named capitals.now pieces
        → option_copied result ≡ first_named capitals.now (pieces ++ Pair name.now value.entry.now bytes ∷ []) }
{
    if before.is_none() && is_same_name(capitals, name) {
        Some(value)
    } else {
        before
    }
}

/// The value in a tag pair, if its name is this one, given in capitals, and it is to be kept.
fn value_in_pair<'a>(
    capitals: &[u8],
    name: &[u8],
    value: &'a [u8],
    is_kept: bool,
) -> Option<&'a [u8]>
    requires { All (λ capital. capital ≤ 90) capitals.now }
    ensures { option_copied result
        ≡ (if is_same_name capitals.now name.now && is_kept then Some value.entry.now else None) }
{
    if is_same_name(capitals, name) && is_kept {
        Some(value)
    } else {
        None
    }
}

/// The first title of a name, given in capitals, after one tag pair more.
fn first_title<'a>(
    capitals: &[u8],
    before: Option<&'a [u8]>,
    name: &[u8],
    value: &'a [u8],
) -> Option<&'a [u8]>
    requires { All (λ capital. capital ≤ 90) capitals.now }
    ensures { (pieces : List seen.Piece) (bytes : List ℕ) → option_copied before.entry ≡ first_title capitals.now pieces
        → option_copied result ≡ first_title capitals.now (pieces ++ Pair name.now value.entry.now bytes ∷ []) }
{
    before.or(value_in_pair(capitals, name, value, is_title(value)))
}

/// The first dealer, after one tag pair more.
fn first_dealer<'a>(before: Option<&'a [u8]>, name: &[u8], value: &'a [u8]) -> Option<&'a [u8]>
    ensures { (pieces : List seen.Piece) (bytes : List ℕ)
        → option_copied before.entry ≡ first_kept says_dealer (codes "DEALER") pieces
        → option_copied result
        ≡ first_kept says_dealer (codes "DEALER") (pieces ++ Pair name.now value.entry.now bytes ∷ []) }
{
    before.or(value_in_pair(b"DEALER", name, value, says_dealer(value)))
}

/// The first vulnerability, after one tag pair more.
fn first_vulnerability<'a>(
    before: Option<&'a [u8]>,
    name: &[u8],
    value: &'a [u8],
) -> Option<&'a [u8]>
    ensures { (pieces : List seen.Piece) (bytes : List ℕ)
        → option_copied before.entry ≡ first_kept says_vulnerability (codes "VULNERABLE") pieces
        → option_copied result
        ≡ first_kept says_vulnerability (codes "VULNERABLE") (pieces ++ Pair name.now value.entry.now bytes ∷ []) }
{
    before.or(value_in_pair(b"VULNERABLE", name, value, says_vulnerability(value)))
}

impl<'a> GameText<'a> {
    ghost use Rattle.std.specs.Prelude.{◌≡◌, ◌≢◌, ◌++◌, [], false, List, Bool, MatchOption, is_some};
    ghost use Rattle.pbn_deals.specs.Pieces.{HasPieces, Kind, Line, LineIs};
    ghost use Rattle.pbn_deals.specs.FirstPieces.{ArePieces, opens_comment};
    ghost use Rattle.board_conditions.specs.Games.{pieces_of, game_pieces, conditions_of};
    ghost use Rattle.board_conditions.specs.Values.{AreValues, EndsOrAdds};
    ghost use Rattle.board_conditions.specs.Titles.{titles_of, titles_said};

    /// The game at the beginning of a text, of which nothing was read.
    pub(crate) fn new(text: &'a [u8]) -> GameText<'a>
        ensures values { AreValues [] false result }
        ensures rest { result.rest ≡ text.entry }
    {
        GameText {
            board: None,
            deal: None,
            dealer: None,
            vulnerable: None,
            event: None,
            section: None,
            site: None,
            date: None,
            is_open: false,
            rest: text,
        }
    }

    /// With one piece more.
    fn with(self, piece: Piece<'a>) -> GameText<'a>
        ensures { (before pieces : List seen.Piece) → AreValues before false self.entry → ArePieces piece.entry pieces
            → AreValues (before ++ pieces) (opens_comment piece.entry) result }
    {
        match piece {
            Piece::Pair { name, value, .. } => GameText {
                board: first_of(b"BOARD", self.board, name, value),
                deal: first_of(b"DEAL", self.deal, name, value),
                dealer: first_dealer(self.dealer, name, value),
                vulnerable: first_vulnerability(self.vulnerable, name, value),
                event: first_title(b"EVENT", self.event, name, value),
                section: first_title(b"SECTION", self.section, name, value),
                site: first_title(b"SITE", self.site, name, value),
                date: first_title(b"DATE", self.date, name, value),
                is_open: false,
                ..self
            },
            Piece::OpenComment(_) => GameText {
                is_open: true,
                ..self
            },
            Piece::Blanks(_) | Piece::Comment(_) | Piece::Data(_) | Piece::NoPair(_) => self,
        }
    }

    /// With the pieces of a line from one of its places outside comments on.
    fn with_pieces(self, line: &'a [u8]) -> GameText<'a>
        ensures { (pieces more : List seen.Piece) (is_open : Bool) → AreValues pieces false self.entry
            → HasPieces false line.now more is_open → AreValues (pieces ++ more) is_open result }
    {
        let mut game = self;
        let mut rest = line;
        let mut in_data = false;
        while let Some((piece, after)) = first_piece(in_data, rest) {
            in_data = piece.is_data() | in_data;
            game = game.with(piece);
            rest = after;
        }
        game
    }

    /// With one line more, unless the line ends the game.
    pub(crate) fn with_line(self, line: &'a [u8]) -> Option<GameText<'a>>
        ensures { (pieces : List seen.Piece) (kind : Kind) (last : Bool)
            → AreValues pieces self.entry.is_open self.entry
            → LineIs self.entry.is_open line.now kind last → EndsOrAdds pieces kind last result }
    {
        match line_start(self.is_open, line) {
            LineStart::Gap => None,
            LineStart::Escaped | LineStart::InComment => Some(self),
            LineStart::OfGame { rest, .. } => {
                let game = GameText {
                    is_open: false,
                    ..self
                };
                Some(game.with_pieces(rest))
            }
        }
    }

    /// Whether the game has a Deal tag.
    pub(crate) fn has_deal(self) -> bool
        ensures { result ≡ is_some self.entry.deal }
    {
        self.deal.is_some()
    }

    /// The conditions of the game.
    pub(crate) fn conditions(self) -> Conditions
        ensures { (game : List Line) (is_open : Bool) → AreValues (game_pieces game) is_open self.entry
            → result ≡ conditions_of game }
    {
        let number = match self.board {
            Some(name) => number_of(name),
            None => 0,
        };
        Conditions {
            dealer: settled_dealer(self.dealer, number),
            vulnerable: settled_vulnerability(self.vulnerable, number),
        }
    }

    /// What the game says of where and when it was played.
    pub(crate) fn titles(self) -> Titles<'a>
        ensures { (game : List Line) (is_open : Bool) → AreValues (game_pieces game) is_open self.entry
            → titles_said result ≡ titles_of game }
    {
        Titles {
            event: self.event,
            section: self.section,
            site: self.site,
            date: self.date,
        }
    }
}
