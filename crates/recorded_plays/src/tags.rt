//! The tags of a game that matter for its play.

ghost use Rattle.std.specs.Prelude.{◌≡◌, ◌≤◌, ◌∷◌, ◌++◌, [], ℕ, List, All, MatchOption};
ghost use Rattle.std.specs.Option.{option_copied};
ghost use Rattle.pbn_deals.specs.Pieces as seen;
ghost use Rattle.pbn_deals.specs.Pieces.{Pair};
ghost use Rattle.board_conditions.specs.Games.{first_named};
ghost use Rattle.recorded_plays.specs.Games.{GivesDeal, GivesNoDeal};

use crate::plays::Lack;
use crate::words::{says_passed_out, seat_said, trump_said};
use cards::{Layout, Seat, Trump};
use pbn_deals::{is_same_name, read_layout};

/// The values of the first tag pairs of a game that have these names.
#[derive(Clone, Copy)]
pub(crate) struct Tags<'a> {
    pub(crate) board: Option<&'a [u8]>,
    pub(crate) deal: Option<&'a [u8]>,
    pub(crate) declarer: Option<&'a [u8]>,
    pub(crate) contract: Option<&'a [u8]>,
    pub(crate) play: Option<&'a [u8]>,
}

/// What they say of the play, if they say all of it.
#[derive(Clone, Copy)]
pub(crate) struct Parts {
    pub(crate) deal: Layout,
    pub(crate) declarer: Seat,
    pub(crate) trump: Trump,
    /// The seat of the Play section's first column.
    pub(crate) first: Seat,
}

/// The first value of a name, given in capitals, after one tag pair more.
fn first_of<'a>(
    capitals: &[u8],
    before: Option<&'a [u8]>,
    name: &[u8],
    value: &'a [u8],
) -> Option<&'a [u8]>
    requires { All (λ capital. capital ≤ 90) capitals.now }
    ensures { (pieces : List seen.Piece) (bytes : List ℕ) → option_copied before.entry ≡ first_named capitals.now pieces
        → option_copied result ≡ first_named capitals.now (pieces ++ Pair name.now value.entry.now bytes ∷ []) }
{
    if before.is_none() && is_same_name(capitals, name) {
        Some(value)
    } else {
        before
    }
}

/// The layout that a Deal value says, if there is a value and it says one.
fn layout_said(value: Option<&[u8]>) -> Option<Layout>
    ensures { MatchOption result (GivesNoDeal (option_copied value.entry)) (GivesDeal (option_copied value.entry)) }
{
    read_layout(value?).ok()
}

impl<'a> Tags<'a> {
    ghost use Rattle.std.specs.Prelude.{[]};
    ghost use Rattle.recorded_plays.specs.Values.{AreTags, SayParts};

    /// Those of a game of which nothing was read.
    pub(crate) fn new() -> Tags<'a>
        ensures { AreTags [] result }
    {
        Tags {
            board: None,
            deal: None,
            declarer: None,
            contract: None,
            play: None,
        }
    }

    /// Those after one tag pair more.
    pub(crate) fn with(self, name: &[u8], value: &'a [u8]) -> Tags<'a>
        ensures { (pieces : List seen.Piece) (bytes : List ℕ) → AreTags pieces self.entry
            → AreTags (pieces ++ Pair name.now value.entry.now bytes ∷ []) result }
    {
        Tags {
            board: first_of(b"BOARD", self.board, name, value),
            deal: first_of(b"DEAL", self.deal, name, value),
            declarer: first_of(b"DECLARER", self.declarer, name, value),
            contract: first_of(b"CONTRACT", self.contract, name, value),
            play: first_of(b"PLAY", self.play, name, value),
        }
    }

    /// The parts of the play, or the first that is lacking.
    pub(crate) fn parts(self) -> Result<Parts, Lack>
        ensures { SayParts self.entry result }
    {
        if self.contract.is_some_and(says_passed_out) {
            return Err(Lack::PassedOut);
        }
        let first = self.play.and_then(seat_said).ok_or(Lack::Play)?;
        let deal = layout_said(self.deal).ok_or(Lack::Deal)?;
        let trump = self.contract.and_then(trump_said).ok_or(Lack::Contract)?;
        let declarer = self.declarer.and_then(seat_said).ok_or(Lack::Declarer)?;
        Ok(Parts {
            deal,
            declarer,
            trump,
            first,
        })
    }
}
