//! What the tags of a game say.

ghost use Rattle.std.specs.Prelude.{◌≡◌, ◌∷◌, [], ℕ, List, Some, MatchBool};
ghost use Rattle.pbn_deals.specs.DealValue.{naming_of};
ghost use Rattle.pbn_deals.specs.Words.{ReadsNaming};
ghost use Rattle.pbn_deals.specs.Games.{SaysDeal, IsNoDeal};

use crate::boards::{Board, BoardName};
use crate::deal_values::read_dealing;
use crate::dealings::Dealing;
use crate::faults::PbnFault;
use crate::hands::{after_blanks, first_word};
use crate::tags::{is_board, is_deal, is_inherited};
use cards::Layout;
use std::alloc::Global;

/// How many boards a text may have.
pub const MOST_BOARDS: usize = 4096;

/// The name of a game's first Board tag, and what its Deal tag says.
#[derive(Drop)]
pub(crate) struct GameTags {
    pub(crate) name: Option<BoardName>,
    pub(crate) deal: Option<Option<Layout>>,
}

impl GameTags {
    ghost use Rattle.std.specs.Prelude.{◌≡◌, None};
    ghost use Rattle.std.specs.Option.{option_to_list};
    ghost use Rattle.pbn_deals.specs.Games.{TakesBoard, TakesDeal, TakesTag, boards_of, no_tags};
    ghost use Rattle.pbn_deals.specs.Views.{tags_seen, Steps};

    /// No tag has come.
    pub(crate) fn new() -> GameTags
        ensures { tags_seen result ≡ no_tags }
    {
        GameTags {
            name: None,
            deal: None,
        }
    }

    /// The board of the game, where it has a Deal tag.
    pub(crate) fn into_board(self, alloc: Global) -> Option<Board>
        ensures { option_to_list result ≡ boards_of (tags_seen self) }
    {
        let GameTags { name, deal } = self;
        match (name, deal) {
            (_, None) => None,
            (Some(name), Some(deal)) => Some(Board { name, deal }),
            (None, Some(deal)) => Some(Board {
                name: BoardName::new(Vec::new(alloc)),
                deal,
            }),
        }
    }

    /// Takes one tag more of a game that follows `count` boards.
    pub(crate) fn take(
        &mut self,
        alloc: Global,
        name: &[u8],
        value: &[u8],
        line: usize,
        count: usize,
    ) -> Result<(), PbnFault>
        ensures { Steps (TakesTag line count (tags_seen self.old) name.now value.now) result self.new }
    {
        if is_board(name) {
            self.take_board(alloc, value, line)
        } else if is_deal(name) {
            self.take_deal(value, line, count)
        } else {
            Ok(())
        }
    }

    /// Takes a Board tag.
    fn take_board(&mut self, alloc: Global, value: &[u8], line: usize) -> Result<(), PbnFault>
        ensures { Steps (TakesBoard line (tags_seen self.old) value.now) result self.new }
    {
        if is_inherited(value) {
            return Err(PbnFault::Inherited { line });
        }
        if self.name.is_none() {
            self.name = Some(BoardName::new(Vec::from_slice(alloc, value)?));
        }
        Ok(())
    }

    /// Takes a Deal tag of a game that follows `count` boards.
    fn take_deal(&mut self, value: &[u8], line: usize, count: usize) -> Result<(), PbnFault>
        ensures { Steps (TakesDeal line count (tags_seen self.old) value.now) result self.new }
    {
        if self.deal.is_some() {
            return Err(PbnFault::SecondDeal { line });
        }
        let deal = read_deal(value, line)?;
        if count >= MOST_BOARDS {
            return Err(PbnFault::TooManyBoards { line });
        }
        self.deal = Some(deal);
        Ok(())
    }
}

/// The deal that a Deal value says for a board of a tournament.
fn read_deal(value: &[u8], line: usize) -> Result<Option<Layout>, PbnFault>
    ensures { SaysDeal line value.now result }
{
    if is_inherited(after_blanks(value)) {
        return Err(PbnFault::Inherited { line });
    }
    if is_no_deal(value) {
        return Ok(None);
    }
    match read_dealing(value) {
        None => Err(PbnFault::DealForm { line }),
        Some(dealing) => whole_deal(&dealing, line),
    }
}

/// Whether the value has nothing but blanks, or `?` alone.
fn is_no_deal(value: &[u8]) -> bool
    ensures { MatchBool result (IsNoDeal value.now) (IsNoDeal value.now → ⊥) }
{
    match first_word(value) {
        None => true,
        Some((word, after)) => is_question(word) && first_word(after).is_none(),
    }
}

/// Whether the word is `?`.
fn is_question(word: &[u8]) -> bool
    ensures { MatchBool result (word.now ≡ 63 ∷ []) (word.now ≡ 63 ∷ [] → ⊥) }
{
    matches!(word, [b'?'])
}

/// The deal of a value of the form.
fn whole_deal(dealing: &Dealing, line: usize) -> Result<Option<Layout>, PbnFault>
    ensures { (value : List ℕ) → ReadsNaming (Some dealing.now) (naming_of value) → SaysDeal line value result }
{
    if dealing.is_partial {
        return Ok(None);
    }
    if dealing.is_twice {
        return Err(PbnFault::CardTwice { line });
    }
    let size = dealing.hands[0].count_ones();
    match Layout::from_hands(dealing.hands) {
        Ok(layout) if size == 13 => Ok(Some(layout)),
        _ => Err(PbnFault::HandSize { line }),
    }
}
