//! Cards that lead to the most tricks.

ghost use Rattle.std.specs.Prelude.{◌≡◌};
ghost use Rattle.best_cards.specs.BestCards.{AreBestCards};

use arrayvec::ArrayVec;
use card_values::{CardValue, TrickInProgress};
use std::marker::Model;

/// Cards that may be played to a trick in progress and lead to the most tricks, at least one, by suit in the order of
/// [`cards::Suit::ALL`] and with ranks falling. There may be others. Only [`crate::judge_best`] makes them.
#[derive(Drop)]
pub struct BestCards {
    trick: TrickInProgress,
    values: ArrayVec<CardValue, 13>,
}

impl Model for BestCards {
    ghost use Rattle.card_values.specs.CardValues.{ShownValues};
    ghost use Rattle.best_cards.specs.BestCards.{AreBestCards};

    ghost Value = { ShownValues };

    ghost view = { λ shown. record { position = shown.trick; values = shown.values.items } };

    ghost invariant = { λ shown. AreBestCards shown.trick shown.values.items };
}

impl BestCards {
    /// Cards that lead to the most tricks.
    pub(crate) fn new(trick: TrickInProgress, values: ArrayVec<CardValue, 13>) -> BestCards
        requires { AreBestCards trick values.items }
        ensures position { result.position ≡ trick }
        ensures values { result.values ≡ values.items }
    {
        BestCards { trick, values }
    }

    /// The trick in progress.
    pub fn trick(&self) -> &TrickInProgress
        ensures { result.now ≡ self.now.position }
    {
        &self.trick
    }

    /// Each card with its tricks, which are the same for all.
    pub fn values(&self) -> &[CardValue]
        ensures { result.now ≡ self.now.values }
    {
        self.values.as_slice()
    }

    /// What is always so of the cards: each may be played, and none leads to more tricks. It does nothing.
    pub fn invariant(&self)
        ensures { AreBestCards self.now.position self.now.values }
    {
        let _ = &self.values;
    }
}
