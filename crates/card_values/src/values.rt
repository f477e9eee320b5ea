//! The values of cards.

ghost use Rattle.std.specs.Prelude.{◌≡◌};
ghost use Rattle.card_values.specs.CardValues.{AreCardValues};

use crate::tricks::TrickInProgress;
use arrayvec::ArrayVec;
use cards::Card;
use std::marker::Model;

/// A card that may be played, and the tricks that the side of the seat to play takes after it.
#[derive(Clone, Copy, Debug, Default, PartialEq)]
pub struct CardValue {
    /// The card.
    pub card: Card,
    /// The tricks of the layout that this side takes, the trick in progress among them.
    pub tricks: u8,
}

/// The values of all cards that may be played to a trick in progress, by suit in the order of [`cards::Suit::ALL`] and
/// with ranks falling. Each is the double-dummy value after that card. Only [`crate::judge_cards`] makes them.
#[derive(Drop)]
pub struct CardValues {
    trick: TrickInProgress,
    values: ArrayVec<CardValue, 13>,
}

impl Model for CardValues {
    ghost use Rattle.card_values.specs.CardValues.{ShownValues, AreCardValues};

    ghost Value = { ShownValues };

    ghost view = { λ shown. record { position = shown.trick; values = shown.values.items } };

    ghost invariant = { λ shown. AreCardValues shown.trick shown.values.items };
}

impl CardValues {
    /// The values of the cards that may be played.
    pub(crate) fn new(trick: TrickInProgress, values: ArrayVec<CardValue, 13>) -> CardValues
        requires { AreCardValues trick values.items }
        ensures position { result.position ≡ trick }
        ensures values { result.values ≡ values.items }
    {
        CardValues { trick, values }
    }

    /// The trick in progress.
    pub fn trick(&self) -> &TrickInProgress
        ensures { result.now ≡ self.now.position }
    {
        &self.trick
    }

    /// Each card with its value.
    pub fn values(&self) -> &[CardValue]
        ensures { result.now ≡ self.now.values }
    {
        self.values.as_slice()
    }

    /// Each card with its value.
    pub fn into_values(self) -> ArrayVec<CardValue, 13>
        ensures { result.items ≡ self.values }
    {
        let CardValues { trick: _, values } = self;
        values
    }

    /// What the values always keep: each card that may be played stands there once, with its double-dummy value. It
    /// does nothing.
    pub fn invariant(&self)
        ensures { AreCardValues self.now.position self.now.values }
    {
        let _ = &self.values;
    }
}
