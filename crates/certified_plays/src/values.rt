//! The values of a play.

ghost use Rattle.std.specs.Prelude.{◌≡◌, ◌<◌, ◌≤◌, length, MatchOption};
ghost use Rattle.play_values.specs.PlayValues.{ArePlayValues};
ghost use Rattle.certified_plays.specs.Values.{AreShownValues, IsLossAt, IsLossUnknown};
ghost use Rattle.certified_plays.specs.Values.{entry_at, known_of, value_at};

use crate::faults::PlayEntry;
use arrayvec::ArrayVec;
use play_values::RecordedPlay;
use std::marker::Model;

/// What a recorded play is worth: for each number of first cards, from none to all, the tricks that declarer's side
/// takes in all if both sides play best from there, or why they aren't shown. Only [`crate::judge_play`] makes them.
#[derive(Drop)]
pub struct PlayValues {
    play: RecordedPlay,
    entries: ArrayVec<PlayEntry, 53>,
}

impl Model for PlayValues {
    ghost use Rattle.certified_plays.specs.Values.{ShownPlay, AreShownValues};

    ghost Value = { ShownPlay };

    ghost view = { λ shown. record { play = shown.play; entries = shown.entries.items } };

    ghost invariant = { λ shown. AreShownValues shown.play shown.entries.items };
}

impl PlayValues {
    /// These values of the play.
    pub(crate) fn new(play: RecordedPlay, entries: ArrayVec<PlayEntry, 53>) -> PlayValues
        requires { AreShownValues play entries.items }
        ensures play { result.play ≡ play }
        ensures entries { result.entries ≡ entries.items }
    {
        PlayValues { play, entries }
    }

    /// The recorded play.
    pub fn play(&self) -> &RecordedPlay
        ensures { result.now ≡ self.now.play }
    {
        &self.play
    }

    /// For each number of first cards, from none to all, the value or why it isn't shown.
    pub fn entries(&self) -> &[PlayEntry]
        ensures { result.now ≡ self.now.entries }
    {
        self.entries.as_slice()
    }

    /// The tricks that declarer's side takes in all after the first `count` cards, if they are known.
    pub fn value(&self, count: usize) -> Option<u8>
        ensures { result ≡ value_at self.now count }
    {
        match self.entries.as_slice().get(count) {
            Some(PlayEntry::Known(tricks)) => Some(*tricks),
            _ => None,
        }
    }

    /// How many tricks the card in this place, counted from 0, loses for the side that plays it. `None` if the value
    /// before it or after it isn't known.
    pub fn lost(&self, place: usize) -> Option<u8>
        requires { place < length self.now.play.position.history }
        ensures { MatchOption result (IsLossUnknown self.now place) (IsLossAt self.now place) }
    {
        self.play.invariant();
        self.invariant();
        let Some(before) = self.value(place) else {
            return None;
        };
        let Some(after) = self.value(place + 1) else {
            return None;
        };
        Some(before.abs_diff(after))
    }

    /// What the values always keep: each number that is known is the value after its first cards. It does nothing.
    pub fn invariant(&self)
        ensures { ArePlayValues self.now.play (known_of self.now.entries) }
    {
        let _ = &self.entries;
    }
}
