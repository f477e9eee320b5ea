//! How a record comes to its place in a list.

ghost use Rattle.std.specs.Prelude.{◌≡◌, ◌↔◌, ◌<◌, ◌⊎◌, IsTrue, false, true};
ghost use Rattle.pattern_store.specs.Blocks.{AtSomePlace, SetsPlace, Passes, LosesServed};
ghost use Rattle.pattern_store.specs.Record.{NamesNoMoreNear, NamesOver, named_in};

use crate::blocks::{Block, PLACES};
use crate::record::{FREE, Record};

/// A record on its way into a list.
#[derive(Clone, Copy)]
pub(crate) struct Waiting {
    /// The record itself.
    told: Record,
    /// What has to find a place now: the record, or the one that it has moved.
    pub moved: Record,
    /// Whether the record has its place.
    pub stands: bool,
    /// Whether something still has to find a place.
    pub waits: bool,
}

impl Waiting {
    /// A record before the first block of its list.
    pub(crate) fn of(told: Record) -> Waiting
        ensures { result ≡ record { told = told; moved = told; stands = false; waits = true } }
    {
        Waiting {
            told,
            moved: told,
            stands: false,
            waits: true,
        }
    }

    /// Lays what waits down in a place that is free.
    fn lie_down(&mut self, block: &mut Block, place: usize)
        requires { place < 4 }
        ensures block { SetsPlace block.old block.new place self.old.moved }
        ensures waiting { self.new ≡ record self.old { waits = false } }
    {
        block.set(place, self.moved);
        self.waits = false;
    }

    /// Goes past a place of a block: it may be taken, and what lies there may have to go on, or be dropped.
    #[inline(never)]
    fn pass(&mut self, block: &mut Block, place: usize)
        requires { place < 4 }
        ensures passes { Passes block.old block.new self.old.moved self.new.moved }
        ensures loses { LosesServed self.old.told block.old block.new self.old.moved self.new.moved }
        ensures told { self.new.told ≡ self.old.told }
    {
        let other = block.record(place);
        if other.need == 0 {
            if self.waits && self.stands {
                self.lie_down(block, place);
            }
            return;
        }
        let is_served = self.told.serves(&other);
        if self.waits && (self.stands || other.owners_named() > self.told.owners_named()) {
            self.lie_down(block, place);
            self.stands = true;
            self.moved = other;
            self.waits = !is_served;
        } else if is_served {
            block.set(place, FREE);
        }
    }

    /// Whether a block that it goes past may change: where it serves a record, or may take a place.
    fn changes(&self, block: &Block) -> bool
        ensures { IsTrue result ↔ (AtSomePlace block.now (NamesNoMoreNear self.now.told)
            ⊎ (IsTrue self.now.waits × (IsTrue self.now.stands
            ⊎ AtSomePlace block.now (NamesOver (named_in self.now.told.depths))))) }
    {
        block.may_be_served(&self.told)
            || self.waits && (self.stands || block.names_more(self.told.owners_named()))
    }

    /// Goes past the places of a block, if one of them may change.
    fn pass_places(&mut self, block: &mut Block)
        ensures passes { Passes block.old block.new self.old.moved self.new.moved }
        ensures loses { LosesServed self.old.told block.old block.new self.old.moved self.new.moved }
        ensures told { self.new.told ≡ self.old.told }
    {
        if !self.changes(block) {
            return;
        }
        for place in 0..PLACES {
            self.pass(block, place);
        }
    }

    /// Goes past a block. In the last one of its list what waits takes the first free place.
    pub(crate) fn pass_block(&mut self, block: &mut Block, is_last: bool)
        ensures passes { Passes block.old block.new self.old.moved self.new.moved }
        ensures loses { LosesServed self.old.told block.old block.new self.old.moved self.new.moved }
        ensures told { self.new.told ≡ self.old.told }
    {
        self.pass_places(block);
        if is_last && !self.stands {
            self.end(block);
        }
    }

    /// Takes a place, if it is free and something waits.
    fn take_free(&mut self, block: &mut Block, place: usize)
        requires { place < 4 }
        ensures passes { Passes block.old block.new self.old.moved self.new.moved }
        ensures loses { LosesServed self.old.told block.old block.new self.old.moved self.new.moved }
        ensures told { self.new.told ≡ self.old.told }
    {
        if self.waits && block.need(place) == 0 {
            self.lie_down(block, place);
        }
    }

    /// Takes the first free place of a block.
    fn end(&mut self, block: &mut Block)
        ensures passes { Passes block.old block.new self.old.moved self.new.moved }
        ensures loses { LosesServed self.old.told block.old block.new self.old.moved self.new.moved }
        ensures told { self.new.told ≡ self.old.told }
    {
        for place in 0..PLACES {
            self.take_free(block, place);
        }
    }
}
