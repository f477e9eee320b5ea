//! The store.

ghost use Rattle.std.specs.Prelude.{◌≡◌, [], OnOk, OnErr, MatchOption};
ghost use Rattle.pattern_store.specs.Lengths.{key_with, lengths_of, layout_lengths};
ghost use Rattle.pattern_store.specs.Stores.{list_at, AddsTo, NoneServes, FirstServes};

use crate::keys::{Added, Key, key_of};
use cards::{Layout, Seat, Side};
use indexmap::IndexMap;
use patterns::Pattern;
use std::alloc::{AllocError, Global};
use std::marker::Model;

/// Patterns that were found, in lists by lengths, lead and side.
#[derive(Drop)]
pub struct Store {
    alloc: Global,
    lists: IndexMap<Key, Vec<Added>>,
}

impl Model for Store {
    ghost use Rattle.std.specs.Prelude.{map};
    ghost use Rattle.pattern_store.specs.Stores.{Lists};

    ghost Value = { Lists };

    ghost view = { λ store. map (λ entry. (entry.0, entry.1.items)) store.lists.entries };
}

impl Store {
    /// A store whose lists are all empty. Takes no memory.
    pub fn new(alloc: Global) -> Store
        ensures { result ≡ [] }
    {
        Store {
            alloc,
            lists: IndexMap::new(alloc),
        }
    }

    /// Adds that the side can win `need` tricks of what the pattern stands for, with this seat to lead. Where memory
    /// runs out the store stays as it was.
    pub fn add(
        &mut self,
        pattern: Pattern,
        lead: Seat,
        side: Side,
        need: u8,
        number: u32,
    ) -> Result<(), AllocError>
        ensures ok { OnOk result (AddsTo ⟦<Key as PartialEq>⟧.eq self.old self.new
            (key_with (lengths_of pattern) lead side)
            (record { pattern = pattern; need = need; number = number })) }
        ensures err { OnErr result (self.new ≡ self.old) }
    {
        let key = key_of(&pattern, lead, side);
        let added = Added {
            pattern,
            need,
            number,
        };
        match self.lists.get_mut(&key) {
            Some(list) => {
                list.push(added)?;
                return Ok(());
            }
            None => {}
        }
        let mut list = Vec::new(self.alloc);
        list.push(added)?;
        self.lists.insert(key, list)?;
        Ok(())
    }

    /// The number of the first add with this lead and side, a need of at least this one, and a pattern that the layout
    /// matches. Takes no memory.
    pub fn find(&self, layout: &Layout, lead: Seat, side: Side, need: u8) -> Option<u32>
        ensures { let key = key_with (layout_lengths layout.now) lead side in
            let list = list_at (⟦<Key as PartialEq>⟧.eq key) self.now in
            MatchOption result (NoneServes layout.now need list) (FirstServes layout.now need list) }
    {
        let key = key_of(&Pattern::of_layout(layout, [0; 4]), lead, side);
        match self.lists.get(&key) {
            Some(list) => first_served(list.as_slice(), layout, need),
            None => None,
        }
    }
}

/// The number of the first add that serves.
fn first_served(adds: &[Added], layout: &Layout, need: u8) -> Option<u32>
    ensures { MatchOption result (NoneServes layout.now need adds.now) (FirstServes layout.now need adds.now) }
{
    for added in adds {
        if added.need >= need && added.pattern.matches(layout) {
            return Some(added.number);
        }
    }
    None
}
