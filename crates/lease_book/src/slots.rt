//! What is known of each entry, and by which the least open one and the leases past their deadlines are found.

ghost use Rattle.std.specs.Prelude.{◌≡◌, ◌<◌, ◌≤◌, ◌^◌, ℕ, length, map, slice_set, slice_index_or, count_by, replicate};
ghost use Rattle.std.specs.Prelude.{MatchOption, IfOk, ◌*◌, ◌-◌, Some, None};
ghost use Rattle.lease_book.specs.declared.slots.Slot.{Slot};
ghost use Rattle.lease_book.specs.Slots.{deadline_of, opening_of, is_open_slot, is_past_slot, freed_if_past, is_holder};
ghost use Rattle.lease_book.specs.Slots.{is_held_slot};
ghost use Rattle.lease_book.specs.Slots.{NonePasses, IsFirst, new_slot, tries_of};

use crate::boards::Boards;
use crate::entries::ENTRIES;
use crate::events::Grant;
use due_rows::DueRow;
use std::alloc::{AllocError, Global};
use std::marker::Model;

/// What is known of an entry.
#[derive(Clone, Copy, Debug)]
pub(crate) struct Slot {
    /// The number published.
    pub published: Option<u8>,
    /// The lease that is held.
    pub holder: Option<Grant>,
    /// How often it may be leased yet.
    pub left: u32,
}

impl Slot {
    /// The deadline of the lease that is held.
    fn deadline(&self) -> Option<u64>
        ensures { result ≡ deadline_of self.now }
    {
        match self.holder {
            Some(grant) => Some(grant.deadline),
            None => None,
        }
    }

    /// Whether the entry is open.
    fn is_open(&self) -> bool
        ensures { result ≡ is_open_slot self.now }
    {
        self.published.is_none() && self.holder.is_none() && 0 < self.left
    }

    /// A moment that has always come, where the entry is open.
    fn opening(&self) -> Option<u64>
        ensures { result ≡ opening_of self.now }
    {
        if self.is_open() { Some(0) } else { None }
    }

    /// The slot once its entry is leased.
    pub(crate) fn leased(&self, grant: Grant) -> Slot
        requires { 0 < self.now.left }
        ensures { result ≡ record { published = self.now.published; holder = Some grant; left = self.now.left - 1 } }
    {
        Slot {
            published: self.published,
            holder: Some(grant),
            left: self.left - 1,
        }
    }

    /// The slot once a number is published: no lease is held any more.
    pub(crate) fn with_number(&self, k: u8) -> Slot
        ensures { result ≡ record { published = Some k; holder = None; left = self.now.left } }
    {
        Slot {
            published: Some(k),
            holder: None,
            left: self.left,
        }
    }

    /// Whether this lease is the one that is held.
    pub(crate) fn is_held_by(&self, lease: u64) -> bool
        ensures { result ≡ is_holder lease self.now.holder }
    {
        match self.holder {
            Some(grant) => grant.lease == lease,
            None => false,
        }
    }
}

/// How often the entry in a place may be leased: never where its board has no deal, or a board before it has the same.
fn tries_of(boards: &Boards, tries: u32, place: usize) -> u32
    ensures { result ≡ tries_of boards.now tries place }
{
    if boards.is_first(place / ENTRIES) {
        tries
    } else {
        0
    }
}

/// The slots of all entries, in the order of their places. Contracts see the list of them.
#[derive(Drop)]
pub(crate) struct Slots {
    slots: Vec<Slot>,
    /// The deadline of each lease that is held, in the place of its entry.
    deadlines: DueRow,
    /// A moment that has always come, in the place of each open entry.
    openings: DueRow,
}

impl Model for Slots {
    ghost use Rattle.std.specs.Prelude.{◌≡◌, List, map};
    ghost use Rattle.lease_book.specs.declared.slots.Slot.{Slot};
    ghost use Rattle.lease_book.specs.Slots.{deadline_of, opening_of};

    ghost Value = { List Slot };

    ghost view = { λ all. all.slots.items };

    ghost invariant = { λ all. (all.deadlines ≡ map deadline_of all.slots.items)
        × (all.openings ≡ map opening_of all.slots.items) };
}

impl Slots {
    /// The slots of so many entries that may not be leased.
    fn closed(alloc: Global, count: usize) -> Result<Slots, AllocError>
        requires { count ≤ 2 ^ 32 }
        ensures { IfOk result (λ slots. slots ≡ replicate count (new_slot 0)) }
    {
        let slot = Slot {
            published: None,
            holder: None,
            left: 0,
        };
        let slots = Vec::from_elem(alloc, slot, count)?;
        let deadlines = DueRow::new(alloc, count)?;
        let openings = DueRow::new(alloc, count)?;
        Ok(Slots {
            slots,
            deadlines,
            openings,
        })
    }

    /// The slots of the entries of these boards, none of which was leased yet.
    pub(crate) fn new(alloc: Global, boards: &Boards, tries: u32) -> Result<Slots, AllocError>
        requires { length boards.now ≤ 4096 }
        ensures sized { IfOk result (λ slots. length slots ≡ 20 * length boards.now) }
        ensures slots { IfOk result (λ slots. (place : ℕ) (d : Slot) → place < length slots
            → slice_index_or slots place d ≡ new_slot (tries_of boards.now tries place)) }
    {
        let count = ENTRIES * boards.len();
        let mut slots = Slots::closed(alloc, count)?;
        for place in 0..count {
            let left = tries_of(boards, tries, place);
            slots.set(
                place,
                Slot {
                    published: None,
                    holder: None,
                    left,
                },
            );
        }
        Ok(slots)
    }

    /// How many entries there are.
    pub(crate) fn len(&self) -> usize
        ensures { result ≡ length self.now }
    {
        self.slots.len()
    }

    /// The slot in a place.
    pub(crate) fn slot(&self, place: usize) -> Slot
        requires { place < length self.now }
        ensures { (d : Slot) → result ≡ slice_index_or self.now place d }
    {
        self.slots[place]
    }

    /// Changes the slot in a place.
    pub(crate) fn set(&mut self, place: usize, slot: Slot)
        requires { place < length self.old }
        ensures { self.new ≡ slice_set self.old place slot }
    {
        self.deadlines.set(place, slot.deadline());
        self.openings.set(place, slot.opening());
        self.slots[place] = slot;
    }

    /// The place of the least open entry.
    pub(crate) fn first_open(&self) -> Option<usize>
        ensures { MatchOption result (NonePasses is_open_slot 0 self.now) (IsFirst is_open_slot 0 self.now) }
    {
        self.openings.first_due(0, 0)
    }

    /// The first place with a lease that is held.
    pub(crate) fn first_held(&self) -> Option<usize>
        ensures { MatchOption result (NonePasses is_held_slot 0 self.now) (IsFirst is_held_slot 0 self.now) }
    {
        for place in 0..self.len() {
            if self.slot(place).holder.is_some() {
                return Some(place);
            }
        }
        None
    }

    /// The first place from this one on with a lease whose deadline is at this moment or before it.
    fn first_past(&self, now: u64, from: usize) -> Option<usize>
        ensures { MatchOption result (NonePasses (is_past_slot now) from self.now)
            (IsFirst (is_past_slot now) from self.now) }
    {
        self.deadlines.first_due(now, from)
    }

    /// Frees the leases whose deadline is at this moment or before it, and tells how many there were.
    pub(crate) fn free_past(&mut self, now: u64) -> u64
        ensures freed { self.new ≡ map (freed_if_past now) self.old }
        ensures count { result ≡ count_by (is_past_slot now) self.old }
    {
        let end = self.len();
        let mut from = 0;
        let mut count = 0;
        while let Some(place) = self.first_past(now, from) {
            let slot = self.slot(place);
            self.set(
                place,
                Slot {
                    holder: None,
                    ..slot
                },
            );
            count += 1;
            from = place + 1;
        }
        count
    }
}
