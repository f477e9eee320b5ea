//! Where blocks lie: in runs, each of a power of two of them, which a list leaves for a longer one, and another list
//! takes again.

ghost use Rattle.std.specs.Prelude.{◌≡◌, ◌-◌, ◌^◌, IfOk, IfSome};
ghost use Rattle.pattern_store.specs.Records.{Keeps, Puts, HoldNothing};

use crate::blocks::{Block, List};
use crate::record::{FREE, Record};
use crate::spans::{LENGTHS, Span};
use std::alloc::{AllocError, Global};

/// The blocks of all lists.
#[derive(Drop)]
pub struct Runs {
    pub(crate) blocks: Vec<Block>,
    /// How many blocks there may be.
    pub(crate) room: usize,
    /// By the doublings of its length the first run that no list has, 0 where there is none. The number of the next one
    /// stands in the first block of a run, in place of a shape.
    left: [u32; LENGTHS],
}

/// No list: that of a block which no list has.
fn no_list(next: u32) -> List
    ensures { result ≡ record { shape = next; number = 2 ^ 32 - 1 } }
{
    List {
        shape: next,
        number: u32::MAX,
    }
}

impl Runs {
    /// No runs. The block 0 is in none.
    pub(crate) fn new(alloc: Global, room: usize) -> Result<Runs, AllocError>
        ensures nothing { IfOk result (λ runs. HoldNothing runs.blocks.items) }
        ensures room { IfOk result (λ runs. runs.room ≡ room) }
    {
        let mut blocks = Vec::new(alloc);
        blocks.push(Block::new(no_list(0), FREE))?;
        Ok(Runs {
            blocks,
            room,
            left: [0; LENGTHS],
        })
    }

    /// The span with room for a block more: where its run is full, the list moves to one twice as long. None where
    /// there is no room.
    pub(crate) fn with_room(&mut self, span: Span) -> Result<Option<Span>, AllocError>
        ensures blocks { IfOk result (λ found. IfSome found (λ found. found.used ≡ span.used)) }
        ensures keeps { Keeps self.old.blocks.items self.new.blocks.items self.old.room }
        ensures room { self.new.room ≡ self.old.room }
    {
        if !span.is_full() {
            return Ok(Some(span));
        }
        let Some(doublings) = span.next_doublings() else {
            return Ok(None);
        };
        let Some(first) = self.take(doublings)? else {
            return Ok(None);
        };
        self.copy(span, first);
        self.leave(span);
        Ok(Some(span.moved_to(first, doublings)))
    }

    /// A run of this length, one that no list has or a new one. None where there is no room.
    fn take(&mut self, doublings: u16) -> Result<Option<u32>, AllocError>
        ensures keeps { Keeps self.old.blocks.items self.new.blocks.items self.old.room }
        ensures room { self.new.room ≡ self.old.room }
    {
        match self.taken(doublings) {
            Some(first) => Ok(Some(first)),
            None => self.push(1usize.wrapping_shl(u32::from(doublings))),
        }
    }

    /// Takes the first of the runs of this length that no list has.
    fn taken(&mut self, doublings: u16) -> Option<u32>
        ensures blocks { self.new.blocks ≡ self.old.blocks }
        ensures room { self.new.room ≡ self.old.room }
    {
        let left = self.left.get_mut(doublings as usize)?;
        let first = *left;
        if first == 0 {
            return None;
        }
        *left = self.blocks.get(first as usize)?.shape();
        Some(first)
    }

    /// Adds a run of so many blocks, if there is room.
    fn push(&mut self, length: usize) -> Result<Option<u32>, AllocError>
        ensures keeps { Keeps self.old.blocks.items self.new.blocks.items self.old.room }
        ensures room { self.new.room ≡ self.old.room }
    {
        let Ok(first) = u32::try_from(self.blocks.len()) else {
            return Ok(None);
        };
        if self.room.saturating_sub(self.blocks.len()) < length {
            return Ok(None);
        }
        for _ in 0..length {
            self.push_block()?;
        }
        Ok(Some(first))
    }

    /// Adds a block of no list, where there is room.
    fn push_block(&mut self) -> Result<(), AllocError>
        ensures keeps { Keeps self.old.blocks.items self.new.blocks.items self.old.room }
        ensures room { self.new.room ≡ self.old.room }
    {
        if self.blocks.len() < self.room {
            self.blocks.push(Block::new(no_list(0), FREE))?;
        }
        Ok(())
    }

    /// Copies the blocks of a list to another run.
    fn copy(&mut self, span: Span, to: u32)
        ensures keeps { Keeps self.old.blocks.items self.new.blocks.items self.old.room }
        ensures room { self.new.room ≡ self.old.room }
    {
        for place in 0..span.blocks() {
            self.copy_block(span.first().wrapping_add(place), to.wrapping_add(place));
        }
    }

    /// Copies a block.
    fn copy_block(&mut self, from: u32, to: u32)
        ensures keeps { Keeps self.old.blocks.items self.new.blocks.items self.old.room }
        ensures room { self.new.room ≡ self.old.room }
    {
        let Some(block) = self.blocks.get(from as usize).copied() else {
            return;
        };
        if let Some(place) = self.blocks.get_mut(to as usize) {
            *place = block;
        }
    }

    /// Leaves the run of a list to others.
    fn leave(&mut self, span: Span)
        ensures keeps { Keeps self.old.blocks.items self.new.blocks.items self.old.room }
        ensures room { self.new.room ≡ self.old.room }
    {
        if span.is_empty() {
            return;
        }
        let Some(left) = self.left.get_mut(span.doublings() as usize) else {
            return;
        };
        let next = *left;
        *left = span.first();
        self.put(span.first(), no_list(next), FREE);
    }

    /// Has a block be one of this list, with this record alone.
    pub(crate) fn put(&mut self, number: u32, list: List, told: Record)
        ensures puts { Puts self.old.blocks.items self.new.blocks.items number list told }
        ensures room { self.new.room ≡ self.old.room }
    {
        if let Some(block) = self.blocks.get_mut(number as usize) {
            *block = Block::new(list, told);
        }
    }
}
