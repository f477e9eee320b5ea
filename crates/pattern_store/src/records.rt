//! What a search remembers: for each shape, leader and side the records found, those that name the fewest owners first.

ghost use Rattle.std.specs.Prelude.{◌≡◌, ◌↔◌, ◌<◌, ◌≤◌, ◌⊎◌, ◌+◌, ◌-◌, ◌*◌, ◌^◌, ℕ, min, max};
ghost use Rattle.std.specs.Prelude.{[], IfOk, IfNone, IfSome, IsTrue, Some, length};
ghost use Rattle.pattern_store.specs.Blocks.{record_at};
ghost use Rattle.pattern_store.specs.Record.{AgreesNear, AgreesDeep, Differs, IsKnown};
ghost use Rattle.pattern_store.specs.Shapes.{ShapeIs, KeepsShapes};
ghost use Rattle.pattern_store.specs.Records.{HoldsNothing, Finds, Adds, Goes, Appends, IsBlockIn, IsEmpty};
ghost use Rattle.pattern_store.specs.Records.{list_number, record_of};

use crate::blocks::{Block, List, PLACES};
use crate::record::{Owners, Record};
use crate::runs::Runs;
use crate::shapes::{MOST_SHAPES, Shapes};
use crate::spans::Span;
use crate::waiting::Waiting;
use cards::Side;
use std::alloc::{AllocError, Global};
use std::marker::Model;

/// How many blocks are kept at most. A block takes 120 bytes.
pub const MOST_BLOCKS: usize = 800_000;

/// The records by shape, leader and side. A record's number is that of its block times four, and its place in it.
#[derive(Drop)]
pub struct Records {
    shapes: Shapes,
    runs: Runs,
}

impl Model for Records {
    ghost use Rattle.pattern_store.specs.Records.{Kept};

    ghost Value = { Kept };

    ghost view = { λ s. record { shapes = s.shapes.rows.items; blocks = s.runs.blocks.items; room = s.runs.room } };
}

/// The number of a list of its shape.
fn number_in_shape(leader: usize, side: Side) -> u32
    ensures { result ≡ list_number leader side }
{
    let place = match side {
        Side::NorthSouth => 0,
        Side::EastWest => 1,
    };
    (leader % 4) as u32 * 2 + place
}

/// The number of the record in a place of a block.
fn number_of(block: u32, place: usize) -> Option<u32>
    requires { place < 4 }
    ensures some { IfSome result (λ number. number ≡ block * 4 + place) }
    ensures none { IfNone result (2 ^ 32 ≤ block * 4 + place) }
{
    u32::try_from(block as usize * 4 + place).ok()
}

/// The first place of a block whose record names these owners and lets the side win as much.
fn place_of<F: Fn() -> u64>(block: &Block, near: u64, deep: &F, need: u8) -> Option<usize>
    requires { F.IsAlwaysCallable deep.now }
    ensures some { IfSome result (λ place. (place < 4) × (need ≤ (record_at block.now place).need)
        × AgreesNear (record_at block.now place) near × AgreesDeep (record_at block.now place) (F.post deep.now)) }
    ensures none { IfNone result ((place : ℕ) → place < 4 → need ≤ (record_at block.now place).need
        → Differs (record_at block.now place) near (F.post deep.now)) }
{
    for place in 0..PLACES {
        if block.need(place) >= need && block.agrees(place, near, deep) {
            return Some(place);
        }
    }
    None
}

impl Records {
    /// Nothing is remembered.
    pub fn new(alloc: Global) -> Result<Records, AllocError>
        ensures nothing { IfOk result HoldsNothing }
        ensures room { IfOk result (λ kept. (kept.shapes ≡ []) × (kept.room ≡ 800000)) }
    {
        Ok(Records {
            shapes: Shapes::new(alloc),
            runs: Runs::new(alloc, MOST_BLOCKS)?,
        })
    }

    /// How many blocks there are.
    pub fn blocks(&self) -> usize
        ensures { result ≡ length self.now.blocks }
    {
        self.runs.blocks.len()
    }

    /// How much memory is taken, in blocks. A shape counts as one.
    pub fn size(&self) -> usize
        ensures { result ≡ min (length self.now.blocks + length self.now.shapes) (2 ^ 64 - 1) }
    {
        self.blocks().saturating_add(self.shapes.len())
    }

    /// Has no more blocks than these, if it does not have more now.
    pub fn set_room(&mut self, room: usize)
        ensures { self.new ≡ record self.old { room = min room 800000 } }
    {
        self.runs.room = room.min(MOST_BLOCKS);
    }

    /// Whether something may not have been remembered since there was no room.
    pub fn is_full(&self) -> bool
        ensures { IsTrue result ↔ (self.now.room ≤ length self.now.blocks) ⊎ (2 ^ 18 ≤ length self.now.shapes) }
    {
        self.blocks() >= self.runs.room || self.shapes.len() >= MOST_SHAPES
    }

    /// The number of the shape with these lengths, if something may be remembered of it. It keeps its number.
    pub fn shape(&self, lengths: u64) -> Option<u32>
        ensures { IfSome result (λ shape. ShapeIs self.now.shapes shape lengths) }
    {
        self.shapes.number(lengths)
    }

    /// The list of a shape, a seat that leads and a side that wins. None where it is empty.
    pub fn list(&self, shape: Option<u32>, leader: usize, side: Side) -> Option<List>
        ensures some { IfSome result (λ list. (shape ≡ Some list.shape) × (list.number ≡ list_number leader side)) }
        ensures none { IfNone result ((number : ℕ) → shape ≡ Some number
            → IsEmpty self.now (record { shape = number; number = list_number leader side })) }
    {
        let list = List {
            shape: shape?,
            number: number_in_shape(leader, side),
        };
        if self.shapes.span(list).is_empty() {
            return None;
        }
        Some(list)
    }

    /// The number of the first record of a list that names these owners and lets the side win as many tricks. The
    /// owners after the eighth of a suit are asked for where they matter.
    pub fn find<F: Fn() -> u64>(&self, list: List, near: u64, deep: F, need: u8) -> Option<u32>
        requires { F.IsAlwaysCallable deep }
        ensures { IfSome result (Finds self.now list need (λ r. AgreesNear r near × AgreesDeep r (F.post deep))) }
    {
        let span = self.shapes.span(list);
        for number in span.first()..span.end() {
            let Some(block) = self.agreeing(list, number, near) else {
                continue;
            };
            if let Some(place) = place_of(block, near, &deep, need.max(1)) {
                return number_of(number, place);
            }
        }
        None
    }

    /// The number of the first record of a list that names only owners that are known, and those as they are, and
    /// lets the side win as many tricks: of those that are liked, else of all.
    pub fn find_known<F: Fn(u32) -> bool>(
        &self,
        list: List,
        owners: Owners,
        known: Owners,
        need: u8,
        is_liked: F,
    ) -> Option<u32>
        requires { F.IsAlwaysCallable is_liked }
        ensures { IfSome result (Finds self.now list need (λ r. IsKnown r owners known)) }
    {
        let mut first = None;
        let span = self.shapes.span(list);
        for number in span.first()..span.end() {
            let Some(block) = self.agreeing(list, number, owners.near) else {
                continue;
            };
            for place in 0..PLACES {
                if block.need(place) < need.max(1) || !block.is_known(place, owners, known) {
                    continue;
                }
                let found = number_of(number, place)?;
                if is_liked(found) {
                    return Some(found);
                }
                if first.is_none() {
                    first = Some(found);
                }
            }
        }
        first
    }

    /// The block with this number, if it is one of the list and the first owners of some record are these. A block is
    /// asked last for its list, since that lies apart from the owners.
    fn agreeing(&self, list: List, number: u32, near: u64) -> Option<&Block>
        ensures { IfSome result (λ block. IsBlockIn self.now.blocks list number block.now) }
    {
        match self.runs.blocks.get(number as usize) {
            Some(block) if block.may_agree(near) && block.is_of(list) => Some(block),
            _ => None,
        }
    }

    /// The record with this number. It has a need of 0 where there is none.
    pub fn record(&self, number: u32) -> Record
        ensures { result ≡ record_of self.now.blocks number }
    {
        match self.runs.blocks.get((number / 4) as usize) {
            Some(block) => block.record((number % 4) as usize),
            None => Record::default(),
        }
    }

    /// Adds a record to the list of a shape, a seat that leads and a side that wins, after those that name fewer
    /// owners, or as many; those that it serves are dropped. Where there is no room the one that names the most is
    /// lost. The shape may have this number.
    pub fn add(
        &mut self,
        shape: Option<u32>,
        lengths: u64,
        leader: usize,
        side: Side,
        told: Record,
    ) -> Result<(), AllocError>
        ensures { Adds self.old self.new lengths (list_number leader side) told }
    {
        let Some(shape) = self.make(shape, lengths)? else {
            return Ok(());
        };
        let list = List {
            shape,
            number: number_in_shape(leader, side),
        };
        let span = self.shapes.span(list);
        let mut waiting = Waiting::of(told);
        self.pass_list(list, span, &mut waiting);
        if waiting.waits {
            self.append(list, span, waiting.moved)
        } else {
            Ok(())
        }
    }

    /// The number of a shape, which gets one where it has none.
    fn make(&mut self, shape: Option<u32>, lengths: u64) -> Result<Option<u32>, AllocError>
        ensures keeps { KeepsShapes self.old.shapes self.new.shapes }
        ensures blocks { (self.new.blocks ≡ self.old.blocks) × (self.new.room ≡ self.old.room) }
        ensures made { IfOk result (λ shape. IfSome shape (λ shape. ShapeIs self.new.shapes shape lengths)) }
    {
        self.shapes.make(shape, lengths)
    }

    /// Leads a record along a list.
    fn pass_list(&mut self, list: List, span: Span, waiting: &mut Waiting)
        ensures { Goes self.old self.new list waiting.old.moved waiting.new.moved }
    {
        let end = span.end();
        for number in span.first()..end {
            self.pass_block(list, number, end - number == 1, waiting);
        }
    }

    /// Leads a record past a block, if it is one of the list.
    fn pass_block(&mut self, list: List, number: u32, is_last: bool, waiting: &mut Waiting)
        ensures { Goes self.old self.new list waiting.old.moved waiting.new.moved }
    {
        let Some(block) = self.runs.blocks.get_mut(number as usize) else {
            return;
        };
        if !block.is_of(list) {
            return;
        }
        waiting.pass_block(block, is_last);
    }

    /// Adds a block with a record to a list. Nothing is added where there are too many.
    fn append(&mut self, list: List, span: Span, told: Record) -> Result<(), AllocError>
        ensures { Appends self.old self.new list told }
    {
        let Some(span) = self.runs.with_room(span)? else {
            return Ok(());
        };
        self.runs.put(span.end(), list, told);
        self.shapes.set_span(list, span.with_one_more());
        Ok(())
    }
}
