//! The shapes of which something is remembered, each with its eight lists.

ghost use Rattle.std.specs.Prelude.{◌≡◌, ◌↔◌, [], IfSome, IfOk, IsTrue, length};
ghost use Rattle.pattern_store.specs.Shapes.{ShapeIs, KeepsShapes, SetsSpan, span_of};

use crate::blocks::List;
use crate::spans::{EMPTY, Span};
use std::alloc::{AllocError, Global};

/// How many shapes are kept at most. A shape takes 72 bytes, and four bytes for each of four places, or up to eight.
pub(crate) const MOST_SHAPES: usize = 1 << 18;

/// How many places there are first. Each time they become twice as many.
const FIRST_PLACES: usize = 64;

/// An odd number whose product has in its high half something of all bits.
const MIXER: u64 = 0xd6e8_feb8_6659_fd93;

/// By the lengths of a shape where the blocks of each of its lists lie. A shape keeps its number.
#[derive(Drop)]
pub(crate) struct Shapes {
    alloc: Global,
    /// The lengths of each shape, and where its lists lie.
    rows: Vec<(u64, [Span; 8])>,
    /// A shape has the first that was free from that of its lengths on: its number and 1 stand there, and 0 in a free
    /// one. There is a power of two of them, and three quarters are free, so a look-up reads one or two. They promise
    /// nothing: by wrong ones a shape would be missed, and none would be taken for another.
    places: Vec<u32>,
}

/// Where a shape is looked for first, in places without an end.
fn place_of(lengths: u64) -> usize {
    let mixed = (lengths ^ lengths >> 29).wrapping_mul(MIXER);
    (mixed ^ mixed >> 32) as usize
}

/// Puts the number of a shape into the first free place from that of its lengths on.
fn take_place(places: &mut Vec<u32>, lengths: u64, shape: usize) {
    let first = place_of(lengths);
    let last = places.len().wrapping_sub(1);
    for more in 0..places.len() {
        let Some(place) = places.get_mut(first.wrapping_add(more) & last) else {
            return;
        };
        if *place == 0 {
            *place = (shape % MOST_SHAPES) as u32 + 1;
            return;
        }
    }
}

impl Shapes {
    /// No shapes.
    pub(crate) fn new(alloc: Global) -> Shapes
        ensures { result.rows.items ≡ [] }
    {
        Shapes {
            alloc,
            rows: Vec::new(alloc),
            places: Vec::new(alloc),
        }
    }

    /// How many shapes there are.
    pub(crate) fn len(&self) -> usize
        ensures { result ≡ length self.now.rows.items }
    {
        self.rows.len()
    }

    /// The number of a shape.
    pub(crate) fn number(&self, lengths: u64) -> Option<u32>
        ensures { IfSome result (λ shape. ShapeIs self.now.rows.items shape lengths) }
    {
        let first = place_of(lengths);
        for more in 0..self.places.len() {
            let shape = self.shape_in(first.wrapping_add(more))?;
            if self.is_shape(shape, lengths) {
                return Some(shape);
            }
        }
        None
    }

    /// The number that stands in a place, if it is not free.
    fn shape_in(&self, place: usize) -> Option<u32> {
        let last = self.places.len().wrapping_sub(1);
        self.places.get(place & last)?.checked_sub(1)
    }

    /// Whether the shape with this number has these lengths.
    pub(crate) fn is_shape(&self, shape: u32, lengths: u64) -> bool
        ensures { IsTrue result ↔ ShapeIs self.now.rows.items shape lengths }
    {
        match self.rows.get(shape as usize) {
            Some((key, _)) if *key == lengths => true,
            _ => false,
        }
    }

    /// Where the blocks of a list lie.
    pub(crate) fn span(&self, list: List) -> Span
        ensures { result ≡ span_of self.now.rows.items list }
    {
        match self.rows.get(list.shape as usize) {
            Some(row) => row.1.get(list.number as usize).copied().unwrap_or(EMPTY),
            None => EMPTY,
        }
    }

    /// Has the blocks of a list lie there.
    pub(crate) fn set_span(&mut self, list: List, span: Span)
        ensures { SetsSpan self.old.rows.items self.new.rows.items list span }
    {
        if let Some(row) = self.rows.get_mut(list.shape as usize) {
            let number = list.number as usize;
            if number < row.1.len() {
                row.1[number] = span;
            }
        }
    }

    /// The number of a shape, which gets one where it has none: this one where it is the shape's. None where there
    /// are too many shapes.
    pub(crate) fn make(
        &mut self,
        shape: Option<u32>,
        lengths: u64,
    ) -> Result<Option<u32>, AllocError>
        ensures keeps { KeepsShapes self.old.rows.items self.new.rows.items }
        ensures made { IfOk result (λ shape. IfSome shape (λ shape. ShapeIs self.new.rows.items shape lengths)) }
    {
        if let Some(shape) = shape {
            if self.is_shape(shape, lengths) {
                return Ok(Some(shape));
            }
        }
        if let Some(shape) = self.number(lengths) {
            return Ok(Some(shape));
        }
        self.insert_new(lengths)?;
        Ok(self.number(lengths))
    }

    /// Adds a shape that is not there, if there are not too many.
    fn insert_new(&mut self, lengths: u64) -> Result<(), AllocError>
        ensures { KeepsShapes self.old.rows.items self.new.rows.items }
    {
        if self.rows.len() >= MOST_SHAPES {
            return Ok(());
        }
        self.make_places()?;
        let shape = self.rows.len();
        self.rows.push((lengths, [EMPTY; 8]))?;
        take_place(&mut self.places, lengths, shape);
        Ok(())
    }

    /// Has three quarters of the places be free after one more is taken.
    fn make_places(&mut self) -> Result<(), AllocError>
        ensures { self.new.rows ≡ self.old.rows }
    {
        if self.rows.len() < self.places.len() / 4 {
            return Ok(());
        }
        let alloc = self.alloc;
        let mut places = vec![in alloc; 0; self.places.len().saturating_mul(2).max(FIRST_PLACES)]?;
        for (shape, row) in self.rows.iter().enumerate() {
            take_place(&mut places, row.0, shape);
        }
        self.places = places;
        Ok(())
    }
}
