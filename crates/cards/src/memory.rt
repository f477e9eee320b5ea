//! A source and a sink over memory, for tests and for callers that hold their bytes.

ghost use Rattle.std.specs.Prelude.{◌≡◌, IfOk, None, Some, []};
ghost use Rattle.cards.specs.Devices.{Reads, WritesPiece};
ghost use Rattle.cards.specs.Memory.{Supply, Stock, ReadsSupply, WritesStock, supply_device, stock_device};

use crate::devices::{DeviceFault, Sink, Source};
use std::alloc::{AllocError, Global};
use std::marker::Model;

/// The bytes of a slice, handed out in pieces of at most a set size. One set call can fail.
#[derive(Debug, Drop)]
pub struct Bytes<'a> {
    rest: &'a [u8],
    greatest_piece: usize,
    calls_before_failure: Option<u64>,
    failures: u64,
}

impl<'a> Model for Bytes<'a> {
    ghost Value = { Supply };

    ghost view = { λ bytes. record {
      left = bytes.rest.now;
      greatest_piece = bytes.greatest_piece;
      calls_before_failure = bytes.calls_before_failure;
      failed = bytes.failures;
    } };
}

impl<'a> Bytes<'a> {
    /// A source of these bytes, in pieces of at most `greatest_piece` (of 1 where that is 0). It never fails.
    pub fn new(bytes: &'a [u8], greatest_piece: usize) -> Bytes<'a>
        ensures supply { result ≡ record
            { left = bytes.entry.now; greatest_piece = greatest_piece; calls_before_failure = None; failed = 0 } }
        ensures device { ⟦<Bytes<'a> as Source>⟧.state result ≡ record { bytes = Some bytes.entry.now; failed = 0 } }
    {
        Bytes {
            rest: bytes,
            greatest_piece,
            calls_before_failure: None,
            failures: 0,
        }
    }

    /// The same, but the call after `calls` calls fails, and no other.
    pub fn failing_after(bytes: &'a [u8], greatest_piece: usize, calls: u64) -> Bytes<'a>
        ensures supply { result ≡ record
            { left = bytes.entry.now; greatest_piece = greatest_piece; calls_before_failure = Some calls; failed = 0 } }
        ensures device { ⟦<Bytes<'a> as Source>⟧.state result ≡ record { bytes = Some bytes.entry.now; failed = 0 } }
    {
        Bytes {
            rest: bytes,
            greatest_piece,
            calls_before_failure: Some(calls),
            failures: 0,
        }
    }
}

impl Source for Bytes<'_> {
    ghost state = { supply_device };

    fn read(&mut self, buffer: &mut [u8]) -> Result<usize, DeviceFault>
        ensures supply { ReadsSupply self.old self.new buffer.old buffer.new result }
        ensures device { Reads (supply_device self.old) (supply_device self.new) buffer.old buffer.new result }
    {
        match self.calls_before_failure {
            Some(0) => {
                self.calls_before_failure = None;
                self.failures = self.failures.saturating_add(1);
                return Err(DeviceFault);
            }
            Some(calls) => self.calls_before_failure = Some(calls - 1),
            None => {}
        }
        let count = self
            .rest
            .len()
            .min(buffer.len())
            .min(self.greatest_piece.max(1));
        let (piece, rest) = self.rest.split_at(count);
        buffer[..count].copy_from_slice(piece);
        self.rest = rest;
        Ok(count)
    }
}

/// A sink that keeps its bytes in memory, which is taken once, when it is made. It takes pieces of at most a set size,
/// and fails once its room is full.
#[derive(Debug, Drop)]
pub struct Buffer {
    /// The bytes that were taken, and zeroes up to the room.
    bytes: Vec<u8>,
    /// How many were taken.
    used: usize,
    greatest_piece: usize,
    failures: u64,
}

impl Model for Buffer {
    ghost use Rattle.std.specs.Prelude.{◌≤◌, take, vec_len};
    ghost use Rattle.cards.specs.Memory.{Stock};

    ghost Value = { Stock };

    ghost view = { λ buffer. record {
      bytes = take buffer.used buffer.bytes.items;
      room = vec_len buffer.bytes;
      greatest_piece = buffer.greatest_piece;
      failed = buffer.failures;
    } };

    ghost invariant = { λ buffer. buffer.used ≤ vec_len buffer.bytes };
}

impl Buffer {
    /// An empty sink with room for this many bytes, in pieces of at most `greatest_piece` (of 1 where that is 0).
    pub fn new(alloc: Global, room: usize, greatest_piece: usize) -> Result<Buffer, AllocError>
        ensures stock { IfOk result (λ buffer. buffer
            ≡ record { bytes = []; room = room; greatest_piece = greatest_piece; failed = 0 }) }
        ensures device { IfOk result (λ buffer. ⟦<Buffer as Sink>⟧.state buffer
            ≡ record { bytes = Some []; failed = 0 }) }
    {
        Ok(Buffer {
            bytes: vec![in alloc; 0; room]?,
            used: 0,
            greatest_piece,
            failures: 0,
        })
    }

    /// The bytes that were taken so far.
    pub fn bytes(&self) -> &[u8]
        ensures { result.now ≡ self.now.bytes }
    {
        &self.bytes[..self.used]
    }
}

impl Sink for Buffer {
    ghost state = { stock_device };

    fn write(&mut self, piece: &[u8]) -> Result<usize, DeviceFault>
        ensures stock { WritesStock self.old self.new piece.now result }
        ensures device { WritesPiece (stock_device self.old) (stock_device self.new) piece.now result }
    {
        let count = piece
            .len()
            .min(self.bytes.len() - self.used)
            .min(self.greatest_piece.max(1));
        if count == 0 && !piece.is_empty() {
            self.failures = self.failures.saturating_add(1);
            return Err(DeviceFault);
        }
        let end = self.used + count;
        self.bytes[self.used..end].copy_from_slice(&piece[..count]);
        self.used = end;
        Ok(count)
    }
}
