//! The gate that tells of the work.

ghost use Rattle.std.specs.Prelude.{◌≡◌, ◌<◌, ◌≤◌, max};

use crate::counts::Counts;
use crate::lines::{write_last_line, write_line};
use cards::Sink;
use lease_book::{Clock, Entry, Gate, Reply};
use pbn_deals::Board;
use std::sync::{Mutex, Wait};

/// What was told, and where.
#[derive(Drop)]
struct Told<S> {
    counts: Counts,
    /// When the last line was written, or the work began.
    moment: u64,
    sink: S,
}

impl<S: Sink> Told<S> {
    ghost use Rattle.progress.specs.Counts.{IsBegun, AddsResult};
    ghost use Rattle.progress.specs.Lines.{IsPublished, Tells, line_text, last_line_text};
    ghost use Rattle.lease_book.specs.Keeping.{AreFirsts};

    /// The work on these boards begins at this moment.
    fn begin(&mut self, boards: &[Board], firsts: &[usize], now: u64)
        requires { AreFirsts boards.now firsts.now }
        ensures counts { IsBegun boards.now self.new.counts }
        ensures moment { self.new.moment ≡ now }
        ensures sink { self.new.sink ≡ self.old.sink }
    {
        self.counts.begin(boards, firsts);
        self.moment = now;
    }

    /// A claim for this entry had this reply at this moment. A published result counts, and a line is written unless
    /// one was in the same moment. Any other reply changes nothing.
    fn hear(&mut self, entry: Entry, reply: Reply, now: u64)
        ensures other { (IsPublished reply → ⊥) → self.new ≡ self.old }
        ensures counts { IsPublished reply → AddsResult self.old.counts self.new.counts entry.board }
        ensures moment { IsPublished reply → self.new.moment ≡ max self.old.moment now }
        ensures line { IsPublished reply → self.old.moment < now
            → Tells (S.state self.old.sink) (S.state self.new.sink) (line_text self.new.counts now) }
        ensures no_line { now ≤ self.old.moment → self.new.sink ≡ self.old.sink }
    {
        let Reply::Published(_) = reply else {
            return;
        };
        self.counts.publish(entry.board);
        if now > self.moment {
            self.moment = now;
            let _ = write_line(&self.counts, now, &mut self.sink);
        }
    }

    /// All work has ended at this moment.
    fn end(&mut self, now: u64)
        ensures line { Tells (S.state self.old.sink) (S.state self.new.sink) (last_line_text self.old.counts now) }
        ensures rest { self.new ≡ record self.old { sink = self.new.sink } }
    {
        let _ = write_last_line(&self.counts, now, &mut self.sink);
    }
}

/// A gate that tells how far the work has come: a line after each moment of the clock in which a result was published,
/// and one at the end. Where the sink fails, nobody is told.
#[derive(Drop)]
pub struct Progress<'a, R, C, S> {
    rt: &'a R,
    clock: &'a C,
    told: Mutex<Told<S>>,
}

impl<'a, R: Wait, C: Clock, S: Sink> Progress<'a, R, C, S> {
    /// A gate that has told nothing yet. Its clock counts seconds. It takes no memory.
    pub fn new(rt: &'a R, clock: &'a C, sink: S) -> Progress<'a, R, C, S> {
        let told = Told {
            counts: Counts::none(),
            moment: 0,
            sink,
        };
        Progress {
            rt,
            clock,
            told: Mutex::new(told),
        }
    }

    /// The sink, with what was written on it.
    pub fn into_sink(self) -> S {
        let Progress {
            rt: _,
            clock: _,
            told,
        } = self;
        let Told {
            counts: _,
            moment: _,
            sink,
        } = told.into_inner();
        sink
    }
}

impl<R: Wait, C: Clock, S: Sink> Gate for Progress<'_, R, C, S> {
    fn before_work(&self, boards: &[Board], firsts: &[usize]) {
        self.told
            .lock(self.rt)
            .begin(boards, firsts, self.clock.now());
    }

    fn before_solve(&self, _lease: u64) {}

    fn before_check(&self, _lease: u64) {}

    fn after_check(&self, entry: Entry, reply: Reply) {
        self.told.lock(self.rt).hear(entry, reply, self.clock.now());
    }

    fn after_work(&self) {
        self.told.lock(self.rt).end(self.clock.now());
    }
}
