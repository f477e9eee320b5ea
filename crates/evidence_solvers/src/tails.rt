//! The end of a file of evidence, to which texts are added.

ghost use Rattle.std.specs.Prelude.{◌≡◌, ◌||◌, false, Ok};
ghost use Rattle.evidence_solvers.specs.Tails.{WritesOnce, EndsLastLine, AddsText, EndsAs, lacks_after, synced_after};

use crate::closed::Closed;
use crate::faults::KeepFault;
use crate::moments::Moment;
use crate::syncs::{LastSync, Synced, sync};
use cards::OutOfMemory;
use std::fs::OpenFile;
use std::io::Write;

/// How many seconds pass between two syncs at the least.
const SYNC_SECONDS: u64 = 10;

/// The end of a file that was opened to be added to.
#[derive(Drop)]
pub struct Tail<F> {
    file: F,
    /// A text was not written whole, or a sync failed: nothing more is written.
    has_failed: bool,
    /// Why the last text was left out that was left out, if any was.
    lacks: Result<(), KeepFault>,
    synced: LastSync,
}

impl<F: Write + OpenFile> Tail<F> {
    /// The end of a file. If the last line of the file has no end, a line feed is written.
    pub(crate) fn new(file: F, ends_line: bool) -> Tail<F>
        ensures line { EndsLastLine F.contents file result.file ends_line result.has_failed }
        ensures text { result.lacks ≡ Ok tt }
    {
        let mut tail = Tail {
            file,
            has_failed: false,
            lacks: Ok(()),
            synced: LastSync::none(),
        };
        if !ends_line {
            tail.write_text(b"\n");
        }
        tail
    }

    /// Writes a text by one call, unless something failed before. A part of the text counts as a failure.
    fn write_text(&mut self, text: &[u8])
        ensures text { WritesOnce F.contents self.old.file self.new.file text.now self.old.has_failed
            self.new.has_failed }
        ensures rest { self.new ≡ record self.old { file = self.new.file; has_failed = self.new.has_failed } }
    {
        if self.has_failed {
            return;
        }
        self.has_failed = match self.file.write(text) {
            Ok(count) => count < text.len(),
            Err(_) => true,
        };
    }

    /// Notes the result of a sync.
    fn note_sync(&mut self, done: &Synced)
        ensures { self.new ≡ record self.old { has_failed = self.old.has_failed || done.now.failed } }
    {
        self.has_failed = self.has_failed || done.failed();
    }

    /// Notes that memory ran out, if it did.
    pub(crate) fn note_memory(&mut self, done: Result<(), OutOfMemory>)
        ensures { self.new ≡ record self.old { lacks = lacks_after done self.old.lacks } }
    {
        if done.is_err() {
            self.lacks = Err(KeepFault::OutOfMemory);
        }
    }

    /// Adds a text, if there is one. Then the file is synced, unless ten seconds have not passed since the last sync.
    pub(crate) fn add(&mut self, text: Result<Option<Vec<u8>>, KeepFault>, now: Moment)
        ensures text { AddsText F.contents self.old self.new text }
        ensures sync { self.new.synced.seconds ≡ synced_after self.old.synced.seconds now.seconds text }
    {
        match text {
            Ok(Some(text)) => {
                self.write_text(text.as_slice());
                if now.seconds().saturating_sub(self.synced.seconds()) >= SYNC_SECONDS {
                    let done = sync(&self.file);
                    self.note_sync(&done);
                    self.synced = LastSync::after(&done, now);
                }
            }
            Ok(None) => {}
            Err(fault) => self.lacks = Err(fault),
        }
    }
}

impl<F: Write + OpenFile + Drop> Tail<F> {
    /// Syncs the file, and says whether it lacks a text.
    pub(crate) fn close(self) -> Closed<F>
        ensures kept { EndsAs self.has_failed self.lacks result.kept }
        ensures file { result.file ≡ self.file }
    {
        let mut tail = self;
        let done = sync(&tail.file);
        tail.note_sync(&done);
        let Tail {
            file,
            has_failed,
            lacks,
            synced: _,
        } = tail;
        Closed::after(done, file, has_failed, lacks)
    }
}
