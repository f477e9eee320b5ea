//! The end of a file whose type names what the file held, and what may be added to it.

ghost use Rattle.std.specs.Prelude.{◌≡◌, [], ◌++◌, ◌∷◌};
ghost use Rattle.evidence.specs.Sections.{kept_of};
ghost use Rattle.evidence_solvers.specs.Added.{IsAdded, IsKeptFor, WasAdded};
ghost use Rattle.evidence_solvers.specs.Kept.{IsKeptText};
ghost use Rattle.evidence_solvers.specs.Tails.{tail_contents};

use crate::claims::{KeptClaim, note_claims};
use crate::closed::Closed;
use crate::held::Held;
use crate::moments::Moment;
use crate::tails::Tail;
use crate::texts::KeptText;
use cards::{Layout, Trump};
use certificate_graph::Bundle;
use lease_book::Event;
use std::alloc::Global;
use std::fs::OpenFile;
use std::io::Write;
use std::marker::{Model, PhantomData};

/// The end of a file. The type `T` names what the file held, and what may be added; since then only whole texts of such
/// sections were added, or a beginning of them if a write has failed.
#[derive(Drop)]
pub(crate) struct NamedTail<F: Write, T: Held> {
    tail: Tail<F>,
    /// Claims of the sections that were added.
    claims: Vec<KeptClaim>,
    of: PhantomData<T>,
}

impl<F: Write, T: Held> Model for NamedTail<F, T> {
    ghost use Rattle.std.specs.Prelude.{List};
    ghost use Rattle.evidence_solvers.specs.declared.claims.KeptClaim.{KeptClaim};
    ghost use Rattle.evidence_solvers.specs.declared.tails.Tail.{Tail};
    ghost use Rattle.evidence_solvers.specs.Added.{IsAdded};

    ghost Value = { Tail F × List KeptClaim };

    ghost view = { λ named. (named.tail, named.claims.items) };

    ghost invariant = { λ named. IsAdded T.may_be T.held (F.contents named.tail.file) named.tail.has_failed
        named.claims.items };
}

/// That an answer went through [`NamedTail::add`], which alone makes one.
#[derive(Drop)]
pub(crate) struct Added(());

impl<F: Write + OpenFile, T: Held> NamedTail<F, T> {
    /// The end of a file to which no section was added yet.
    pub(crate) fn new(alloc: Global, tail: Tail<F>) -> NamedTail<F, T>
        requires { tail_contents F.contents tail ≡ T.held }
    {
        NamedTail {
            tail,
            claims: Vec::new(alloc),
            of: PhantomData,
        }
    }

    /// Adds the text of the section of an answer, if there is one.
    pub(crate) fn add(
        &mut self,
        layout: &Layout,
        trump: Trump,
        bundle: &Bundle,
        text: KeptText,
        now: Moment,
    ) -> Added
        requires text { IsKeptText (kept_of layout.now trump bundle.now) text.text }
        requires may { T.may_be (kept_of layout.now trump bundle.now) }
        ensures before { IsAdded T.may_be T.held (F.contents self.old.0.file) self.old.0.has_failed self.old.1 }
        ensures adds { WasAdded F.contents self.old.0 self.new.0 text.text }
        ensures after { IsAdded T.may_be T.held (F.contents self.new.0.file) self.new.0.has_failed self.new.1 }
    {
        let noted = note_claims(text.is_text(), &mut self.claims, layout, trump, bundle);
        self.tail.add(text.into_text(), now);
        self.tail.note_memory(noted);
        Added(())
    }
}

impl<F: Write + OpenFile + Drop, T: Held> NamedTail<F, T> {
    /// Syncs the file, and says whether it lacks a section, or one for a number that these events published.
    pub(crate) fn close(self, events: &[Event]) -> Closed<F>
        ensures { IsKeptFor T.may_be T.held events.now (F.contents result.file) result.kept }
    {
        let NamedTail { tail, claims, .. } = self;
        tail.close().judged_by(claims.as_slice(), events)
    }
}
