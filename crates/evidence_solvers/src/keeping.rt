//! A solver whose answers are kept.

ghost use Rattle.std.specs.Prelude.{◌≡◌, MatchOption, ⊤};
ghost use Rattle.std.specs.Option.{option_flatten};
ghost use Rattle.std.specs.Result.{result_ok};
ghost use Rattle.evidence.specs.Sections.{kept_of};
ghost use Rattle.evidence_solvers.specs.Added.{Covers, IsKeptFor};
ghost use Rattle.evidence_solvers.specs.Tails.{tail_contents};

use crate::added::{Added, NamedTail};
use crate::closed::Closed;
use crate::held::Held;
use crate::moments::Moment;
use crate::pending::Inner;
use crate::tails::Tail;
use crate::texts::kept_text;
use cards::{Layout, Seat, Trump};
use certificate_graph::{Bundle, Solver};
use lease_book::{Clock, Event};
use std::alloc::{AllocError, Global};
use std::fs::OpenFile;
use std::io::Write;
use std::marker::Model;
use std::sync::{Mutex, Wait};

/// A solver that asks another one, adds each answer of that solver to the end of a file by one call, and hands the
/// answer on unchanged. Its clock counts seconds. Several threads may call it at once: while one writes, the others
/// wait. The type `T` names what the file held before, and what may be added: the sections of answers of that solver.
#[derive(Drop)]
pub struct Keeping<'a, 'b, R, C, P: Solver, F: Write, T: Held> {
    rt: &'a R,
    clock: &'b C,
    inner: Inner<'b, P>,
    tail: Mutex<NamedTail<F, T>>,
}

impl<'a, 'b, R, C, P: Solver, F: Write, T: Held> Model for Keeping<'a, 'b, R, C, P, F, T> {
    ghost use Rattle.evidence_solvers.specs.Added.{Covers};

    ghost Value = { P };

    ghost view = { λ keeping. keeping.inner.solver.now };

    ghost invariant = { λ keeping. Covers (P.may_find keeping.inner.solver.now) T.may_be };
}

impl<'a, 'b, R: Wait, C: Clock, P: Solver, F: Write + OpenFile, T: Held> Keeping<
    'a,
    'b,
    R,
    C,
    P,
    F,
    T,
> {
    /// A solver that asks the other one, and adds its answers to the tail. It takes no memory.
    pub fn new(
        rt: &'a R,
        alloc: Global,
        clock: &'b C,
        solver: &'b P,
        tail: Tail<F>,
    ) -> Keeping<'a, 'b, R, C, P, F, T>
        requires held { tail_contents F.contents tail ≡ T.held }
        requires covers { Covers (P.may_find solver.now) T.may_be }
        ensures { result ≡ solver.now }
    {
        Keeping {
            rt,
            clock,
            inner: Inner::new(solver),
            tail: Mutex::new(NamedTail::new(alloc, tail)),
        }
    }

    /// Adds an answer.
    fn keep(&self, alloc: Global, layout: &Layout, trump: Trump, bundle: &Bundle) -> Added
        requires { T.may_be (kept_of layout.now trump bundle.now) }
    {
        let text = kept_text(alloc, layout, trump, bundle);
        let now = Moment::read(self.clock);
        let mut tail = self.tail.lock(self.rt);
        tail.add(layout, trump, bundle, text, now)
    }
}

impl<R, C, P: Solver, F: Write + OpenFile + Drop, T: Held> Keeping<'_, '_, R, C, P, F, T> {
    /// Syncs the file, hands it back, and says whether it lacks answers, or one for a number that these events published.
    pub fn close(self, events: &[Event]) -> Closed<F>
        ensures { IsKeptFor T.may_be T.held events.now (F.contents result.file) result.kept }
    {
        let Keeping {
            rt: _,
            clock: _,
            inner: _,
            tail,
        } = self;
        tail.into_inner().close(events)
    }
}

impl<R: Wait, C: Clock, P: Solver, F: Write + OpenFile, T: Held> Solver
    for Keeping<'_, '_, R, C, P, F, T> {
    ghost may_find = { λ keeping. P.may_find keeping };

    fn solve(
        &self,
        alloc: Global,
        layout: &Layout,
        declarers: &[Seat],
        trump: Trump,
        budget: u64,
    ) -> Result<Option<Bundle>, AllocError>
        ensures found { P.may_find self.now layout.now declarers.now trump budget
            (option_flatten (result_ok result)) }
        ensures may_be { MatchOption (option_flatten (result_ok result)) ⊤
            (λ bundle. T.may_be (kept_of layout.now trump bundle)) }
    {
        match self.inner.ask(alloc, layout, declarers, trump, budget) {
            Ok(Some(pending)) => {
                let added = self.keep(alloc, layout, trump, pending.bundle());
                Ok(Some(pending.hand_on(added)))
            }
            Ok(None) => Ok(None),
            Err(fault) => Err(fault),
        }
    }
}
