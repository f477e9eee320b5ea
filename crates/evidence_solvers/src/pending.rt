//! An answer of a solver that is to be kept before it is handed on.

ghost use Rattle.std.specs.Prelude.{◌≡◌};
ghost use Rattle.evidence_solvers.specs.Pending.{found_in};

use crate::added::Added;
use cards::{Layout, Seat, Trump};
use certificate_graph::{Bundle, Solver};
use std::alloc::{AllocError, Global};

/// An answer that was not handed on yet. It can't be dropped.
pub(crate) struct Pending {
    bundle: Bundle,
}

impl Pending {
    /// The answer, to be looked at.
    pub(crate) fn bundle(&self) -> &Bundle
        ensures { result.now ≡ self.now.bundle }
    {
        &self.bundle
    }

    /// The answer, after it went to the file.
    pub(crate) fn hand_on(self, _added: Added) -> Bundle
        ensures { result ≡ self.bundle }
    {
        let Pending { bundle } = self;
        bundle
    }
}

/// A solver whose answers can't be had but by keeping them.
#[derive(Drop)]
pub(crate) struct Inner<'b, P> {
    solver: &'b P,
}

impl<'b, P: Solver> Inner<'b, P> {
    /// This solver.
    pub(crate) fn new(solver: &'b P) -> Inner<'b, P>
        ensures { result.solver.now ≡ solver.now }
    {
        Inner { solver }
    }

    /// Asks the solver.
    pub(crate) fn ask(
        &self,
        alloc: Global,
        layout: &Layout,
        declarers: &[Seat],
        trump: Trump,
        budget: u64,
    ) -> Result<Option<Pending>, AllocError>
        ensures { P.may_find self.now.solver.now layout.now declarers.now trump budget (found_in result) }
    {
        match self.solver.solve(alloc, layout, declarers, trump, budget) {
            Ok(Some(bundle)) => Ok(Some(Pending { bundle })),
            Ok(None) => Ok(None),
            Err(fault) => Err(fault),
        }
    }
}
