//! A file to which nothing more is added.

ghost use Rattle.std.specs.Prelude.{◌≡◌};
ghost use Rattle.evidence_solvers.specs.Claims.{IsJudged};
ghost use Rattle.evidence_solvers.specs.Tails.{said_of};

use crate::claims::{KeptClaim, claim_all};
use crate::faults::KeepFault;
use crate::syncs::Synced;
use lease_book::Event;

/// A file to which nothing more is added.
#[derive(Drop)]
pub struct Closed<F> {
    file: F,
    kept: Result<(), KeepFault>,
}

impl<F> Closed<F> {
    /// The file, which was synced. If a write failed and something was left out, the failed write is said.
    pub(crate) fn after(
        _done: Synced,
        file: F,
        has_failed: bool,
        lacks: Result<(), KeepFault>,
    ) -> Closed<F>
        ensures kept { result.kept ≡ said_of has_failed lacks }
        ensures file { result.file ≡ file }
    {
        if has_failed {
            return Closed {
                file,
                kept: Err(KeepFault::Write),
            };
        }
        Closed { file, kept: lacks }
    }

    /// The same file. If a number that these events published is none of these claims, it is said that a part lacks.
    pub(crate) fn judged_by(self, claims: &[KeptClaim], events: &[Event]) -> Closed<F>
        ensures kept { IsJudged claims.now events.now self.kept result.kept }
        ensures file { result.file ≡ self.file }
    {
        let Closed { file, kept } = self;
        Closed {
            file,
            kept: judge(kept, claims, events),
        }
    }

    /// The file, and whether it has every text that was to be added.
    pub fn into_parts(self) -> (F, Result<(), KeepFault>)
        ensures { result ≡ (self.file, self.kept) }
    {
        let Closed { file, kept } = self;
        (file, kept)
    }
}

/// Whether all is there, if it was so far: each number that these events published has to be one of these claims.
fn judge(
    kept: Result<(), KeepFault>,
    claims: &[KeptClaim],
    events: &[Event],
) -> Result<(), KeepFault>
    ensures { IsJudged claims.now events.now kept result }
{
    match kept {
        Ok(()) => {
            if claim_all(claims, events) {
                return Ok(());
            }
            Err(KeepFault::Write)
        }
        Err(fault) => Err(fault),
    }
}
