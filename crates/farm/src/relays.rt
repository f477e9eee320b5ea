//! The relays of a round, and their ends.

ghost use Rattle.std.specs.Prelude.{OnOk, IfOk};
ghost use Rattle.farm.specs.Relaying.{AreOpened, AreAllEndsOf, IsRelayed, AreAllMarksPut};

use crate::settings::Settings;
use crate::tasks::{CheckedClaim, FoundBundle, Group};
use cards::OutOfMemory;
use farm_relay::{Putter, Relay, Taker};
use std::alloc::Global;
use std::sync::Wait;

/// The places of the relays to the checkers and to the clerks: at least the most checkers and the most clerks, so that
/// there is room for one end mark each.
const PLACES: usize = 64;

/// The relays from the lender to the solvers, from the solvers to the checkers, and from the checkers to the clerks.
#[derive(Drop)]
pub(crate) struct Relays {
    pub(crate) groups: Relay<Group>,
    pub(crate) found: Relay<FoundBundle>,
    pub(crate) claims: Relay<CheckedClaim>,
}

/// Ends of the relays. The lender puts groups, a solver takes groups and puts answers, a checker takes answers and puts
/// claims, a clerk takes claims.
#[derive(Drop)]
pub(crate) struct RelayEnds {
    pub(crate) lent: Vec<Putter<Group>>,
    pub(crate) groups: Vec<Taker<Group>>,
    pub(crate) finds: Vec<Putter<FoundBundle>>,
    pub(crate) found: Vec<Taker<FoundBundle>>,
    pub(crate) claims: Vec<Putter<CheckedClaim>>,
    pub(crate) heard: Vec<Taker<CheckedClaim>>,
}

impl Relays {
    /// Opens three relays with an end for the lender, two for each solver and each checker, and one for each clerk.
    /// There are as many clerks as checkers. The first relay has a place for each solver: so no group waits long for
    /// its search, and there is room for one end mark each.
    pub(crate) fn open(
        alloc: Global,
        settings: Settings,
    ) -> Result<(Relays, RelayEnds), OutOfMemory>
        ensures { IfOk result (λ made. AreOpened settings made.0 made.1) }
    {
        let (solvers, checkers) = (settings.solvers, settings.checkers);
        let (lent, lenders, groups) = Relay::open(alloc, solvers, 1, solvers)?;
        let (found, finds, takers) = Relay::open(alloc, PLACES, solvers, checkers)?;
        let (claims, putters, heard) = Relay::open(alloc, PLACES, checkers, checkers)?;
        let ends = RelayEnds {
            lent: lenders,
            groups,
            finds,
            found: takers,
            claims: putters,
            heard,
        };
        let relays = Relays {
            groups: lent,
            found,
            claims,
        };
        Ok((relays, ends))
    }

    /// Closes all relays with all their ends. What is left in them is dropped.
    pub(crate) fn close<R: Wait>(self, rt: &R, ends: RelayEnds) -> Result<(), OutOfMemory>
        requires { AreAllEndsOf self ends }
        ensures messages { OnOk result (IsRelayed ends) }
        ensures marks { OnOk result (AreAllMarksPut self ends) }
    {
        let Relays {
            groups,
            found,
            claims,
        } = self;
        let _unsolved = groups.close(rt, ends.lent, ends.groups)?;
        let _unchecked = found.close(rt, ends.finds, ends.found)?;
        let _unheard = claims.close(rt, ends.claims, ends.heard)?;
        Ok(())
    }
}
