//! The value of a contract on a layout, shown by two graphs.

ghost use Rattle.std.specs.Prelude.{◌≡◌};
ghost use Rattle.strategies.specs.Values.{IsValue};
ghost use Rattle.checker.specs.Claims.{IsShown};
ghost use Rattle.checker.specs.EntryFaults.{EntryAnswers};
ghost use Rattle.checker.specs.Roots.{from_first};
ghost use Rattle.checker.specs.Witnesses.{rooted_shape, seen_as};

use crate::claims::Claimed;
use crate::entry_faults::EntryFault;
use crate::parts::{RootClaim, check_part};
use crate::witnesses::Witness;
use cards::{Layout, Seat, Trump};
use certificate_graph::Graph;
use std::marker::Model;

/// A contract on a layout, and the tricks that declarer takes, no more and no fewer, if both sides play best.
#[derive(Clone, Copy, Debug, PartialEq)]
pub struct Shown {
    /// The four hands.
    pub layout: Layout,
    /// Declarer; the seat at declarer's left leads (Law 41A).
    pub declarer: Seat,
    /// The denomination: the trump suit, or none.
    pub trump: Trump,
    /// The tricks of declarer's side, 0 to the cards of a hand.
    pub k: u8,
}

/// The proof that two graphs showed a value, so that it is the double-dummy value: declarer's side has a strategy that
/// wins `k` tricks against every defence, and the defenders have one that wins the others against every play. Only
/// [`check_entry`] and [`check_claim`] make one.
#[derive(Clone, Copy, Debug, PartialEq)]
pub struct Proven {
    shown: Shown,
}

impl Model for Proven {
    ghost use Rattle.checker.specs.declared.entries.Shown.{Shown};
    ghost use Rattle.checker.specs.Soundness.{IsProven};

    ghost Value = { Shown };

    ghost view = { λ proven. proven.shown };

    ghost invariant = { λ proven. IsProven proven.shown };

    ghost inverse = { λ shown. record { shown = shown } };
}

impl Proven {
    /// Returns the contract, the layout and the tricks.
    pub fn shown(&self) -> Shown
        ensures { result ≡ self.now }
    {
        self.shown
    }

    /// Its contract says what every proof keeps: the tricks are the double-dummy value, and some graphs showed it. It
    /// does nothing.
    pub fn invariant(&self)
        ensures value { IsValue self.now.layout self.now.declarer self.now.trump self.now.k }
        ensures shown { IsShown self.now }
    {
        let _ = &self.shown;
    }
}

/// Checks that the two graphs show that declarer's side takes just k tricks: the first that declarer's side can win
/// them, the second that the defenders can win the others, each from its node 0. Otherwise it returns the first fault:
/// [`EntryFault::KTooLarge`] if k exceeds the cards of a hand, then the fault of the first graph, then the fault of the
/// second. Takes no memory.
pub fn check_entry(
    layout: &Layout,
    declarer: Seat,
    trump: Trump,
    k: u8,
    declarers: &Graph,
    defenders: &Graph,
) -> Result<Proven, EntryFault>
    ensures { EntryAnswers layout.now declarer trump k (from_first declarers.now) (from_first defenders.now) result }
{
    let declarers = Witness::Whole(declarers);
    let defenders = Witness::Whole(defenders);
    check_both(layout, declarer, trump, k, &declarers, &defenders)
}

/// Checks the same for graphs that were checked before, each from its own root. A root that is not below the count of
/// nodes is missing. It looks at no tree: if a graph has a root, the result of its check counts for all nodes. Takes no
/// memory.
pub fn check_claim(
    layout: &Layout,
    declarer: Seat,
    trump: Trump,
    claimed: &Claimed,
) -> Result<Proven, EntryFault>
    ensures { EntryAnswers layout.now declarer trump claimed.now.k
        (rooted_shape claimed.now.declarer) (rooted_shape claimed.now.defenders) result }
{
    let declarers = Witness::At(&claimed.declarer);
    let defenders = Witness::At(&claimed.defenders);
    check_both(layout, declarer, trump, claimed.k, &declarers, &defenders)
}

/// Checks what the graphs show, whether they were checked before or not.
fn check_both(
    layout: &Layout,
    declarer: Seat,
    trump: Trump,
    k: u8,
    declarers: &Witness<'_>,
    defenders: &Witness<'_>,
) -> Result<Proven, EntryFault>
    ensures { EntryAnswers layout.now declarer trump k (seen_as declarers.now) (seen_as defenders.now) result }
{
    declarers.graph().invariant();
    defenders.graph().invariant();
    let size = layout.len() as u8;
    if k > size {
        return Err(EntryFault::KTooLarge);
    }
    let leader = declarer.next();
    let side = declarer.side();
    let claim = RootClaim {
        layout,
        leader,
        trump,
        side,
        need: k,
    };
    check_part(declarers, &claim).map_err(EntryFault::Declarer)?;
    let claim = RootClaim {
        layout,
        leader,
        trump,
        side: side.other(),
        need: size - k,
    };
    check_part(defenders, &claim).map_err(EntryFault::Defenders)?;
    Ok(Proven {
        shown: Shown {
            layout: *layout,
            declarer,
            trump,
            k,
        },
    })
}
