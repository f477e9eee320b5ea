//! Both sides of a contract, each with its certificate.

ghost use Rattle.std.specs.Prelude.{MatchResult};
ghost use Rattle.checker.specs.EntryFaults.{IsEntryFault};
ghost use Rattle.checker.specs.Roots.{from_first};
ghost use Rattle.certificate_play.specs.Sides.{AreBegun};

use crate::playing::Playing;
use cards::{Layout, Seat, Trump};
use certificate_graph::Graph;
use checker::{EntryFault, check_entry};

/// The two sides of a contract, each of which plays by its certificate.
#[derive(Drop)]
pub struct Sides<'a> {
    /// Declarer and dummy.
    pub declarers: Playing<'a>,
    /// The defenders.
    pub defenders: Playing<'a>,
}

/// Before the opening lead of a contract, where the graphs show that declarer's side takes just k tricks: then it has
/// promised k, and the defenders the others. Else the fault that [`check_entry`] tells. Takes no memory.
pub fn begin_both<'a>(
    layout: &Layout,
    declarer: Seat,
    trump: Trump,
    k: u8,
    declarers: &'a Graph,
    defenders: &'a Graph,
) -> Result<Sides<'a>, EntryFault>
    ensures { MatchResult result
        (AreBegun layout.now declarer trump k)
        (IsEntryFault layout.now declarer trump k (from_first declarers.now) (from_first defenders.now)) }
{
    check_entry(layout, declarer, trump, k, declarers, defenders)?;
    let leader = declarer.next();
    let others = layout.len() as u8 - k;
    Ok(Sides {
        declarers: Playing::begin(declarers, *layout, leader, k),
        defenders: Playing::begin(defenders, *layout, leader, others),
    })
}
