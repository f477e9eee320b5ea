//! The opening of a relay.

ghost use Rattle.std.specs.Prelude.{◌≡◌, ◌<◌, All, IfOk, OnOk, length};
ghost use Rattle.crossbeam_channel.specs.Claims.{view, IsSeatAt};
ghost use Rattle.crossbeam_channel.specs.Ends.{sends_on};
ghost use Rattle.farm_relay.specs.Tallies.{given_away};
ghost use Rattle.farm_relay.specs.Relays.{IsOpened};
ghost use Rattle.farm_relay.specs.Opening.{IsNewPutter, IsNewTaker};

use crate::ends::{Ends, new_ends};
use crate::putters::Putter;
use crate::relays::Relay;
use crate::rule::RelayPass;
use crate::takers::Taker;
use cards::OutOfMemory;
use std::alloc::Global;
use std::sync::Arc;
use std::sync::atomic::AtomicU64;

/// So many putters with one count of who is not finished, and with shares of this pass.
fn new_putters<T: Drop>(
    alloc: Global,
    ends: &Ends<T>,
    pass: &mut RelayPass<T>,
    unfinished: &Arc<AtomicU64, Global>,
    count: usize,
    takers: usize,
) -> Result<Vec<Putter<T>>, OutOfMemory>
    requires seat { IsSeatAt (sends_on ends.now.sender) pass.old }
    requires share { count < (view pass.old).shares }
    ensures seat { IsSeatAt (sends_on ends.now.sender) pass.new }
    ensures view { OnOk result (view pass.new ≡ given_away count (view pass.old)) }
    ensures new { IfOk result (λ putters. All (IsNewPutter ends.now takers) putters.items) }
    ensures count { IfOk result (λ putters. length putters.items ≡ count) }
{
    let mut putters = Vec::new(alloc);
    for _putter in 0..count {
        putters.push(Putter::new(ends, pass, unfinished, takers)?)?;
    }
    Ok(putters)
}

/// So many takers, with shares of this pass.
fn new_takers<T: Drop>(
    alloc: Global,
    ends: &Ends<T>,
    pass: &mut RelayPass<T>,
    count: usize,
) -> Result<Vec<Taker<T>>, OutOfMemory>
    requires seat { IsSeatAt (sends_on ends.now.sender) pass.old }
    requires share { count < (view pass.old).shares }
    ensures seat { IsSeatAt (sends_on ends.now.sender) pass.new }
    ensures view { OnOk result (view pass.new ≡ given_away count (view pass.old)) }
    ensures new { IfOk result (λ takers. All (IsNewTaker ends.now) takers.items) }
    ensures count { IfOk result (λ takers. length takers.items ≡ count) }
{
    let mut takers = Vec::new(alloc);
    for _taker in 0..count {
        takers.push(Taker::new(ends, pass)?)?;
    }
    Ok(takers)
}

impl<T: Drop> Relay<T> {
    /// Opens a relay of so many places, with so many putters and takers.
    pub fn open(
        alloc: Global,
        places: usize,
        putters: usize,
        takers: usize,
    ) -> Result<(Relay<T>, Vec<Putter<T>>, Vec<Taker<T>>), OutOfMemory>
        requires places { 0 < places }
        requires putters { 0 < putters }
        requires takers { 0 < takers }
        ensures { IfOk result (λ made. IsOpened places putters takers made.0 made.1.items made.2.items) }
    {
        let (ends, pass) = new_ends(alloc, places)?;
        let mut pass = pass;
        let unfinished = Arc::new(alloc, AtomicU64::new(putters as u64))?;
        let all_putters = new_putters(alloc, &ends, &mut pass, &unfinished, putters, takers)?;
        let all_takers = new_takers(alloc, &ends, &mut pass, takers)?;
        let Ends {
            sender,
            receiver: _,
        } = ends;
        let relay = Relay {
            alloc,
            sender,
            pass,
            unfinished,
            putters,
            takers,
            ended: false,
        };
        Ok((relay, all_putters, all_takers))
    }
}
