//! The closing of a relay.

ghost use Rattle.std.specs.Prelude.{◌≡◌, ◌<◌, All, IfOk, OnOk, length};
ghost use Rattle.crossbeam_channel.specs.Claims.{view, IsSeatAt};
ghost use Rattle.crossbeam_channel.specs.Ends.{sends_on, receives_on};
ghost use Rattle.farm_relay.specs.Tallies.{all_shares};
ghost use Rattle.farm_relay.specs.Relays.{AreAllOf, IsNothingLost, AreMarksPut};
ghost use Rattle.farm_relay.specs.Closing.{HasJoinedPutters, HasJoinedTakers, IsLeft};

use crate::items::Item;
use crate::putters::Putter;
use crate::relays::Relay;
use crate::rule::{RelayPass, RelayReceiver, RelaySender, Shares, Takes};
use crate::takers::Taker;
use cards::OutOfMemory;
use std::alloc::Global;
use std::sync::Wait;

/// Joins the passes of all putters to this one.
fn join_putters<T: Drop>(sender: &RelaySender<T>, pass: &mut RelayPass<T>, putters: Vec<Putter<T>>)
    requires seat { IsSeatAt (sends_on sender.now) pass.old }
    requires share { 0 < (view pass.old).shares }
    requires of { All (λ putter. sends_on putter.sender ≡ sends_on sender.now) putters.items }
    ensures seat { IsSeatAt (sends_on sender.now) pass.new }
    ensures joined { HasJoinedPutters (view pass.old) putters.items (view pass.new) }
{
    for putter in putters {
        sender.absorb::<Shares>(pass, putter.into_pass());
    }
}

/// Joins the passes of all takers to this one, and keeps the end of one of them, to take what is left.
fn join_takers<T: Drop>(
    sender: &RelaySender<T>,
    pass: &mut RelayPass<T>,
    takers: Vec<Taker<T>>,
) -> RelayReceiver<T>
    requires seat { IsSeatAt (sends_on sender.now) pass.old }
    requires share { 0 < (view pass.old).shares }
    requires some { 0 < length takers.items }
    requires of { All (λ taker. receives_on taker.receiver ≡ sends_on sender.now) takers.items }
    ensures of { receives_on result ≡ sends_on sender.now }
    ensures seat { IsSeatAt (sends_on sender.now) pass.new }
    ensures joined { HasJoinedTakers (view pass.old) takers.items (view pass.new) }
{
    let mut takers = takers;
    let Some(last) = takers.pop() else {
        unreachable!()
    };
    for taker in takers {
        let (_receiver, own) = taker.into_parts();
        sender.absorb::<Shares>(pass, own);
    }
    let (receiver, own) = last.into_parts();
    sender.absorb::<Shares>(pass, own);
    receiver
}

/// Takes all that is left, front first, with the pass that has all shares, and keeps the messages.
fn drain<T: Drop, R: Wait>(
    rt: &R,
    alloc: Global,
    receiver: &RelayReceiver<T>,
    pass: RelayPass<T>,
) -> Result<Vec<T>, OutOfMemory>
    requires seat { IsSeatAt (receives_on receiver.now) pass }
    requires all { (view pass).shares ≡ all_shares }
    ensures { IfOk result (λ left. IsLeft (view pass) left.items) }
{
    let mut pass = pass;
    let mut left = Vec::new(alloc);
    for _ in rt.forever() {
        match receiver.try_recv_as::<Takes, R>(rt, &mut pass) {
            Ok(Item::Message(message)) => left.push(message)?,
            Ok(Item::EndMark) => {}
            Err(_) => return Ok(left),
        }
    }
    unreachable!()
}

impl<T: Drop> Relay<T> {
    /// Closes the relay with all its putters and takers, in any order, and gives what is left in it, front first. Where
    /// memory runs out, what is left is dropped.
    pub fn close<R: Wait>(
        self,
        rt: &R,
        putters: Vec<Putter<T>>,
        takers: Vec<Taker<T>>,
    ) -> Result<Vec<T>, OutOfMemory>
        requires { AreAllOf self putters.items takers.items }
        // Every message that was put was taken or is left, as often as it was put: whoever weighs messages, however
        // they like, finds that those put weigh as much as those taken and those left.
        ensures messages { IfOk result (λ left. IsNothingLost putters.items takers.items left.items) }
        ensures marks { OnOk result (AreMarksPut self putters.items takers.items) }
    {
        let Relay {
            alloc,
            sender,
            pass,
            unfinished: _,
            putters: _,
            takers: _,
            ended: _,
        } = self;
        let mut pass = pass;
        join_putters(&sender, &mut pass, putters);
        let receiver = join_takers(&sender, &mut pass, takers);
        drain(rt, alloc, &receiver, pass)
    }
}
