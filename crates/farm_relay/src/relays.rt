//! A relay, from its opening to its closing.

ghost use Rattle.std.specs.Prelude.{◌≡◌, ◌+◌, ◌<◌, [], ◌^◌};
ghost use Rattle.crossbeam_channel.specs.Claims.{view, IsSeatAt};
ghost use Rattle.crossbeam_channel.specs.Ends.{sends_on};
ghost use Rattle.farm_relay.specs.Items.{messages_in};

use crate::rule::{RelayPass, RelaySender};
use crate::sending::send_marks;
use std::alloc::Global;
use std::sync::atomic::AtomicU64;
use std::sync::atomic::Ordering::SeqCst;
use std::sync::{Arc, Wait};

/// A channel of so many places between putters and takers. It is kept by who closes it. It has no end that takes: so a
/// put does not wait for takers of whom none is left.
#[derive(Drop)]
pub struct Relay<T: Drop> {
    pub(crate) alloc: Global,
    pub(crate) sender: RelaySender<T>,
    pub(crate) pass: RelayPass<T>,
    /// How many putters are not finished, or 0 once the relay is ended.
    pub(crate) unfinished: Arc<AtomicU64, Global>,
    /// How many putters and takers there are.
    pub(crate) putters: usize,
    pub(crate) takers: usize,
    /// Whether [`Relay::end`] was called.
    pub(crate) ended: bool,
    pub(crate) ghost seat: { IsSeatAt (sends_on sender) pass },
    pub(crate) ghost put: { messages_in (view pass).put ≡ [] },
    pub(crate) ghost taken: { (view pass).taken ≡ [] },
    pub(crate) ghost shares: { (view pass).shares + putters + takers ≡ 2 ^ 66 },
    pub(crate) ghost share: { 0 < (view pass).shares },
    pub(crate) ghost some_taker: { 0 < takers },
}

impl<T: Drop> Relay<T> {
    ghost use Rattle.std.specs.Prelude.{◌≤◌, true};
    ghost use Rattle.farm_relay.specs.Relays.{IsSameRelay, is_ended, marks_at_end, takers_of};

    /// Ends the relay when some putters will never finish. It puts the end marks that the putters owe, one for each
    /// taker, unless all putters have finished. A putter that finishes later puts no mark, and a second call does
    /// nothing. The call waits while all places are full, unless no taker is left.
    pub fn end<R: Wait>(&mut self, rt: &R)
        ensures ended { is_ended self.new ≡ true }
        ensures marks { marks_at_end self.new ≤ marks_at_end self.old + takers_of self.old }
        ensures again { is_ended self.old ≡ true → self.new ≡ self.old }
        ensures same { IsSameRelay self.old self.new }
    {
        if self.ended {
            return;
        }
        self.ended = true;
        if self.unfinished.swap(0, SeqCst) > 0 {
            send_marks(rt, &self.sender, &mut self.pass, self.takers);
        }
    }
}
