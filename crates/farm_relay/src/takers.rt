//! Who takes messages out of a relay.

ghost use Rattle.std.specs.Prelude.{◌≡◌, []};
ghost use Rattle.crossbeam_channel.specs.Claims.{view, IsSeatAt};
ghost use Rattle.crossbeam_channel.specs.Ends.{receives_on};

use crate::ends::Ends;
use crate::receiving::receive;
use crate::rule::{RelayPass, RelayReceiver, Shares};
use std::alloc::AllocError;
use std::sync::Wait;

/// Takes messages out of a relay, in one thread at a time. Its pass knows which, in order.
#[derive(Drop)]
pub struct Taker<T: Drop> {
    pub(crate) receiver: RelayReceiver<T>,
    pub(crate) pass: RelayPass<T>,
    pub(crate) ghost seat: { IsSeatAt (receives_on receiver) pass },
    pub(crate) ghost share: { (view pass).shares ≡ 1 },
    pub(crate) ghost put: { (view pass).put ≡ [] },
}

impl<T: Drop> Taker<T> {
    ghost use Rattle.std.specs.Prelude.{◌+◌, ◌<◌, ◌∷◌, ◌++◌, IfSome, IfNone, IsSome, IfOk, OnOk};
    ghost use Rattle.crossbeam_channel.specs.Ends.{sends_on};
    ghost use Rattle.farm_relay.specs.Tallies.{sharing};
    ghost use Rattle.farm_relay.specs.Relays.{taken_by, marks_of, TakesAtSame};
    ghost use Rattle.farm_relay.specs.Opening.{IsNewTaker};

    /// A new taker, with a share of this pass.
    pub(crate) fn new(ends: &Ends<T>, pass: &mut RelayPass<T>) -> Result<Taker<T>, AllocError>
        requires seat { IsSeatAt (sends_on ends.now.sender) pass.old }
        requires share { 1 < (view pass.old).shares }
        ensures seat { IsSeatAt (sends_on ends.now.sender) pass.new }
        ensures view { OnOk result (view pass.new ≡ sharing (view pass.old)) }
        ensures new { IfOk result (IsNewTaker ends.now) }
    {
        let receiver = ends.receiver.try_clone()?;
        Ok(Taker {
            receiver,
            pass: ends.sender.another::<Shares>(pass),
        })
    }

    /// The taker's end and pass, once its work is done.
    pub(crate) fn into_parts(self) -> (RelayReceiver<T>, RelayPass<T>)
        ensures receiver { result.0 ≡ self.receiver }
        ensures pass { result.1 ≡ self.pass }
    {
        (self.receiver, self.pass)
    }

    /// Takes the message at the front. None says that an end mark was there, which is then taken. Waits while the relay
    /// is empty.
    pub fn take<R: Wait>(&mut self, rt: &R) -> Option<T>
        ensures some { IfSome result (λ message. taken_by self.new ≡ taken_by self.old ++ message ∷ []) }
        ensures none { IfNone result (taken_by self.new ≡ taken_by self.old) }
        ensures marks { IsSome result → marks_of self.new ≡ marks_of self.old }
        ensures end { IfNone result (marks_of self.new ≡ marks_of self.old + 1) }
        ensures same { TakesAtSame self.old self.new }
    {
        receive(rt, &self.receiver, &mut self.pass)
    }
}
