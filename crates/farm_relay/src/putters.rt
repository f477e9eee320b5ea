//! Who puts messages into a relay.

ghost use Rattle.std.specs.Prelude.{◌≡◌, []};
ghost use Rattle.crossbeam_channel.specs.Claims.{view, IsSeatAt};
ghost use Rattle.crossbeam_channel.specs.Ends.{sends_on};

use crate::ends::Ends;
use crate::rule::{RelayPass, RelaySender, Shares};
use crate::sending::{send, send_marks};
use std::alloc::{AllocError, Global};
use std::sync::atomic::AtomicU64;
use std::sync::atomic::Ordering::SeqCst;
use std::sync::{Arc, Wait};

/// Puts messages into a relay, from one thread at a time. Its pass knows which, in order.
#[derive(Drop)]
pub struct Putter<T: Drop> {
    pub(crate) sender: RelaySender<T>,
    pub(crate) pass: RelayPass<T>,
    /// How many putters of the relay are not finished, or 0 once it is ended.
    pub(crate) unfinished: Arc<AtomicU64, Global>,
    /// How many takers the relay has.
    pub(crate) takers: usize,
    pub(crate) finished: bool,
    pub(crate) ghost seat: { IsSeatAt (sends_on sender) pass },
    pub(crate) ghost share: { (view pass).shares ≡ 1 },
    pub(crate) ghost taken: { (view pass).taken ≡ [] },
}

impl<T: Drop> Putter<T> {
    ghost use Rattle.std.specs.Prelude.{◌+◌, ◌<◌, ◌≤◌, ◌∷◌, ◌++◌, true, IsErr, IfErr, IfOk, OnOk};
    ghost use Rattle.farm_relay.specs.Tallies.{sharing};
    ghost use Rattle.farm_relay.specs.Relays.{put_by, marks_by, is_finished, PutsAtSame};
    ghost use Rattle.farm_relay.specs.Opening.{IsNewPutter};

    /// A new putter, with a share of this pass.
    pub(crate) fn new(
        ends: &Ends<T>,
        pass: &mut RelayPass<T>,
        unfinished: &Arc<AtomicU64, Global>,
        takers: usize,
    ) -> Result<Putter<T>, AllocError>
        requires seat { IsSeatAt (sends_on ends.now.sender) pass.old }
        requires share { 1 < (view pass.old).shares }
        ensures seat { IsSeatAt (sends_on ends.now.sender) pass.new }
        ensures view { OnOk result (view pass.new ≡ sharing (view pass.old)) }
        ensures new { IfOk result (IsNewPutter ends.now takers) }
    {
        let sender = ends.sender.try_clone()?;
        let unfinished = Arc::try_clone(unfinished)?;
        Ok(Putter {
            sender,
            pass: ends.sender.another::<Shares>(pass),
            unfinished,
            takers,
            finished: false,
        })
    }

    /// The putter's pass, once its work is done.
    pub(crate) fn into_pass(self) -> RelayPass<T>
        ensures { result ≡ self.pass }
    {
        self.pass
    }

    /// Puts a message, or hands it back, which then counts as not put: always after [`Putter::finish`], and where
    /// nobody is left to take it. Waits while all places are full.
    pub fn put<R: Wait>(&mut self, rt: &R, message: T) -> Result<(), T>
        ensures ok { OnOk result (put_by self.new ≡ put_by self.old ++ message ∷ []) }
        ensures back { IfErr result (λ back. back ≡ message) }
        ensures err { IfErr result (λ back. put_by self.new ≡ put_by self.old) }
        ensures late { is_finished self.old ≡ true → IsErr result }
        ensures marks { marks_by self.new ≡ marks_by self.old }
        ensures finished { is_finished self.new ≡ is_finished self.old }
        ensures same { PutsAtSame self.old self.new }
    {
        if self.finished {
            return Err(message);
        }
        send(rt, &self.sender, &mut self.pass, message)
    }

    /// Ends this putter. The last one to end puts one end mark for each taker, and waits while all places are full. A
    /// second call does nothing, and after [`Relay::end`] no putter puts a mark.
    pub fn finish<R: Wait>(&mut self, rt: &R)
        ensures finished { is_finished self.new ≡ true }
        ensures put { put_by self.new ≡ put_by self.old }
        ensures marks { marks_by self.new ≤ marks_by self.old + self.old.takers }
        ensures again { is_finished self.old ≡ true → self.new ≡ self.old }
        ensures same { PutsAtSame self.old self.new }
    {
        if self.finished {
            return;
        }
        self.finished = true;
        if is_last(&self.unfinished) {
            send_marks(rt, &self.sender, &mut self.pass, self.takers);
        }
    }
}

/// Counts one putter as finished, and says whether it was the last. Where none is left to count it was not.
fn is_last(unfinished: &AtomicU64) -> bool {
    let counted = unfinished.fetch_update(SeqCst, SeqCst, |count| count.checked_sub(1));
    counted == Ok(1)
}
