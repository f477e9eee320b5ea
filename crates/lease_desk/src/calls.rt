//! The calls at the desk.

ghost use Rattle.lease_book.specs.declared.events.Asked.TheVariants.{Lease, Expire, GiveUp};
ghost use Rattle.lease_desk.specs.Askings.{asked_of};
ghost use Rattle.lease_desk.specs.Desks.{EndsCall, IsChairOf, IsTold, terms_of};
ghost use Rattle.lease_desk.specs.HandIns.{IsHandedIn};

use crate::announcing::announce;
use crate::asking::Asking;
use crate::chairs::Chair;
use crate::desk::Desk;
use crate::entering::attend;
use crate::receipts::Receipt;
use crate::verdicts::verdict_on;
use cards::OutOfMemory;
use checker::Claimed;
use lease_book::{Entry, Gate};
use std::sync::Wait;

impl Desk {
    /// Makes a call from a chair, which gets the receipt.
    fn call<R: Wait>(
        &self,
        rt: &R,
        chair: &mut Chair,
        asking: Asking,
    ) -> Result<Receipt, OutOfMemory>
        requires { IsChairOf self.now chair.old }
        ensures { EndsCall self.now (IsTold (terms_of self.now) (asked_of asking)) chair.old chair.new result }
    {
        if chair.receipts.reserve(1).is_err() {
            return Err(OutOfMemory);
        }
        let told = attend(rt, &self.ends, &mut chair.token, chair.number, asking)?;
        let kept = &told;
        chair.receipts.push_reserved(*kept);
        Ok(told)
    }

    /// Asks for a lease at this moment: the least open entry, or that none is open.
    pub fn lease<R: Wait>(
        &self,
        rt: &R,
        chair: &mut Chair,
        now: u64,
    ) -> Result<Receipt, OutOfMemory>
        requires { IsChairOf self.now chair.old }
        ensures { EndsCall self.now (IsTold (terms_of self.now) (Lease now)) chair.old chair.new result }
    {
        self.call(rt, chair, Asking::Lease { now })
    }

    /// Frees the leases whose deadline is at this moment or before it.
    pub fn expire<R: Wait>(
        &self,
        rt: &R,
        chair: &mut Chair,
        now: u64,
    ) -> Result<Receipt, OutOfMemory>
        requires { IsChairOf self.now chair.old }
        ensures { EndsCall self.now (IsTold (terms_of self.now) (Expire now)) chair.old chair.new result }
    {
        self.call(rt, chair, Asking::Expire { now })
    }

    /// Takes a lease back.
    pub fn give_up<R: Wait>(
        &self,
        rt: &R,
        chair: &mut Chair,
        lease: u64,
    ) -> Result<Receipt, OutOfMemory>
        requires { IsChairOf self.now chair.old }
        ensures { EndsCall self.now (IsTold (terms_of self.now) (GiveUp lease)) chair.old chair.new result }
    {
        self.call(rt, chair, Asking::GiveUp { lease })
    }

    /// Tells the gate, checks the claim for the entry on the deal of its board, and hands the verdict in under the
    /// lease. The claim is checked before the book is taken, so that others go on meanwhile.
    pub fn hand_in<R: Wait, G: Gate>(
        &self,
        rt: &R,
        chair: &mut Chair,
        lease: u64,
        entry: Entry,
        claimed: &Claimed,
        gate: &G,
    ) -> Result<Receipt, OutOfMemory>
        requires { IsChairOf self.now chair.old }
        ensures { EndsCall self.now (IsHandedIn (terms_of self.now) lease entry claimed.now) chair.old chair.new
            result }
    {
        let check = announce(gate, lease);
        let verdict = verdict_on(self.boards.as_slice(), entry, claimed, check);
        self.call(
            rt,
            chair,
            Asking::HandIn {
                lease,
                entry,
                verdict,
            },
        )
    }
}
