//! The work of a clerk.

ghost use Rattle.std.specs.Prelude.{◌≡◌, ◌+◌, ℕ, OnOk, OnErr};
ghost use Rattle.lease_desk.specs.Desks.{receipts_in, terms_of};
ghost use Rattle.farm_relay.specs.Relays.{marks_of};
ghost use Rattle.farm.specs.Working.{IsOnDuty, StaysOnDuty};
ghost use Rattle.farm.specs.Requests.{HandsIn};
ghost use Rattle.farm.specs.Posts.{StaysClerk, HandsInTaken};
ghost use Rattle.farm.specs.Flows.{SettlesClaims};

use crate::crews::Crew;
use crate::draining::take_rest;
use crate::posts::ClerkPost;
use crate::tasks::CheckedClaim;
use cards::OutOfMemory;
use lease_book::{Clock, Gate};
use lease_desk::Chair;
use std::sync::Wait;

/// Hands in a claim, and calls the gate with the reply.
fn hand_in<S, G: Gate, C: Clock, R: Wait>(
    rt: &R,
    crew: &Crew<'_, S, G, C>,
    chair: &mut Chair,
    claim: &CheckedClaim,
) -> Result<(), OutOfMemory>
    requires { IsOnDuty C.may_tell crew.now chair.old }
    ensures stays { StaysOnDuty C.may_tell crew.now chair.old chair.new }
    ensures told { OnOk result (HandsIn (terms_of crew.now.desk.now) claim.now (receipts_in chair.old)
        (receipts_in chair.new)) }
{
    let task = claim.task;
    let told = crew.desk.hand_in(
        rt,
        chair,
        task.lease,
        task.entry,
        &claim.claimed,
        crew.means.gate,
    )?;
    crew.means.gate.after_check(task.entry, told.event.reply);
    Ok(())
}

/// Takes claims and hands each in, until an end mark comes or memory runs out.
fn hand_in_all<S, G: Gate, C: Clock, R: Wait>(
    rt: &R,
    crew: &Crew<'_, S, G, C>,
    post: &mut ClerkPost,
) -> Result<(), OutOfMemory>
    requires duty { IsOnDuty C.may_tell crew.now post.old.chair }
    requires leases { (weight : ℕ → ℕ) → SettlesClaims weight post.old }
    ensures stays { StaysClerk C.may_tell crew.now post.old post.new }
    ensures ended { OnOk result (marks_of post.new.claims ≡ marks_of post.old.claims + 1) }
    ensures going { OnErr result (marks_of post.new.claims ≡ marks_of post.old.claims) }
    ensures leases { OnOk result ((weight : ℕ → ℕ) → SettlesClaims weight post.new) }
    ensures hands_in { OnOk result (HandsInTaken (terms_of crew.now.desk.now) post.old post.new) }
{
    for _ in rt.forever() {
        let Some(claim) = post.claims.take(rt) else {
            return Ok(());
        };
        hand_in(rt, crew, &mut post.chair, &claim)?;
    }
    unreachable!()
}

/// Takes claims until an end mark comes, and hands each in. After memory has run out it only takes them, so that no
/// checker waits for room.
pub(crate) fn settle_all<S, G: Gate, C: Clock, R: Wait>(
    rt: &R,
    crew: &Crew<'_, S, G, C>,
    post: &mut ClerkPost,
) -> Result<(), OutOfMemory>
    requires duty { IsOnDuty C.may_tell crew.now post.old.chair }
    requires leases { (weight : ℕ → ℕ) → SettlesClaims weight post.old }
    ensures stays { StaysClerk C.may_tell crew.now post.old post.new }
    ensures ended { marks_of post.new.claims ≡ marks_of post.old.claims + 1 }
    ensures leases { OnOk result ((weight : ℕ → ℕ) → SettlesClaims weight post.new) }
    ensures hands_in { OnOk result (HandsInTaken (terms_of crew.now.desk.now) post.old post.new) }
{
    match hand_in_all(rt, crew, post) {
        Ok(()) => Ok(()),
        Err(fault) => {
            take_rest(rt, &mut post.claims);
            Err(fault)
        }
    }
}
