//! The work of the lender.

ghost use Rattle.std.specs.Prelude.{◌≡◌, ◌+◌, ℕ, List, All, OnOk};
ghost use Rattle.lease_desk.specs.declared.receipts.Receipt.{Receipt};
ghost use Rattle.lease_desk.specs.Desks.{receipts_in};
ghost use Rattle.farm_relay.specs.Relays.{put_by, PutsAtSame};
ghost use Rattle.farm.specs.Working.{IsOnDuty};
ghost use Rattle.farm.specs.Findings.{PutsTasks, IsLentUnder};
ghost use Rattle.farm.specs.Requests.{AreGiven, EndsIdle};
ghost use Rattle.farm.specs.Posts.{StaysLender, LendsOwn};
ghost use Rattle.farm.specs.Flows.{LendsAll, of_tasks, all_lent};

use crate::batches::lease_batch;
use crate::crews::Crew;
use crate::groups::first_group;
use crate::posts::LenderPost;
use crate::requests::{frees_a_lease, next_task};
use crate::tasks::{Group, Tasks};
use farm_relay::Putter;
use farm_threads::Halt;
use lease_book::Clock;
use std::sync::Wait;

/// Puts a group of leases for the solvers, if there are some. The relay hands the group back if no solver is left to
/// take it: then not all threads were started.
fn lend_group<R: Wait>(rt: &R, groups: &mut Putter<Group>, tasks: Tasks) -> Result<(), Halt>
    ensures same { PutsAtSame groups.old groups.new }
    ensures puts { OnOk result (PutsTasks tasks.items (put_by groups.old) (put_by groups.new)) }
{
    if tasks.is_empty() {
        return Ok(());
    }
    let Err(_back) = groups.put(rt, Group { tasks }) else {
        return Ok(());
    };
    Err(Halt::NoThread)
}

/// Puts the leases of a batch for the solvers, one group after another, in the order of their first leases.
fn lend_batch<R: Wait>(rt: &R, groups: &mut Putter<Group>, batch: Tasks) -> Result<(), Halt>
    ensures same { PutsAtSame groups.old groups.new }
    ensures leases { OnOk result ((weight : ℕ → ℕ) → all_lent weight (put_by groups.new)
        ≡ all_lent weight (put_by groups.old) + of_tasks weight batch.items) }
    ensures lends { OnOk result ((receipts : List Receipt) → AreGiven receipts batch.items
        → All (IsLentUnder receipts) (put_by groups.old) → All (IsLentUnder receipts) (put_by groups.new)) }
{
    let mut rest = batch;
    for _group in 0..rest.len() {
        let (group, others) = first_group(&rest);
        lend_group(rt, groups, group)?;
        rest = others;
    }
    Ok(())
}

/// Leases entries, batch by batch, and lends them to the solvers, until no entry is open and no lease has run out. It
/// ends sooner if memory runs out at the desk, or if no solver is left.
pub(crate) fn lend_all<S, G, C: Clock, R: Wait>(
    rt: &R,
    crew: &Crew<'_, S, G, C>,
    post: &mut LenderPost,
) -> Result<(), Halt>
    requires duty { IsOnDuty C.may_tell crew.now post.old.chair }
    requires leases { (weight : ℕ → ℕ) → LendsAll weight post.old }
    requires lends { LendsOwn post.old }
    ensures stays { StaysLender C.may_tell crew.now post.old post.new }
    ensures leases { OnOk result ((weight : ℕ → ℕ) → LendsAll weight post.new) }
    ensures lends { OnOk result (LendsOwn post.new) }
    ensures idle { OnOk result (EndsIdle (receipts_in post.new.chair)) }
{
    for _batch in rt.forever() {
        let guard = crew.lease_lock.lock(rt);
        if let Some(first) = next_task(rt, crew, &mut post.chair, &guard)? {
            let batch = lease_batch(rt, crew, &mut post.chair, first, guard)?;
            lend_batch(rt, &mut post.groups, batch)?;
        } else if !frees_a_lease(rt, crew, &mut post.chair)? {
            return Ok(());
        }
    }
    unreachable!()
}
