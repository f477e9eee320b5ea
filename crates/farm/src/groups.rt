//! The leases that one search serves: those of one board in one denomination.

ghost use Rattle.std.specs.Prelude.{◌≡◌, ◌+◌, ◌-◌, ◌<◌, ◌≤◌, ℕ, not, filter, length};
ghost use Rattle.farm.specs.Flows.{of_tasks};
ghost use Rattle.farm.specs.Groups.{trump_place, is_same_search, is_claimed, is_declared_in};
ghost use Rattle.farm.specs.Groups.{group_of, others_of, declarers_in, kept_with};

use crate::tasks::{Task, Tasks};
use arrayvec::ArrayVec;
use cards::{Seat, Trump};
use certificate_graph::Bundle;
use lease_book::Entry;

/// Returns the place of a denomination in [`Trump::ALL`], from 0.
fn trump_place(trump: Trump) -> usize
    ensures place { result ≡ trump_place trump }
    ensures below { result < 5 }
{
    match trump {
        Trump::Nt => 0,
        Trump::Suit(suit) => suit.number() + 1,
    }
}

/// Returns whether one search serves both entries: the board and the denomination are the same.
fn is_same_search(one: Entry, other: Entry) -> bool
    ensures { result ≡ is_same_search one other }
{
    one.board == other.board && trump_place(one.trump) == trump_place(other.trump)
}

/// Adds a lease to the group if it is chosen, otherwise to the others. Both lists have room.
fn add(chosen: bool, group: &mut Tasks, others: &mut Tasks, task: Task)
    requires { length group.old.items + length others.old.items < 20 }
    ensures group { group.new.items ≡ kept_with chosen task group.old.items }
    ensures others { others.new.items ≡ kept_with (not chosen) task others.old.items }
{
    if chosen {
        group.push(task);
    } else {
        others.push(task);
    }
}

/// Returns the leases that one search serves together with the first of a batch, and the others, each in their order.
pub(crate) fn first_group(batch: &Tasks) -> (Tasks, Tasks)
    ensures group { result.0.items ≡ group_of batch.now.items }
    ensures others { result.1.items ≡ others_of batch.now.items }
    ensures leases { (weight : ℕ → ℕ) →
        of_tasks weight result.0.items + of_tasks weight result.1.items ≡ of_tasks weight batch.now.items }
    ensures fewer { length result.1.items ≤ length batch.now.items - 1 }
{
    let mut group = Tasks::new();
    let mut others = Tasks::new();
    let tasks = batch.as_slice();
    let Some(first) = tasks.first() else {
        return (group, others);
    };
    for task in tasks.iter() {
        let is_with_first = is_same_search(first.entry, task.entry);
        add(is_with_first, &mut group, &mut others, *task);
    }
    (group, others)
}

/// Returns whether one of the leases is for this declarer.
fn is_declared(group: &Tasks, declarer: Seat) -> bool
    ensures { result ≡ is_declared_in group.now.items declarer }
{
    let tasks = group.as_slice();
    for task in tasks.iter() {
        if task.entry.declarer.number() == declarer.number() {
            return true;
        }
    }
    false
}

/// Returns the declarers of the leases, each once, in the order of the seats.
pub(crate) fn declarers_of(group: &Tasks) -> ArrayVec<Seat, 4>
    ensures { result.items ≡ declarers_in group.now.items }
{
    let mut declarers = ArrayVec::new();
    for declarer in Seat::ALL {
        if is_declared(group, declarer) {
            declarers.push(declarer);
        }
    }
    declarers
}

/// Returns the leases for whose declarers the bundle has a claim, and the others, each in their order.
pub(crate) fn by_claims(group: &Tasks, bundle: &Bundle) -> (Tasks, Tasks)
    ensures claimed { result.0.items ≡ filter (is_claimed bundle.now) group.now.items }
    ensures others { result.1.items ≡ filter (λ task. not (is_claimed bundle.now task)) group.now.items }
    ensures leases { (weight : ℕ → ℕ) →
        of_tasks weight result.0.items + of_tasks weight result.1.items ≡ of_tasks weight group.now.items }
{
    let mut claimed = Tasks::new();
    let mut others = Tasks::new();
    let tasks = group.as_slice();
    for task in tasks.iter() {
        let has_claim = bundle.claim_for(task.entry.declarer).is_some();
        add(has_claim, &mut claimed, &mut others, *task);
    }
    (claimed, others)
}
