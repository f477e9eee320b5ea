//! Two putters and two takers of a relay, each in a thread of its own.

ghost use Rattle.std.specs.Prelude.{◌≡◌, ◌∷◌, [], IfOk, length};
ghost use Rattle.farm_relay.specs.Relays.{PutsAtSame, TakesAtSame};

use crate::expect::expect_eq;
use crate::relay_runs::{expect_numbers, put_range, take_all};
use crate::relay_watch::soon;
use cards::OutOfMemory;
use farm_relay::{Putter, Relay, Taker};
use std::alloc::Global;
use std::sync::Wait;
use std::test::Fail;
use std::thread;
use std::thread::Threads;

/// A taker with what it took.
type Took = (Taker<u64>, Vec<u64>);

/// Puts the numbers from one up to another, without it, and finishes. Says how many were handed back.
fn put_there<R: Wait>(rt: &R, putter: Putter<u64>, first: u64, end: u64) -> (Putter<u64>, u64)
    ensures { PutsAtSame putter result.0 }
{
    let mut putter = putter;
    let back = put_range(rt, &mut putter, first, end);
    putter.finish(rt);
    (putter, back)
}

/// Takes until nothing comes.
fn take_there<R: Wait>(rt: &R, alloc: Global, taker: Taker<u64>) -> Result<Took, OutOfMemory>
    ensures { IfOk result (λ took. TakesAtSame taker took.0) }
{
    let mut taker = taker;
    let taken = take_all(rt, alloc, &mut taker)?;
    Ok((taker, taken))
}

/// Puts the numbers from 1 to 1,000 in two threads.
fn put_both<R: Threads + Wait + Sync>(
    rt: &R,
    first: Putter<u64>,
    second: Putter<u64>,
) -> (Putter<u64>, Putter<u64>, u64)
    ensures first { PutsAtSame first result.0 }
    ensures second { PutsAtSame second result.1 }
{
    let (low, high) = thread::join(
        rt,
        move || put_there(rt, first, 1, 501),
        move || put_there(rt, second, 501, 1001),
    );
    (low.0, high.0, low.1.wrapping_add(high.1))
}

/// Takes in two threads until nothing comes. What the two took is one list.
fn take_both<R: Threads + Wait + Sync>(
    rt: &R,
    alloc: Global,
    first: Taker<u64>,
    second: Taker<u64>,
) -> Result<(Taker<u64>, Taker<u64>, Vec<u64>), OutOfMemory>
    ensures first { IfOk result (λ took. TakesAtSame first took.0) }
    ensures second { IfOk result (λ took. TakesAtSame second took.1) }
{
    let (one, other) = thread::join(
        rt,
        move || take_there(rt, alloc, first),
        move || take_there(rt, alloc, second),
    );
    let (first, taken) = one?;
    let (second, more) = other?;
    let (mut taken, mut more) = (taken, more);
    taken.append(&mut more)?;
    Ok((first, second, taken))
}

/// The two of a list of two.
fn two_of<X: Drop>(all: Vec<X>) -> (X, X)
    requires { length all.items ≡ 2 }
    ensures { all.items ≡ result.0 ∷ result.1 ∷ [] }
{
    let mut all = all;
    let (Some(second), Some(first)) = (all.pop(), all.pop()) else {
        unreachable!()
    };
    (first, second)
}

/// Both in one list.
fn both<X: Drop>(alloc: Global, first: X, second: X) -> Result<Vec<X>, OutOfMemory>
    ensures { IfOk result (λ all. all.items ≡ first ∷ second ∷ []) }
{
    let mut all = Vec::new(alloc);
    all.push(first)?;
    all.push(second)?;
    Ok(all)
}

/// Putters and takers after their work, what was taken, and how many were handed back.
type Worked = (
    Putter<u64>,
    Putter<u64>,
    Taker<u64>,
    Taker<u64>,
    Vec<u64>,
    u64,
);

/// Puts and takes in four threads.
fn work<R: Threads + Wait + Sync>(
    rt: &R,
    alloc: Global,
    low: Putter<u64>,
    high: Putter<u64>,
    one: Taker<u64>,
    other: Taker<u64>,
) -> Result<Worked, OutOfMemory>
    ensures low { IfOk result (λ worked. PutsAtSame low worked.0) }
    ensures high { IfOk result (λ worked. PutsAtSame high worked.1) }
    ensures one { IfOk result (λ worked. TakesAtSame one worked.2) }
    ensures other { IfOk result (λ worked. TakesAtSame other worked.3) }
{
    let (takes, puts) = thread::join(
        rt,
        move || take_both(rt, alloc, one, other),
        move || put_both(rt, low, high),
    );
    let (one, other, taken) = takes?;
    Ok((puts.0, puts.1, one, other, taken, puts.2))
}

/// What comes of 1,000 numbers, taken and left, and how many were handed back.
fn exchange<R: Threads + Wait + Sync>(
    rt: &R,
    alloc: Global,
) -> Result<(Vec<u64>, u64), OutOfMemory> {
    let (relay, putters, takers) = Relay::<u64>::open(alloc, 64, 2, 2)?;
    let (low, high) = two_of(putters);
    let (one, other) = two_of(takers);
    let (low, high, one, other, taken, back) = work(rt, alloc, low, high, one, other)?;
    let putters = both(alloc, low, high)?;
    let takers = both(alloc, one, other)?;
    let mut left = relay.close(rt, putters, takers)?;
    let mut taken = taken;
    taken.append(&mut left)?;
    Ok((taken, back))
}

#[test]
fn two_and_two(rt: HostRuntime) -> Result<(), Fail> {
    let exchanged = soon(&rt, || exchange(&rt, rt.alloc()));
    let (came, back) = exchanged?;
    let mut came = came;
    came.sort()?;
    expect_numbers(&rt, came.as_slice(), 1, 1001);
    expect_eq(&rt, &back, &0);
    Ok(())
}
