//! Calls of a relay that wait: a take at an empty one, a put at a full one. No put waits if nobody is left to take, and
//! no take if the relay is ended.

use crate::expect::expect_eq;
use crate::relay_watch::{end_soon, soon, take_end_soon};
use cards::OutOfMemory;
use farm_relay::{Putter, Relay, Taker};
use std::alloc::Global;
use std::sync::Wait;
use std::sync::atomic::AtomicBool;
use std::sync::atomic::Ordering::SeqCst;
use std::test::Fail;
use std::thread;
use std::thread::Threads;

/// How often a thread looks whether the other has come to its call, and then goes on looking, so that the call is under
/// way.
const TURNS: u64 = 10_000;

/// Looks until it is set, and then as often again.
fn look_for(flag: &AtomicBool) {
    let mut turns = 0u64;
    for _turn in 0..TURNS * TURNS {
        thread::yield_now();
        if flag.load(SeqCst) {
            turns = turns.wrapping_add(1);
        }
        if turns >= TURNS {
            return;
        }
    }
}

/// Takes, and says before that it is about to. The taker is kept, so that a put does not come back.
fn take_now<R: Wait>(rt: &R, taker: Taker<u64>, begun: &AtomicBool) -> (Taker<u64>, Option<u64>) {
    let mut taker = taker;
    begun.store(true, SeqCst);
    let taken = taker.take(rt);
    (taker, taken)
}

/// Puts a number, and says before that it is about to. Says whether it was put.
fn put_now<R: Wait>(rt: &R, putter: Putter<u64>, number: u64, begun: &AtomicBool) -> bool {
    let mut putter = putter;
    begun.store(true, SeqCst);
    putter.put(rt, number).is_ok()
}

/// What is taken from an empty relay, into which a number is put only once the take is under way.
fn taken_when_empty<R: Threads + Wait + Sync>(
    rt: &R,
    alloc: Global,
) -> Result<Option<u64>, OutOfMemory> {
    let (_relay, mut putters, mut takers) = Relay::<u64>::open(alloc, 1, 1, 1)?;
    let (Some(putter), Some(taker)) = (putters.pop(), takers.pop()) else {
        return Ok(None);
    };
    let flag = AtomicBool::new(false);
    let begun = &flag;
    let (took, _put) = thread::join(
        rt,
        move || take_now(rt, taker, begun),
        move || {
            look_for(begun);
            put_now(rt, putter, 3, begun)
        },
    );
    Ok(took.1)
}

/// Whether a number is put into a full relay, from which one is taken only once the put is under way.
fn put_when_full<R: Threads + Wait + Sync>(
    rt: &R,
    alloc: Global,
) -> Result<(bool, Option<u64>), OutOfMemory> {
    let (_relay, mut putters, mut takers) = Relay::<u64>::open(alloc, 1, 1, 1)?;
    let (Some(putter), Some(taker)) = (putters.pop(), takers.pop()) else {
        return Ok((false, None));
    };
    let mut putter = putter;
    let _first = putter.put(rt, 4);
    let flag = AtomicBool::new(false);
    let begun = &flag;
    let (put, took) = thread::join(
        rt,
        move || put_now(rt, putter, 5, begun),
        move || {
            look_for(begun);
            take_now(rt, taker, begun)
        },
    );
    Ok((put, took.1))
}

#[test]
fn a_take_waits(rt: HostRuntime) -> Result<(), Fail> {
    let taken = soon(&rt, || taken_when_empty(&rt, rt.alloc()));
    expect_eq(&rt, &taken?, &Some(3));
    Ok(())
}

#[test]
fn a_put_waits(rt: HostRuntime) -> Result<(), Fail> {
    let put = soon(&rt, || put_when_full(&rt, rt.alloc()));
    expect_eq(&rt, &put?, &(true, Some(4)));
    Ok(())
}

/// What a taker takes from an empty relay, whose putter is dropped unfinished once the take is under way, in a thread
/// of its own. Then the relay is ended.
fn taken_when_ended<R: Threads + Wait + Sync>(
    rt: &R,
    alloc: Global,
) -> Result<Option<u64>, OutOfMemory> {
    let (mut relay, mut putters, mut takers) = Relay::<u64>::open(alloc, 1, 1, 1)?;
    let (Some(putter), Some(taker)) = (putters.pop(), takers.pop()) else {
        return Ok(Some(0));
    };
    let flag = AtomicBool::new(false);
    let begun = &flag;
    let (took, _relay) = thread::join(
        rt,
        move || take_now(rt, taker, begun),
        move || {
            thread::join(
                rt,
                move || {
                    look_for(begun);
                    drop(putter);
                },
                || (),
            );
            relay.end(rt);
            relay
        },
    );
    Ok(took.1)
}

#[test]
fn an_end_wakes_a_taker(rt: HostRuntime) -> Result<(), Fail> {
    let taken = soon(&rt, || taken_when_ended(&rt, rt.alloc()));
    expect_eq(&rt, &taken?, &None);
    Ok(())
}

/// Where all takers were dropped a put comes back, and an end returns, though the one place is full.
#[test]
fn nobody_is_left(rt: HostRuntime) -> Result<(), Fail> {
    let (relay, mut putters, takers) = Relay::<u64>::open(rt.alloc(), 4, 1, 1)?;
    drop(relay);
    drop(takers);
    expect_eq(&rt, &putters[0].put(&rt, 9), &Err(9));
    let (mut relay, mut putters, takers) = Relay::<u64>::open(rt.alloc(), 1, 1, 1)?;
    expect_eq(&rt, &putters[0].put(&rt, 8), &Ok(()));
    drop(takers);
    expect_eq(&rt, &soon(&rt, || putters[0].put(&rt, 9)), &Err(9));
    end_soon(&rt, &mut relay);
    Ok(())
}

/// Where all putters were dropped unfinished, a take waits for the relay's end.
#[test]
fn nobody_finishes(rt: HostRuntime) -> Result<(), Fail> {
    let (mut relay, putters, mut takers) = Relay::<u64>::open(rt.alloc(), 4, 1, 1)?;
    drop(putters);
    relay.end(&rt);
    take_end_soon(&rt, &mut takers[0]);
    Ok(())
}
