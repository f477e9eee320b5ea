//! The end of putting into a relay: an end mark for each taker, from the last putter that finishes, or from the end of
//! the relay.

use crate::expect::expect_eq;
use crate::relay_runs::{expect_left, expect_put, expect_taken};
use crate::relay_watch::{end_soon, finish_soon, soon, take_end_soon, take_soon};
use cards::OutOfMemory;
use farm_relay::Relay;
use std::alloc::Global;
use std::process::Abort;
use std::sync::Wait;
use std::test::Fail;

/// Three numbers and an end mark are taken, and nothing is left.
fn take_three_and_an_end<R: Wait + Abort>(rt: &R, alloc: Global) -> Result<(), OutOfMemory> {
    let (relay, mut putters, mut takers) = Relay::<u64>::open(alloc, 64, 1, 1)?;
    expect_put(rt, &mut putters[0], 1, 4);
    putters[0].finish(rt);
    expect_taken(rt, &mut takers[0], 1, 4);
    expect_eq(rt, &takers[0].take(rt), &None);
    expect_left(rt, relay, putters, takers, 0, 0);
    Ok(())
}

#[test]
fn three_and_an_end(rt: HostRuntime) -> Result<(), Fail> {
    soon(&rt, || take_three_and_an_end(&rt, rt.alloc()))?;
    Ok(())
}

/// Two marks fill both places, so that a third would wait for ever.
fn take_two_marks<R: Wait + Abort>(rt: &R, alloc: Global) -> Result<(), OutOfMemory> {
    let (relay, mut putters, mut takers) = Relay::<u64>::open(alloc, 2, 1, 2)?;
    putters[0].finish(rt);
    expect_eq(rt, &takers[0].take(rt), &None);
    expect_eq(rt, &takers[1].take(rt), &None);
    expect_left(rt, relay, putters, takers, 0, 0);
    Ok(())
}

#[test]
fn a_mark_for_each_taker(rt: HostRuntime) -> Result<(), Fail> {
    soon(&rt, || take_two_marks(&rt, rt.alloc()))?;
    Ok(())
}

/// One place, so that a second mark would wait for ever. What is put after the end comes back.
fn finish_twice<R: Wait + Abort>(rt: &R, alloc: Global) -> Result<(), OutOfMemory> {
    let (relay, mut putters, mut takers) = Relay::<u64>::open(alloc, 1, 1, 1)?;
    putters[0].finish(rt);
    putters[0].finish(rt);
    expect_eq(rt, &putters[0].put(rt, 7), &Err(7));
    expect_eq(rt, &takers[0].take(rt), &None);
    expect_left(rt, relay, putters, takers, 0, 0);
    Ok(())
}

#[test]
fn finished_twice(rt: HostRuntime) -> Result<(), Fail> {
    soon(&rt, || finish_twice(&rt, rt.alloc()))?;
    Ok(())
}

/// No end mark is among what is left.
#[test]
fn marks_are_not_left(rt: HostRuntime) -> Result<(), Fail> {
    let (relay, mut putters, takers) = Relay::<u64>::open(rt.alloc(), 8, 1, 3)?;
    expect_put(&rt, &mut putters[0], 1, 3);
    putters[0].finish(&rt);
    expect_left(&rt, relay, putters, takers, 1, 3);
    Ok(())
}

/// How many putters a relay has.
const PUTTERS: [usize; 7] = [1, 2, 3, 4, 5, 8, 64];

/// The putters finish one after another. Whatever the last of them puts meanwhile comes at once, so the others put no
/// mark. Then it puts one mark for each of three takers: they fill the three places.
#[test]
fn only_the_last_putter_puts_marks(rt: HostRuntime) -> Result<(), Fail> {
    for count in PUTTERS {
        let (_relay, mut putters, mut takers) = Relay::<u64>::open(rt.alloc(), 3, count, 3)?;
        let mut last = putters.pop().ok_or("no putter")?;
        let mut number = 0u64;
        for putter in &mut putters {
            finish_soon(&rt, putter);
            number = number.wrapping_add(1);
            expect_eq(&rt, &last.put(&rt, number), &Ok(()));
            expect_eq(&rt, &take_soon(&rt, &mut takers[0]), &Some(number));
        }
        expect_eq(&rt, &(number as usize), &putters.len());
        finish_soon(&rt, &mut last);
        for taker in &mut takers {
            take_end_soon(&rt, taker);
        }
    }
    Ok(())
}

/// The end puts one mark for each taker while putters are unfinished, once: what is put later comes right after these
/// marks, though another putter finished and the relay was ended again.
#[test]
fn ended_when_one_has_finished(rt: HostRuntime) -> Result<(), Fail> {
    let (mut relay, mut putters, mut takers) = Relay::<u64>::open(rt.alloc(), 64, 3, 2)?;
    putters[0].finish(&rt);
    relay.end(&rt);
    relay.end(&rt);
    putters[1].finish(&rt);
    relay.end(&rt);
    expect_eq(&rt, &putters[2].put(&rt, 9), &Ok(()));
    for taker in &mut takers {
        take_end_soon(&rt, taker);
    }
    expect_eq(&rt, &take_soon(&rt, &mut takers[0]), &Some(9));
    Ok(())
}

/// After the relay's end no putter puts a mark, the last one neither: the one place is full.
#[test]
fn finished_after_the_end(rt: HostRuntime) -> Result<(), Fail> {
    for count in PUTTERS {
        let (mut relay, mut putters, mut takers) = Relay::<u64>::open(rt.alloc(), 1, count, 1)?;
        end_soon(&rt, &mut relay);
        for putter in &mut putters {
            finish_soon(&rt, putter);
        }
        take_end_soon(&rt, &mut takers[0]);
    }
    Ok(())
}

/// Once all putters have finished the end puts no mark: the one place is full.
#[test]
fn ended_when_all_have_finished(rt: HostRuntime) -> Result<(), Fail> {
    for count in PUTTERS {
        let (mut relay, mut putters, mut takers) = Relay::<u64>::open(rt.alloc(), 1, count, 1)?;
        for putter in &mut putters {
            finish_soon(&rt, putter);
        }
        end_soon(&rt, &mut relay);
        take_end_soon(&rt, &mut takers[0]);
    }
    Ok(())
}

/// A relay that was ended is closed like any other.
#[test]
fn closed_after_its_end(rt: HostRuntime) -> Result<(), Fail> {
    let (mut relay, mut putters, takers) = Relay::<u64>::open(rt.alloc(), 8, 1, 3)?;
    expect_put(&rt, &mut putters[0], 1, 3);
    relay.end(&rt);
    expect_left(&rt, relay, putters, takers, 1, 3);
    Ok(())
}
