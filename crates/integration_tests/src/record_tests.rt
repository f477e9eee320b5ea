//! What no clause says of records: that what is told is found, as far as it serves, that one that says less is
//! dropped, and how many owners of each suit the depths name. A suit has sixteen bits of a word, and four of the
//! depths.

use crate::expect::{expect, expect_eq, got, some};
use cards::Side;
use cards::Side::{EastWest, NorthSouth};
use pattern_store::{List, NO_CARD, Owners, Record, Records};
use std::alloc::Global;
use std::process::Abort;

/// The lengths of a shape: one card of the first suit each.
const ONE_EACH: u64 = 0x1111;

/// East, West, South and North own a suit's cards, the highest first.
const OWNERS: u64 = 0b00_10_11_01;

/// The same where the lowest two are exchanged.
const OTHERS: u64 = 0b10_00_11_01;

/// East owns a suit's ninth card, and North the tenth: they are in the other word.
const NINTH: u64 = 0b01;

/// Owners of the first eight cards of each suit.
const NEAR: u64 = 0x1b27_e4d8_936c_4e1b;

/// And of the others.
const DEEP: u64 = 0x0106_0234_0039_0372;

/// All these owners.
const ALL_OWNERS: Owners = Owners {
    near: NEAR,
    deep: DEEP,
};

/// Of depths, the first suit's last, how many owners they name, and how many of each suit.
const DEPTHS: [(u16, u16, [u32; 4]); 5] = [
    (0x0000, 0, [0, 0, 0, 0]),
    (0x1234, 10, [4, 3, 2, 1]),
    (0xa093, 22, [3, 9, 0, 10]),
    (0x0b1c, 24, [12, 1, 11, 0]),
    (0x78d8, 36, [8, 13, 8, 7]),
];

/// The bits of a suit in a word.
fn in_suit(suit: u32, part: u64) -> u64 {
    part.wrapping_shl(suit.wrapping_mul(16))
}

/// The depths that name so many owners of one suit.
fn depths_in(suit: u32, depth: u16) -> u16 {
    depth.wrapping_shl(suit.wrapping_mul(4))
}

/// A record that names as many of these owners of each suit as `depths` says.
fn record_of(owners: Owners, depths: u16, need: u8, card: u8) -> Record {
    Record::new(owners.near, || owners.deep, depths, need, card)
}

/// The owners of a suit: the first ones, and the ninth.
fn owners_in(suit: u32, first: u64, ninth: u64) -> Owners {
    Owners {
        near: in_suit(suit, first),
        deep: in_suit(suit, ninth),
    }
}

/// A record that names so many owners of a suit.
fn naming(suit: u32, depth: u16, need: u8) -> Record {
    let owners = owners_in(suit, OWNERS, NINTH);
    record_of(owners, depths_in(suit, depth), need, 0)
}

/// No records yet.
fn none(rt: &impl Abort, alloc: Global) -> Records {
    got(rt, Records::new(alloc))
}

/// Adds a record to the list of a leader and a side.
fn add(rt: &impl Abort, records: &mut Records, leader: usize, side: Side, record: Record) {
    got(rt, records.add(None, ONE_EACH, leader, side, record));
}

/// The list of a leader and a side, which is there.
fn list_of(rt: &impl Abort, records: &Records, leader: usize, side: Side) -> List {
    some(rt, records.list(records.shape(ONE_EACH), leader, side))
}

/// The first record of a list that names these owners and wins as much, if there is one.
fn found_in(records: &Records, list: List, owners: Owners, need: u8) -> Option<Record> {
    let number = records.find(list, owners.near, || owners.deep, need)?;
    Some(records.record(number))
}

#[test]
fn told_and_found(rt: HostRuntime) {
    for suit in 0..4 {
        let mut records = none(&rt, rt.alloc());
        expect(&rt, records.shape(ONE_EACH).is_none());
        add(&rt, &mut records, 1, NorthSouth, naming(suit, 4, 2));
        expect_needs(&rt, &records, suit);
        let shape = records.shape(ONE_EACH);
        expect(&rt, records.shape(ONE_EACH + 1).is_none());
        expect(&rt, records.list(shape, 1, EastWest).is_none());
        expect(&rt, records.list(shape, 2, NorthSouth).is_none());
        expect(&rt, records.list(None, 1, NorthSouth).is_none());
    }
}

/// First owners of a suit, the tricks, and those of the record that is found.
const NEEDS: [(u64, u8, Option<u8>); 4] = [
    (OWNERS, 0, Some(2)),
    (OWNERS, 2, Some(2)),
    (OWNERS, 3, None),
    (OTHERS, 1, None),
];

/// A record of two tricks that names the owners of a suit is found by them.
fn expect_needs(rt: &impl Abort, records: &Records, suit: u32) {
    let list = list_of(rt, records, 1, NorthSouth);
    for (first, need, wanted) in NEEDS {
        let found = found_in(records, list, owners_in(suit, first, 0), need);
        expect_eq(rt, &need_of(found), &wanted);
    }
}

/// The tricks of a record, if there is one.
fn need_of(record: Option<Record>) -> Option<u8> {
    Some(record?.need)
}

/// The owners of a deal in which a card is another seat's.
fn where_another_owns(suit: u32, place: u32) -> Owners {
    let bit = in_suit(suit, 1u64.wrapping_shl(place % 8 * 2));
    if place < 8 {
        Owners {
            near: NEAR ^ bit,
            deep: DEEP,
        }
    } else {
        Owners {
            near: NEAR,
            deep: DEEP ^ bit,
        }
    }
}

/// A record is found for each deal that has the owners which it names, and for no other.
#[test]
fn each_suit_to_its_depth(rt: HostRuntime) {
    for (depths, named, depth_of) in DEPTHS {
        let record = record_of(ALL_OWNERS, depths, 1, 0);
        expect_eq(&rt, &record.owners_named(), &named);
        let mut records = none(&rt, rt.alloc());
        add(&rt, &mut records, 0, NorthSouth, record);
        for suit in 0..4u32 {
            expect_depth(&rt, &records, suit, depth_of[suit as usize]);
        }
    }
}

/// A record is found if the card of this suit that another seat owns is not among the first `depth` cards.
fn expect_depth(rt: &impl Abort, records: &Records, suit: u32, depth: u32) {
    let list = list_of(rt, records, 0, NorthSouth);
    for place in 0..13 {
        let deal = where_another_owns(suit, place);
        let found = found_in(records, list, deal, 1);
        expect_eq(rt, &found.is_some(), &(place >= depth));
    }
}

/// The ninth owner of a suit, with a card.
const NINTHS: [(u64, u8); 4] = [(0, 20), (1, 21), (2, NO_CARD), (3, NO_CARD)];

/// Two records that differ in the ninth owner of a suit alone: each is found where its own owner has the card, and
/// neither where a third seat has it.
#[test]
fn the_ninth_owner_alone(rt: HostRuntime) {
    for suit in 0..4 {
        let mut records = none(&rt, rt.alloc());
        for (ninth, card) in [(0, 20), (1, 21)] {
            let record = record_of(with_ninth(suit, ninth), depths_in(suit, 9), 1, card);
            add(&rt, &mut records, 2, NorthSouth, record);
        }
        let list = list_of(&rt, &records, 2, NorthSouth);
        for (ninth, card) in NINTHS {
            let found = found_in(&records, list, with_ninth(suit, ninth), 1);
            expect_eq(&rt, &card_of(found), &card);
        }
    }
}

/// The first owners of each suit, and the ninth of one suit alone.
fn with_ninth(suit: u32, ninth: u64) -> Owners {
    Owners {
        near: NEAR,
        deep: in_suit(suit, ninth),
    }
}

/// The card of a record, or none.
fn card_of(record: Option<Record>) -> u8 {
    match record {
        Some(record) => record.first_card,
        None => NO_CARD,
    }
}

/// How many of the first records are there.
fn kept(records: &Records) -> u32 {
    let mut count = 0u32;
    for number in 0..40 {
        if records.record(number).need != 0 {
            count = count.saturating_add(1);
        }
    }
    count
}

/// A record of two tricks, then another: how many are kept. The first goes where the other names no more, agrees, and
/// wins as much.
#[test]
fn dropped_where_another_serves(rt: HostRuntime) {
    for (first, near, deep, depths, need, count) in SERVED {
        let mut records = none(&rt, rt.alloc());
        let old = record_of(ALL_OWNERS, first, 2, 0);
        add(&rt, &mut records, 0, NorthSouth, old);
        let new = record_of(Owners { near, deep }, depths, need, 0);
        add(&rt, &mut records, 0, NorthSouth, new);
        expect_eq(&rt, &kept(&records), &count);
    }
}

/// The depths of the first record, the owners, the depths and the tricks of the other, and how many are kept.
const SERVED: [(u16, u64, u64, u16, u8, u32); 21] = [
    (0x3333, NEAR, DEEP, 0x3333, 2, 1),
    (0x3333, NEAR, DEEP, 0x0000, 2, 1),
    (0x3333, NEAR, DEEP, 0x2333, 3, 1),
    (0x3333, NEAR, DEEP, 0x2333, 1, 2),
    (0x3333, NEAR, DEEP, 0x0004, 2, 2),
    (0x3333, NEAR, DEEP, 0x0040, 2, 2),
    (0x3333, NEAR, DEEP, 0x0400, 2, 2),
    (0x3333, NEAR, DEEP, 0x4000, 2, 2),
    (0x3333, NEAR ^ 0x0000_0000_0000_0004, DEEP, 0x2222, 2, 2),
    (0x3333, NEAR ^ 0x0000_0000_0004_0000, DEEP, 0x2222, 2, 2),
    (0x3333, NEAR ^ 0x0000_0004_0000_0000, DEEP, 0x2222, 2, 2),
    (0x3333, NEAR ^ 0x0004_0000_0000_0000, DEEP, 0x2222, 2, 2),
    (0x3333, NEAR ^ 0x0010_0010_0010_0010, DEEP, 0x2222, 2, 1),
    (0x8a88, NEAR, DEEP, 0x0090, 2, 2),
    (0x8a88, NEAR, DEEP, 0x0900, 2, 1),
    (0xaaaa, NEAR, DEEP, 0x9999, 2, 1),
    (0xaaaa, NEAR, DEEP ^ 0x0000_0000_0000_0001, 0x9999, 2, 2),
    (0xaaaa, NEAR, DEEP ^ 0x0000_0000_0001_0000, 0x9999, 2, 2),
    (0xaaaa, NEAR, DEEP ^ 0x0000_0001_0000_0000, 0x9999, 2, 2),
    (0xaaaa, NEAR, DEEP ^ 0x0001_0000_0000_0000, 0x9999, 2, 2),
    (0xaaaa, NEAR, DEEP ^ 0x0004_0004_0004_0004, 0x9999, 2, 1),
];

#[test]
fn the_most_general_first(rt: HostRuntime) {
    for suit in 0..4 {
        let mut records = none(&rt, rt.alloc());
        for (depth, need) in [(4, 3), (3, 1), (2, 2), (9, 4), (10, 5)] {
            add(&rt, &mut records, 0, EastWest, naming(suit, depth, need));
        }
        // That of three owners says less than that of two, so one block has room for the others. The ninth owner has to
        // agree too, and the tenth.
        expect_eq(&rt, &records.blocks(), &2);
        expect_general(&rt, &records, suit);
    }
}

/// The first owners of a suit, the ninth, the tricks, and how many owners the record names that is found.
const GENERAL: [(u64, u64, u8, u16); 7] = [
    (OWNERS, NINTH, 1, 2),
    (OTHERS, NINTH, 1, 2),
    (OWNERS, NINTH, 3, 4),
    (OWNERS, NINTH, 4, 9),
    (OWNERS, NINTH, 5, 10),
    (OWNERS, 0, 4, 0),
    (OTHERS, NINTH, 3, 0),
];

/// The record with the fewest owners is found.
fn expect_general(rt: &impl Abort, records: &Records, suit: u32) {
    let list = list_of(rt, records, 0, EastWest);
    for (first, ninth, need, depth) in GENERAL {
        let found = found_in(records, list, owners_in(suit, first, ninth), need);
        expect_eq(rt, &named_by(found), &depth);
    }
}

/// How many owners a record names, or 0.
fn named_by(record: Option<Record>) -> u16 {
    match record {
        Some(record) => record.owners_named(),
        None => 0,
    }
}

/// What is known, so many tricks, and how many owners the record names that is found where all records are liked, or
/// none.
const KNOWN: [(u64, u64, u8, bool, u16); 8] = [
    (0b11, 0, 1, false, 1),
    (0b11, 0, 2, false, 0),
    (0xff, 0, 2, false, 2),
    (0xff, 0, 3, true, 4),
    (0x3f, 0, 3, true, 0),
    (0xffff, 0, 4, true, 0),
    (0xffff, 0b01, 4, true, 0),
    (0xffff, 0b11, 4, true, 9),
];

#[test]
fn by_what_is_known(rt: HostRuntime) {
    for suit in 0..4 {
        let mut records = none(&rt, rt.alloc());
        for (depth, need) in [(1, 1), (2, 2), (4, 3), (9, 4)] {
            add(&rt, &mut records, 3, NorthSouth, naming(suit, depth, need));
        }
        expect_known(&rt, &records, suit);
    }
}

/// A record is found that names only owners that are known.
fn expect_known(rt: &impl Abort, records: &Records, suit: u32) {
    let list = list_of(rt, records, 3, NorthSouth);
    let owners = owners_in(suit, OWNERS, NINTH);
    for (near, deep, need, likes_all, depth) in KNOWN {
        let known = owners_in(suit, near, deep);
        let named = match records.find_known(list, owners, known, need, |_| likes_all) {
            Some(number) => records.record(number).owners_named(),
            None => 0,
        };
        expect_eq(rt, &named, &depth);
    }
}

/// A record that names four owners of a leader's suit: these. Each leader has a suit.
fn of_owners(leader: usize, owners: u64) -> Record {
    let suit = (leader & 3) as u32;
    record_of(owners_in(suit, owners, 0), depths_in(suit, 4), 1, 0)
}

/// How many of `count` records that name different owners are found in the list of a leader.
fn found_of(records: &Records, leader: usize, count: u64) -> u64 {
    let Some(list) = records.list(records.shape(ONE_EACH), leader, NorthSouth) else {
        return 0;
    };
    let mut found_count = 0u64;
    for owners in 0..count {
        let owners = owners_in((leader & 3) as u32, owners, 0);
        if let Some(record) = found_in(records, list, owners, 1) {
            if record.near == owners.near {
                found_count = found_count.saturating_add(1);
            }
        }
    }
    found_count
}

/// Adds the records of a leader that are not there, up to `count` in all.
fn add_up_to(rt: &impl Abort, records: &mut Records, leader: usize, count: u64) {
    for owners in found_of(records, leader, count)..count {
        add(rt, records, leader, NorthSouth, of_owners(leader, owners));
    }
}

/// A leader, how many records the list of that leader has, and how many blocks there are then.
const GROWING: [(usize, u64, usize); 8] = [
    (0, 4, 2),
    (0, 5, 4),
    (0, 9, 8),
    (1, 1, 8),
    (1, 5, 8),
    (2, 1, 8),
    (2, 4, 8),
    (3, 1, 9),
];

/// A list of nine records has moved from a run of one block to one of two, and to one of four. Others take what it
/// left.
#[test]
fn a_list_grows_and_leaves_room(rt: HostRuntime) {
    let mut records = none(&rt, rt.alloc());
    for (leader, count, blocks) in GROWING {
        add_up_to(&rt, &mut records, leader, count);
        expect_eq(&rt, &found_of(&records, leader, count), &count);
        let of_first = if records.blocks() < 8 { count } else { 9 };
        expect_eq(&rt, &found_of(&records, 0, 9), &of_first);
        expect_eq(&rt, &records.blocks(), &blocks);
    }
}

/// Where there is no room a record is lost, and the others stay.
#[test]
fn no_more_than_there_is_room_for(rt: HostRuntime) {
    let mut records = none(&rt, rt.alloc());
    records.set_room(3);
    expect(&rt, !records.is_full());
    for owners in 0..5 {
        add(&rt, &mut records, 0, NorthSouth, of_owners(0, owners));
    }
    // A run of two blocks has no room beside that of one.
    expect_eq(&rt, &records.blocks(), &2);
    expect_eq(&rt, &found_of(&records, 0, 5), &4);
    add(&rt, &mut records, 1, NorthSouth, of_owners(0, 0));
    expect_eq(&rt, &records.blocks(), &3);
    // The shape counts too.
    expect_eq(&rt, &records.size(), &4);
    expect(&rt, records.is_full());
}
