//! Long lists of requests, some stale, repeated, damaged or for another entry: each reply and each publication is the
//! one that a slow search of the list finds. In two of them boards share their deals.

use super::certificates::{Answer, EAST_HIGH, NORTH_HIGH, boards};
use super::slow_book::{DECLARERS, Rules, TRUMPS, entry_of, leased, published, reply};
use crate::expect::expect_eq;
use crate::fixed_numbers::next;
use cards::{OutOfMemory, Seat, Trump};
use checker::{Texts, Verdict, judge};
use lease_book::{Asked, Book, Entry, Event, HandedIn, Reply};
use pbn_deals::Board;
use plain_runs::{GraphText, Request, replay};
use std::alloc::{AllocError, Global};
use std::process::Abort;

/// The layouts of the boards; the second has no deal.
pub const LAYOUTS: [Option<&str>; 3] = [Some(NORTH_HIGH), None, Some(EAST_HIGH)];

/// For each of them that has a deal the number of the first with it.
const FIRSTS: [Option<usize>; 3] = [Some(0), None, Some(2)];

/// The layouts of boards of which some have the same.
const SHARED: [Option<&str>; 5] = [
    Some(NORTH_HIGH),
    Some(EAST_HIGH),
    Some(NORTH_HIGH),
    None,
    Some(EAST_HIGH),
];

const SHARED_FIRSTS: [Option<usize>; 5] = [Some(0), Some(1), Some(0), None, Some(1)];

/// One of a few, by a number.
pub fn pick<T: Copy>(some: &[T], number: u64, other: T) -> T {
    let place = (number % 64) as usize;
    match some.get(place % some.len().max(1)) {
        Some(one) => *one,
        None => other,
    }
}

/// Some entry of one of four boards, of which the last isn't there.
pub fn some_entry(number: u64) -> Entry {
    Entry {
        board: (number / 8 % 4) as usize,
        declarer: pick(&DECLARERS, number / 32, Seat::North),
        trump: pick(&TRUMPS, number / 128, Trump::Nt),
    }
}

/// What is handed in for an entry: in one of nine cases what is right, and else something damaged.
pub fn some_answer(alloc: Global, entry: Entry, number: u64) -> Result<Answer, AllocError> {
    let holder = if entry.board == 0 {
        Seat::North
    } else {
        Seat::East
    };
    let mut answer = Answer::of(alloc, holder, entry.declarer, entry.trump)?;
    match number % 9 {
        0 => {}
        1 => answer.k = 1 - answer.k.min(1),
        2 => answer.k = 2,
        3 => {
            let _cut = answer.declarer.pop();
        }
        4 => {
            let _cut = answer.defenders.pop();
        }
        5 => answer = Answer::of(alloc, holder.next(), entry.declarer, entry.trump)?,
        6 => answer = Answer::of(alloc, holder, entry.declarer.next(), entry.trump)?,
        7 => {
            let other = pick(&TRUMPS, number / 16, Trump::Nt);
            answer = Answer::of(alloc, holder, entry.declarer, other)?;
        }
        _ => answer.defenders.clear(),
    }
    Ok(answer)
}

/// The number of a lease: in one of sixteen cases none that was given, in half of the others one of the last twenty.
fn some_lease(past: &[Event], number: u64) -> u64 {
    let given = leased(past, None);
    let choice = number / 16;
    match number % 16 {
        0 => given.saturating_add(1 + choice % 3),
        1..=7 => given.saturating_sub(choice % 20),
        _ => choice % given.saturating_add(1),
    }
}

/// The next request of the list, where these went before.
fn some_request(alloc: Global, past: &[Event], number: u64) -> Result<Request, AllocError> {
    let step = past.len() as u64;
    let now = (step / 2 + number / 64 % 40).saturating_sub(20);
    let lease = some_lease(past, number / 4096);
    Ok(match number / 16 % 8 {
        0 | 1 | 2 => Request::Lease { now },
        3 => Request::Expire { now },
        4 => Request::GiveUp { lease },
        _ => {
            let other = next(number);
            let named = match entry_of(past, lease) {
                Some(entry) if other / 64 % 8 != 0 => entry,
                _ => some_entry(other / 512),
            };
            some_answer(alloc, named, other / 1024)?.hand_in(lease, named)
        }
    })
}

/// The verdict on what is handed in for an entry, on the deal of its board.
fn verdict_on(
    alloc: Global,
    boards: &[Board],
    entry: Entry,
    k: u8,
    declarer: &GraphText,
    defenders: &GraphText,
) -> Result<Verdict, OutOfMemory> {
    let deal = match boards.get(entry.board) {
        Some(board) => board.deal.as_ref(),
        None => None,
    };
    judge(
        alloc,
        deal,
        entry.declarer,
        entry.trump,
        k,
        Texts {
            declarers: declarer.as_bytes(),
            defenders: defenders.as_bytes(),
        },
    )
}

/// What was handed in, by the verdict on it.
fn evidence_of(verdict: Verdict) -> HandedIn {
    match verdict {
        Ok(proven) => HandedIn::Shows(proven.shown()),
        Err(fault) => HandedIn::Faulty(fault),
    }
}

/// What the request asks of a book over these boards, by the verdict on what it hands in.
pub fn asked_by(alloc: Global, boards: &[Board], request: &Request) -> Result<Asked, OutOfMemory> {
    Ok(match request {
        Request::Lease { now } => Asked::Lease { now: *now },
        Request::Expire { now } => Asked::Expire { now: *now },
        Request::GiveUp { lease } => Asked::GiveUp { lease: *lease },
        Request::HandIn {
            lease,
            entry,
            k,
            declarer,
            defenders,
        } => Asked::HandIn {
            lease: *lease,
            entry: *entry,
            evidence: evidence_of(verdict_on(alloc, boards, *entry, *k, declarer, defenders)?),
        },
    })
}

/// What the search has for the next request, where these went before.
pub fn event_of(
    rt: &impl Abort,
    alloc: Global,
    boards: &[Board],
    rules: Rules,
    past: &[Event],
    request: &Request,
) -> Event {
    let asked = asked_by(alloc, boards, request).expect(rt, "memory to judge");
    let reply = reply(rules, past, &asked);
    Event { asked, reply }
}

/// Which of ten kinds of replies it is.
fn kind_of(reply: Reply) -> usize {
    match reply {
        Reply::Given { .. } => 0,
        Reply::Nothing => 1,
        Reply::Freed(_) => 2,
        Reply::GaveUp => 3,
        Reply::UnknownLease => 4,
        Reply::NotHeld => 5,
        Reply::OtherEntry => 6,
        Reply::AlreadyPublished => 7,
        Reply::BadCertificate(_) => 8,
        Reply::Published(_) => 9,
    }
}

/// Counts the reply by its kind.
pub fn count_kind(kinds: &mut [u64; 10], reply: Reply) {
    if let Some(count) = kinds.get_mut(kind_of(reply)) {
        *count = count.saturating_add(1);
    }
}

/// Each kind of replies was counted so often at least.
pub fn expect_kinds(rt: &impl Abort, kinds: &[u64; 10], least: u64) {
    for count in kinds {
        assert!(rt; *count >= least, "{kinds:?}");
    }
}

/// The publications of the book are those that the search finds, for all entries, and for those of a board that isn't
/// there.
fn same_publications<R: Abort>(rt: &R, book: &Book, firsts: &[Option<usize>], past: &[Event]) {
    for board in 0..=firsts.len() {
        for declarer in DECLARERS {
            for trump in TRUMPS {
                let entry = Entry {
                    board,
                    declarer,
                    trump,
                };
                expect_eq(rt, &book.published(entry), &published(firsts, past, entry));
            }
        }
    }
}

/// A book of these boards replies to the requests as the search did, and publishes what it finds.
pub fn compare_replay<R: Abort>(
    rt: &R,
    alloc: Global,
    known: Vec<Board>,
    rules: Rules,
    requests: &[Request],
    past: &[Event],
) {
    let replayed = replay(alloc, known, rules.term, rules.tries, requests);
    let (book, replies) = replayed.expect(rt, "a book");
    expect_eq(rt, &replies.len(), &past.len());
    for (reply, event) in replies.iter().zip(past) {
        expect_eq(rt, reply, &event.reply);
    }
    same_publications(rt, &book, rules.firsts, past);
}

/// A list of so many requests. Counts its replies by their kinds.
fn compare_list<R: Abort>(
    rt: &R,
    alloc: Global,
    (layouts, firsts): (&[Option<&str>], &[Option<usize>]),
    (seed, count): (u64, usize),
    kinds: &mut [u64; 10],
) {
    let rules = Rules {
        firsts,
        term: 30,
        tries: 6,
    };
    let known = boards(rt, alloc, layouts);
    let mut past = Vec::new(alloc);
    let mut requests = Vec::new(alloc);
    let mut number = seed;
    for _ in 0..count {
        number = next(number);
        let request = some_request(alloc, past.as_slice(), number).expect(rt, "memory to draw");
        let event = event_of(
            rt,
            alloc,
            known.as_slice(),
            rules,
            past.as_slice(),
            &request,
        );
        count_kind(kinds, event.reply);
        past.push(event).expect(rt, "memory for an event");
        requests.push(request).expect(rt, "memory for a request");
    }
    compare_replay(
        rt,
        alloc,
        known,
        rules,
        requests.as_slice(),
        past.as_slice(),
    );
}

/// The first number of a list, and how many requests it has.
const LISTS: [(u64, usize); 3] = [(11, 2_000), (22, 800), (33, 800)];

/// The same of lists for boards that share their deals.
const SHARED_LISTS: [(u64, usize); 2] = [(44, 800), (55, 800)];

#[test]
fn replies_are_those_of_a_slow_search(rt: HostRuntime) {
    let mut kinds = [0u64; 10];
    for list in LISTS {
        compare_list(&rt, rt.alloc(), (&LAYOUTS, &FIRSTS), list, &mut kinds);
    }
    expect_kinds(&rt, &kinds, 20);
}

#[test]
fn replies_where_boards_share_deals(rt: HostRuntime) {
    let mut kinds = [0u64; 10];
    for list in SHARED_LISTS {
        compare_list(&rt, rt.alloc(), (&SHARED, &SHARED_FIRSTS), list, &mut kinds);
    }
    expect_kinds(&rt, &kinds, 5);
}
