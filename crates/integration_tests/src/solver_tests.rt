//! Answers with DDS's numbers, which the checker has to accept.

use crate::expect::{expect, got};
use cards::{Layout, Seat, Suit, Trump};
use certificate_graph::{Answer, Bundle, Solver};
use checker::check_entry;
use partition_solver::Partition;
use pbn_deals::read_layout;
use std::alloc::Global;
use std::process::Abort;
use std::thread;

/// A layout, and by declarer (N E S W) the tricks in no-trump, spades, hearts, diamonds and clubs that DDS 2.9 gives.
pub type Row = (&'static str, &'static str);

/// Endings of one to four cards a hand: a trump, a finesse, squeezes.
pub const ENDINGS: [Row; 6] = [
    ("N:A... K... Q... J...", "11111 00000 11111 00000"),
    ("N:2... .A.. 3... .K..", "01000 00100 01000 00100"),
    ("N:AQ... 65... 32... K4...", "22222 00000 22222 11111"),
    ("N:AQ... K5... 32... 64...", "22222 11111 11111 11111"),
    ("N:AJ.K.. ..432. 2.2..A KQ.A..", "02203 01130 11102 22131"),
    ("N:AJ.K.. KQ.A.. 2.2..A ..432.", "11102 01130 02203 22131"),
];

/// Random endings of three and of five cards a hand.
pub const SMALL: [Row; 6] = [
    (
        "N:.5.A5.Q8 .K.J2.T4 K7..7.75 J86..9.K",
        "22213 23222 22213 23222",
    ),
    ("N:.J.5.J T..4.9 86.K.. A..7.K", "01200 21022 01200 22133"),
    (
        "N:74.3.2.3 9.J.K65. .T.J74.2 62.A6..A",
        "01010 54545 01010 54433",
    ),
    ("N:J.J7.. Q.Q.A. .8..Q8 .4.K.J", "00101 12131 00101 33132"),
    (
        "N:K..A.632 T7.T8.7. .Q3..J95 .7.2.AK4",
        "32213 22232 32113 23322",
    ),
    ("N:T..Q4. 8...T3 K..J2. 6.7.A.", "11021 21212 11120 21212"),
];

/// One of nine cards a hand.
pub const NINE: Row = (
    "N:43..K93.AQJT 95.T6.862.32 AJ762.J8..86 .K95.AQJT4.5",
    "59238 00550 79339 00550",
);

/// The same cards, each hand at the seat across.
const NINE_TURNED: &str = "S:43..K93.AQJT 95.T6.862.32 AJ762.J8..86 .K95.AQJT4.5";

/// A board on which East takes five tricks in no-trump.
const BOARD: &str = "N:T97.643.A73.AQJ8 832.KJT7.QJ942.4 AQ54.Q52.K6.K932 KJ6.A98.T85.T765";

/// The denominations in the order of a row.
pub const TRUMPS: [Trump; 5] = [
    Trump::Nt,
    Trump::Suit(Suit::Spades),
    Trump::Suit(Suit::Hearts),
    Trump::Suit(Suit::Diamonds),
    Trump::Suit(Suit::Clubs),
];

/// The number that a digit of a row names.
fn number_of(digit: u8) -> u8 {
    if digit >= b'a' {
        digit - b'a' + 10
    } else {
        digit.wrapping_sub(b'0')
    }
}

/// It holds of the entry of a layout.
pub fn expect_for(rt: &impl Abort, text: &str, declarer: Seat, trump: Trump, holds: bool) {
    assert!(rt; holds, "{text} {declarer} {trump}");
}

/// The number of a row for a declarer and the denomination in this place. 99 where there is none.
pub fn number_in(numbers: &str, declarer: Seat, place: usize) -> u8 {
    let place = declarer.number() * 6 + place % 6;
    let digit = numbers.as_bytes().get(place).copied();
    digit.map_or(99, number_of)
}

/// What the solver answers for a declarer.
fn answer_of(
    alloc: Global,
    solver: &Partition,
    layout: &Layout,
    declarer: Seat,
    trump: Trump,
) -> Option<Answer> {
    let found = solver.solve(alloc, layout, &[declarer], trump, 10_000_000);
    let bundle = found.ok()??;
    bundle.answer_for(alloc, declarer).ok()?
}

/// Whether the checker accepts an answer.
fn is_accepted(layout: &Layout, declarer: Seat, trump: Trump, answer: &Answer) -> bool {
    let (by_declarer, defenders) = (&answer.declarer, &answer.defenders);
    check_entry(layout, declarer, trump, answer.k, by_declarer, defenders).is_ok()
}

/// The tricks of an answer that the checker accepts.
fn tricks_of(
    alloc: Global,
    solver: &Partition,
    text: &str,
    declarer: Seat,
    trump: Trump,
) -> Option<u8> {
    let layout = read_layout(text.as_bytes()).ok()?;
    let answer = answer_of(alloc, solver, &layout, declarer, trump)?;
    if is_accepted(&layout, declarer, trump, &answer) {
        Some(answer.k)
    } else {
        None
    }
}

/// Solves the layout for a declarer and all denominations.
fn solves(rt: &impl Abort, alloc: Global, solver: &Partition, row: Row, declarer: Seat) {
    let (text, numbers) = row;
    for (place, trump) in TRUMPS.as_slice().iter().enumerate() {
        let number = number_in(numbers, declarer, place);
        let tricks = tricks_of(alloc, solver, text, declarer, *trump);
        expect_for(rt, text, declarer, *trump, tricks == Some(number));
    }
}

/// The entries of each declarer by a solver of their own.
#[test]
fn endings(rt: HostRuntime) {
    for row in ENDINGS {
        for declarer in Seat::ALL {
            solves(&rt, rt.alloc(), &Partition::new(), row, declarer);
        }
    }
}

/// One solver for all declarers of a layout, and for the next layouts.
#[test]
fn small_layouts(rt: HostRuntime) {
    let solver = Partition::new();
    for row in SMALL {
        for declarer in Seat::ALL {
            solves(&rt, rt.alloc(), &solver, row, declarer);
        }
    }
}

/// Nine cards a hand, and a board, each with a new solver.
#[test]
fn large_layouts(rt: HostRuntime) {
    solves(&rt, rt.alloc(), &Partition::new(), NINE, Seat::East);
    let tricks = tricks_of(rt.alloc(), &Partition::new(), BOARD, Seat::East, Trump::Nt);
    expect(&rt, tricks == Some(5));
}

/// One solver that is asked of another layout each time.
#[test]
fn layouts_by_turns(rt: HostRuntime) {
    let solver = Partition::new();
    for declarer in Seat::ALL {
        for row in SMALL {
            solves(&rt, rt.alloc(), &solver, row, declarer);
        }
    }
}

/// Four threads ask one solver at once, each for another declarer and denomination of one layout, until all are asked
/// for.
#[test]
fn four_threads(rt: HostRuntime) {
    let (alloc, solver) = (rt.alloc(), Partition::new());
    let (text, numbers) = NINE;
    for round in 0..5usize {
        let solved = thread::map_indices(
            &rt,
            alloc,
            4,
            &|place: usize| {
                let declarer = Seat::ALL[place & 3];
                let place = (place & 3).wrapping_add(round) % 5;
                let tricks = tricks_of(alloc, &solver, text, declarer, TRUMPS[place]);
                tricks == Some(number_in(numbers, declarer, place))
            },
        );
        let solved = got(&rt, solved);
        expect(&rt, solved.as_slice() == [true; 4].as_slice());
    }
}

/// What the solver finds for a declarer who is asked for alone.
fn found(
    rt: &impl Abort,
    alloc: Global,
    solver: &Partition,
    layout: &Layout,
    (declarer, trump): (Seat, Trump),
    budget: u64,
) -> Option<Bundle> {
    got(rt, solver.solve(alloc, layout, &[declarer], trump, budget))
}

/// The tricks that are claimed for the declarer who is asked for alone, with ten thousand steps.
fn soon_claimed(
    rt: &impl Abort,
    alloc: Global,
    solver: &Partition,
    text: &str,
    declarer: Seat,
) -> Option<u8> {
    let layout = got(rt, read_layout(text.as_bytes()));
    let bundle = found(rt, alloc, solver, &layout, (declarer, DIAMONDS), 10_000)?;
    Some(bundle.claim_for(declarer)?.k)
}

const DIAMONDS: Trump = Trump::Suit(Suit::Diamonds);

/// One solver is asked of two deals by turns, with too few steps for a new search of either: the second call on a deal
/// goes on where its first one stopped, though the other deal came between.
#[test]
fn two_deals_by_turns(rt: HostRuntime) {
    let solver = Partition::new();
    for wanted in [None, Some(3)] {
        for (text, declarer) in [(NINE.0, Seat::North), (NINE_TURNED, Seat::South)] {
            let number = soon_claimed(&rt, rt.alloc(), &solver, text, declarer);
            expect_for(&rt, text, declarer, DIAMONDS, number == wanted);
        }
    }
}

/// What a call has found before its steps ended is there for the next one.
#[test]
fn goes_on_where_it_stopped(rt: HostRuntime) {
    let solver = Partition::new();
    let (text, north) = (NINE.0, Seat::North);
    for wanted in [None, Some(3)] {
        let number = soon_claimed(&rt, rt.alloc(), &solver, text, north);
        expect_for(&rt, text, north, DIAMONDS, number == wanted);
    }
}

/// A tree has four cards, each of which is a step, so three steps are never enough.
#[test]
fn too_few_steps(rt: HostRuntime) {
    let solver = Partition::new();
    for (text, _) in ENDINGS {
        let layout = got(&rt, read_layout(text.as_bytes()));
        for declarer in Seat::ALL {
            for trump in TRUMPS {
                let asked = (declarer, trump);
                let bundle = found(&rt, rt.alloc(), &solver, &layout, asked, 3);
                expect_for(&rt, text, declarer, trump, bundle.is_none());
            }
        }
    }
}
