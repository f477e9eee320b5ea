//! Texts that are worked out by hand from the format.

ghost use Rattle.std.specs.Prelude.{◌≡◌, ◌<◌};
ghost use Rattle.cards.specs.Orders.{trump_number};

use crate::expect::{expect_bytes, expect_eq};
use cards::{Buffer, DeviceFault, Layout, Seat, Trump};
use pbn_deals::{Board, BoardName, read_layout};
use std::alloc::{AllocError, Global};
use std::process::Abort;
use std::test::Fail;
use tables::{BoardPar, Renews, Report, Results, write_tables};
use test_support::four_suits::TABLE;
use test_support::texts::joined;

/// The board of four hands of one suit each, spades with North and then clockwise.
const ONE_SUIT_EACH: &[u8] =
    b"N:AKQJT98765432... .AKQJT98765432.. ..AKQJT98765432. ...AKQJT98765432";

/// Its results, clockwise from North, and for each seat no-trump first and then the suits in their order.
const RESULTS: &[u8; 20] = &[
    0, 13, 0, 13, 0, // North
    0, 0, 13, 0, 13, // East
    0, 13, 0, 13, 0, // South
    0, 0, 13, 0, 13, // West
];

/// Boards that all have these results, in the order of [`RESULTS`], and no others.
#[derive(Drop)]
struct TestResults {
    boards: Vec<Board>,
    results: &'static [u8],
}

/// The place of the denomination in [`Trump::ALL`].
fn number_of(trump: Trump) -> usize
    ensures place { result ≡ trump_number trump }
    ensures below { result < 5 }
{
    match trump {
        Trump::Nt => 0,
        Trump::Suit(suit) => 1 + suit.number(),
    }
}

impl Results for TestResults {
    ghost use Rattle.std.specs.Prelude.{◌+◌, ◌*◌, min, None};
    ghost use Rattle.std.specs.List.{slice_get};
    ghost use Rattle.std.specs.Option.{option_map};
    ghost use Rattle.tables.specs.declared.results.Renews.TheVariants as renews;
    ghost use Rattle.cards.specs.Orders.{trump_number};
    ghost use Rattle.cards.specs.Seats.{seat_number};

    ghost boards_of = { λ given. given.boards.items };

    ghost renews_of = { λ given. renews.Tables };

    ghost printed_of = { λ given board. record {
      results = λ declarer trump. option_map (λ tricks. min tricks 13)
          (slice_get given.results.now (5 * seat_number declarer + trump_number trump));
      par = None;
    } };

    fn renews(&self) -> Renews {
        Renews::Tables
    }

    fn par(&self, _board: usize) -> Option<&BoardPar> {
        None
    }

    fn boards(&self) -> &[Board] {
        self.boards.as_slice()
    }

    fn result(&self, _board: usize, declarer: Seat, trump: Trump) -> Option<u8> {
        match self.results.get(5 * declarer.number() + number_of(trump)) {
            Some(tricks) => Some((*tricks).min(13)),
            None => None,
        }
    }
}

/// Results of one board.
fn given_results(
    alloc: Global,
    name: &[u8],
    deal: Option<Layout>,
    results: &'static [u8],
) -> Result<TestResults, AllocError> {
    let mut boards = Vec::new(alloc);
    boards.push(Board {
        name: BoardName::new(Vec::from_slice(alloc, name)?),
        deal,
    })?;
    Ok(TestResults { boards, results })
}

/// The given results are written and reported like this by a sink with this room, which takes at most `greatest_piece`
/// bytes a call.
fn expect_written(
    rt: &impl Abort,
    alloc: Global,
    given: &TestResults,
    (room, greatest_piece): (usize, usize),
    wanted: &Result<Report, DeviceFault>,
    text: &[u8],
) {
    let mut sink = Buffer::new(alloc, room, greatest_piece).expect(rt, "memory for a sink");
    expect_eq(rt, &write_tables(given, &mut sink), wanted);
    expect_bytes(rt, sink.bytes(), text);
}

/// The whole table, and its beginnings where the sink is full.
#[test]
fn a_complete_table(rt: HostRuntime) -> Result<(), Fail> {
    let alloc = rt.alloc();
    let deal = read_layout(ONE_SUIT_EACH)?;
    let given = given_results(alloc, b"1", Some(deal), RESULTS)?;
    expect_eq(&rt, &TABLE.len(), &320);
    let complete = Ok(Report {
        boards: 1,
        complete: 1,
    });
    for greatest_piece in [1, 7, 1000] {
        let device = (400, greatest_piece);
        expect_written(&rt, alloc, &given, device, &complete, TABLE.as_bytes());
    }
    for room in 0..TABLE.len() {
        let written = &TABLE.as_bytes()[..room];
        expect_written(&rt, alloc, &given, (room, 7), &Err(DeviceFault), written);
    }
    Ok(())
}

/// How many results there are, and the line that says so.
const INCOMPLETE: [(usize, &[u8]); 5] = [
    (0, b"; table incomplete: 0 of 20\n"),
    (1, b"; table incomplete: 1 of 20\n"),
    (9, b"; table incomplete: 9 of 20\n"),
    (10, b"; table incomplete: 10 of 20\n"),
    (19, b"; table incomplete: 19 of 20\n"),
];

/// Two boards with a deal and without one.
const TWO_BOARDS: &[u8] = b"% PBN 2.1
[Board \"b\"]
[Deal \"N:A.2.. .43.. ..J.9 K.Q..\"]
; table incomplete: 2 of 20

[Board \"\"]
[Deal \"?\"]
; table incomplete: 2 of 20

";

/// The report of so many boards of which none is complete.
fn none_of(boards: usize) -> Result<Report, DeviceFault> {
    Ok(Report {
        boards,
        complete: 0,
    })
}

/// A board without a deal.
#[test]
fn incomplete_tables(rt: HostRuntime) {
    let alloc = rt.alloc();
    let head = b"% PBN 2.1\n[Board \"N\xE9 \\ ;\"]\n[Deal \"?\"]\n";
    for (count, line) in INCOMPLETE {
        let results = RESULTS.get(..count).expect(&rt, "so many results");
        let given = given_results(alloc, b"N\xE9 \\ ;", None, results).expect(&rt, "memory");
        let text = joined(alloc, &[head, line, b"\n"]).expect(&rt, "memory for a text");
        expect_written(&rt, alloc, &given, (400, 50), &none_of(1), text.as_slice());
    }
}

/// Two boards in their order, and none.
#[test]
fn two_boards_and_none(rt: HostRuntime) -> Result<(), Fail> {
    let alloc = rt.alloc();
    let ending = read_layout(b"w:K.Q.. A.2.. .43.. ..J.9")?;
    let mut given = given_results(alloc, b"b", Some(ending), &RESULTS[..2])?;
    let second = Board {
        name: BoardName::new(Vec::new(alloc)),
        deal: None,
    };
    given.boards.push(second).expect(&rt, "memory for a board");
    expect_written(&rt, alloc, &given, (400, 300), &none_of(2), TWO_BOARDS);
    let empty = TestResults {
        boards: Vec::new(alloc),
        results: RESULTS,
    };
    expect_written(&rt, alloc, &empty, (400, 1), &none_of(0), b"% PBN 2.1\n");
    Ok(())
}
