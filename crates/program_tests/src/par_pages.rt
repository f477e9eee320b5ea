//! Pages with pars. On this deal North and South make seven spades, and nothing that the others can bid costs less: by
//! Law 77 that is 210 for the tricks, 1000 or 1500 for the grand slam and 300 or 500 for the game.

use crate::expect::{ROOM, expect_run, joined_text, some};
use crate::table_tests::table_options;
use board_subcommands::table::{KeptFiles, TableOptions};
use command_line::Subcommand;
use partition_solver::Partition;
use run_ends::{NamedFiles, NewFiles, Status};
use std::alloc::Global;
use std::process::Abort;
use std::sync::Wait;
use std::thread::Threads;
use test_support::four_suits::TABLE;
use test_support::idle::FindsNothing;
use tournaments::{Page, PageForm, ParTags};

/// What is told of the board's table where nothing is found.
const UNFOUND: &str =
    "ddfarm: note: 1 table is incomplete: 60 searches ran out of steps, 0 out of memory, \
0 answers were refused
  each missing result was tried as often as --tries says; --budget gives a search more steps
";

const DEAL: &str = "[Deal \"N:AKQJT98765432... .AKQJT98765432.. ..AKQJT98765432. ...AKQJT98765432\"]
";

/// The lines of the par, and those of old ones.
const NOT_VULNERABLE: &str = "[OptimumScore \"NS 1510\"]
[ParContract \"NS 7S\"]
";

const VULNERABLE: &str = "[OptimumScore \"NS 2210\"]
[ParContract \"NS 7S\"]
";

const NO_DEALER: &str = "; par unknown: no dealer
";

const NO_VULNERABILITY: &str = "; par unknown: no vulnerability
";

const OLD: &str = "[OPTIMUMSCORE \"EW 50\"] ; by hand
[ParContract \"EW 1Cx-1\"][parcontract \"\"]
";

const OLD_LEFT: &str = " ; by hand
";

/// The tags of a game before its deal, and the lines of its par.
const GAMES: [(&str, &str); 17] = [
    ("[Board \"1\"]\n", NOT_VULNERABLE),
    ("[Board \"2\"]\n", VULNERABLE),
    ("[Board \"3\"]\n", NOT_VULNERABLE),
    ("[Board \"4\"]\n", VULNERABLE),
    ("[Board \"17\"]\n", NOT_VULNERABLE),
    ("[Board \"18\"]\n", VULNERABLE),
    ("[Board \"1\"]\n[Vulnerable \"All\"]\n", VULNERABLE),
    ("[Board \"2\"]\n[Vulnerable \"EW\"]\n", NOT_VULNERABLE),
    ("[Dealer \"W\"]\n[Vulnerable \"Love\"]\n", NOT_VULNERABLE),
    ("[Dealer \"N\"]\n[Vulnerable \"NS\"]\n", VULNERABLE),
    ("[Dealer \"S\"]\n", NO_VULNERABILITY),
    ("[Vulnerable \"NS\"]\n", NO_DEALER),
    ("[Board \"1\"]\n[Dealer \"#\"]\n", NO_DEALER),
    ("[Board \"x\"]\n[Dealer \"North\"]\n", NO_DEALER),
    (
        "[Board \"1\"]\n[Dealer \" w\"]\n[Vulnerable \"?\"]\n[Vulnerable \"all\"]\n",
        VULNERABLE,
    ),
    ("[Board \"1\"]\n[Dealer \"North\"]\n", NO_DEALER),
    ("[Board \"1\"]\n[Vulnerable \"N-S\"]\n", NO_VULNERABILITY),
];

/// The tables of the input on this page.
fn tables_on(rt: &impl Abort, (form, par): (PageForm, ParTags)) -> Subcommand<'static> {
    Subcommand::Table(TableOptions {
        page: Page { form, par },
        ..table_options(rt, false, 20)
    })
}

/// What comes of a text on this page.
fn expect_page<R: Abort + NamedFiles + KeptFiles + NewFiles + Threads + Wait + Sync>(
    rt: &R,
    alloc: Global,
    page: (PageForm, ParTags),
    text: &[&str],
    wanted: &[&str],
) {
    let text = joined_text(rt, alloc, text);
    let wanted = joined_text(rt, alloc, wanted);
    let end = (Status::Done, wanted.as_str(), "");
    let (asked, solver) = (tables_on(rt, page), Partition::new());
    expect_run(rt, alloc, asked, &solver, text.as_bytes(), ROOM, end);
}

/// The table of the deal, with the line feed behind it.
fn table(rt: &impl Abort) -> &'static str {
    let (_, table) = some(rt, TABLE.split_once(DEAL));
    table.trim_end_matches('\n')
}

/// Who deals and who is vulnerable stands in tags, or Law 2 says it of the board's number. What was written comes of
/// itself too.
#[test]
fn pars_by_tags_and_numbers(rt: HostRuntime) {
    let alloc = rt.alloc();
    let page = (PageForm::Whole, ParTags::With);
    for (tags, par) in GAMES {
        let wanted = [tags, DEAL, par, table(&rt), "\n"];
        expect_page(&rt, alloc, page, &[tags, DEAL], &wanted);
        expect_page(&rt, alloc, page, &wanted, &wanted);
    }
}

/// Old pars go with the option, and stay without it.
#[test]
fn old_pars(rt: HostRuntime) {
    let alloc = rt.alloc();
    let tags = "[Board \"1\"]\n";
    let text = [tags, DEAL, OLD];
    let page = (PageForm::Whole, ParTags::With);
    let wanted = [tags, DEAL, OLD_LEFT, NOT_VULNERABLE, table(&rt), "\n"];
    expect_page(&rt, alloc, page, &text, &wanted);
    let page = (PageForm::Whole, ParTags::Without);
    expect_page(
        &rt,
        alloc,
        page,
        &text,
        &[tags, DEAL, OLD, table(&rt), "\n"],
    );
}

/// The tags of a board without a number go along with its par, as PBN names them.
#[test]
fn tags_alone(rt: HostRuntime) {
    let alloc = rt.alloc();
    let page = (PageForm::Tables, ParTags::With);
    let named = "% PBN 2.1\n[Board \"x\"]\n";
    let given = "[Dealer \" w\"]\n[Vulnerable \"both\"]\n";
    let tags = "[Dealer \"W\"]\n[Vulnerable \"All\"]\n";
    let wanted = [named, DEAL, tags, VULNERABLE, table(&rt), "\n\n"];
    expect_page(&rt, alloc, page, &[named, given, DEAL], &wanted);
    expect_page(&rt, alloc, page, &wanted, &wanted);
}

/// The tables alone: the par stands before the table, and there is none where the table is incomplete. Before the par
/// stand the dealer and the vulnerability from which it was taken, so the page comes of itself too.
#[test]
fn tables_alone(rt: HostRuntime) {
    let alloc = rt.alloc();
    let head = "% PBN 2.1\n[Board \"1\"]\n";
    let page = (PageForm::Tables, ParTags::With);
    let tags = "[Dealer \"N\"]\n[Vulnerable \"None\"]\n";
    let wanted = [head, DEAL, tags, NOT_VULNERABLE, table(&rt), "\n\n"];
    expect_page(&rt, alloc, page, &[head, DEAL], &wanted);
    expect_page(&rt, alloc, page, &wanted, &wanted);
    let asked = tables_on(&rt, page);
    let text = joined_text(&rt, alloc, &[head, DEAL]);
    let wanted = joined_text(&rt, alloc, &[head, DEAL, "; table incomplete: 0 of 20\n\n"]);
    let end = (Status::Incomplete, wanted.as_str(), UNFOUND);
    expect_run(&rt, alloc, asked, &FindsNothing, text.as_bytes(), ROOM, end);
}
