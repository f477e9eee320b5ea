//! The words and options of `table`.

ghost use Rattle.std.specs.Prelude.{◌≡◌};
ghost use Rattle.clap.specs.Words.{found_of, rows_of};
ghost use Rattle.command_words.specs.Rules.{shape_in};
ghost use Rattle.command_words.specs.Says.{IsRead};
ghost use Rattle.command_words.specs.declared.commands.Letters.{Letters};
ghost use Rattle.board_subcommands.specs.Table.Options.{AreDefaults, Says, SaysSettings, shape};

use crate::page_options::{PAR, SHEET, WHOLE, page_of};
use clap::ArgMatches;
use command_words::rows::{self, BOARDS};
use command_words::{
    Argument, Definition, FlagOption, NumberOption, TextOption, boards_of, flag_of, number_of,
    threads_of, word_of,
};
use farm::Settings;
use tournaments::Page;

/// What is asked of tables.
#[derive(Clone, Copy)]
pub struct TableOptions<'a> {
    /// How many threads work on them, how often, and how long.
    pub settings: Settings,
    /// Whether the gate is told of the work.
    pub progress: bool,
    /// Which page is written.
    pub page: Page,
    /// The name of the file with the boards, if it isn't the input.
    pub boards: Option<&'a str>,
    /// The name of the file in which evidence is kept, where it is kept.
    pub evidence: Option<&'a str>,
}

/// How many threads check answers.
const CHECKERS: NumberOption = NumberOption {
    name: "checkers",
    value_name: "THREADS",
    least: 1,
    most: 64,
    default_text: "2",
    is_by_machine: true,
    help: "How many answers are checked at a time: 1 to 64 [default: the number of processors]",
};

/// How many seconds an entry is lent.
const TERM: NumberOption = NumberOption {
    name: "term",
    value_name: "SECONDS",
    least: 0,
    most: 1_000_000_000,
    default_text: "600",
    is_by_machine: false,
    help: "How many seconds an entry is lent to a search before it is free again: 0 to 1000000000",
};

/// How often an entry is searched.
const TRIES: NumberOption = NumberOption {
    name: "tries",
    value_name: "TRIES",
    least: 1,
    most: 1000,
    default_text: "3",
    is_by_machine: false,
    help: "How often an entry is searched before it is left without a number: 1 to 1000",
};

/// How many entries are lent at a time.
const BATCH: NumberOption = NumberOption {
    name: "batch",
    value_name: "ENTRIES",
    least: 1,
    most: 20,
    default_text: "20",
    is_by_machine: false,
    help: "How many entries are lent at a time: 1 to 20",
};

/// Whether the progress of the work is printed.
pub(crate) const PROGRESS: FlagOption = FlagOption {
    name: "progress",
    help: "Tells on the error output how far the work has come, at most once a second and at the end",
};

/// Where evidence is kept.
const EVIDENCE: TextOption = TextOption {
    name: "evidence",
    value_name: "FILE",
    help: "Keeps evidence in FILE: what it shows isn't searched again, and what is found is added",
};

static ARGUMENTS: [Argument; 12] = [
    Argument::Number(rows::SOLVERS),
    Argument::Number(CHECKERS),
    Argument::Number(TERM),
    Argument::Number(TRIES),
    Argument::Number(rows::BUDGET),
    Argument::Number(BATCH),
    Argument::Flag(PROGRESS),
    Argument::Flag(WHOLE),
    Argument::Flag(SHEET),
    Argument::Flag(PAR),
    Argument::Text(EVIDENCE),
    BOARDS,
];

/// The definition of the subcommand.
pub fn definition() -> Definition
    ensures shape { (letters : Letters) → shape_in letters result ≡ shape }
    ensures defaults { AreDefaults }
{
    Definition {
        name: "table",
        about: "\
Reads the boards of a tournament in PBN and writes their double-dummy tables",
        usage: Some("ddfarm table [OPTIONS] [BOARDS] >tables.pbn"),
        examples: "\
Examples:
  ddfarm table club.pbn >tables.pbn
reads a PBN 2.1 text and writes one to the standard output: of each board its
name, its deal and its table, twenty numbers of tricks, each backed by
certificates that were checked. Where some weren't found, a line such
as `; table incomplete: 19 of 20` stands in place of the table. With --whole the text
is written as it is, with the tables in it. With --par tag pairs come before each
complete table: OptimumScore and ParContract, par and the contracts that reach it, and
without --whole Dealer and Vulnerable, from which par was taken.
  ddfarm table --sheet club.pbn >club.html
writes a page of HTML that a browser shows and prints: of each board its four hands, its
table and, without --par too, par.
  ddfarm table --evidence club.dde club.pbn >tables.pbn
writes the same, and keeps the certificates in club.dde, which is made where it isn't
there. What it shows isn't searched again, and what is searched is added as it is found.
So a run that was stopped goes on by the same line, and `ddfarm audit` makes the tables
of club.dde on a machine that needn't trust this one. What is damaged in club.dde is
told as by `ddfarm audit`. Where it can't be written any more, the tables are made all
the same.

What is refused, each with its line:
  1 TagForm        what begins with `[` is not a tag pair
  2 OpenComment    a `{` is never closed
  3 SecondDeal     a game has two Deal tags
  4 DealForm       a Deal value has another form
  5 CardTwice      a card is named twice
  6 HandSize       a hand has not 13 cards
  7 Inherited      a Board or Deal value begins with `#`
  8 TooManyBoards  there are more than 4,096 boards

Exit status:
  0  no table is incomplete
  1  the boards, the output or the evidence failed, a file can't be opened, memory ran
     out outside a search, or a thread could not be started
  2  the command line or the text is refused
  3  a table is incomplete: a note says whether steps or memory ran out",
        arguments: ARGUMENTS.as_slice(),
    }
}

/// Returns what the words say, on a machine with this number of processors.
pub fn options_of<'a>(said: &ArgMatches<'a>, processors: usize) -> Option<TableOptions<'a>>
    ensures { IsRead (Says (rows_of (found_of said.now)) processors) result }
{
    let settings = settings_of(said, processors)?;
    let progress = flag_of(said, PROGRESS.name)?;
    let page = page_of(said)?;
    let boards = boards_of(said);
    let evidence = word_of(said, EVIDENCE.name);
    Some(TableOptions {
        settings,
        progress,
        page,
        boards,
        evidence,
    })
}

/// The settings that the options say.
fn settings_of(said: &ArgMatches<'_>, processors: usize) -> Option<Settings>
    ensures { IsRead (SaysSettings (rows_of (found_of said.now)) processors) result }
{
    let solvers = threads_of(said, &rows::SOLVERS, processors)?;
    let checkers = threads_of(said, &CHECKERS, processors)?;
    let term = number_of(said, &TERM)?;
    let tries = number_of(said, &TRIES)?;
    let budget = number_of(said, &rows::BUDGET)?;
    let batch = number_of(said, &BATCH)?;
    let settings = Settings::new().with_term(term);
    let settings = settings.with_solvers(solvers as usize).ok()?;
    let settings = settings.with_checkers(checkers as usize).ok()?;
    let settings = settings.with_tries(tries as u32).ok()?;
    let settings = settings.with_budget(budget).ok()?;
    let settings = settings.with_batch(batch as usize).ok()?;
    Some(settings)
}
