//! The words and options of `audit`.

ghost use Rattle.std.specs.Prelude.{◌≡◌};
ghost use Rattle.clap.specs.Words.{found_of, rows_of};
ghost use Rattle.command_words.specs.Rules.{shape_in};
ghost use Rattle.command_words.specs.Says.{IsRead};
ghost use Rattle.command_words.specs.declared.commands.Letters.{Letters};
ghost use Rattle.board_subcommands.specs.Audit.Options.{Says, shape};

use crate::page_options::{PAR, SHEET, WHOLE, page_of};
use clap::ArgMatches;
use command_words::rows::BOARDS;
use command_words::{Argument, Definition, Word, boards_of, word_of};
use tournaments::Page;

/// What is asked of an audit.
#[derive(Clone, Copy)]
pub struct AuditOptions<'a> {
    /// The name of the file with the evidence.
    pub file: &'a str,
    /// Which page is written.
    pub page: Page,
    /// The name of the file with the boards, if it isn't the input.
    pub boards: Option<&'a str>,
}

/// The file with the evidence.
const FILE: Argument = Argument::Word(Word {
    name: "FILE",
    help: "\
The file with the evidence, or a pipe: it is read once, from front to back",
});

static ARGUMENTS: [Argument; 5] = [
    Argument::Flag(WHOLE),
    Argument::Flag(SHEET),
    Argument::Flag(PAR),
    FILE,
    BOARDS,
];

/// The definition of the subcommand.
pub fn definition() -> Definition
    ensures { (letters : Letters) → shape_in letters result ≡ shape }
{
    Definition {
        name: "audit",
        about: "\
Reads the boards of a tournament and writes the tables that evidence shows of them",
        usage: Some("ddfarm audit [OPTIONS] FILE [BOARDS] >tables.pbn"),
        examples: "\
Examples:
  ddfarm audit club.dde club.pbn >tables.pbn
  ddfarm audit <(zstd -dc club.dde.zst) club.pbn >tables.pbn
reads the boards, as `ddfarm table` does, and then evidence, as
`ddfarm table --evidence club.dde` keeps it. Nothing is searched and nothing is trusted:
each certificate is checked, and a number is written only where certificates show it.
The tables are those of `ddfarm table`. Where some numbers weren't shown, a line such as
`; table incomplete: 19 of 20` stands in place of the table. --whole, --sheet and --par
do as with `ddfarm table`.

Evidence is a row of sections, each for one deal in one denomination. Sections of other
deals are passed over. So are damaged ones, and that is told once on the error output:
  ddfarm: evidence: 2 sections are damaged, the first at byte 81920

Exit status:
  0  no table is incomplete
  1  a file can't be opened or read, the output failed, or memory ran out
  2  the command line is refused, or the text, as by `ddfarm table`
  3  a table is incomplete: the evidence doesn't show all of its numbers",
        arguments: ARGUMENTS.as_slice(),
    }
}

/// Returns what the words say.
pub fn options_of<'a>(said: &ArgMatches<'a>) -> Option<AuditOptions<'a>>
    ensures { IsRead (Says (rows_of (found_of said.now))) result }
{
    let file = word_of(said, "FILE")?;
    let page = page_of(said)?;
    let boards = boards_of(said);
    Some(AuditOptions { file, page, boards })
}
