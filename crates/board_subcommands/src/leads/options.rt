//! The words and options of `leads`.

ghost use Rattle.std.specs.Prelude.{◌≡◌};
ghost use Rattle.clap.specs.Words.{found_of, rows_of};
ghost use Rattle.command_words.specs.Rules.{shape_in};
ghost use Rattle.command_words.specs.Says.{IsRead};
ghost use Rattle.command_words.specs.declared.commands.Letters.{Letters};
ghost use Rattle.board_subcommands.specs.Leads.Options.{Says, shape};

use crate::table::PROGRESS;
use clap::ArgMatches;
use command_words::rows::{self, BOARDS};
use command_words::{Argument, Definition, boards_of, flag_of, number_of, threads_of};

/// What is asked of opening leads.
#[derive(Clone, Copy)]
pub struct LeadsOptions<'a> {
    /// How many threads search.
    pub solvers: usize,
    /// How many steps a search may take for each lead.
    pub budget: u64,
    /// Whether the gate is told of the work.
    pub progress: bool,
    /// The name of the file with the boards, if it isn't the input.
    pub boards: Option<&'a str>,
}

static ARGUMENTS: [Argument; 4] = [
    Argument::Number(rows::SOLVERS),
    Argument::Number(rows::BUDGET),
    Argument::Flag(PROGRESS),
    BOARDS,
];

/// The definition of the subcommand.
pub fn definition() -> Definition
    ensures { (letters : Letters) → shape_in letters result ≡ shape }
{
    Definition {
        name: "leads",
        about: "\
Reads the boards of a tournament and writes how many tricks each opening lead leads to",
        usage: Some("ddfarm leads [OPTIONS] [BOARDS] >leads.txt"),
        examples: "\
Example:
  ddfarm leads club.pbn >leads.txt
reads boards as `ddfarm table` does, and writes a line for each board and contract:
  N NT  9 SK SQ  8 H4 H3 D6
North declares at no-trump and East leads. After the king or the queen of spades the
defenders take nine tricks, after the other cards eight. Each number is backed by
certificates that were checked. A line that wasn't found is missing, and a line such as
`; leads incomplete: 19 of 20` says so.

What is refused of the boards is printed as by `ddfarm table`.

Exit status:
  0  no line is missing
  1  the boards or the output failed, a file can't be opened, or memory ran out outside a
     search
  2  the command line or the text is refused
  3  a line is missing: a note says whether steps or memory ran out",
        arguments: ARGUMENTS.as_slice(),
    }
}

/// Returns what the words say, on a machine with this number of processors.
pub fn options_of<'a>(said: &ArgMatches<'a>, processors: usize) -> Option<LeadsOptions<'a>>
    ensures { IsRead (Says (rows_of (found_of said.now)) processors) result }
{
    let solvers = threads_of(said, &rows::SOLVERS, processors)?;
    let budget = number_of(said, &rows::BUDGET)?;
    let progress = flag_of(said, PROGRESS.name)?;
    let boards = boards_of(said);
    Some(LeadsOptions {
        solvers: solvers as usize,
        budget,
        progress,
        boards,
    })
}
