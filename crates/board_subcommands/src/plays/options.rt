//! The words and options of `plays`.

ghost use Rattle.std.specs.Prelude.{◌≡◌, codes, option_map};
ghost use Rattle.clap.specs.Words.{first_of, found_of, rows_of};
ghost use Rattle.command_words.specs.Rules.{shape_in};
ghost use Rattle.command_words.specs.Says.{IsRead, named_boards};
ghost use Rattle.command_words.specs.declared.commands.Letters.{Letters};
ghost use Rattle.board_subcommands.specs.Plays.Options.{Says, shape};

use crate::page_options::MISTAKES;
use crate::plays::forms::{PlaysForm, form_asked};
use clap::ArgMatches;
use command_words::{
    AUDIT, Argument, Definition, EVIDENCE, FlagOption, Proof, Word, number_of, proof_of, rows,
    threads_of, word_of,
};

/// What is asked of recorded plays.
#[derive(Clone, Copy)]
pub struct PlaysOptions<'a> {
    /// How many threads search.
    pub solvers: usize,
    /// How many steps a search may take for each number.
    pub budget: u64,
    /// The form of the page.
    pub form: PlaysForm,
    /// Where the numbers come from, and where their evidence goes.
    pub proof: Proof<'a>,
    /// The name of the file with the games, if it isn't the input.
    pub games: Option<&'a str>,
}

/// Whether a page to print is written, with the games' hands and plays.
const SHEET: FlagOption = FlagOption {
    name: "sheet",
    help: "Writes a page of HTML to print: each game's hands, and its play as a table of tricks",
};

/// The file with the games.
const GAMES: Word = Word {
    name: "GAMES",
    help: "\
The file with the games; without it, or with `-`, they are read from the standard input",
};

static ARGUMENTS: [Argument; 7] = [
    Argument::Number(rows::SOLVERS),
    Argument::Number(rows::BUDGET),
    Argument::Flag(MISTAKES),
    Argument::Flag(SHEET),
    Argument::Text(EVIDENCE),
    Argument::Text(AUDIT),
    Argument::OptionalWord(GAMES),
];

/// The definition of the subcommand.
pub fn definition() -> Definition
    ensures { (letters : Letters) → shape_in letters result ≡ shape }
{
    Definition {
        name: "plays",
        about: "\
Reads recorded plays and writes how many tricks declarer's side takes after each card",
        usage: Some("ddfarm plays [OPTIONS] [GAMES] >plays.txt"),
        examples: "\
Example:
  ddfarm plays club.pbn >plays.txt
reads games in PBN that have a Deal, a Declarer, a Contract and a Play section, and
writes a block for each. A line of a block is a card:
  2 S S3 9 S loses 1
South plays the three of spades to the second trick. Then declarer's side takes nine
tricks in all if both sides play best, those that are won counted. The card loses a
trick for South's side. `start` and `end` say the numbers before the first card and
after the last, `lost` says what each seat loses in all. Each number is backed by
certificates that were checked, or it is `unknown`.

With --sheet the same is written as a page of HTML, which a browser shows and prints.

  ddfarm plays --evidence club.dpp club.pbn >plays.txt
writes the same, and then the certificates to club.dpp, which must not be there.
  ddfarm plays --audit club.dpp club.pbn >plays.txt
searches nothing: it checks club.dpp and writes the numbers that it shows.

A play is followed as long as each card is legal and known. A line such as
`illegal 5 E D3: holds spades` says why it is not followed any further.

Exit status:
  0  each number is known, each card is legal, and no game lacks its deal, contract
     or declarer
  1  the games or the output failed, a file can't be opened, read or written, or memory
     ran out outside a search
  2  the command line is refused
  3  something of that is missing",
        arguments: ARGUMENTS.as_slice(),
    }
}

/// The file that is named for the games. The name `-` is that of the input.
fn games_of<'a>(said: &ArgMatches<'a>) -> Option<&'a str>
    ensures { option_map (λ text. text.now) result
        ≡ named_boards (first_of (codes "GAMES") (rows_of (found_of said.now))) }
{
    match word_of(said, "GAMES")? {
        "-" => None,
        name => Some(name),
    }
}

/// Returns what the words say, on a machine with this number of processors.
pub fn options_of<'a>(said: &ArgMatches<'a>, processors: usize) -> Option<PlaysOptions<'a>>
    ensures { IsRead (Says (rows_of (found_of said.now)) processors) result }
{
    let solvers = threads_of(said, &rows::SOLVERS, processors)?;
    let budget = number_of(said, &rows::BUDGET)?;
    let form = form_asked(said)?;
    let proof = proof_of(said)?;
    let games = games_of(said);
    Some(PlaysOptions {
        solvers: solvers as usize,
        budget,
        form,
        proof,
        games,
    })
}
