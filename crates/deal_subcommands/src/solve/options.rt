//! The words and options of `solve`.

ghost use Rattle.std.specs.Prelude.{◌≡◌};
ghost use Rattle.clap.specs.Words.{found_of, rows_of};
ghost use Rattle.command_words.specs.Rules.{shape_in};
ghost use Rattle.command_words.specs.Says.{IsRead};
ghost use Rattle.command_words.specs.declared.commands.Letters.{Letters};
ghost use Rattle.deal_subcommands.specs.Solve.Options.{Says, shape};

use clap::ArgMatches;
use command_words::rows::{self, DECLARER, LAYOUT, TRUMP};
use command_words::{Argument, Definition, LayoutWords, deal_of, number_of};

/// What is asked of a search for an answer.
#[derive(Clone, Copy)]
pub struct SolveOptions<'a> {
    /// The layout, who declares and the denomination.
    pub deal: LayoutWords<'a>,
    /// How many steps the solver may take.
    pub budget: u64,
}

static ARGUMENTS: [Argument; 4] = [LAYOUT, DECLARER, TRUMP, Argument::Number(rows::BUDGET)];

/// The definition of the subcommand.
pub fn definition() -> Definition
    ensures { (letters : Letters) → shape_in letters result ≡ shape letters }
{
    Definition {
        name: "solve",
        about: "\
Finds how many tricks declarer's side takes of a layout, with certificates",
        usage: Some("ddfarm solve [--budget STEPS] LAYOUT DECLARER TRUMP >answer.txt"),
        examples: "\
Example:
  ddfarm solve \"N:A... K... Q... J...\" N NT
writes an answer to the standard output: a line `result 1`, since North takes 1
trick, the certificate of declarer's side, an empty line, and that of the defenders.
`ddfarm check` reads such a text and accepts it, and `ddfarm line` shows how it is played.

Exit status:
  0  an answer was found
  1  the output failed, or memory ran out
  2  the command line or the layout is refused
  3  no answer was found in so many steps",
        arguments: ARGUMENTS.as_slice(),
    }
}

/// Returns what the words say.
pub fn options_of<'a>(said: &ArgMatches<'a>) -> Option<SolveOptions<'a>>
    ensures { IsRead (Says (rows_of (found_of said.now))) result }
{
    let deal = deal_of(said, "DECLARER")?;
    let budget = number_of(said, &rows::BUDGET)?;
    Some(SolveOptions { deal, budget })
}
