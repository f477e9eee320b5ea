//! The words of `plain`.

ghost use Rattle.std.specs.Prelude.{◌≡◌, codes};
ghost use Rattle.clap.specs.Words.{found_of, rows_of};
ghost use Rattle.command_words.specs.Rules.{shape_in};
ghost use Rattle.command_words.specs.Says.{IsRead, SaysDeal};
ghost use Rattle.command_words.specs.declared.commands.Letters.{Letters};
ghost use Rattle.deal_subcommands.specs.Plain.Options.{shape};

use clap::ArgMatches;
use command_words::rows::{LAYOUT, LEADER, TRUMP};
use command_words::{Argument, Definition, LayoutWords, deal_of};

static ARGUMENTS: [Argument; 3] = [LAYOUT, LEADER, TRUMP];

/// The definition of the subcommand.
pub fn definition() -> Definition
    ensures { (letters : Letters) → shape_in letters result ≡ shape letters }
{
    Definition {
        name: "plain",
        about: "\
Prints how many tricks North and South take from here on, with up to 4 cards a hand",
        usage: None,
        examples: "\
Example:
  ddfarm plain \"N:AQ... 65... 32... K4...\" S NT
South leads at no-trump. West holds the king before North's ace and queen, so the
finesse wins, and NS 2 is printed: two tricks for North and South, none for East
and West.",
        arguments: ARGUMENTS.as_slice(),
    }
}

/// Returns what the words say.
pub fn options_of<'a>(said: &ArgMatches<'a>) -> Option<LayoutWords<'a>>
    ensures { IsRead (SaysDeal (rows_of (found_of said.now)) (codes "LEADER")) result }
{
    deal_of(said, "LEADER")
}
