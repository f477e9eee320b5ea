//! The words of `line`.

ghost use Rattle.std.specs.Prelude.{◌≡◌, codes};
ghost use Rattle.clap.specs.Words.{found_of, rows_of};
ghost use Rattle.command_words.specs.Rules.{shape_in};
ghost use Rattle.command_words.specs.Says.{IsRead, SaysDeal};
ghost use Rattle.command_words.specs.declared.commands.Letters.{Letters};
ghost use Rattle.deal_subcommands.specs.Line.Options.{shape};

use clap::ArgMatches;
use command_words::rows::{DECLARER, LAYOUT, TRUMP};
use command_words::{Argument, Definition, LayoutWords, deal_of};

static ARGUMENTS: [Argument; 3] = [LAYOUT, DECLARER, TRUMP];

/// The definition of the subcommand.
pub fn definition() -> Definition
    ensures { (letters : Letters) → shape_in letters result ≡ shape letters }
{
    Definition {
        name: "line",
        about: "\
Shows how the tricks of an answer are taken: the line of play of its certificates",
        usage: Some("ddfarm line LAYOUT DECLARER TRUMP <answer.txt"),
        examples: "\
Example:
  ddfarm line \"N:A... K... Q... J...\" N NT <answer.txt
reads an answer from the standard input as `ddfarm check` does. Where it is accepted,
the line of play is written in which both sides follow their certificates, a trick a
line:
  accepted 1
  1 E: SK SQ SJ SA N
  declarer 1, defenders 0
To trick 1 East leads the king of spades, South, West and North follow with the queen,
the jack and the ace, and North wins it.

What is refused is printed as by `ddfarm check`, and then there is no line of play.

Exit status:
  0  the answer is accepted
  1  the input or the output failed, or memory ran out
  2  the command line or the layout is refused, or the first line is not a result line
  4  the answer is refused",
        arguments: ARGUMENTS.as_slice(),
    }
}

/// Returns what the words say.
pub fn options_of<'a>(said: &ArgMatches<'a>) -> Option<LayoutWords<'a>>
    ensures { IsRead (SaysDeal (rows_of (found_of said.now)) (codes "DECLARER")) result }
{
    deal_of(said, "DECLARER")
}
