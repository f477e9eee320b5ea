//! The words of `check`.

ghost use Rattle.std.specs.Prelude.{◌≡◌, codes};
ghost use Rattle.clap.specs.Words.{found_of, rows_of};
ghost use Rattle.command_words.specs.Rules.{shape_in};
ghost use Rattle.command_words.specs.Says.{IsRead, SaysDeal};
ghost use Rattle.command_words.specs.declared.commands.Letters.{Letters};
ghost use Rattle.deal_subcommands.specs.Check.Options.{shape};

use clap::ArgMatches;
use command_words::rows::{DECLARER, LAYOUT, TRUMP};
use command_words::{Argument, Definition, LayoutWords, deal_of};

static ARGUMENTS: [Argument; 3] = [LAYOUT, DECLARER, TRUMP];

/// The definition of the subcommand.
pub fn definition() -> Definition
    ensures { (letters : Letters) → shape_in letters result ≡ shape letters }
{
    Definition {
        name: "check",
        about: "\
Checks an answer: that declarer's side takes just so many tricks of a layout",
        usage: Some("ddfarm check LAYOUT DECLARER TRUMP <answer.txt"),
        examples: "\
Example:
  ddfarm check \"N:A... K... Q... J...\" N NT <answer.txt
reads an answer from the standard input: a line `result 1`, the certificate of
declarer's side, an empty line, and that of the defenders. Where they show that
North takes 1 trick, `accepted 1` is printed.

What is refused is printed after `refused`, with `declarer` or `defenders` before
all but 9:
  1 RootMissing   tricks are to be won, and there are no nodes
  2 RootNeedless  no tricks are to be won, and there are nodes
  3 RootTrump     another trump
  4 RootSide      another side
  5 RootLead      node 0 has another seat to lead
  6 RootNeed      node 0 has another need
  7 RootPattern   the layout doesn't match the pattern of node 0
  8 Node          the step of a node doesn't hold: its number and its own fault
  9 KTooLarge     there are to be more tricks than cards in a hand
  10 Text         the text is no certificate: its own fault and the line

Exit status:
  0  the answer is accepted
  1  the input or the output failed, or memory ran out
  2  the command line or the layout is refused, or the first line is not a result line
  4  the answer is refused",
        arguments: ARGUMENTS.as_slice(),
    }
}

/// Returns what the words say.
pub fn options_of<'a>(said: &ArgMatches<'a>) -> Option<LayoutWords<'a>>
    ensures { IsRead (SaysDeal (rows_of (found_of said.now)) (codes "DECLARER")) result }
{
    deal_of(said, "DECLARER")
}
