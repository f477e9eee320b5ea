//! The words and options of `play`.

ghost use Rattle.std.specs.Prelude.{◌≡◌, ◌↔◌, Some};
ghost use Rattle.clap.specs.Words.{first_of, found_of, rows_of};
ghost use Rattle.command_words.specs.Rules.{shape_in};
ghost use Rattle.command_words.specs.Says.{IsRead};
ghost use Rattle.command_words.specs.declared.commands.Letters.{Letters};
ghost use Rattle.deal_subcommands.specs.Play.Options.{Says, shape, side_option, side_word};

use crate::play::sides::ContractSide;
use cards::{Seat, Trump};
use clap::ArgMatches;
use command_words::rows::{DECLARER, LAYOUT, TRUMP};
use command_words::{Argument, ChoiceOption, Definition, Word, deal_of, word_of};

/// What is asked of a play against a certificate.
#[derive(Clone, Copy)]
pub struct PlayOptions<'a> {
    /// The layout, in the form of a Deal value.
    pub layout: &'a str,
    /// Who declares; the seat at declarer's left leads.
    pub declarer: Seat,
    /// The denomination.
    pub trump: Trump,
    /// The name of the file with the answer.
    pub answer: &'a str,
    /// The side that plays by its certificate.
    pub side: ContractSide,
}

/// The file with the answer.
const ANSWER: Argument = Argument::Word(Word {
    name: "ANSWER",
    help: "The file with the answer, as `ddfarm solve` writes it",
});

/// Which side plays by its certificate.
const SIDE: ChoiceOption = ChoiceOption {
    name: "side",
    value_name: "SIDE",
    default: "declarer",
    help: "The side that ddfarm plays for",
};

static ARGUMENTS: [Argument; 5] = [LAYOUT, DECLARER, TRUMP, ANSWER, Argument::Side(SIDE)];

/// The definition of the subcommand.
pub fn definition() -> Definition
    ensures { (letters : Letters) → shape_in letters result ≡ shape letters }
{
    Definition {
        name: "play",
        about: "\
Plays one side's cards by the certificate of an answer, and you play the other's",
        usage: Some(
            "\
ddfarm play [--side declarer|defenders] LAYOUT DECLARER TRUMP ANSWER",
        ),
        examples: "\
Example:
  ddfarm play \"N:A... K... Q... J...\" N NT answer.txt
reads an answer from a file as `ddfarm check` does. Where it is accepted, declarer's
cards and dummy's are played by declarer's certificate, and you play the defenders':
whatever they do, declarer's side takes the 1 trick of the answer. With
--side defenders it is the other way round.

Before each card of yours you see the hands, the trick, who has won how many tricks, and
whose turn it is. Type a line:
  S3     plays the three of spades, and so do s3 and 3S
         an empty line plays the only card that may be played
  undo   takes back your last card
  hands  shows all that again
  quit   ends the play
What can't be done is told in a line, and you are asked again. At the end you are told
how many tricks each side took, and how many were promised.

What is refused is printed as by `ddfarm check`, and then nothing is played.

Exit status:
  0  all cards were played, or `quit` was typed
  1  ANSWER can't be opened or read, the input or the output failed, or memory ran out
  2  the command line or the layout is refused, or the first line of ANSWER is not a
     result line
  3  the input ended before all cards were played
  4  the answer is refused",
        arguments: ARGUMENTS.as_slice(),
    }
}

/// Returns what the words say.
pub fn options_of<'a>(said: &ArgMatches<'a>) -> Option<PlayOptions<'a>>
    ensures { IsRead (Says (rows_of (found_of said.now))) result }
{
    let deal = deal_of(said, "DECLARER")?;
    let answer = word_of(said, "ANSWER")?;
    let side = side_of(said)?;
    Some(PlayOptions {
        layout: deal.layout,
        declarer: deal.seat,
        trump: deal.trump,
        answer,
        side,
    })
}

fn side_of(said: &ArgMatches<'_>) -> Option<ContractSide>
    ensures { (side : _) → (result ≡ Some side)
        ↔ (first_of side_option (rows_of (found_of said.now)) ≡ Some (side_word side)) }
{
    ContractSide::of_word(word_of(said, SIDE.name)?)
}
