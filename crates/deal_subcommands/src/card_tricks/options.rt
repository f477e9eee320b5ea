//! The words and options of `cards`.

ghost use Rattle.std.specs.Prelude.{◌≡◌};
ghost use Rattle.clap.specs.Words.{found_of, rows_of};
ghost use Rattle.command_words.specs.Rules.{shape_in};
ghost use Rattle.command_words.specs.Says.{IsRead};
ghost use Rattle.command_words.specs.declared.commands.Letters.{Letters};
ghost use Rattle.deal_subcommands.specs.CardTricks.Options.{Says, SaysPlayed, shape};

use cards::{Seat, Trump};
use clap::ArgMatches;
use command_words::rows::{self, LAYOUT, LEADER, TRUMP};
use command_words::{
    AUDIT, Argument, Definition, EVIDENCE, Proof, Word, deal_of, number_of, proof_of, word_of,
};

/// What is asked of the cards that may be played.
#[derive(Clone, Copy)]
pub struct CardsOptions<'a> {
    /// The layout when the trick began, in the form of a Deal value.
    pub layout: &'a str,
    /// The seat that leads to the trick.
    pub leader: Seat,
    /// The denomination.
    pub trump: Trump,
    /// The words for the cards that were played to the trick, in their order.
    pub played: PlayedWords<'a>,
    /// How many steps the search may take for each card.
    pub budget: u64,
    /// Where the numbers come from, and where their evidence goes.
    pub proof: Proof<'a>,
}

/// The words for up to three cards. If one is missing, so are those after it.
#[derive(Clone, Copy)]
pub struct PlayedWords<'a> {
    pub first: Option<&'a str>,
    pub second: Option<&'a str>,
    pub third: Option<&'a str>,
}

/// The first card.
const CARD1: Argument = Argument::OptionalWord(Word {
    name: "CARD1",
    help: "The first card played to the trick, as S2 for the two of spades",
});

/// The second card.
const CARD2: Argument = Argument::OptionalWord(Word {
    name: "CARD2",
    help: "The second card played to the trick",
});

/// The third card.
const CARD3: Argument = Argument::OptionalWord(Word {
    name: "CARD3",
    help: "The third card played to the trick",
});

static ARGUMENTS: [Argument; 9] = [
    LAYOUT,
    LEADER,
    TRUMP,
    CARD1,
    CARD2,
    CARD3,
    Argument::Number(rows::BUDGET),
    Argument::Text(EVIDENCE),
    Argument::Text(AUDIT),
];

/// The definition of the subcommand.
pub fn definition() -> Definition
    ensures { (letters : Letters) → shape_in letters result ≡ shape letters }
{
    Definition {
        name: "cards",
        about: "\
Prints how many tricks each card leads to that may be played",
        usage: Some(
            "\
ddfarm cards [OPTIONS] LAYOUT LEADER TRUMP [CARD1 [CARD2 [CARD3]]]",
        ),
        examples: "\
Example:
  ddfarm cards \"N:AQ... 65... 32... K4...\" S NT S2 S4
South has led the two of spades, West plays the four, and North is to play:
  N to play
  2  SQ
  1  SA
After the queen North and South take two tricks, the trick in progress among them, after
the ace one. The tricks are those of the side of the seat to play, the most first. Each
number is backed by certificates that were checked.

  ddfarm cards --evidence finesse.ddp \"N:AQ... 65... 32... K4...\" S NT S2 S4
prints the same and writes the certificates to finesse.ddp, which must not be there.
  ddfarm cards --audit finesse.ddp \"N:AQ... 65... 32... K4...\" S NT S2 S4
searches nothing: it checks finesse.ddp and prints what that shows, or a line that
begins with `refused`.

Exit status:
  0  each card has its number
  1  a file can't be opened, read or written, the output failed, or memory ran out
  2  the command line, the layout or a card is refused
  3  not every number was found in so many steps
  4  the evidence is refused",
        arguments: ARGUMENTS.as_slice(),
    }
}

/// Returns what the words say. They say nothing if they name two files of evidence.
pub fn options_of<'a>(said: &ArgMatches<'a>) -> Option<CardsOptions<'a>>
    ensures { IsRead (Says (rows_of (found_of said.now))) result }
{
    let deal = deal_of(said, "LEADER")?;
    let budget = number_of(said, &rows::BUDGET)?;
    let proof = proof_of(said)?;
    Some(CardsOptions {
        layout: deal.layout,
        leader: deal.seat,
        trump: deal.trump,
        played: played_of(said),
        budget,
        proof,
    })
}

/// Returns the words for the cards played.
fn played_of<'a>(said: &ArgMatches<'a>) -> PlayedWords<'a>
    ensures { SaysPlayed (rows_of (found_of said.now)) result }
{
    PlayedWords {
        first: word_of(said, "CARD1"),
        second: word_of(said, "CARD2"),
        third: word_of(said, "CARD3"),
    }
}
