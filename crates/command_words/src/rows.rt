//! Words and options of more than one subcommand.

use crate::definitions::{Argument, Word};
use crate::kinds::NumberOption;

/// The four hands, in the form of a Deal value (PBN 2.1, 3.4.11).
pub const LAYOUT: Argument = Argument::Word(Word {
    name: "LAYOUT",
    help: "\
The four hands, in quotes: a seat (N, E, S or W), a colon, its hand, and then
the others clockwise, with a blank between two hands. A hand is its spades,
hearts, diamonds and clubs with a dot between two suits, T for the ten.
Example: \"N:AQ... 65... 32... K4...\", where North holds the ace and queen of
spades, East the six and five, South the three and two, West the king and four.",
});

/// Who declares.
pub const DECLARER: Argument = Argument::Seat(Word {
    name: "DECLARER",
    help: "Declarer's seat, as E for East; the seat at the left leads",
});

/// Who leads.
pub const LEADER: Argument = Argument::Seat(Word {
    name: "LEADER",
    help: "The seat that leads to the first trick, as S for South",
});

/// The denomination.
pub const TRUMP: Argument = Argument::Trump(Word {
    name: "TRUMP",
    help: "The trump suit, as H for hearts, or NT for no-trump",
});

/// The file with the boards.
pub const BOARDS: Argument = Argument::OptionalWord(Word {
    name: "BOARDS",
    help: "\
The file with the boards; without it, or with `-`, they are read from the standard input",
});

/// How many threads look for answers.
pub const SOLVERS: NumberOption = NumberOption {
    name: "solvers",
    value_name: "THREADS",
    least: 1,
    most: 64,
    default_text: "2",
    is_by_machine: true,
    help: "How many searches go on at a time: 1 to 64 [default: the number of processors]",
};

/// How many steps a search may take.
pub const BUDGET: NumberOption = NumberOption {
    name: "budget",
    value_name: "STEPS",
    least: 1,
    most: 1_000_000_000,
    default_text: "10000000",
    is_by_machine: false,
    help: "How many steps a search for an answer may take, each one card tried: 1 to 1000000000",
};
