//! A subcommand as data: a row for each of its words and options.

use crate::kinds::{ChoiceOption, FlagOption, NumberOption, TextOption};

/// A word's name, and what help says of it.
#[derive(Clone, Copy)]
pub struct Word {
    pub name: &'static str,
    pub help: &'static str,
}

/// A word or an option of a subcommand.
#[derive(Clone, Copy)]
pub enum Argument {
    /// A word that is any text.
    Word(Word),
    /// A word that is any text and may be missing.
    OptionalWord(Word),
    /// A word that is the letter of a seat.
    Seat(Word),
    /// A word that is the letters of a denomination.
    Trump(Word),
    /// An option with a number.
    Number(NumberOption),
    /// An option without a value.
    Flag(FlagOption),
    /// An option with a text.
    Text(TextOption),
    /// An option with the word for a side.
    Side(ChoiceOption),
}

/// A subcommand.
#[derive(Clone, Copy)]
pub struct Definition {
    /// The word that names it.
    pub name: &'static str,
    /// The first lines of its help.
    pub about: &'static str,
    /// Its usage, if `clap` is not to write it.
    pub usage: Option<&'static str>,
    /// The last lines of its help.
    pub examples: &'static str,
    /// Its words and options, in the order of its help.
    pub arguments: &'static [Argument],
}
