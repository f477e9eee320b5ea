//! How the words and options of a subcommand are defined for `clap`.

ghost use Rattle.std.specs.Prelude.{IfOk, map};
ghost use Rattle.command_words.specs.Options.{numbers_of};
ghost use Rattle.command_words.specs.Rules.{AddsRules, AddsShapes, AreLetters, IsArg, IsLeaf, KeepsShape, choice};
ghost use Rattle.command_words.specs.Rules.{choice_rule};
ghost use Rattle.command_words.specs.Rules.{flag, number_rule, optional_word, rule_in, shape_in, text_rule, word};

use crate::definitions::{Argument, Definition, Word};
use crate::kinds::{ChoiceOption, FlagOption, NumberOption, TextOption};
use clap::builder::ValueParser;
use clap::{Arg, ArgAction, Command};
use std::alloc::{AllocError, Global};

static SEATS: [&str; 4] = ["N", "E", "S", "W"];

static TRUMPS: [&str; 5] = ["NT", "S", "H", "D", "C"];

static SIDES: [&str; 2] = ["declarer", "defenders"];

/// The letters of the seats and of the denominations, and the words for the sides, which `clap` takes by reference.
#[derive(Clone, Copy)]
pub struct Letters<'a> {
    pub seats: &'a [&'a str],
    pub trumps: &'a [&'a str],
    pub sides: &'a [&'a str],
}

/// The letters and the words that are known.
pub fn known_letters() -> Letters<'static>
    ensures { AreLetters result }
{
    Letters {
        seats: SEATS.as_slice(),
        trumps: TRUMPS.as_slice(),
        sides: SIDES.as_slice(),
    }
}

/// The command with these subcommands.
pub fn with_subcommands<'a>(
    alloc: Global,
    letters: Letters<'a>,
    mut command: Command<'a>,
    definitions: &[Definition],
) -> Result<Command<'a>, AllocError>
    ensures { IfOk result (AddsShapes command.entry (map (shape_in letters.entry) definitions.now)) }
{
    for definition in definitions {
        let subcommand = subcommand(alloc, letters, definition)?;
        command = command.subcommand(subcommand)?;
    }
    Ok(command)
}

/// The subcommand of this definition.
fn subcommand<'a>(
    alloc: Global,
    letters: Letters<'a>,
    definition: &Definition,
) -> Result<Command<'a>, AllocError>
    ensures { IfOk result (IsLeaf (shape_in letters.entry definition.now)) }
{
    let command = described(Command::new(alloc, definition.name), definition);
    with_arguments(alloc, letters, command, definition.arguments)
}

/// The command with the texts of its help.
fn described<'a>(command: Command<'a>, definition: &Definition) -> Command<'a>
    ensures { KeepsShape command.entry result }
{
    let command = command
        .about(definition.about)
        .after_help(definition.examples);
    match definition.usage {
        Some(usage) => command.override_usage(usage),
        None => command,
    }
}

/// The command with these words and options.
fn with_arguments<'a>(
    alloc: Global,
    letters: Letters<'a>,
    mut command: Command<'a>,
    arguments: &[Argument],
) -> Result<Command<'a>, AllocError>
    ensures { IfOk result (AddsRules command.entry (map (rule_in letters.entry) arguments.now)) }
{
    for argument in arguments {
        command = command.arg(arg_of(alloc, letters, argument))?;
    }
    Ok(command)
}

/// The argument of `clap` for this word or option.
fn arg_of<'a>(alloc: Global, letters: Letters<'a>, argument: &Argument) -> Arg<'a>
    ensures { IsArg (rule_in letters.entry argument.now) result }
{
    match argument {
        Argument::Word(word) => word_arg(alloc, word),
        Argument::OptionalWord(word) => optional_word_arg(alloc, word),
        Argument::Seat(word) => choice_arg(alloc, word, letters.seats),
        Argument::Trump(word) => choice_arg(alloc, word, letters.trumps),
        Argument::Number(option) => number_arg(alloc, option),
        Argument::Flag(option) => flag_arg(alloc, option),
        Argument::Text(option) => text_arg(alloc, option),
        Argument::Side(option) => choice_option_arg(alloc, option, letters.sides),
    }
}

/// A word that is any text.
fn word_arg<'a>(alloc: Global, row: &Word) -> Arg<'a>
    ensures { IsArg (word row.now.name.now) result }
{
    Arg::new(alloc, row.name).required(true).help(row.help)
}

/// A word that is any text and may be missing.
fn optional_word_arg<'a>(alloc: Global, row: &Word) -> Arg<'a>
    ensures { IsArg (optional_word row.now.name.now) result }
{
    Arg::new(alloc, row.name).help(row.help)
}

/// A word that is one of these texts.
fn choice_arg<'a>(alloc: Global, row: &Word, texts: &'a [&'a str]) -> Arg<'a>
    ensures { IsArg (choice row.now.name.now texts.entry) result }
{
    Arg::new(alloc, row.name)
        .required(true)
        .value_parser(texts)
        .help(row.help)
}

fn number_arg<'a>(alloc: Global, option: &NumberOption) -> Arg<'a>
    ensures { IsArg (number_rule (numbers_of option.now)) result }
{
    let arg = Arg::new(alloc, option.name)
        .long(option.name)
        .value_name(option.value_name)
        .value_parser(ValueParser::signed(i64::from(option.least), i64::from(option.most)))
        .help(option.help);
    if option.is_by_machine {
        arg
    } else {
        arg.default_value(option.default_text)
    }
}

fn flag_arg<'a>(alloc: Global, option: &FlagOption) -> Arg<'a>
    ensures { IsArg (flag option.now.name.now) result }
{
    Arg::new(alloc, option.name)
        .long(option.name)
        .action(ArgAction::SetTrue)
        .help(option.help)
}

fn choice_option_arg<'a>(alloc: Global, option: &ChoiceOption, texts: &'a [&'a str]) -> Arg<'a>
    ensures { IsArg (choice_rule option.now.name.now texts.entry option.now.default.now) result }
{
    Arg::new(alloc, option.name)
        .long(option.name)
        .value_name(option.value_name)
        .value_parser(texts)
        .default_value(option.default)
        .help(option.help)
}

fn text_arg<'a>(alloc: Global, option: &TextOption) -> Arg<'a>
    ensures { IsArg (text_rule option.now.name.now) result }
{
    Arg::new(alloc, option.name)
        .long(option.name)
        .value_name(option.value_name)
        .help(option.help)
}
