//! What `clap` has read of words and options.

ghost use Rattle.std.specs.Prelude.{◌≡◌, ◌↔◌, Some, codes, option_map};
ghost use Rattle.clap.specs.Words.{first_of, found_of, rows_of};
ghost use Rattle.cards.specs.Seats.{seat_letter};
ghost use Rattle.cards.specs.Pack.{trump_letters};
ghost use Rattle.command_words.specs.Options.{numbers_of};
ghost use Rattle.command_words.specs.Says.{IsRead, SaysDeal, SaysNumber, SaysThreads, flag_letters, is_said};
ghost use Rattle.command_words.specs.Says.{named_boards};

use crate::kinds::NumberOption;
use cards::{Seat, Trump};
use clap::ArgMatches;

/// What the words of the subcommands for one layout say.
#[derive(Clone, Copy)]
pub struct LayoutWords<'a> {
    /// The value of a PBN Deal tag, as it was typed.
    pub layout: &'a str,
    /// The leader for `plain` and `cards`, otherwise declarer.
    pub seat: Seat,
    pub trump: Trump,
}

/// The layout, the seat of this name and the denomination.
pub fn deal_of<'a>(said: &ArgMatches<'a>, seat: &str) -> Option<LayoutWords<'a>>
    ensures { IsRead (SaysDeal (rows_of (found_of said.now)) seat.now) result }
{
    let layout = word_of(said, "LAYOUT")?;
    let seat = seat_of(said, seat)?;
    let trump = trump_of(said)?;
    Some(LayoutWords {
        layout,
        seat,
        trump,
    })
}

/// The file that is named for the boards. The name `-` is that of the input.
pub fn boards_of<'a>(said: &ArgMatches<'a>) -> Option<&'a str>
    ensures { option_map (λ text. text.now) result
        ≡ named_boards (first_of (codes "BOARDS") (rows_of (found_of said.now))) }
{
    match word_of(said, "BOARDS")? {
        "-" => None,
        name => Some(name),
    }
}

/// The text of a word, or of an option that has one.
pub fn word_of<'a>(said: &ArgMatches<'a>, name: &str) -> Option<&'a str>
    ensures { option_map (λ text. text.now) result ≡ first_of name.now (rows_of (found_of said.now)) }
{
    said.get_str(name)
}

/// Whether an option without a value stands among the words.
pub fn flag_of(said: &ArgMatches<'_>, name: &str) -> Option<bool>
    ensures { (flag : _) → (result ≡ Some flag)
        ↔ (first_of name.now (rows_of (found_of said.now)) ≡ Some (flag_letters flag)) }
{
    flag_of_letters(word_of(said, name)?)
}

/// The number of an option, where it is in its range.
pub fn number_of(said: &ArgMatches<'_>, option: &NumberOption) -> Option<u64>
    ensures { IsRead (SaysNumber (rows_of (found_of said.now)) (numbers_of option.now)) result }
{
    let (least, most) = (u64::from(option.least), u64::from(option.most));
    let number = said.get_one::<u64>(option.name)?;
    if number < least || most < number {
        return None;
    }
    Some(number)
}

/// The number of an option, or, if the option is missing, the number of processors, as near as its range has.
pub fn threads_of(said: &ArgMatches<'_>, option: &NumberOption, processors: usize) -> Option<u64>
    ensures { IsRead (SaysThreads (rows_of (found_of said.now)) processors (numbers_of option.now)) result }
{
    match word_of(said, option.name) {
        Some(_) => number_of(said, option),
        None => Some(option.nearest(processors as u64)),
    }
}

/// Whether an option without a value is said.
pub fn is_said(said: &ArgMatches<'_>, name: &str) -> bool
    ensures { result ≡ is_said (rows_of (found_of said.now)) name.now }
{
    match word_of(said, name) {
        Some(letters) => letters == "true",
        None => false,
    }
}

fn seat_of(said: &ArgMatches<'_>, name: &str) -> Option<Seat>
    ensures { (seat : _) → (result ≡ Some seat)
        ↔ (first_of name.now (rows_of (found_of said.now)) ≡ Some (seat_letter seat)) }
{
    Seat::of_letter(word_of(said, name)?)
}

fn trump_of(said: &ArgMatches<'_>) -> Option<Trump>
    ensures { (trump : _) → (result ≡ Some trump)
        ↔ (first_of (codes "TRUMP") (rows_of (found_of said.now)) ≡ Some (trump_letters trump)) }
{
    Trump::of_letters(word_of(said, "TRUMP")?)
}

/// What `clap` writes for an option without a value.
fn flag_of_letters(letters: &str) -> Option<bool>
    ensures { (flag : _) → (result ≡ Some flag) ↔ (letters.now ≡ flag_letters flag) }
{
    match letters {
        "true" => Some(true),
        "false" => Some(false),
        _ => None,
    }
}
