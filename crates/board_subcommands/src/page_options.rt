//! The options for which page is written.

ghost use Rattle.std.specs.Prelude.{◌≡◌, ◌↔◌, Some, is_some};
ghost use Rattle.clap.specs.Words.{found_of, rows_of};
ghost use Rattle.command_words.specs.Says.{IsRead};
ghost use Rattle.board_subcommands.specs.PageOptions.{SaysPage, asks_for_both, is_sheet, is_whole, par_letters};

use clap::ArgMatches;
use command_words::{FlagOption, flag_of, is_said, word_of};
use tournaments::{Page, PageForm, ParTags};

/// Whether the input is written as it is, with its tables in it.
pub(crate) const WHOLE: FlagOption = FlagOption {
    name: "whole",
    help: "Writes the input as it is, with its tables in it",
};

/// Whether a page to print is written, with the boards' hands, tables and pars.
pub(crate) const SHEET: FlagOption = FlagOption {
    name: "sheet",
    help: "Writes a page of HTML to print: each board's hands, table and par",
};

/// Whether just the cards of plays that lose tricks are written.
pub(crate) const MISTAKES: FlagOption = FlagOption {
    name: "mistakes",
    help: "Writes of each play only the cards that lose tricks, and the totals",
};

/// Whether the boards' pars stand before their tables.
pub(crate) const PAR: FlagOption = FlagOption {
    name: "par",
    help: "Writes par and the par contracts before each table",
};

/// Which page of the tables is asked for.
pub(crate) fn page_of(said: &ArgMatches<'_>) -> Option<Page>
    ensures { IsRead (SaysPage (rows_of (found_of said.now))) result }
{
    let whole = flag_of(said, WHOLE.name)?;
    let sheet = flag_of(said, SHEET.name)?;
    let form = form_of(whole, sheet)?;
    let par = par_tags_of(word_of(said, PAR.name)?)?;
    Some(Page { form, par })
}

/// What `clap` writes for the option `--par`.
fn par_tags_of(letters: &str) -> Option<ParTags>
    ensures { (par : _) → (result ≡ Some par) ↔ (letters.now ≡ par_letters par) }
{
    match letters {
        "false" => Some(ParTags::Without),
        "true" => Some(ParTags::With),
        _ => None,
    }
}

/// The form of the page, by whether `--whole` and `--sheet` are said, if not both are.
fn form_of(whole: bool, sheet: bool) -> Option<PageForm>
    ensures { (form : _) → (result ≡ Some form) ↔ ((whole ≡ is_whole form) × (sheet ≡ is_sheet form)) }
{
    match (whole, sheet) {
        (false, false) => Some(PageForm::Tables),
        (true, false) => Some(PageForm::Whole),
        (false, true) => Some(PageForm::Sheet),
        (true, true) => None,
    }
}

/// Returns what is said of words that ask for two pages: for the input with its tables or just the mistakes of plays,
/// and for a sheet.
pub fn conflict(said: &ArgMatches<'_>) -> Option<&'static str>
    ensures { is_some result ≡ asks_for_both (rows_of (found_of said.now)) }
{
    if !is_said(said, SHEET.name) {
        None
    } else if is_said(said, WHOLE.name) {
        Some("the argument '--whole' cannot be used with '--sheet'")
    } else if is_said(said, MISTAKES.name) {
        Some("the argument '--mistakes' cannot be used with '--sheet'")
    } else {
        None
    }
}
