//! The form of the page of plays.

ghost use Rattle.std.specs.Prelude.{◌≡◌, ◌↔◌, Some};
ghost use Rattle.clap.specs.Words.{found_of, rows_of};
ghost use Rattle.command_words.specs.Says.{IsRead};
ghost use Rattle.board_subcommands.specs.Plays.Forms.{SaysForm, is_mistakes, is_sheet};

use crate::page_options::{MISTAKES, SHEET};
use cards::{DeviceFault, Sink};
use clap::ArgMatches;
use command_words::flag_of;
use play_pages::{PageTable, PlaysWriter, write_page};
use play_sheets::write_sheet;
use recorded_plays::RecordedGame;

/// The form of the page of plays.
#[derive(Clone, Copy, Debug, PartialEq, Eq)]
pub enum PlaysForm {
    /// A text with a line for each card.
    Text,
    /// A text with a line for each card that loses tricks.
    Mistakes,
    /// A page of HTML to print.
    Sheet,
}

impl PlaysWriter for PlaysForm {
    ghost use Rattle.board_subcommands.specs.Plays.Forms.{text_of};

    ghost text = { text_of };

    fn write<S: Sink>(
        &self,
        sink: &mut S,
        games: &[RecordedGame<'_>],
        table: &PageTable,
    ) -> Result<(), DeviceFault> {
        match *self {
            PlaysForm::Text => write_page(sink, false, games, table),
            PlaysForm::Mistakes => write_page(sink, true, games, table),
            PlaysForm::Sheet => write_sheet(sink, games, table),
        }
    }
}

/// The form that is asked for.
pub(crate) fn form_asked(said: &ArgMatches<'_>) -> Option<PlaysForm>
    ensures { IsRead (SaysForm (rows_of (found_of said.now))) result }
{
    let mistakes = flag_of(said, MISTAKES.name)?;
    let sheet = flag_of(said, SHEET.name)?;
    form_of(mistakes, sheet)
}

/// The form, by whether `--mistakes` and `--sheet` are said, if not both are.
fn form_of(mistakes: bool, sheet: bool) -> Option<PlaysForm>
    ensures { (form : _) → (result ≡ Some form) ↔ ((mistakes ≡ is_mistakes form) × (sheet ≡ is_sheet form)) }
{
    match (mistakes, sheet) {
        (false, false) => Some(PlaysForm::Text),
        (true, false) => Some(PlaysForm::Mistakes),
        (false, true) => Some(PlaysForm::Sheet),
        (true, true) => None,
    }
}
