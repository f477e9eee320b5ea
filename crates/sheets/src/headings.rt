//! The head of a sheet, and the headings where another event or section begins.

ghost use Rattle.std.specs.Prelude.{◌≡◌};
ghost use Rattle.std.specs.Option.{option_copied, option_or};
ghost use Rattle.cards.specs.Devices.{Writes};
ghost use Rattle.html.specs.Templates.{filled};
ghost use Rattle.html.specs.Values.{value_text};
ghost use Rattle.board_conditions.specs.Titles.{titles_said};
ghost use Rattle.sheets.specs.Headings.{title_place, title_at, title_shown, title_value, is_new, begins_group};
ghost use Rattle.sheets.specs.Headings.{new_titles, group_text, titles_after};

use crate::names::is_named;
use crate::templates::GROUP;
use board_conditions::Titles;
use cards::{DeviceFault, Sink};
use html::{Values, write_filled, write_value};

/// A place of a template with titles.
enum TitlePlace {
    /// The event.
    Event,
    /// The section of the event.
    Section,
    /// Where.
    Site,
    /// When.
    Date,
}

/// The place of this name.
fn title_place(name: &[u8]) -> Option<TitlePlace>
    ensures { result ≡ title_place name.now }
{
    if is_named(name, b"event") {
        Some(TitlePlace::Event)
    } else if is_named(name, b"section") {
        Some(TitlePlace::Section)
    } else if is_named(name, b"site") {
        Some(TitlePlace::Site)
    } else if is_named(name, b"date") {
        Some(TitlePlace::Date)
    } else {
        None
    }
}

/// The title for a place.
fn title_at<'a>(titles: Titles<'a>, place: Option<TitlePlace>) -> Option<&'a [u8]>
    ensures { option_copied result ≡ title_at (titles_said titles.entry) place }
{
    match place? {
        TitlePlace::Event => titles.event,
        TitlePlace::Section => titles.section,
        TitlePlace::Site => titles.site,
        TitlePlace::Date => titles.date,
    }
}

/// Writes a title, if there is one.
fn write_title<S: Sink>(sink: &mut S, title: Option<&[u8]>) -> Result<(), DeviceFault>
    ensures { Writes (S.state sink.old) (S.state sink.new) (value_text (title_shown (option_copied title.entry)))
        result }
{
    match title {
        Some(value) => write_value(sink, value),
        None => Ok(()),
    }
}

/// The values of titles.
#[derive(Drop)]
struct TitleValues<'a> {
    titles: Titles<'a>,
}

impl Values for TitleValues<'_> {
    ghost use Rattle.board_conditions.specs.Titles.{titles_said};

    ghost values = { λ one. title_value (titles_said one.titles) };

    fn write<S: Sink>(&self, sink: &mut S, name: &[u8]) -> Result<(), DeviceFault> {
        write_title(sink, title_at(self.titles, title_place(name)))
    }
}

/// Writes a template with titles.
pub(crate) fn write_titles<S: Sink>(
    sink: &mut S,
    template: &[u8],
    titles: Titles<'_>,
) -> Result<(), DeviceFault>
    ensures { Writes (S.state sink.old) (S.state sink.new)
        (filled (title_value (titles_said titles.entry)) template.now) result }
{
    write_filled(sink, template, &TitleValues { titles })
}

/// Whether a title is there and isn't the one before.
fn is_new(before: Option<&[u8]>, title: Option<&[u8]>) -> bool
    ensures { result ≡ is_new (option_copied before.entry) (option_copied title.entry) }
{
    let Some(title) = title else {
        return false;
    };
    match before {
        Some(before) => !is_named(before, title),
        None => true,
    }
}

/// A title, or where it isn't said the one before.
fn title_or<'a>(title: Option<&'a [u8]>, before: Option<&'a [u8]>) -> Option<&'a [u8]>
    ensures { option_copied result ≡ option_or (option_copied title.entry) (option_copied before.entry) }
{
    title.or(before)
}

/// The titles of a board behind one with these titles. An event or a section that isn't said is the one before, but
/// another event begins without a section.
pub(crate) fn titles_after<'a>(before: Titles<'a>, titles: Titles<'a>) -> Titles<'a>
    ensures { titles_said result ≡ titles_after (titles_said before.entry) (titles_said titles.entry) }
{
    let section = if is_new(before.event, titles.event) {
        titles.section
    } else {
        title_or(titles.section, before.section)
    };
    Titles {
        event: title_or(titles.event, before.event),
        section,
        ..titles
    }
}

/// Whether another event or section begins.
fn begins_group(before: Titles<'_>, titles: Titles<'_>) -> bool
    ensures { result ≡ begins_group (titles_said before.entry) (titles_said titles.entry) }
{
    is_new(before.event, titles.event) || is_new(before.section, titles.section)
}

/// What a heading shows: an event only if it is new.
fn new_titles<'a>(before: Titles<'_>, titles: Titles<'a>) -> Titles<'a>
    ensures { titles_said result ≡ new_titles (titles_said before.entry) (titles_said titles.entry) }
{
    let event = if is_new(before.event, titles.event) {
        titles.event
    } else {
        None
    };
    Titles { event, ..titles }
}

/// Writes the heading of another event or section, if it begins.
pub(crate) fn write_group<S: Sink>(
    sink: &mut S,
    before: Titles<'_>,
    titles: Titles<'_>,
) -> Result<(), DeviceFault>
    ensures { Writes (S.state sink.old) (S.state sink.new)
        (group_text (titles_said before.entry) (titles_said titles.entry)) result }
{
    if begins_group(before, titles) {
        write_titles(sink, GROUP, new_titles(before, titles))
    } else {
        Ok(())
    }
}
