//! The evidence of the plays of a text.

ghost use Rattle.std.specs.Prelude.{◌≡◌, IfOk};
ghost use Rattle.std.specs.Option.{option_copied};
ghost use Rattle.cards.specs.Devices.{Writes};
ghost use Rattle.play_pages.specs.Evidence.{evidence_by, evidence_text, section_text};
ghost use Rattle.play_pages.specs.Tasks.{lines_in};

use crate::lines::PlayLines;
use crate::page_tables::PageTable;
use cards::{DeviceFault, OutOfMemory, Sink};
use evidence::VecSink;
use play_evidence::{PlaySection, write_play_section};
use recorded_plays::{Lack, RecordedGame, RecordedPlay};
use std::alloc::Global;

/// Writes a section, if there is one.
fn write_section<S: Sink>(sink: &mut S, section: Option<&PlaySection>) -> Result<(), DeviceFault>
    ensures { Writes (S.state sink.old) (S.state sink.new) (section_text (option_copied section.entry)) result }
{
    match section {
        Some(section) => {
            section.invariant();
            write_play_section(sink, &section.contents())
        }
        None => Ok(()),
    }
}

/// Writes the section of a game's play, if it has one.
fn write_game<S: Sink>(
    sink: &mut S,
    play: &Result<RecordedPlay, Lack>,
    lines: &PlayLines,
) -> Result<(), DeviceFault>
    ensures { Writes (S.state sink.old) (S.state sink.new) (evidence_by play.now lines.now.section) result }
{
    match play {
        Ok(_) => write_section(sink, lines.section.as_ref()),
        Err(_) => Ok(()),
    }
}

/// Writes the sections of all plays that have one.
fn write_evidence<S: Sink>(
    sink: &mut S,
    games: &[RecordedGame<'_>],
    table: &PageTable,
) -> Result<(), DeviceFault>
    ensures { Writes (S.state sink.old) (S.state sink.new) (evidence_text games.now (lines_in table.now)) result }
{
    let none = PlayLines::none();
    for (place, game) in games.iter().enumerate() {
        write_game(sink, &game.play, table.lines(place, &none))?;
    }
    Ok(())
}

/// Returns the text of the sections of all plays that have one, in the order of the games. Fails only if memory runs
/// out.
pub(crate) fn evidence_of(
    alloc: Global,
    games: &[RecordedGame<'_>],
    table: &PageTable,
) -> Result<Vec<u8>, OutOfMemory>
    ensures { IfOk result (λ bytes. bytes.items ≡ evidence_text games.now (lines_in table.now)) }
{
    let mut sink = VecSink::new(alloc);
    match write_evidence(&mut sink, games, table) {
        Ok(()) => Ok(sink.into_bytes()),
        Err(_) => Err(OutOfMemory),
    }
}
