//! A whole dialogue.

ghost use Rattle.std.specs.Prelude.{◌≡◌, ◌≢◌, List, []};
ghost use Rattle.cards.specs.declared.pack.Card.{Card};
ghost use Rattle.play_rules.specs.Position.{IsReached};
ghost use Rattle.certificate_play.specs.Promises.{IsKept};
ghost use Rattle.play_dialogues.specs.declared.words.Typed.TheVariants as said;
ghost use Rattle.play_dialogues.specs.Dialogues.{IsDialogue, IsSamePlay};
ghost use Rattle.play_dialogues.specs.Trails.{IsAsked, AreReplies, ArePlayedSince};
ghost use Rattle.play_dialogues.specs.Conversing.{IsSettled, Tells, Opens, TakesTurn, Closes, Converses};

use crate::lines::next_line;
use crate::telling::{told_closing, told_opening};
use crate::trails::{Trail, reply};
use crate::words::Typed;
use cards::{OutOfMemory, Sink, Source, write_all};
use certificate_play::Playing;
use std::alloc::Global;

/// How a dialogue ends.
#[derive(Clone, Copy, Debug, PartialEq, Eq)]
pub enum End {
    /// All cards are played.
    Played,
    /// `quit` was typed.
    Quit,
    /// The input ended while a card was asked for.
    InputEnds,
    /// A call of the input failed, or more was typed than can be counted.
    ReadFails,
    /// A call of the output failed.
    WriteFails,
    /// Memory ran out.
    OutOfMemory,
}

/// A dialogue that has come to its end.
#[derive(Drop)]
pub struct Ended<'a> {
    /// How it ended.
    pub end: End,
    /// What stands then: what was played, who has won how many tricks, and what was promised.
    pub playing: Playing<'a>,
}

/// Plays on by a dialogue: the side of `playing` follows its certificate, and the other two hands are played by the
/// lines of the input.
///
/// Where a card is asked for the output has the four hands, the trick with its number and its leader, the score, and
/// whose turn it is. A line names a card by suit and rank or rank and suit, `10` or `T` the ten, in capitals or small
/// letters; blanks don't count. An empty line plays the only card that may be played. `undo` goes back to the turn at
/// which the last card was typed, `hands` shows all again, `quit` ends. Anything else, and a card that may not be
/// played, is told, and nothing changes. At the end of the play, of the input, and at `quit`, the output has what was
/// played, who has won how many tricks, and how many were promised.
///
/// Each text is whole lines, and is written by one [`write_all`] before the next line is read; a sink that holds lines
/// back is no good here. Of the input no byte is taken behind the line that is answered.
pub fn play_dialogue<'a, I: Source, O: Sink>(
    alloc: Global,
    playing: Playing<'a>,
    input: &mut I,
    output: &mut O,
) -> Ended<'a>
    ensures dialogue { IsDialogue playing.entry (I.state input.old) (I.state input.new) (O.state output.old)
        (O.state output.new) result.end result.playing }
    ensures same { IsSamePlay playing.entry result.playing }
    ensures reached { IsReached result.playing.position }
    ensures kept { IsKept result.playing }
{
    let mut now = playing.clone().unwrap();
    reply(&mut now);
    let mut trail = Trail::new(alloc, now);
    let end = hold(alloc, &playing, &mut trail, input, output);
    trail.now.invariant();
    let Trail { now, .. } = trail;
    Ended { end, playing: now }
}

/// Opens the dialogue and converses to the end, where `before` stood before the side's first cards.
fn hold<I: Source, O: Sink>(
    alloc: Global,
    before: &Playing<'_>,
    trail: &mut Trail<'_>,
    input: &mut I,
    output: &mut O,
) -> End
    requires new { trail.old.earlier ≡ [] }
    requires replied { (cards : List Card) × AreReplies before.now cards trail.old.now }
    ensures dialogue { IsDialogue before.now (I.state input.old) (I.state input.new) (O.state output.old)
        (O.state output.new) result trail.new.now }
    ensures same { IsSamePlay before.now trail.new.now }
{
    match open(alloc, before, &trail.now, output) {
        Ok(()) => converse(alloc, trail, input, output),
        Err(end) => end,
    }
}

/// Writes what stands before the first line.
fn open<O: Sink>(
    alloc: Global,
    before: &Playing<'_>,
    now: &Playing<'_>,
    output: &mut O,
) -> Result<(), End>
    requires { (cards : List Card) × ArePlayedSince before.now now.now cards }
    ensures { Opens before.now now.now (O.state output.old) (O.state output.new) result }
{
    match told_opening(alloc, before, now) {
        Ok(text) => write_text(&text, output),
        Err(_) => Err(End::OutOfMemory),
    }
}

/// Writes a text.
fn write_text<O: Sink>(text: &str, output: &mut O) -> Result<(), End>
    ensures { Tells (O.state output.old) (O.state output.new) text.now result }
{
    match write_all(output, text.as_bytes()) {
        Ok(()) => Ok(()),
        Err(_) => Err(End::WriteFails),
    }
}

/// Writes the closing lines at this end, and answers how the dialogue ends.
fn close<O: Sink>(alloc: Global, end: End, playing: &Playing<'_>, output: &mut O) -> End
    ensures { Closes playing.now (O.state output.old) (O.state output.new) end result }
{
    let text = match told_closing(alloc, playing) {
        Ok(text) => text,
        Err(_) => return End::OutOfMemory,
    };
    match write_text(&text, output) {
        Ok(()) => end,
        Err(fault) => fault,
    }
}

/// Does what is typed, and writes what is said to it.
fn take_turn<O: Sink>(
    alloc: Global,
    trail: &mut Trail<'_>,
    typed: Typed,
    output: &mut O,
) -> Result<(), End>
    requires asked { IsAsked trail.old.now }
    requires goes_on { typed ≢ said.Quit }
    ensures { TakesTurn trail.old typed trail.new (O.state output.old) (O.state output.new) result }
{
    match trail.act(alloc, typed) {
        Ok(text) => write_text(&text, output),
        Err(_) => Err(End::OutOfMemory),
    }
}

/// Line after line, to the end.
fn converse<I: Source, O: Sink>(
    alloc: Global,
    trail: &mut Trail<'_>,
    input: &mut I,
    output: &mut O,
) -> End
    requires new { trail.old.earlier ≡ [] }
    requires settled { IsSettled trail.old.now }
    ensures { Converses trail.old trail.new (I.state input.old) (I.state input.new) (O.state output.old)
        (O.state output.new) result }
{
    for _turn in 0..u64::MAX {
        if trail.now.turn().is_none() {
            return close(alloc, End::Played, &trail.now, output);
        }
        let typed = match next_line(input) {
            Ok(Some(typed)) => typed,
            Ok(None) => return close(alloc, End::InputEnds, &trail.now, output),
            Err(_) => return End::ReadFails,
        };
        if let Typed::Quit = typed {
            return close(alloc, End::Quit, &trail.now, output);
        }
        if let Err(end) = take_turn(alloc, trail, typed, output) {
            return end;
        }
    }
    End::ReadFails
}
