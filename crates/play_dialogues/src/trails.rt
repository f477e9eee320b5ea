//! The turns at which somebody types, and what a line does there.

ghost use Rattle.std.specs.Prelude.{◌≡◌, ◌≢◌, [], List, MatchOption, OnErr, OnOk, IfOk, string_bytes};
ghost use Rattle.cards.specs.declared.pack.Card.{Card};
ghost use Rattle.play_dialogues.specs.declared.words.Typed.TheVariants as said;
ghost use Rattle.play_dialogues.specs.declared.words.Step.TheVariants.{Played};
ghost use Rattle.play_dialogues.specs.Trails.{IsAsked, AreReplies, Acts, PlaysCard, IsText, MayPlay, IsRefusedCard};

use crate::telling::{told_asking, told_played, told_refusal};
use crate::words::{Refusal, Typed};
use cards::{Card, OutOfMemory};
use certificate_play::Playing;
use play_rules::PlayFault;
use std::alloc::Global;
use std::marker::Model;

/// How many cards may be played where an empty line plays one.
const ONLY: usize = 1;

/// The turn now, and those before it at which a card was typed.
#[derive(Drop)]
pub(crate) struct Trail<'a> {
    /// The earlier turns, oldest first.
    pub(crate) earlier: Vec<Playing<'a>>,
    /// What stands now.
    pub(crate) now: Playing<'a>,
}

impl<'a> Model for Trail<'a> {
    ghost use Rattle.play_dialogues.specs.Trails.{Trail};

    ghost Value = { Trail };

    ghost view = { λ trail. record { earlier = trail.earlier.items; now = trail.now } };
}

/// Plays the side's cards, until it's another's turn or all is played.
pub(crate) fn reply(playing: &mut Playing<'_>)
    ensures { (cards : List Card) × AreReplies playing.old cards playing.new }
{
    match playing.turn() {
        Some(seat) if seat.side() == playing.side() => {
            playing.answer();
            reply(playing);
        }
        _ => {}
    }
}

impl<'a> Trail<'a> {
    /// Before the first line.
    pub(crate) fn new(alloc: Global, now: Playing<'a>) -> Trail<'a>
        ensures { result ≡ record { earlier = []; now = now.entry } }
    {
        Trail {
            earlier: Vec::new(alloc),
            now,
        }
    }

    /// Does what is typed, and answers what is to be written. Where memory runs out nothing is done.
    pub(crate) fn act(&mut self, alloc: Global, typed: Typed) -> Result<String, OutOfMemory>
        requires asked { IsAsked self.old.now }
        requires goes_on { typed ≢ said.Quit }
        ensures acts { IfOk result (λ text. Acts self.old typed self.new (string_bytes text)) }
        ensures stays { OnErr result (self.new ≡ self.old) }
    {
        match typed {
            Typed::Card(card) => self.act_card(alloc, card),
            Typed::Empty => self.act_empty(alloc),
            Typed::Undo => self.act_undo(alloc),
            Typed::Hands => told_asking(alloc, &self.now),
            Typed::Unknown => told_refusal(alloc, &self.now, Refusal::NoCard),
            Typed::Quit => unreachable!(),
        }
    }

    /// Plays the card, or tells why not.
    fn act_card(&mut self, alloc: Global, card: Card) -> Result<String, OutOfMemory>
        requires { IsAsked self.old.now }
        ensures acts { IfOk result (λ text. Acts self.old (said.Card card) self.new (string_bytes text)) }
        ensures stays { OnErr result (self.new ≡ self.old) }
    {
        match refusal_of(&self.now, card) {
            Some(refusal) => told_refusal(alloc, &self.now, refusal),
            None => self.play(alloc, card),
        }
    }

    /// Plays the only card that may be played, or tells that there are several.
    fn act_empty(&mut self, alloc: Global) -> Result<String, OutOfMemory>
        requires { IsAsked self.old.now }
        ensures acts { IfOk result (λ text. Acts self.old said.Empty self.new (string_bytes text)) }
        ensures stays { OnErr result (self.new ≡ self.old) }
    {
        self.now.invariant();
        let legal = self.now.legal();
        if legal.len() > ONLY {
            return told_refusal(alloc, &self.now, Refusal::Several);
        }
        self.play(alloc, legal[0])
    }

    /// Takes the last card back that was typed, or tells that there is none.
    fn act_undo(&mut self, alloc: Global) -> Result<String, OutOfMemory>
        ensures acts { IfOk result (λ text. Acts self.old said.Undo self.new (string_bytes text)) }
        ensures stays { OnErr result (self.new ≡ self.old) }
    {
        let Some(before) = self.earlier.last() else {
            return told_refusal(alloc, &self.now, Refusal::NothingBack);
        };
        let text = told_asking(alloc, before)?;
        if let Some(before) = self.earlier.pop() {
            self.now = before;
        }
        Ok(text)
    }

    /// Plays the card, and the side's replies.
    fn play(&mut self, alloc: Global, card: Card) -> Result<String, OutOfMemory>
        requires asked { IsAsked self.old.now }
        requires can { MayPlay self.old.now card }
        ensures plays { OnOk result (PlaysCard self.old card self.new) }
        ensures tells { IfOk result (λ text. IsText self.old Played self.new (string_bytes text)) }
        ensures stays { OnErr result (self.new ≡ self.old) }
    {
        let mut next = self.now.clone().unwrap();
        if next.take(card).is_err() {
            unreachable!();
        }
        reply(&mut next);
        let text = told_played(alloc, &self.now, &next)?;
        let before = self.now.clone().unwrap();
        self.earlier.push(before)?;
        self.now = next;
        Ok(text)
    }
}

/// Why the card can't be played, if it can't.
fn refusal_of(playing: &Playing<'_>, card: Card) -> Option<Refusal>
    requires { IsAsked playing.now }
    ensures { MatchOption result (MayPlay playing.now card) (IsRefusedCard playing.now card) }
{
    let mut next = playing.clone().unwrap();
    match next.take(card) {
        Ok(()) => None,
        Err(PlayFault::NotHeld) => Some(Refusal::NotHeld),
        Err(PlayFault::MustFollow) => Some(Refusal::MustFollow),
        Err(PlayFault::Over) => unreachable!(),
    }
}
