//! A play, card by card.

ghost use Rattle.std.specs.Prelude.{◌≡◌, Bool, List, ℕ};
ghost use Rattle.recorded_plays.specs.Slots.{slots_of, is_irregular};
ghost use Rattle.recorded_plays.specs.Follow.{IsRead};

use crate::plays::{IllegalCard, IllegalReason, PlayEnd, RecordedPlay, Slot};
use arrayvec::ArrayVec;
use cards::{Card, Layout, Seat, Trump};
use play_rules::{PlayFault, Table, holders};

/// What a Play section says.
#[derive(Clone, Copy)]
pub(crate) struct Section<'a> {
    /// The seat of the first column.
    pub(crate) first: Seat,
    /// The slots, row by row.
    pub(crate) slots: &'a [Slot],
    /// Whether it ends with an irregularity.
    pub(crate) is_irregular: bool,
}

/// A play on its way.
#[derive(Drop)]
struct Walk {
    /// The table, with the cards that were played.
    table: Table,
    /// These cards.
    cards: ArrayVec<Card, 52>,
    /// Who holds which card now.
    left: [Option<Seat>; 52],
}

impl Walk {
    ghost use Rattle.std.specs.Prelude.{[], Err};
    ghost use Rattle.play_rules.specs.Legal.{IsUnfinished};
    ghost use Rattle.play_rules.specs.Plays.{PlaysOrRefuses};
    ghost use Rattle.recorded_plays.specs.Follow.{IsRefused};
    ghost use Rattle.recorded_plays.specs.Values.{IsWalk, Steps};

    /// The play before its first card.
    fn new(deal: Layout, leader: Seat, trump: Trump) -> Walk
        ensures walk { IsWalk result }
        ensures opening { result.table.opening ≡ record { deal = deal; leader = leader; trump = trump } }
        ensures cards { result.cards.items ≡ [] }
    {
        Walk {
            table: Table::new(deal, leader, trump),
            cards: ArrayVec::new(),
            left: holders(&deal),
        }
    }

    /// Why the table refused the card.
    fn reason(&self, card: Card, fault: PlayFault) -> IllegalReason
        requires walk { IsWalk self.now }
        requires unfinished { IsUnfinished self.now.table.opening self.now.cards.items }
        requires refused { PlaysOrRefuses self.now.table card (Err fault) }
        ensures { IsRefused self.now.table.opening self.now.cards.items card result }
    {
        if let PlayFault::MustFollow = fault {
            let lead = self.cards[self.cards.len() / 4 * 4];
            return IllegalReason::HoldsSuit(lead.suit);
        }
        match self.left[card.number()] {
            Some(holder) => IllegalReason::OutOfTurn(holder),
            None => IllegalReason::NotHeld,
        }
    }

    /// Plays the next card of the section, or answers why there is none.
    fn step(&mut self, section: &Section<'_>) -> Option<PlayEnd>
        requires { IsWalk self.old }
        ensures { Steps result section.now.first section.now.slots.now section.now.is_irregular self.old self.new }
    {
        let Some(seat) = self.table.turn() else {
            return Some(PlayEnd::Whole);
        };
        let tricks = self.cards.len() / 4;
        let column = (seat.number() + 4 - section.first.number()) % 4;
        let card = match section.slots.get(4 * tricks + column) {
            Some(Slot::Played(card)) => *card,
            Some(Slot::Unknown) => return Some(PlayEnd::Unknown),
            Some(Slot::Unread) => return Some(PlayEnd::Unread),
            None if section.is_irregular => return Some(PlayEnd::Irregular),
            None => return Some(PlayEnd::Early),
        };
        if let Err(fault) = self.table.play(card) {
            return Some(PlayEnd::Illegal(IllegalCard {
                trick: tricks + 1,
                seat,
                card,
                reason: self.reason(card, fault),
            }));
        }
        self.left[card.number()] = None;
        self.cards.push(card);
        None
    }
}

/// The play of the deal as the section gives it. Takes no memory.
pub(crate) fn follow(
    deal: Layout,
    declarer: Seat,
    trump: Trump,
    section: &Section<'_>,
) -> RecordedPlay
    ensures deal { result.deal ≡ deal }
    ensures trump { result.trump ≡ trump }
    ensures declarer { result.declarer ≡ declarer }
    ensures reads { (text : List ℕ) → section.now.slots.now ≡ slots_of text
        → section.now.is_irregular ≡ is_irregular text → IsRead section.now.first text result }
{
    let mut walk = Walk::new(deal, declarer.next(), trump);
    loop {
        if let Some(end) = walk.step(section) {
            return RecordedPlay {
                deal,
                declarer,
                trump,
                cards: walk.cards,
                end,
            };
        }
    }
}
