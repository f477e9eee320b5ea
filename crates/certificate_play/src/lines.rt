//! A play of two sides by their certificates.

ghost use Rattle.std.specs.Prelude.{◌≡◌, ◌+◌, ◌≤◌, []};
ghost use Rattle.cards.specs.Seats.{other_side};
ghost use Rattle.cards.specs.Deal.{size_of};
ghost use Rattle.play_rules.specs.History.{tricks_of};
ghost use Rattle.play_rules.specs.Legal.{IsPlay};
ghost use Rattle.certificate_play.specs.Promises.{after_card, IsSidesTurn, GoesOn};

use crate::playing::Playing;
use arrayvec::ArrayVec;
use cards::Card;

/// The cards of a play of the deal, from the opening lead on, in which each side has at least what it promised. So
/// where the promises together are all the tricks, each has just that.
pub fn line(mut one: Playing<'_>, mut other: Playing<'_>) -> ArrayVec<Card, 52>
    requires same { other.position ≡ one.position }
    requires start { one.position.history ≡ [] }
    requires sides { other.side ≡ other_side one.side }
    ensures play { IsPlay one.entry.position.opening result.items }
    ensures one_has { one.entry.tricks ≤ tricks_of one.entry.side one.entry.position.opening.trump
        one.entry.position.opening.leader result.items }
    ensures other_has { other.entry.tricks ≤ tricks_of other.entry.side one.entry.position.opening.trump
        one.entry.position.opening.leader result.items }
    ensures exactly { one.entry.tricks + other.entry.tricks ≡ size_of one.entry.position.opening.deal
        → tricks_of one.entry.side one.entry.position.opening.trump one.entry.position.opening.leader result.items
        ≡ one.entry.tricks }
{
    let mut cards = ArrayVec::new();
    while let Some(seat) = one.turn() {
        let card = if seat.side() == one.side() {
            follow(&mut one, &mut other)
        } else {
            follow(&mut other, &mut one)
        };
        cards.push(card);
    }
    one.invariant();
    other.invariant();
    cards
}

/// Plays the card of the side whose turn it is, which the other takes.
fn follow(own: &mut Playing<'_>, other: &mut Playing<'_>) -> Card
    requires same { other.old.position ≡ own.old.position }
    requires goes_on { GoesOn own.old }
    requires turn { IsSidesTurn own.old }
    requires others { IsSidesTurn other.old → ⊥ }
    ensures own { own.new ≡ after_card own.old result }
    ensures other { other.new ≡ after_card other.old result }
{
    let card = own.answer();
    if other.take(card).is_err() {
        unreachable!();
    }
    card
}
