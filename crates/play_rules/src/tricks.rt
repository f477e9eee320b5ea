//! The winner of a trick (Law 44E and 44F).

ghost use Rattle.std.specs.Prelude.{◌≡◌, ℕ, ◌≤◌, ◌||◌};
ghost use Rattle.cards.specs.Seats.{seat_in_place};
ghost use Rattle.play_rules.specs.Tricks.{AreFourCards, WinsAt};
ghost use Rattle.play_rules.specs.Winners.{is_of, deciding_suit, height, highest_place, winner_of};
ghost use Rattle.play_rules.specs.History.{trick_made};

use cards::{Card, Seat, Suit, Trump};

/// Returns the seat that wins the trick of these four cards, which were played clockwise from the leader: the seat of
/// the highest trump if one was played, otherwise the seat of the highest card of the suit led. If a card is there
/// twice, the first counts.
pub fn winner(
    trump: Trump,
    leader: Seat,
    first: Card,
    second: Card,
    third: Card,
    fourth: Card,
) -> Seat
    ensures winner { result ≡ winner_of trump leader (trick_made first second third fourth) }
    ensures highest { (place : ℕ) × (place ≤ 3) × (result ≡ seat_in_place leader place)
        × WinsAt trump (trick_made first second third fourth) place }
    ensures no_other { AreFourCards (trick_made first second third fourth) → (place : ℕ) → place ≤ 3
        → WinsAt trump (trick_made first second third fourth) place → result ≡ seat_in_place leader place }
{
    let suit = deciding(trump, first, second, third, fourth);
    let place = place_of_greatest(
        height_in(suit, first),
        height_in(suit, second),
        height_in(suit, third),
        height_in(suit, fourth),
    );
    seat_at(leader, place)
}

/// Returns the first of four places that has the greatest height.
fn place_of_greatest(first: usize, second: usize, third: usize, fourth: usize) -> usize
    ensures place { result ≡ highest_place first second third fourth }
    ensures within { result ≤ 3 }
{
    let greatest = first.max(second).max(third).max(fourth);
    if first == greatest {
        0
    } else if second == greatest {
        1
    } else if third == greatest {
        2
    } else {
        3
    }
}

/// Returns the seat that is this many places clockwise from the leader.
fn seat_at(leader: Seat, place: usize) -> Seat
    requires { place ≤ 3 }
    ensures { result ≡ seat_in_place leader place }
{
    match place {
        0 => leader,
        1 => leader.next(),
        2 => leader.next().next(),
        _ => leader.next().next().next(),
    }
}

/// Returns whether the card is of the suit.
fn is_of(suit: Suit, card: Card) -> bool
    ensures { result ≡ is_of suit card }
{
    card.suit == suit
}

/// Returns whether one of the cards is of the suit.
fn are_of(suit: Suit, first: Card, second: Card, third: Card, fourth: Card) -> bool
    ensures { result ≡ (is_of suit first || (is_of suit second || (is_of suit third || is_of suit fourth))) }
{
    is_of(suit, first) || is_of(suit, second) || is_of(suit, third) || is_of(suit, fourth)
}

/// Returns the suit whose highest card wins.
fn deciding(trump: Trump, first: Card, second: Card, third: Card, fourth: Card) -> Suit
    ensures { result ≡ deciding_suit trump (trick_made first second third fourth) }
{
    match trump {
        Trump::Suit(suit) if are_of(suit, first, second, third, fourth) => suit,
        _ => first.suit,
    }
}

/// Returns how high the card is in the suit, or 0 if it is of another suit.
fn height_in(suit: Suit, card: Card) -> usize
    ensures { result ≡ height suit card }
{
    if is_of(suit, card) {
        card.rank.number() + 1
    } else {
        0
    }
}
