//! What is left after a trick.

ghost use Rattle.std.specs.Prelude.{◌≡◌, ◌-◌, ◌+◌, ◌*◌, ◌/◌, ◌%◌, ◌^◌, ◌<◌, ℕ, length};
ghost use Rattle.std.specs.List.{list_any};
ghost use Rattle.cards.specs.declared.suits.Suit.{Suit};
ghost use Rattle.cards.specs.declared.seats.Seat.{Seat};
ghost use Rattle.cards.specs.Pack.{suit_number};
ghost use Rattle.patterns.specs.Shapes.{len_of};
ghost use Rattle.patterns.specs.Words.{suit_in};
ghost use Rattle.patterns.specs.Removals.{is_among, owners_but};
ghost use Rattle.pattern_step.specs.Tricks.{AreLegalInTurn, IsLeft};
ghost use Rattle.pattern_step.specs.PatCards.{is_top};
ghost use Rattle.pattern_step.specs.TrickBits.{card_lens, trick_lens};

use crate::pat_cards::PatCard;
use cards::{Seat, Suit};
use patterns::{Pattern, Rest, SuitWord};

/// How many bits each suit has in the numbers that tell a trick: those of the four lengths in a word.
const SUIT_BITS: usize = 16;

/// The bits of one suit.
const SUIT: u64 = 0xffff;

/// The greatest place that has a bit, after those of all tops that a pattern has.
const LAST_PLACE: u8 = 15;

/// What is left of a pattern after four pattern cards that were played clockwise from the leader: each player's
/// length in the suit played goes down by one, and the tops that were played are taken out of the owners. The cards
/// must be legal in turn.
pub fn rest(pattern: &Pattern, leader: Seat, cards: &[PatCard; 4]) -> Rest
    requires { AreLegalInTurn pattern.now leader cards.now }
    ensures { IsLeft pattern.now leader cards.now result }
{
    pattern.invariant();
    let lens = trick_lens(leader, cards);
    let places = trick_places(cards);
    Rest::of_suits(
        left(pattern.suit(Suit::Spades), Suit::Spades, lens, places),
        left(pattern.suit(Suit::Hearts), Suit::Hearts, lens, places),
        left(pattern.suit(Suit::Diamonds), Suit::Diamonds, lens, places),
        left(pattern.suit(Suit::Clubs), Suit::Clubs, lens, places),
    )
}

/// What is left of one suit, of sixteen bits for each: the lengths played, and the places of the tops played.
fn left(held: SuitWord, suit: Suit, lens: u64, places: u64) -> SuitWord
    ensures four { length result.lens ≡ 4 }
    ensures lens { (seat : Seat) → len_of result seat ≡ len_of held seat - len_of
        (suit_in (lens / 2 ^ (16 * suit_number suit) % 2 ^ 16)) seat }
    ensures owners { result.owners ≡ owners_but (places / 2 ^ (16 * suit_number suit)) held.owners }
{
    let from = SUIT_BITS * suit.number();
    held.less(lens >> from & SUIT).without(places >> from)
}

/// The lengths that the cards take from their players, sixteen bits a suit, spades lowest, in each as in a word.
fn trick_lens(leader: Seat, cards: &[PatCard; 4]) -> u64
    ensures { (suit : Suit) → result / 2 ^ (16 * suit_number suit) % 2 ^ 16 ≡ trick_lens leader cards.now suit }
{
    let second = leader.next();
    let third = second.next();
    card_lens(leader, cards[0])
        + card_lens(second, cards[1])
        + card_lens(third, cards[2])
        + card_lens(third.next(), cards[3])
}

/// The length of one that the card takes from its player.
fn card_lens(seat: Seat, card: PatCard) -> u64
    ensures { result ≡ card_lens seat card }
{
    1 << (SUIT_BITS * card.suit().number() + 4 * seat.number())
}

/// The places of the tops among the cards, sixteen bits a suit, spades lowest, in each that of place 0 lowest.
fn trick_places(cards: &[PatCard; 4]) -> u64
    ensures { (suit : Suit) (place : ℕ) → place < 13 → is_among (result / 2 ^ (16 * suit_number suit)) place
        ≡ list_any (is_top suit place) cards.now }
{
    place_bit(cards[0]) | place_bit(cards[1]) | place_bit(cards[2]) | place_bit(cards[3])
}

/// The bit of the card's place, if it is a top.
fn place_bit(card: PatCard) -> u64
    ensures { (suit : Suit) (place : ℕ) → place < 13 → is_among (result / 2 ^ (16 * suit_number suit)) place
        ≡ is_top suit place card }
{
    match card {
        PatCard::Top(suit, place) => {
            1 << (SUIT_BITS * suit.number() + place.min(LAST_PLACE) as usize)
        }
        PatCard::Low(_) => 0,
    }
}
