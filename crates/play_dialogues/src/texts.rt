//! Lines that are written.

ghost use Rattle.std.specs.Prelude.{◌≡◌, ◌≤◌, ◌++◌, OnOk, Some, string_bytes};
ghost use Rattle.cards.specs.declared.seats.Seat.{Seat};
ghost use Rattle.cards.specs.Seats.{seat_in_place};
ghost use Rattle.play_rules.specs.History.{leader_after};
ghost use Rattle.play_rules.specs.Position.{turn_of};
ghost use Rattle.play_dialogues.specs.Texts.{left_in, held_letter, suit_text, hand_line, hands_text, trick_line};
ghost use Rattle.play_dialogues.specs.Texts.{tricks_in, score_line, promise_line, played_line, played_text};
ghost use Rattle.cards.specs.CardTexts.{cards_text};

use cards::{Card, Rank, Seat, Side, Suit};
use certificate_play::Playing;
use std::alloc::AllocError;

/// The letter of a card that the seat holds, and nothing for another.
fn letter_held(playing: &Playing<'_>, seat: Seat, suit: Suit, rank: Rank) -> &'static str
    ensures { result.now ≡ held_letter (left_in playing.now) seat suit rank }
{
    match playing.holder(Card { suit, rank }) {
        Some(holder) if holder == seat => rank.letter(),
        _ => "",
    }
}

/// Adds the seat's cards of a suit.
fn push_suit(
    text: &mut String,
    playing: &Playing<'_>,
    seat: Seat,
    suit: Suit,
) -> Result<(), AllocError>
    ensures { OnOk result (string_bytes text.new
        ≡ string_bytes text.old ++ suit_text (left_in playing.now) seat suit) }
{
    for rank in Rank::FALLING {
        text.push_str(letter_held(playing, seat, suit, rank))?;
    }
    Ok(())
}

/// Adds the seat's hand.
#[tactic(auto, unfolding(crate::specs::Texts::hand_line))]
fn push_hand(text: &mut String, playing: &Playing<'_>, seat: Seat) -> Result<(), AllocError>
    ensures { OnOk result (string_bytes text.new ≡ string_bytes text.old ++ hand_line (left_in playing.now) seat) }
{
    write!(text, "{seat}: ")?;
    push_suit(text, playing, seat, Suit::Spades)?;
    text.push_str(".")?;
    push_suit(text, playing, seat, Suit::Hearts)?;
    text.push_str(".")?;
    push_suit(text, playing, seat, Suit::Diamonds)?;
    text.push_str(".")?;
    push_suit(text, playing, seat, Suit::Clubs)?;
    text.push_str("\n")
}

/// Adds the four hands.
#[tactic(auto, unfolding(crate::specs::Texts::hands_text))]
pub(crate) fn push_hands(text: &mut String, playing: &Playing<'_>) -> Result<(), AllocError>
    ensures { OnOk result (string_bytes text.new ≡ string_bytes text.old ++ hands_text (left_in playing.now)) }
{
    push_hand(text, playing, Seat::North)?;
    push_hand(text, playing, Seat::East)?;
    push_hand(text, playing, Seat::South)?;
    push_hand(text, playing, Seat::West)
}

/// Adds cards, each behind a blank.
pub(crate) fn push_cards(text: &mut String, cards: &[Card]) -> Result<(), AllocError>
    ensures { OnOk result (string_bytes text.new ≡ string_bytes text.old ++ cards_text cards.now) }
{
    for card in cards {
        write!(text, " {card}")?;
    }
    Ok(())
}

/// The leader of the trick in progress, where it is this seat's turn and so many cards were played to it.
fn leader_before(seat: Seat, cards: usize) -> Seat
    requires { cards ≤ 3 }
    ensures { (leader : Seat) → seat ≡ seat_in_place leader cards → result ≡ leader }
{
    match cards {
        0 => seat,
        1 => seat.next().next().next(),
        2 => seat.next().next(),
        _ => seat.next(),
    }
}

/// The leader of the trick in progress, where it is this seat's turn.
fn leader_of(playing: &Playing<'_>, seat: Seat) -> Seat
    requires { turn_of playing.now.position ≡ Some seat }
    ensures { result ≡ leader_after playing.now.position.opening.trump playing.now.position.opening.leader
        playing.now.position.history }
{
    leader_before(seat, playing.trick().len())
}

/// Adds the trick in progress, where it is this seat's turn.
#[tactic(auto, unfolding(crate::specs::Texts::trick_line))]
pub(crate) fn push_trick(
    text: &mut String,
    playing: &Playing<'_>,
    seat: Seat,
) -> Result<(), AllocError>
    requires { turn_of playing.now.position ≡ Some seat }
    ensures { OnOk result (string_bytes text.new ≡ string_bytes text.old ++ trick_line playing.now) }
{
    let number = playing.history().len() / 4 + 1;
    let leader = leader_of(playing, seat);
    write!(text, "{number} {leader}:")?;
    push_cards(text, playing.trick())?;
    text.push_str("\n")
}

/// How many tricks a side has won so far.
fn tricks_won(playing: &Playing<'_>, side: Side) -> u8
    ensures { result ≡ tricks_in playing.now side }
{
    playing.invariant();
    if side == playing.side() {
        playing.won()
    } else {
        (playing.history().len() / 4) as u8 - playing.won()
    }
}

/// Adds who has won how many tricks so far.
#[tactic(auto, unfolding(crate::specs::Texts::score_line))]
pub(crate) fn push_score(text: &mut String, playing: &Playing<'_>) -> Result<(), AllocError>
    ensures { OnOk result (string_bytes text.new ≡ string_bytes text.old ++ score_line playing.now) }
{
    let north_south = tricks_won(playing, Side::NorthSouth);
    let east_west = tricks_won(playing, Side::EastWest);
    write!(text, "NS {north_south}, EW {east_west}\n")
}

/// Adds what was promised.
#[tactic(auto, unfolding(crate::specs::Texts::promise_line))]
pub(crate) fn push_promise(text: &mut String, playing: &Playing<'_>) -> Result<(), AllocError>
    ensures { OnOk result (string_bytes text.new ≡ string_bytes text.old ++ promise_line playing.now) }
{
    let side = playing.side();
    let promised = playing.promised();
    write!(text, "{side} promised {promised}\n")
}

/// Adds a card that is played, behind the seat that held it.
#[tactic(auto, unfolding(crate::specs::Texts::played_line))]
fn push_played(text: &mut String, before: &Playing<'_>, card: Card) -> Result<(), AllocError>
    ensures { OnOk result (string_bytes text.new
        ≡ string_bytes text.old ++ played_line (left_in before.now) card) }
{
    if let Some(seat) = before.holder(card) {
        text.push_str(seat.letter())?;
    }
    write!(text, " {card}\n")
}

/// Adds the cards that are played from these hands.
pub(crate) fn push_all_played(
    text: &mut String,
    before: &Playing<'_>,
    cards: &[Card],
) -> Result<(), AllocError>
    ensures { OnOk result (string_bytes text.new
        ≡ string_bytes text.old ++ played_text (left_in before.now) cards.now) }
{
    for card in cards {
        push_played(text, before, *card)?;
    }
    Ok(())
}
