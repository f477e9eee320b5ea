//! Hands in the text of a PBN Deal value.

ghost use Rattle.std.specs.Prelude.{◌≡◌, ◌≤◌, ◌<◌, ◌^◌, ◌∷◌, [], MatchOption, length};
ghost use Rattle.cards.specs.declared.seats.Seat.TheVariants.{North, East, South, West};
ghost use Rattle.cards.specs.Hands.{word_of};
ghost use Rattle.pbn_deals.specs.declared.dealings.Dealing.{Dealing};
ghost use Rattle.pbn_deals.specs.DealValue.{naming_of};
ghost use Rattle.dds_calls.specs.Texts.{AnswersText, NamesNoHands, ReadsHands, before_nul, suits_of_word};

use crate::codes::{NO_FAULT, PBN_FAULT};
use crate::hands::Hands;
use crate::tables::TableDeal;
use pbn_deals::{Dealing, read_dealing};

/// The text of a Deal value, which ends at the first NUL, or at the end. It has the shape of DDS's `ddTableDealPBN`.
#[repr(C)]
#[derive(Clone, Copy)]
pub struct DealText {
    /// The text.
    pub text: [u8; 80],
}

/// How many bits a suit has in a hand's word.
const SUIT_BITS: u32 = 13;

/// The hands of a text that has another form.
const NO_DEAL: TableDeal = TableDeal { cards: [[0; 4]; 4] };

/// Returns the bytes before the first NUL.
fn before_nul(text: &[u8]) -> &[u8]
    ensures { result.now ≡ before_nul text.now }
{
    for (place, byte) in text.iter().enumerate() {
        if *byte == 0 {
            return &text[..place];
        }
    }
    text
}

/// Returns the words of a hand's suits.
fn suits_of(word: u64) -> [u32; 4]
    ensures { result ≡ suits_of_word word }
{
    let suit = |number: u32| (word >> (SUIT_BITS * number) & 0x1fff) as u32 * 4;
    [suit(0), suit(1), suit(2), suit(3)]
}

/// Returns the hands that a value names, if it names the cards of all four.
fn hands_of(value: &[u8]) -> Option<Hands>
    ensures { MatchOption result (NamesNoHands value.now) (ReadsHands value.now) }
{
    let dealing = read_dealing(value)?;
    if dealing.is_partial {
        return None;
    }
    let [north, east, south, west] = dealing.hands;
    Some([
        suits_of(north),
        suits_of(east),
        suits_of(south),
        suits_of(west),
    ])
}

/// Reads the hands of a text, which may be of any sizes: a trick may be in progress. A card that is named twice in one
/// hand is there once. Answers DDS's code: 1, or -99 if the text is no Deal value that names the cards of all four
/// hands (PBN 2.1, 3.4.11). Then no hand has a card.
#[unsafe(no_mangle)]
pub extern "C" fn ddfarm_read_hands(text: &DealText, hands: &mut TableDeal) -> i32
    ensures { AnswersText text.now.text hands.new result }
{
    match hands_of(before_nul(&text.text)) {
        Some(cards) => {
            *hands = TableDeal { cards };
            NO_FAULT
        }
        None => {
            *hands = NO_DEAL;
            PBN_FAULT
        }
    }
}
