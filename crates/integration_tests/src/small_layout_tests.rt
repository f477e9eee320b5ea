//! All layouts of one or two cards a hand in two suits, and patterns of each depth: `legal`, `winners`, `rest`,
//! `covers` and `matches` are compared with a slow reading of their definitions over the real cards.

use crate::expect::{expect, expect_eq, got};
use arrayvec::ArrayVec;
use cards::{Layout, LayoutFault, Seat, Suit, Trump};
use pattern_step::{PatCard, SeatSet, are_legal, legal, rest, winners};
use patterns::{Pattern, Rest};
use std::process::Abort;

/// Up to eight cards: the first are the spades and the others the hearts, each from the highest down. Two bits of
/// the code name the holder of each.
#[derive(Clone, Copy)]
struct Small {
    code: u32,
    cards: u8,
    spades: u8,
}

/// A trick on a small layout.
#[derive(Clone, Copy)]
struct Trick {
    leader: Seat,
    trump: Trump,
    played: [u8; 4],
}

impl Small {
    fn holder(&self, card: u8) -> Seat {
        match self.code >> (2 * (card % 16)) & 3 {
            0 => Seat::North,
            1 => Seat::East,
            2 => Seat::South,
            _ => Seat::West,
        }
    }

    fn suit(&self, card: u8) -> Suit {
        if card < self.spades {
            Suit::Spades
        } else {
            Suit::Hearts
        }
    }

    /// How many cards of its suit are above the card.
    fn place(&self, card: u8) -> u8 {
        if card < self.spades {
            card
        } else {
            card - self.spades
        }
    }

    /// The pattern card that stands for the card, where so many owners of spades and of hearts are listed.
    fn pat_card(&self, card: u8, depths: [u8; 4]) -> PatCard {
        let suit = self.suit(card);
        let depth = if card < self.spades {
            depths[0]
        } else {
            depths[1]
        };
        let place = self.place(card);
        if place < depth {
            PatCard::Top(suit, place)
        } else {
            PatCard::Low(suit)
        }
    }

    /// How many cards of the suit the seat holds, of those that are not gone.
    fn len(&self, seat: Seat, suit: Suit, gone: &[u8]) -> usize {
        let mut count = 0usize;
        for card in 0..self.cards {
            if self.holder(card) == seat && self.suit(card) == suit && !gone.contains(&card) {
                count = count.saturating_add(1);
            }
        }
        count
    }

    /// Whether each seat has as many cards as the others.
    fn is_fair(&self) -> bool {
        for seat in Seat::ALL {
            let spades = self.len(seat, Suit::Spades, &[]);
            let hearts = self.len(seat, Suit::Hearts, &[]);
            if spades.saturating_add(hearts) != usize::from(self.cards / 4) {
                return false;
            }
        }
        true
    }

    fn may_play(&self, seat: Seat, led: Option<Suit>, card: u8) -> bool {
        let follows = match led {
            Some(suit) => self.suit(card) == suit || self.len(seat, suit, &[]) == 0,
            None => true,
        };
        self.holder(card) == seat && follows
    }

    /// Whether a card of the seat's that it may play is this pattern card.
    fn may_play_as(&self, depths: [u8; 4], seat: Seat, led: Option<Suit>, wanted: PatCard) -> bool {
        for card in 0..self.cards {
            if self.pat_card(card, depths) == wanted && self.may_play(seat, led, card) {
                return true;
            }
        }
        false
    }

    /// The real layout of the cards that are not gone.
    fn layout(&self, gone: &[u8]) -> Result<Layout, LayoutFault> {
        let mut words = [0u64; 4];
        for card in 0..self.cards {
            if !gone.contains(&card) {
                let top = if card < self.spades { 12u8 } else { 25 };
                let bit = 1u64 << (top.saturating_sub(self.place(card)) % 32);
                words[self.holder(card).number()] |= bit;
            }
        }
        Layout::from_hands(words)
    }

    /// The seat's first or second card, or another where it has no such one.
    fn card_of(&self, seat: Seat, second: bool) -> u8 {
        let mut found = 0;
        let mut met = false;
        for card in 0..self.cards {
            if self.holder(card) == seat && (!met || second) {
                found = card;
                met = true;
            }
        }
        found
    }

    /// The seat's legal pattern cards: those of its real cards that it may play.
    fn legal(&self, depths: [u8; 4], seat: Seat, led: Option<Suit>) -> ArrayVec<PatCard, 13> {
        let mut cards = ArrayVec::new();
        for suit in [Suit::Spades, Suit::Hearts] {
            for place in 0..9u8 {
                let wanted = if place < 8 {
                    PatCard::Top(suit, place)
                } else {
                    PatCard::Low(suit)
                };
                if self.may_play_as(depths, seat, led, wanted) {
                    let _ = cards.try_push(wanted);
                }
            }
        }
        cards
    }

    /// The owners among these first cards of the suit that are not gone.
    fn owners(&self, suit: Suit, depth: u8, gone: &[u8]) -> ArrayVec<Seat, 13> {
        let mut owners = ArrayVec::new();
        for card in 0..self.cards {
            if self.suit(card) == suit && self.place(card) < depth && !gone.contains(&card) {
                let _ = owners.try_push(self.holder(card));
            }
        }
        owners
    }

    /// Whether the other layout's lengths of the suit are these, and its first owners of it begin the holders here.
    fn matches_suit(&self, other: &Small, suit: Suit, depth: u8) -> bool {
        for seat in Seat::ALL {
            if other.len(seat, suit, &[]) != self.len(seat, suit, &[]) {
                return false;
            }
        }
        let held = self.owners(suit, 13, &[]);
        held.as_slice()
            .starts_with(other.owners(suit, depth, &[]).as_slice())
    }

    /// Whether so many owners of the cards left are no more than a pattern of this depth lists of them: both begin
    /// the holders of the cards left.
    fn covers_suit(&self, suit: Suit, listed: u8, depth: u8, gone: &[u8]) -> bool {
        let held = self.owners(suit, 13, gone).len();
        held.min(usize::from(listed)) <= self.owners(suit, depth, gone).len()
    }
}

impl Trick {
    /// The seat that plays in this turn.
    fn seat(&self, turn: u8) -> Seat {
        match turn {
            0 => self.leader,
            1 => self.leader.next(),
            2 => self.leader.next().next(),
            _ => self.leader.next().next().next(),
        }
    }

    /// The trump suit where a trump was played, and else the suit led.
    fn deciding_suit(&self, small: &Small) -> Suit {
        let [first, second, third, fourth] = self.played;
        let led = small.suit(first);
        let Trump::Suit(trump) = self.trump else {
            return led;
        };
        let is_trumped = small.suit(second) == trump
            || small.suit(third) == trump
            || small.suit(fourth) == trump;
        if is_trumped { trump } else { led }
    }

    /// Whether no other card of the deciding suit is above the card.
    fn is_highest(&self, small: &Small, card: u8) -> bool {
        let suit = self.deciding_suit(small);
        for other in self.played {
            if small.suit(other) == suit && small.place(other) < small.place(card) {
                return false;
            }
        }
        small.suit(card) == suit
    }

    fn winner(&self, small: &Small) -> Seat {
        for card in self.played {
            if self.is_highest(small, card) {
                return small.holder(card);
            }
        }
        self.leader
    }

    /// Whether a card of the deciding suit has a rank.
    fn is_ranked(&self, small: &Small, depths: [u8; 4]) -> bool {
        let suit = self.deciding_suit(small);
        for card in self.played {
            if small.suit(card) == suit && small.pat_card(card, depths) != PatCard::Low(suit) {
                return true;
            }
        }
        false
    }

    /// The winners by the rule: the highest top alone, or each low card of the suit.
    fn winners(&self, small: &Small, depths: [u8; 4]) -> SeatSet {
        let suit = self.deciding_suit(small);
        let ranked = self.is_ranked(small, depths);
        let mut set = SeatSet::new();
        for card in self.played {
            let low = small.pat_card(card, depths) == PatCard::Low(suit);
            if (ranked && self.is_highest(small, card)) || (!ranked && low) {
                set = set.with(small.holder(card));
            }
        }
        set
    }

    fn is_legal(&self, small: &Small) -> bool {
        let led = Some(small.suit(self.played[0]));
        small.may_play(self.seat(0), None, self.played[0])
            && small.may_play(self.seat(1), led, self.played[1])
            && small.may_play(self.seat(2), led, self.played[2])
            && small.may_play(self.seat(3), led, self.played[3])
    }
}

/// Compares what is left of a suit.
fn check_left(rt: &impl Abort, small: &Small, suit: Suit, depth: u8, trick: &Trick, left: &Rest) {
    let part = left.part(suit);
    let owners = small.owners(suit, depth, trick.played.as_slice());
    expect(rt, part.owners.as_slice() == owners.as_slice());
    for seat in Seat::ALL {
        let kept = usize::from(part.lens[seat.number()]);
        expect_eq(rt, &kept, &small.len(seat, suit, trick.played.as_slice()));
    }
}

/// Compares one trick.
fn check_trick(rt: &impl Abort, small: &Small, depths: [u8; 4], pattern: &Pattern, trick: &Trick) {
    let [first, second, third, fourth] = trick.played;
    let cards = [
        small.pat_card(first, depths),
        small.pat_card(second, depths),
        small.pat_card(third, depths),
        small.pat_card(fourth, depths),
    ];
    let set = winners(pattern, trick.trump, trick.leader, &cards);
    expect_eq(rt, &set, &trick.winners(small, depths));
    expect(rt, set.contains(trick.winner(small)));
    assert!(rt; are_legal(pattern, trick.leader, &cards));
    let left = rest(pattern, trick.leader, &cards);
    check_left(rt, small, Suit::Spades, depths[0], trick, &left);
    check_left(rt, small, Suit::Hearts, depths[1], trick, &left);
    check_covers(rt, small, depths, trick, &left);
}

/// Compares which patterns of the layout that is left cover the rest.
fn check_covers(rt: &impl Abort, small: &Small, depths: [u8; 4], trick: &Trick, left: &Rest) {
    if small.cards <= 4 {
        return;
    }
    let gone = trick.played.as_slice();
    let layout = got(rt, small.layout(gone));
    for listed in 0..5u8 {
        let others = 4u8.saturating_sub(listed);
        let pattern = Pattern::of_layout(&layout, [listed, others, 0, 0]);
        let covers = small.covers_suit(Suit::Spades, listed, depths[0], gone)
            && small.covers_suit(Suit::Hearts, others, depths[1], gone);
        expect_eq(rt, &pattern.covers(left), &covers);
    }
}

/// Compares whether the pattern of a layout matches another one, in which each card has moved on to another holder.
fn check_matches(rt: &impl Abort, small: &Small, depths: [u8; 4], pattern: &Pattern) {
    let turned = Small {
        code: small.code.rotate_left(2) ^ 1,
        cards: small.cards,
        spades: small.spades,
    };
    if turned.is_fair() {
        let same = turned.matches_suit(small, Suit::Spades, depths[0])
            && turned.matches_suit(small, Suit::Hearts, depths[1]);
        let layout = got(rt, turned.layout(&[]));
        expect_eq(rt, &pattern.matches(&layout), &same);
    }
}

/// A trick in which each seat plays its first or second card, by the bits of the choice.
fn chosen_trick(small: &Small, leader: Seat, choice: u32) -> Trick {
    let second = leader.next();
    let third = second.next();
    Trick {
        leader,
        trump: match choice % 3 {
            0 => Trump::Nt,
            1 => Trump::Suit(Suit::Spades),
            _ => Trump::Suit(Suit::Hearts),
        },
        played: [
            small.card_of(leader, choice & 1 == 0),
            small.card_of(second, choice & 2 == 0),
            small.card_of(third, choice & 4 == 0),
            small.card_of(third.next(), choice & 8 == 0),
        ],
    }
}

/// Compares one pattern of a layout.
fn check_pattern(rt: &impl Abort, small: &Small, depths: [u8; 4], leader: Seat) {
    let layout = got(rt, small.layout(&[]));
    let pattern = Pattern::of_layout(&layout, depths);
    expect(rt, pattern.matches(&layout));
    check_matches(rt, small, depths, &pattern);
    for led in [None, Some(Suit::Spades), Some(Suit::Hearts)] {
        let wanted = small.legal(depths, leader, led);
        let got = legal(&pattern, leader, led);
        expect(rt, got.as_slice() == wanted.as_slice());
    }
    for choice in 0..16u32 {
        let trick = chosen_trick(small, leader, choice);
        if trick.is_legal(small) {
            check_trick(rt, small, depths, &pattern, &trick);
        }
    }
}

/// Compares the patterns of a layout, by how many owners of spades and of hearts they list.
fn check_patterns(rt: &impl Abort, small: &Small, leader: Seat) {
    let hearts = small.cards.saturating_sub(small.spades);
    for depth in 0..=small.spades {
        for other in 0..=hearts {
            check_pattern(rt, small, [depth, other, 0, 0], leader);
        }
    }
}

/// Compares the patterns of all the layouts with so many cards, of which so many are spades, where North has the first
/// card: the others are these with the seats turned.
fn check_layouts(rt: &impl Abort, cards: u8, spades: u8, codes: u32) -> u32 {
    let mut met = 0u32;
    for turned in 0..codes {
        let code = turned << 2;
        let small = Small {
            code,
            cards,
            spades,
        };
        if small.is_fair() {
            met = met.saturating_add(1);
            for leader in Seat::ALL {
                check_patterns(rt, &small, leader);
            }
        }
    }
    met
}

#[test]
fn agrees_with_the_definitions_on_small_layouts(rt: HostRuntime) {
    for spades in 0..5u8 {
        expect_eq(&rt, &check_layouts(&rt, 4, spades, 64), &6);
    }
    // with fewer spades than hearts the suits are only exchanged
    for spades in 4..9u8 {
        expect_eq(&rt, &check_layouts(&rt, 8, spades, 16384), &630);
    }
}
