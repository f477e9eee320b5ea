//! The replies of a book by a slow search of all that went before, rule by rule.

use cards::{Seat, Suit, Trump};
use lease_book::{Asked, Entry, Event, Grant, HandedIn, Reply};

/// Declarers in the order of entries.
pub const DECLARERS: [Seat; 4] = [Seat::North, Seat::South, Seat::East, Seat::West];

/// Denominations in the order of entries.
pub const TRUMPS: [Trump; 5] = [
    Trump::Nt,
    Trump::Suit(Suit::Spades),
    Trump::Suit(Suit::Hearts),
    Trump::Suit(Suit::Diamonds),
    Trump::Suit(Suit::Clubs),
];

/// The entry that a lease was given for.
pub fn entry_of(past: &[Event], lease: u64) -> Option<Entry> {
    for event in past {
        if let Reply::Given {
            lease: given,
            entry,
            ..
        } = event.reply
            && given == lease
        {
            return Some(entry);
        }
    }
    None
}

/// Whether an event frees a lease of this entry.
fn frees(event: &Event, held: Grant, entry: Entry) -> bool {
    match (event.asked, event.reply) {
        (Asked::Expire { now }, _) => held.deadline <= now,
        (Asked::GiveUp { lease }, _) => lease == held.lease,
        (Asked::HandIn { lease, .. }, Reply::BadCertificate(_)) => lease == held.lease,
        (Asked::HandIn { entry: named, .. }, Reply::Published(_)) => named == entry,
        _ => false,
    }
}

/// The lease of the entry that was given last, if no event after it freed it.
fn holder_of(past: &[Event], entry: Entry) -> Option<Grant> {
    let mut held = None;
    for event in past {
        if let Some(lease) = held
            && frees(event, lease, entry)
        {
            held = None;
        }
        if let Reply::Given {
            lease,
            entry: given,
            deadline,
        } = event.reply
            && given == entry
        {
            held = Some(Grant {
                lease,
                entry,
                deadline,
            });
        }
    }
    held
}

/// Whether a lease of the entry is held.
fn is_held(past: &[Event], entry: Entry, lease: u64) -> bool {
    match holder_of(past, entry) {
        Some(holder) => holder.lease == lease,
        None => false,
    }
}

/// The number of the first board with the deal of this one, where it has a deal.
fn first_with(firsts: &[Option<usize>], board: usize) -> Option<usize> {
    match firsts.get(board) {
        Some(first) => *first,
        None => None,
    }
}

/// Whether two entries have one declarer and one denomination, and their boards one deal.
fn are_twins(firsts: &[Option<usize>], one: Entry, other: Entry) -> bool {
    let first = first_with(firsts, one.board);
    first.is_some()
        && first == first_with(firsts, other.board)
        && one.declarer == other.declarer
        && one.trump == other.trump
}

/// The number that was published for the entry or a twin of it first.
pub fn published(firsts: &[Option<usize>], past: &[Event], entry: Entry) -> Option<u8> {
    for event in past {
        if let (Asked::HandIn { entry: named, .. }, Reply::Published(k)) = (
            event.asked,
            event.reply,
        )
            && are_twins(firsts, entry, named)
        {
            return Some(k);
        }
    }
    None
}

/// Whether it is a lease for the entry, or for any.
fn leases(reply: Reply, of: Option<Entry>) -> bool {
    match (reply, of) {
        (Reply::Given { entry, .. }, Some(wanted)) => entry == wanted,
        (Reply::Given { .. }, None) => true,
        _ => false,
    }
}

/// How many leases were given that are for the entry, or for any.
pub fn leased(past: &[Event], of: Option<Entry>) -> u64 {
    let mut count = 0u64;
    for event in past {
        if leases(event.reply, of) {
            count = count.saturating_add(1);
        }
    }
    count
}

/// What a book is over: for each board that has a deal the number of the first with it, the term, and the tries.
#[derive(Clone, Copy)]
pub struct Rules<'a> {
    pub firsts: &'a [Option<usize>],
    pub term: u64,
    pub tries: u32,
}

/// Whether an entry is open: its board is the first with its deal, and so on.
fn is_open(rules: Rules, past: &[Event], entry: Entry) -> bool {
    first_with(rules.firsts, entry.board) == Some(entry.board)
        && leased(past, Some(entry)) < u64::from(rules.tries)
        && published(rules.firsts, past, entry).is_none()
        && holder_of(past, entry).is_none()
}

/// The least open entry.
fn first_open(rules: Rules, past: &[Event]) -> Option<Entry> {
    for board in 0..rules.firsts.len() {
        for declarer in DECLARERS {
            for trump in TRUMPS {
                let entry = Entry {
                    board,
                    declarer,
                    trump,
                };
                if is_open(rules, past, entry) {
                    return Some(entry);
                }
            }
        }
    }
    None
}

/// How many of the leases that were given are held and have a deadline of this moment or an earlier one.
fn past_deadlines(past: &[Event], now: u64) -> u64 {
    let mut count = 0u64;
    for event in past {
        if let Reply::Given {
            lease,
            entry,
            deadline,
        } = event.reply
            && deadline <= now
            && is_held(past, entry, lease)
        {
            count = count.saturating_add(1);
        }
    }
    count
}

/// The reply to what is asked after all these.
pub fn reply(rules: Rules, past: &[Event], asked: &Asked) -> Reply {
    match asked {
        Asked::Lease { now } => match first_open(rules, past) {
            Some(entry) => Reply::Given {
                lease: leased(past, None).saturating_add(1),
                entry,
                deadline: now.saturating_add(rules.term),
            },
            None => Reply::Nothing,
        },
        Asked::Expire { now } => Reply::Freed(past_deadlines(past, *now)),
        Asked::GiveUp { lease } => match entry_of(past, *lease) {
            None => Reply::UnknownLease,
            Some(entry) if is_held(past, entry, *lease) => Reply::GaveUp,
            Some(_) => Reply::NotHeld,
        },
        Asked::HandIn {
            lease,
            entry,
            evidence,
        } => match entry_of(past, *lease) {
            None => Reply::UnknownLease,
            Some(given) if given != *entry => Reply::OtherEntry,
            Some(_) if published(rules.firsts, past, *entry).is_some() => Reply::AlreadyPublished,
            Some(_) => counted(evidence),
        },
    }
}

/// The reply to a hand-in that counts.
fn counted(evidence: &HandedIn) -> Reply {
    match evidence {
        HandedIn::Shows(shown) => Reply::Published(shown.k),
        HandedIn::Faulty(fault) => Reply::BadCertificate(*fault),
    }
}
