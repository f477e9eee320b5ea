//! The book of leases.

ghost use Rattle.std.specs.Prelude.{◌≡◌, ◌<◌, ◌≤◌, ◌*◌, ◌-◌, ◌^◌, ℕ, [], length, slice_set, slice_index_or, IfOk};
ghost use Rattle.std.specs.Prelude.{IfSome, OnErr, Some, MatchResult, MatchBool, if◌then◌else◌, Err, IsTrue, ◌↔◌};
ghost use Rattle.std.specs.List.{find};
ghost use Rattle.cards.specs.Deal.{Deal};
ghost use Rattle.lease_book.specs.Entries.{place_of};
ghost use Rattle.lease_book.specs.Proofs.{IsProven, IsProvenEvidence, evidence_of};
ghost use Rattle.lease_book.specs.Twins.{IsTwin, twin_of};
ghost use Rattle.lease_book.specs.Histories.{is_numbered, published_in, deal_of};
ghost use Rattle.lease_book.specs.Replies.{IsLegal, is_evidence_for, is_shown_for};
ghost use Rattle.lease_book.specs.Slots.{is_holder, freed_of};
ghost use Rattle.lease_book.specs.Keeping.{AreNumberedFrom, AreProven};
ghost use Rattle.lease_book.specs.Books.{IsAnswered, IsMade};
ghost use Rattle.lease_book.specs.Done.{IsDone, IsIdle, holder_in};
ghost use Rattle.lease_book.specs.declared.slots.Slot.{Slot};
ghost use Rattle.lease_book.specs.declared.events.Asked.TheVariants.{Lease, Expire, GiveUp, HandIn};
ghost use Rattle.lease_book.specs.declared.events.Reply.TheVariants.{GaveUp, NotHeld};

use crate::boards::Boards;
use crate::entries::{Entry, contract_place};
use crate::events::{Asked, Event, Grant, HandedIn, Reply, add, make_room};
use crate::faults::BookFault;
use crate::slots::{Slot, Slots};
use cards::{Layout, OutOfMemory};
use checker::{Shown, Verdict};
use pbn_deals::{Board, MOST_BOARDS};
use std::alloc::Global;
use std::marker::Model;

/// A book of leases over a list of boards. Contracts see its boards, term and tries, and its history.
#[derive(Drop)]
pub struct Book {
    boards: Boards,
    term: u64,
    tries: u32,
    events: Vec<Event>,
    /// The leases given, in order.
    leases: Vec<Grant>,
    /// What the history says of each entry.
    slots: Slots,
}

impl Model for Book {
    ghost use Rattle.lease_book.specs.Books.{Ledger};
    ghost use Rattle.lease_book.specs.Keeping.{IsKept};

    ghost Value = { Ledger };

    ghost view = { λ book. record {
      terms = record { boards = book.boards; term = book.term; tries = book.tries };
      events = book.events.items;
    } };

    ghost invariant = { λ book. IsKept
        (record { boards = book.boards; term = book.term; tries = book.tries }) book.events.items book.leases.items
        book.slots };
}

/// The lease given under a number.
fn given(leases: &[Grant], lease: u64) -> Option<Grant>
    requires { AreNumberedFrom 1 leases.now }
    ensures { result ≡ find (is_numbered lease) leases.now }
{
    if lease == 0 || lease > leases.len() as u64 {
        return None;
    }
    Some(leases[(lease - 1) as usize])
}

/// Takes the lease of this number from the entry in a place, where it is held.
fn take_back(slots: &mut Slots, place: usize, lease: u64) -> Reply
    requires { place < length slots.old }
    ensures reply { (d : Slot) → result
        ≡ (if is_holder lease (slice_index_or slots.old place d).holder then GaveUp else NotHeld) }
    ensures slots { (d : Slot) → slots.new ≡ slice_set slots.old place
        (freed_of lease (slice_index_or slots.old place d)) }
{
    let slot = slots.slot(place);
    if !slot.is_held_by(lease) {
        return Reply::NotHeld;
    }
    slots.set(
        place,
        Slot {
            holder: None,
            ..slot
        },
    );
    Reply::GaveUp
}

/// What a verdict has shown.
fn evidence_of(verdict: &Verdict) -> HandedIn
    ensures same { result ≡ evidence_of verdict.now }
    ensures proven { IsProvenEvidence result }
{
    match verdict {
        Ok(proven) => {
            proven.invariant();
            let shown = proven.shown();
            let _at_most_13 = shown.layout.len();
            HandedIn::Shows(shown)
        }
        Err(fault) => HandedIn::Faulty(*fault),
    }
}

/// Whether what was handed in can be for the entry.
fn is_evidence_for(boards: &[Board], entry: &Entry, evidence: &HandedIn) -> bool
    ensures { result ≡ is_evidence_for boards.now entry.now evidence.now }
{
    match evidence {
        HandedIn::Shows(shown) => match boards.get(entry.board) {
            Some(board) => is_shown_for(&board.deal, entry, shown),
            None => false,
        },
        HandedIn::Faulty(_) => true,
    }
}

/// Whether what was shown is of this deal, and of the entry's declarer and denomination.
fn is_shown_for(deal: &Option<Layout>, entry: &Entry, shown: &Shown) -> bool
    ensures { result ≡ is_shown_for deal.now entry.now shown.now }
{
    match deal {
        Some(layout) => {
            *layout == shown.layout
                && contract_place(entry.declarer, entry.trump)
                    == contract_place(shown.declarer, shown.trump)
        }
        None => false,
    }
}

impl Book {
    /// A book over these boards, at most 4,096, without a history. A lease lasts a term, in the unit of the moments
    /// that the book is told, and an entry is leased at most as often as `tries` says, 1 to 1,000. The fault is the
    /// first that applies, in the order of [`BookFault`].
    pub fn new(alloc: Global, boards: Vec<Board>, term: u64, tries: u32) -> Result<Book, BookFault>
        ensures { IsMade (record { boards = boards.items; term = term; tries = tries }) result }
    {
        if boards.len() > MOST_BOARDS {
            return Err(BookFault::TooManyBoards);
        }
        if tries == 0 || tries > 1000 {
            return Err(BookFault::Tries);
        }
        let Ok(boards) = Boards::new(alloc, boards) else {
            return Err(BookFault::OutOfMemory);
        };
        let Ok(slots) = Slots::new(alloc, &boards, tries) else {
            return Err(BookFault::OutOfMemory);
        };
        Ok(Book {
            boards,
            term,
            tries,
            events: Vec::new(alloc),
            leases: Vec::new(alloc),
            slots,
        })
    }

    /// The boards, in their order.
    pub fn boards(&self) -> &[Board]
        ensures { result.now ≡ self.now.terms.boards }
    {
        self.boards.as_slice()
    }

    /// How long a lease lasts.
    pub fn term(&self) -> u64
        ensures { result ≡ self.now.terms.term }
    {
        self.term
    }

    /// How often an entry is leased at most.
    pub fn tries(&self) -> u32
        ensures { result ≡ self.now.terms.tries }
    {
        self.tries
    }

    /// All that was asked and replied, in order. Each reply is the one that the history before it names.
    pub fn history(&self) -> &[Event]
        ensures events { result.now ≡ self.now.events }
        ensures legal { IsLegal self.now.terms self.now.events }
    {
        self.events.as_slice()
    }

    /// The least of an entry's twins, which are the entries of its declarer and denomination on the boards with the
    /// deal of its own, whatever their names. An entry whose board has no deal or isn't there is told as it is. Takes
    /// no memory.
    pub fn twin(&self, entry: Entry) -> Entry
        ensures twin { result ≡ twin_of self.now.terms.boards entry }
        ensures least { IsTwin self.now.terms.boards entry result }
    {
        Entry {
            board: self.boards.first(entry.board),
            ..entry
        }
    }

    /// The number published for an entry or a twin of it, which is proven on the deal of its board.
    pub fn published(&self, entry: Entry) -> Option<u8>
        ensures number { result ≡ published_in self.now.terms.boards self.now.events entry }
        ensures at_most_13 { IfSome result (λ k. k ≤ 13) }
        ensures proven { AreProven self.now.terms self.now.events }
    {
        let twin = self.twin(entry);
        if twin.board >= self.boards.len() {
            return None;
        }
        self.slots.slot(twin.place()).published
    }

    /// How many entries there are: twenty for each board. Their places are the numbers below.
    pub fn entries(&self) -> usize
        ensures { result ≡ 20 * length self.now.terms.boards }
    {
        self.slots.len()
    }

    /// The number of the lease that is held of the entry in a place.
    pub fn holder(&self, place: usize) -> Option<u64>
        requires { place < 20 * length self.now.terms.boards }
        ensures { result ≡ holder_in self.now.events place }
    {
        match self.slots.slot(place).holder {
            Some(grant) => Some(grant.lease),
            None => None,
        }
    }

    /// Whether no lease is held and no entry is open. Then each entry whose board has a deal has a number, or was
    /// leased as often as it may be.
    pub fn is_idle(&self) -> bool
        ensures idle { IsTrue result ↔ IsIdle self.now.terms self.now.events }
        ensures done { IsTrue result → IsDone self.now.terms self.now.events }
    {
        if let Some(place) = self.slots.first_open() {
            let _open = Entry::at(place);
            return false;
        }
        match self.slots.first_held() {
            Some(_) => false,
            None => true,
        }
    }

    /// Gives the least open entry to the one who asks at this moment, or answers that none is open.
    pub fn lease(&mut self, now: u64) -> Result<Reply, OutOfMemory>
        ensures ok { IfOk result (IsAnswered self.old self.new (Lease now)) }
        ensures err { OnErr result (self.new ≡ self.old) }
    {
        make_room(&mut self.events)?;
        let asked = Asked::Lease { now };
        let Some(place) = self.slots.first_open() else {
            return Ok(add(&mut self.events, asked, Reply::Nothing));
        };
        if self.leases.reserve(1).is_err() {
            return Err(OutOfMemory);
        }
        let lease = self.leases.len() as u64 + 1;
        let entry = Entry::at(place);
        let deadline = now.saturating_add(self.term);
        let grant = Grant {
            lease,
            entry,
            deadline,
        };
        let slot = self.slots.slot(place);
        self.slots.set(place, slot.leased(grant));
        self.leases.push_reserved(grant);
        let reply = Reply::Given {
            lease,
            entry,
            deadline,
        };
        Ok(add(&mut self.events, asked, reply))
    }

    /// Frees the leases whose deadline is at this moment or before it, and answers how many.
    pub fn expire(&mut self, now: u64) -> Result<Reply, OutOfMemory>
        ensures ok { IfOk result (IsAnswered self.old self.new (Expire now)) }
        ensures err { OnErr result (self.new ≡ self.old) }
    {
        make_room(&mut self.events)?;
        let freed = self.slots.free_past(now);
        Ok(add(&mut self.events, Asked::Expire { now }, Reply::Freed(freed)))
    }

    /// Takes a lease back: [`UnknownLease`](Reply::UnknownLease), [`NotHeld`](Reply::NotHeld) or
    /// [`GaveUp`](Reply::GaveUp), the first that applies.
    pub fn give_up(&mut self, lease: u64) -> Result<Reply, OutOfMemory>
        ensures ok { IfOk result (IsAnswered self.old self.new (GiveUp lease)) }
        ensures err { OnErr result (self.new ≡ self.old) }
    {
        make_room(&mut self.events)?;
        let asked = Asked::GiveUp { lease };
        let Some(grant) = given(self.leases.as_slice(), lease) else {
            return Ok(add(&mut self.events, asked, Reply::UnknownLease));
        };
        let place = grant.entry.place();
        let reply = take_back(&mut self.slots, place, lease);
        Ok(add(&mut self.events, asked, reply))
    }

    /// Publishes what was shown, if it is the first that counts for the entry: [`UnknownLease`](Reply::UnknownLease),
    /// [`OtherEntry`](Reply::OtherEntry), [`AlreadyPublished`](Reply::AlreadyPublished),
    /// [`BadCertificate`](Reply::BadCertificate) or [`Published`](Reply::Published), the first that applies.
    pub fn settle(
        &mut self,
        lease: u64,
        entry: Entry,
        verdict: Verdict,
    ) -> Result<Reply, OutOfMemory>
        ensures ok { IfOk result (IsAnswered self.old self.new (HandIn lease entry (evidence_of verdict))) }
        ensures err { OnErr result (self.new ≡ self.old) }
    {
        let evidence = evidence_of(&verdict);
        make_room(&mut self.events)?;
        let asked = Asked::HandIn {
            lease,
            entry,
            evidence,
        };
        let Some(grant) = given(self.leases.as_slice(), lease) else {
            return Ok(add(&mut self.events, asked, Reply::UnknownLease));
        };
        if !grant.entry.is_same(&entry) {
            return Ok(add(&mut self.events, asked, Reply::OtherEntry));
        }
        if !is_evidence_for(self.boards.as_slice(), &entry, &evidence) {
            return Ok(add(&mut self.events, asked, Reply::OtherEntry));
        }
        let place = grant.entry.place();
        let slot = self.slots.slot(place);
        if slot.published.is_some() {
            return Ok(add(&mut self.events, asked, Reply::AlreadyPublished));
        }
        match evidence {
            HandedIn::Shows(shown) => {
                self.slots.set(place, slot.with_number(shown.k));
                Ok(add(&mut self.events, asked, Reply::Published(shown.k)))
            }
            HandedIn::Faulty(fault) => {
                let _held = take_back(&mut self.slots, place, lease);
                Ok(add(&mut self.events, asked, Reply::BadCertificate(fault)))
            }
        }
    }
}
