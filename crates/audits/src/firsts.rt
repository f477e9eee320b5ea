//! The first proof of each entry.

ghost use Rattle.std.specs.Prelude.{◌≡◌, ◌+◌, ◌<◌, ◌*◌, ◌^◌, ◌↔◌, ℕ, [], None, Some, length, IsTrue, OnOk, OnErr};
ghost use Rattle.std.specs.Prelude.{slice_index_or, slice_set};
ghost use Rattle.std.specs.Option.{option_or};
ghost use Rattle.lease_book.specs.Books.{AreBoards};
ghost use Rattle.lease_book.specs.Entries.{place_of};
ghost use Rattle.std.specs.Prelude.{List, Option, MatchOption};
ghost use Rattle.std.specs.List.{AllZip};
ghost use Rattle.checker.specs.declared.entries.Shown.{Shown};
ghost use Rattle.evidence.specs.declared.parts.Piece.{Piece};
ghost use Rattle.audits.specs.Firsts.{HasPlaces, AllKnown, AddsProofs};
ghost use Rattle.audits.specs.Batches.{Judges, Grows, NotesPiece, NotesSome};

use crate::judging::Judged;
use cards::{OutOfMemory, Trump};
use certificate_graph::Claim;
use checker::Proven;
use evidence::Damage;
use lease_book::{ENTRIES, Entry};
use pbn_deals::Board;
use std::alloc::Global;
use std::marker::Model;

/// The first proof of each entry, in the entry's place. Contracts see the list of what they show. There are no places
/// before the first proof.
#[derive(Drop)]
pub(crate) struct FirstProofs {
    by_place: Vec<Option<Proven>>,
}

impl Model for FirstProofs {
    ghost use Rattle.std.specs.Prelude.{List, Option};
    ghost use Rattle.checker.specs.declared.entries.Shown.{Shown};

    ghost Value = { List (Option Shown) };

    ghost view = { λ firsts. firsts.by_place.items };
}

impl FirstProofs {
    /// No proofs. Takes no memory.
    pub(crate) fn none(alloc: Global) -> FirstProofs
        ensures { result ≡ [] }
    {
        FirstProofs {
            by_place: Vec::new(alloc),
        }
    }

    /// The first proof of an entry.
    pub(crate) fn of(&self, entry: Entry) -> Option<Proven>
        requires { entry.board < 2 ^ 32 }
        ensures { result ≡ slice_index_or self.now (place_of entry) None }
    {
        match self.by_place.get(entry.place()) {
            Some(first) => *first,
            None => None,
        }
    }

    /// Makes places for the entries of the boards, if there are none.
    fn make_places(&mut self, alloc: Global, boards: &[Board]) -> Result<(), OutOfMemory>
        requires boards { AreBoards boards.now }
        requires places { HasPlaces boards.now self.old }
        ensures sized { OnOk result (length self.new ≡ 20 * length boards.now) }
        ensures same { (place : ℕ) → slice_index_or self.new place None ≡ slice_index_or self.old place None }
        ensures err { OnErr result (self.new ≡ self.old) }
    {
        if !self.by_place.is_empty() {
            return Ok(());
        }
        let Ok(places) = Vec::from_elem(alloc, None, ENTRIES * boards.len()) else {
            return Err(OutOfMemory);
        };
        self.by_place = places;
        Ok(())
    }

    /// Notes a proof, unless the entry has one.
    fn note(&mut self, entry: Entry, proven: Proven)
        requires small { entry.board < 2 ^ 32 }
        requires there { place_of entry < length self.old }
        ensures { self.new ≡ slice_set self.old (place_of entry)
            (option_or (slice_index_or self.old (place_of entry) None) (Some proven)) }
    {
        let first = match self.of(entry) {
            Some(first) => first,
            None => proven,
        };
        self.by_place[entry.place()] = Some(first);
    }

    /// Notes proofs of a board's entries, unless the entry has one.
    fn note_all(&mut self, board: usize, proofs: &[Proven])
        requires small { board < 2 ^ 32 }
        requires there { 20 * board + 19 < length self.old }
        ensures sized { length self.new ≡ length self.old }
        ensures adds { AddsProofs board self.old self.new proofs.now }
    {
        for proven in proofs {
            let shown = proven.shown();
            let entry = Entry {
                board,
                declarer: shown.declarer,
                trump: shown.trump,
            };
            self.note(entry, *proven);
        }
    }

    /// Whether the entry of each of the claims has a proof.
    pub(crate) fn are_known(&self, board: usize, trump: Trump, claims: &[Claim]) -> bool
        requires { board < 2 ^ 32 }
        ensures { IsTrue result ↔ AllKnown self.now board trump claims.now }
    {
        for claim in claims {
            let entry = Entry {
                board,
                declarer: claim.declarer,
                trump,
            };
            if self.of(entry).is_none() {
                return false;
            }
        }
        true
    }

    /// Notes what a piece shows, of entries without a proof. The damage with that of the piece is handed out. If memory
    /// ran out, none is handed out and nothing changes.
    fn note_judged(
        &mut self,
        alloc: Global,
        boards: &[Board],
        damage: Damage,
        judged: &Judged,
    ) -> Option<Damage>
        requires boards { AreBoards boards.now }
        requires places { HasPlaces boards.now self.old }
        ensures notes { MatchOption result (self.new ≡ self.old) (λ after.
            (before : List (Option Shown)) (piece : Piece)
            → Judges boards.now before piece judged.now → Grows before self.old
            → NotesPiece boards.now piece self.old self.new damage after) }
        ensures grows { Grows self.old self.new }
        ensures places { HasPlaces boards.now self.new }
    {
        match judged {
            Judged::Shows { board, proofs } => {
                let board = *board;
                if board >= boards.len() || self.make_places(alloc, boards).is_err() {
                    return None;
                }
                self.note_all(board, proofs.as_slice());
                Some(damage)
            }
            Judged::Passed => Some(damage),
            Judged::Damaged { at } => Some(damage.with(*at)),
            Judged::NoMemory => None,
        }
    }

    /// Notes what pieces show, one after another. The damage with that of the pieces is handed out, and whether there
    /// was memory for all. If there was not, those before the first that lacked memory are noted.
    pub(crate) fn note_batch(
        &mut self,
        alloc: Global,
        boards: &[Board],
        mut damage: Damage,
        judged: &[Judged],
    ) -> (Damage, bool)
        requires boards { AreBoards boards.now }
        requires places { HasPlaces boards.now self.old }
        ensures notes { (pieces : List Piece)
            → AllZip (Judges boards.now self.old) pieces judged.now
            → NotesSome boards.now pieces self.old self.new damage result.0 result.1 }
        ensures places { HasPlaces boards.now self.new }
    {
        for one in judged {
            let Some(after) = self.note_judged(alloc, boards, damage, one) else {
                return (damage, false);
            };
            damage = after;
        }
        (damage, true)
    }
}
