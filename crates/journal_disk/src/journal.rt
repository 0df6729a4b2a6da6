//! The journal: records behind gates.

ghost use Rattle.std.specs.Prelude.{◌≡◌, ◌+◌, ◌*◌, ◌-◌, ◌<◌, ◌≤◌, ◌^◌, ℕ, true, false, List, [], ◌∷◌, ◌++◌, length, get_or, Some, IfOk, OnOk, OnErr, IsErr, IsErrOf, IsOk, IsTrue, is_ok, if◌then◌else◌, slice_index, slice_index_or};
ghost use Rattle.sysapi_base.specs.Outside.{Rises};
ghost use Rattle.journal_disk.specs.Disk.{LeavesOnly};
ghost use Rattle.journal_disk.specs.Format.{HasRecords, IsEither, record_at};

mod keeping;
mod starting;

use crate::disk::Disk;
use crate::fault::RecordError;
use crate::gate::{put_text, set_gate};
use crate::reading::read_bytes;
use crate::text::{CLOSED, OPEN, fill, make_room};
use std::alloc::Global;
use std::marker::Model;
use sysapi_base::{Failed, Memory};

/// Records on a disk, as bytes of version 1. Every image of the disk is sound and has them, and at most one in doubt beside them.
///
/// A record is kept once its gate is open and synced, and the gate opens only after the record behind it was synced. So a crash
/// leaves no half of a record behind an open gate, and no checksum is needed. Each append is four device calls.
#[derive(Debug, Drop)]
pub struct Journal<D: Disk> {
    disk: D,
    repository: u64,
    room: u64,
    used: u64,
    places: Vec<u64>,
    buffer: Vec<u8>,
    has_doubt: bool,
}

impl<D: Disk> Model for Journal<D> {
    ghost use Rattle.std.specs.Prelude.{ℕ, length, vec_len, vec_capacity};
    ghost use Rattle.journal_disk.specs.Journal.{Held, IsKept, spare_of};

    ghost Value = { Held D };

    ghost view = { λ a. record {
      disk = a.disk;
      repository = a.repository;
      room = a.room;
      used = a.used;
      spare = spare_of (vec_len a.places) (vec_capacity a.places) (vec_capacity a.buffer);
      places = a.places.items;
      doubt = a.has_doubt;
    } };

    ghost invariant = { λ a. IsKept (D.images a.disk) a.repository a.room a.used a.places.items a.has_doubt };
}

impl<D: Disk> Journal<D> {
    ghost use Rattle.std.specs.Prelude.{IfSome};
    ghost use Rattle.sysapi_base.specs.Outside.{Grows};
    ghost use Rattle.journal_disk.specs.Format.{used_by, places_from};
    ghost use Rattle.journal_disk.specs.Journal.{told, doubted, IsKeptOr, SameBut};

    /// The repository's number.
    pub fn repository(&self) -> u64
        ensures value { result ≡ self.now.repository }
        ensures bound { result < 2 ^ 48 }
    {
        self.repository
    }

    /// How many records are kept.
    pub fn count(&self) -> u64
        ensures value { result ≡ length self.now.places }
        ensures told { (kept : List (List ℕ)) → told D.reading self.now ≡ Some kept → result ≡ length kept }
        ensures below { result < self.now.used }
        ensures bound { result < 2 ^ 36 }
    {
        self.places.len() as u64
    }

    /// Whether a record is in doubt. Each image is sound, and has the kept records, or these and the one in doubt.
    pub fn has_doubt(&self) -> bool
        ensures value { result ≡ self.now.doubt }
        ensures sound { (kept : List (List ℕ)) → told D.reading self.now ≡ Some kept
            → (c : List ℕ) → D.images self.now.disk c → IsKeptOr self.now.repository kept (doubted D.reading self.now) c }
    {
        self.has_doubt
    }

    /// The place after the first gate that isn't open, where the gate of a record in doubt counts as closed: 17, and 5 and the length
    /// for each record.
    pub fn used(&self) -> u64
        ensures value { result ≡ self.now.used }
        ensures exact { (kept : List (List ℕ)) → told D.reading self.now ≡ Some kept → result ≡ used_by kept }
        ensures least { 17 ≤ result }
        ensures most { result ≤ 64 + (2 ^ 27 + 64) * length self.now.places }
    {
        self.used
    }

    /// How many bytes may be used.
    pub fn room(&self) -> u64
        ensures value { result ≡ self.now.room }
        ensures most { result ≤ 2 ^ 36 }
    {
        self.room
    }

    /// The byte place of a record's gate.
    pub fn place(&self, i: u64) -> u64
        requires { i < length self.now.places }
        ensures value { result ≡ get_or self.now.places i 0 }
        ensures exact { (kept : List (List ℕ)) → told D.reading self.now ≡ Some kept → result ≡ get_or (places_from 16 kept) i 0 }
        ensures bound { result < 2 ^ 37 }
    {
        self.places[i as usize]
    }

    /// How much `used` grows by a record of this length.
    pub fn cost(&self, len: u32) -> u64
        ensures { result ≡ len + 5 }
    {
        len as u64 + 5
    }

    /// The disk as it is now.
    pub fn disk(&self) -> &D
        ensures { result.now ≡ self.now.disk }
    {
        &self.disk
    }

    /// The disk. Each image is sound, and has the kept records, or these and the one in doubt.
    pub fn into_disk(self) -> D
        ensures same { result ≡ self.disk }
        ensures used { (kept : List (List ℕ)) → told D.reading self ≡ Some kept → self.used ≡ used_by kept }
        ensures places { (kept : List (List ℕ)) → told D.reading self ≡ Some kept → self.places ≡ places_from 16 kept }
        ensures sound { (kept : List (List ℕ)) → told D.reading self ≡ Some kept
            → (c : List ℕ) → D.images self.disk c → IsKeptOr self.repository kept (doubted D.reading self) c }
    {
        self.disk
    }

    /// A record, where it is told, by one read of the disk, or more where it gives less. It has at most 2^27 bytes in any case, and
    /// changes nothing.
    pub fn record(&mut self, alloc: Global, i: u64) -> Result<Vec<u8>, RecordError>
        requires { i < length self.old.places }
        ensures value { (kept : List (List ℕ)) → told D.reading self.old ≡ Some kept → IfOk result (λ v. v.items ≡ slice_index_or kept i []) }
        ensures size { IfOk result (λ v. length v.items ≤ 2 ^ 27) }
        ensures same { self.new ≡ record self.old { disk = self.new.disk } }
        ensures reading { D.reading self.new.disk ≡ D.reading self.old.disk }
        ensures crash { (c : List ℕ) → D.images self.new.disk c → D.images self.old.disk c }
        ensures moment { D.moment self.new.disk ≡ D.moment self.old.disk }
        ensures moments { (t : ℕ) (c : List ℕ) → D.images_since self.new.disk t c → D.images_since self.old.disk t c }
        ensures later { D.faults self.old.disk ≤ D.faults self.new.disk }
        ensures failed { IsErrOf result RecordError.Fault → Rises (D.faults self.old.disk) (D.faults self.new.disk) }
        ensures no_fault { D.IsSteady self.old.disk → IsErrOf result RecordError.Fault → ⊥ }
        ensures steady { D.IsSteady self.old.disk → D.IsSteady self.new.disk × (D.faults self.new.disk ≡ D.faults self.old.disk) }
    {
        let place = self.places[i as usize];
        let end = end_of(&self.places, self.used - 1, i as usize);
        read_bytes(alloc, &mut self.disk, place + 5, (end - place - 5) as usize)
    }

    /// Makes room for a record of this length, at most 2^27 bytes.
    pub fn reserve(&mut self, len: u32) -> Result<(), Memory>
        requires { len ≤ 2 ^ 27 }
        ensures same { SameBut self.old self.new }
        ensures spare { OnOk result (len ≤ self.new.spare) }
    {
        if !make_room(&mut self.buffer, len as usize + 5) {
            return Err(Memory);
        }
        if self.places.reserve(1).is_err() {
            return Err(Memory);
        }
        Ok(())
    }

    /// Adds a record. At `Ok` every image has it. It writes length, record and a closed gate behind the gate that isn't open, syncs,
    /// opens that gate, and syncs. Where one of the first two calls fails there is no doubt, and where one of the last two fails the
    /// record is in doubt: it stands whole behind the gate, which may be open.
    pub fn append(&mut self, bytes: &[u8]) -> Result<(), Failed>
        requires no_doubt { self.old.doubt ≡ false }
        requires some { 0 < length bytes.now }
        requires spare { length bytes.now ≤ self.old.spare }
        requires size { length bytes.now ≤ 2 ^ 27 }
        requires room { self.old.used + (length bytes.now + 5) ≤ self.old.room }

        ensures ok { OnOk result ((kept : List (List ℕ)) → told D.reading self.old ≡ Some kept
            → (c : List ℕ) → D.images self.new.disk c → HasRecords self.old.repository (kept ++ bytes.now ∷ []) c) }
        ensures any_moment { (kept : List (List ℕ)) → told D.reading self.old ≡ Some kept
            → LeavesOnly D.moment D.images_since self.old.disk self.new.disk (IsEither self.old.repository kept bytes.now) }

        ensures records { Grows (told D.reading self.old) (told D.reading self.new) (if is_ok result then bytes.now ∷ [] else []) }
        ensures doubted { OnErr result (IfSome (doubted D.reading self.new) (λ r. r ≡ bytes.now)) }
        ensures whole { OnErr result (self.new.doubt ≡ true → (c : List ℕ) → D.images self.new.disk c → record_at (self.new.used - 1) c ≡ bytes.now) }

        ensures same_repository { self.new.repository ≡ self.old.repository }
        ensures same_room { self.new.room ≡ self.old.room }
        ensures places { self.new.places ≡ (if is_ok result then self.old.places ++ (self.old.used - 1) ∷ [] else self.old.places) }
        ensures used { self.new.used ≡ (if is_ok result then self.old.used + (length bytes.now + 5) else self.old.used) }
        ensures doubt { OnOk result (self.new.doubt ≡ false) }
        ensures succeeds { D.IsSteady self.old.disk → IsOk result }

        ensures later { D.faults self.old.disk ≤ D.faults self.new.disk }
        ensures failed { IsErr result → Rises (D.faults self.old.disk) (D.faults self.new.disk) }
        ensures steady { D.IsSteady self.old.disk → D.IsSteady self.new.disk × (D.faults self.new.disk ≡ D.faults self.old.disk) }
    {
        fill(&mut self.buffer, bytes);
        put_text(&mut self.disk, self.used, &self.buffer)?;
        if set_gate(&mut self.disk, self.used - 1, OPEN).is_err() {
            self.has_doubt = true;
            return Err(Failed);
        }
        let _ = self.places.push(self.used - 1);
        self.used += self.buffer.len() as u64;
        Ok(())
    }

    /// Closes the gate of the record in doubt, where there is one, and syncs. Nothing is written behind that gate before this is done.
    /// Without a doubt it makes no device call.
    pub fn settle(&mut self) -> Result<(), Failed>
        ensures same { self.new ≡ record self.old { disk = self.new.disk; doubt = self.new.doubt } }
        ensures succeeds { D.IsSteady self.old.disk → IsOk result }
        ensures idle { self.old.doubt ≡ false → self.new ≡ self.old }
        ensures doubt { self.new.doubt ≡ (if is_ok result then false else self.old.doubt) }
        ensures records { Grows (told D.reading self.old) (told D.reading self.new) [] }
        ensures doubted { IfSome (doubted D.reading self.new) (λ r. doubted D.reading self.old ≡ Some r) }

        ensures ok { OnOk result ((kept : List (List ℕ)) → told D.reading self.old ≡ Some kept
            → (c : List ℕ) → D.images self.new.disk c → HasRecords self.old.repository kept c) }
        ensures any_moment { (kept : List (List ℕ)) → told D.reading self.old ≡ Some kept
            → LeavesOnly D.moment D.images_since self.old.disk self.new.disk (IsKeptOr self.old.repository kept (doubted D.reading self.old)) }

        ensures later { D.faults self.old.disk ≤ D.faults self.new.disk }
        ensures failed { IsErr result → Rises (D.faults self.old.disk) (D.faults self.new.disk) }
        ensures steady { D.IsSteady self.old.disk → D.IsSteady self.new.disk × (D.faults self.new.disk ≡ D.faults self.old.disk) }
    {
        if self.has_doubt {
            set_gate(&mut self.disk, self.used - 1, CLOSED)?;
            self.has_doubt = false;
        }
        Ok(())
    }
}

// Where a record ends: at the next gate, which for the last one is that behind all.
fn end_of(places: &[u64], last: u64, i: usize) -> u64
    requires { i < length places.now }
    ensures { result ≡ get_or places.now (i + 1) last }
{
    if i + 1 < places.len() {
        places[i + 1]
    } else {
        last
    }
}
