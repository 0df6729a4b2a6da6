ghost use Rattle.std.specs.Prelude.{◌≡◌, ◌+◌, ◌-◌, ◌<◌, ◌≤◌, ◌++◌, [], ◌∷◌, length, take, IfOk, OnOk, IsTrue, IsFalse, Some};
ghost use Rattle.std.proofs.Common.{inl};
ghost use Rattle.journal_disk.specs.Disk.{written};
ghost use Rattle.journal_disk.specs.MemoryCalls.{read_write, read_cut, read_calls};

mod replay;

use self::replay::filled;
use crate::disk::Disk;
use std::alloc::{AllocError, Global};
use sysapi_base::{Failed, FailingCalls, Memory};

// A call that may change what a crash leaves. A write is kept with its bytes, and a sync where it was done, with what a read gave
// then.
#[derive(Debug, Drop)]
pub(crate) enum Call {
    Write { at: u64, from: Vec<u8>, done: bool },
    Shorten { len: u64, done: bool },
    Sync { bytes: Vec<u8> },
}

/// A disk in memory, which tells its bytes and its images, and whose calls fail where they are told to.
///
/// It keeps all its calls that may change what a crash leaves, and its images follow from them; what a read gives is one of them, and
/// none is forgotten. Where no memory is found for that, it tells nothing from then on.
#[derive(Debug, Drop)]
pub struct MemoryDisk {
    alloc: Global,
    first: Vec<u8>,
    bytes: Vec<u8>,
    calls: Vec<Call>,
    told: bool,
    failing: FailingCalls,
    ghost replayed: { IsTrue told → bytes.items ≡ read_calls calls.items first.items },
}

fn overwritten(alloc: Global, bytes: &[u8], at: usize, from: &[u8]) -> Result<Vec<u8>, AllocError>
    requires { at ≤ length bytes.now }
    ensures { IfOk result (λ v. v.items ≡ written bytes.now at from.now) }
{
    let mut next = bytes[..at].to_vec(alloc)?;
    next.extend_from_slice(from)?;
    if from.len() < bytes.len() - at {
        next.extend_from_slice(&bytes[at + from.len()..])?;
    }
    Ok(next)
}

// Keeps a call, or tells nothing more where there is no memory for it.
fn keep(calls: &mut Vec<Call>, told: &mut bool, call: Call)
    ensures kept { IsTrue told.new → IsTrue told.old × (calls.new.items ≡ calls.old.items ++ call ∷ []) }
    ensures no_shorter { length calls.old.items ≤ length calls.new.items }
{
    if calls.push(call).is_err() {
        *told = false;
    }
}

// Writes over the bytes, where the place is not past their end.
fn put(alloc: Global, bytes: &mut Vec<u8>, told: &mut bool, at: u64, from: &[u8])
    ensures told { IsTrue told.new → IsTrue told.old }
    ensures within { IsTrue told.new → at ≤ length bytes.old.items → bytes.new.items ≡ written bytes.old.items at from.now }
    ensures past { length bytes.old.items < at → bytes.new.items ≡ bytes.old.items }
{
    if at > bytes.len() as u64 {
        return;
    }
    match overwritten(alloc, bytes, at as usize, from) {
        Ok(next) => *bytes = next,
        Err(_) => *told = false,
    }
}

fn shorten(bytes: &mut Vec<u8>, len: u64)
    ensures { bytes.new.items ≡ take len bytes.old.items }
{
    if len < bytes.len() as u64 {
        bytes.truncate(len as usize);
    }
}

// Keeps a write, with its bytes.
fn keep_write(
    alloc: Global,
    calls: &mut Vec<Call>,
    told: &mut bool,
    at: u64,
    from: &[u8],
    done: bool,
)
    ensures kept { IsTrue told.new → IsTrue told.old × ((v : _) × (v.items ≡ from.now) × (calls.new.items ≡ calls.old.items ++ Call.Write at v done ∷ [])) }
    ensures no_shorter { length calls.old.items ≤ length calls.new.items }
{
    match from.to_vec(alloc) {
        Ok(from) => keep(calls, told, Call::Write { at, from, done }),
        Err(_) => *told = false,
    }
}

// Keeps a write, and does it where it doesn't fail.
fn write_over(
    alloc: Global,
    bytes: &mut Vec<u8>,
    calls: &mut Vec<Call>,
    told: &mut bool,
    at: u64,
    from: &[u8],
    done: bool,
)
    ensures kept { IsTrue told.new → IsTrue told.old × ((v : _) × (v.items ≡ from.now) × (calls.new.items ≡ calls.old.items ++ Call.Write at v done ∷ [])) }
    ensures no_shorter { length calls.old.items ≤ length calls.new.items }
    ensures reads { IsTrue told.new → bytes.new.items ≡ read_write at from.now done bytes.old.items }
    ensures written { IsTrue done → IsTrue told.new → at ≤ length bytes.old.items → bytes.new.items ≡ written bytes.old.items at from.now }
{
    keep_write(alloc, calls, told, at, from, done);
    if done {
        put(alloc, bytes, told, at, from);
    }
}

// Keeps a cut, and does it where it doesn't fail.
fn cut_off(bytes: &mut Vec<u8>, calls: &mut Vec<Call>, told: &mut bool, len: u64, done: bool)
    ensures kept { IsTrue told.new → IsTrue told.old × (calls.new.items ≡ calls.old.items ++ Call.Shorten len done ∷ []) }
    ensures no_shorter { length calls.old.items ≤ length calls.new.items }
    ensures reads { bytes.new.items ≡ read_cut len done bytes.old.items }
{
    keep(calls, told, Call::Shorten { len, done });
    if done {
        shorten(bytes, len);
    }
}

// Keeps a sync, with what a read gives.
fn keep_sync(alloc: Global, calls: &mut Vec<Call>, told: &mut bool, bytes: &[u8])
    ensures kept { IsTrue told.new → IsTrue told.old × ((v : _) × (v.items ≡ bytes.now) × (calls.new.items ≡ calls.old.items ++ Call.Sync v ∷ [])) }
    ensures no_shorter { length calls.old.items ≤ length calls.new.items }
{
    match bytes.to_vec(alloc) {
        Ok(bytes) => keep(calls, told, Call::Sync { bytes }),
        Err(_) => *told = false,
    }
}

impl MemoryDisk {
    ghost use Rattle.std.specs.Prelude.{◌≡◌, ℕ, List, Some};
    ghost use Rattle.std.specs.Option.{option_map};
    ghost use Rattle.sysapi_base.specs.Failing.{failing_at};
    ghost use Rattle.journal_disk.specs.Memory.{memory_reading, memory_images, crashed_bytes};

    /// An empty disk, which never fails.
    pub fn new(alloc: Global) -> MemoryDisk
        ensures reading { memory_reading result ≡ Some [] }
        ensures images { (c : List ℕ) → memory_images result c → c ≡ [] }
        ensures failing { result.failing ≡ failing_at [] }
    {
        MemoryDisk {
            alloc,
            first: Vec::new(alloc),
            bytes: Vec::new(alloc),
            calls: Vec::new(alloc),
            told: true,
            failing: FailingCalls::none(alloc),
        }
    }

    /// A disk of these bytes, all of them synced, which never fails.
    pub fn of(alloc: Global, bytes: Vec<u8>) -> Result<MemoryDisk, Memory>
        ensures reading { IfOk result (λ disk. memory_reading disk ≡ Some bytes.items) }
        ensures images { IfOk result (λ disk. (c : List ℕ) → memory_images disk c → c ≡ bytes.items) }
        ensures failing { IfOk result (λ disk. disk.failing ≡ failing_at []) }
    {
        let first = bytes.to_vec(alloc)?;
        Ok(MemoryDisk {
            alloc,
            first,
            bytes,
            calls: Vec::new(alloc),
            told: true,
            failing: FailingCalls::none(alloc),
        })
    }

    /// The same disk, whose calls of these numbers fail, counted from 0 from here on.
    pub fn failing(self, calls: Vec<u64>) -> MemoryDisk
        ensures { result ≡ record self { failing = failing_at calls.items } }
    {
        MemoryDisk {
            alloc: self.alloc,
            first: self.first,
            bytes: self.bytes,
            calls: self.calls,
            told: self.told,
            failing: FailingCalls::at(calls),
        }
    }

    /// What a read gives, where it is told.
    pub fn bytes(&self) -> Option<&[u8]>
        ensures { option_map (λ b. b.now) result ≡ memory_reading self.now }
    {
        if self.told { Some(&self.bytes) } else { None }
    }

    /// A disk of one image of this one: what a read gives, or with a fill the same with that byte in each place that isn't synced. Of
    /// a disk that tells nothing it answers `Memory`.
    pub fn crashed(&self, alloc: Global, fill: Option<u8>) -> Result<MemoryDisk, Memory>
        ensures bytes { IfOk result (λ disk. memory_reading disk ≡ crashed_bytes fill self.now) }
        ensures image { IfOk result (λ disk. (c : List ℕ) × (memory_reading disk ≡ Some c) × memory_images self.now c) }
    {
        if !self.told {
            return Err(Memory);
        }
        let Some(fill) = fill else {
            return MemoryDisk::of(alloc, self.bytes.to_vec(alloc)?);
        };
        let image = filled(alloc, &self.first, &self.calls, fill)?;
        MemoryDisk::of(alloc, image)
    }
}

impl Disk for MemoryDisk {
    ghost use Rattle.journal_disk.specs.Memory.{memory_reading, memory_images, memory_moment, memory_since, memory_faults, IsMemorySteady};
    ghost use Rattle.journal_disk.specs.MemoryLaws.{memory_reads, memory_only_now};
    ghost use Rattle.std.proofs.Common.{inl};

    ghost reading = { memory_reading };

    ghost images = { memory_images };

    ghost moment = { memory_moment };

    ghost images_since = { memory_since };

    ghost faults = { memory_faults };

    ghost IsSteady = { IsMemorySteady };

    ghost reads_as_image = { memory_reads };

    ghost counts_now = { λ disk t c le now. inl now };

    ghost only_now = { memory_only_now };

    fn len(&mut self) -> Result<u64, Failed> {
        if self.failing.meets() {
            return Err(Failed);
        }
        Ok(self.bytes.len() as u64)
    }

    fn read(&mut self, at: u64, into: &mut [u8]) -> Result<usize, Failed> {
        if self.failing.meets() {
            return Err(Failed);
        }
        if at >= self.bytes.len() as u64 {
            return Ok(0);
        }
        let start = at as usize;
        let n = into.len().min(self.bytes.len() - start);
        into[..n].copy_from_slice(&self.bytes[start..start + n]);
        Ok(n)
    }

    fn write_at(&mut self, at: u64, from: &[u8]) -> Result<(), Failed> {
        let done = !self.failing.meets();
        write_over(
            self.alloc,
            &mut self.bytes,
            &mut self.calls,
            &mut self.told,
            at,
            from,
            done,
        );
        if done { Ok(()) } else { Err(Failed) }
    }

    fn cut(&mut self, len: u64) -> Result<(), Failed> {
        let done = !self.failing.meets();
        cut_off(&mut self.bytes, &mut self.calls, &mut self.told, len, done);
        if done { Ok(()) } else { Err(Failed) }
    }

    fn sync(&mut self) -> Result<(), Failed> {
        if self.failing.meets() {
            return Err(Failed);
        }
        keep_sync(self.alloc, &mut self.calls, &mut self.told, &self.bytes);
        Ok(())
    }
}
