//! What no clause says: the worked rows, failing calls, and good paths.

ghost use Rattle.std.specs.Prelude.{◌<◌, ◌≤◌, ◌^◌, length};

mod failing;
mod file;
mod judged;
mod keeping;
mod shared;
mod taken;

use crate::{Journal, Keeper, MemoryDisk};
use std::alloc::Global;
use sysapi_base::Memory;

/// What became of a record that was to be kept.
#[derive(Clone, Copy, Debug, PartialEq, Eq)]
enum Kept {
    Done,
    Full,
    Failed,
}

/// Settles a doubt, and keeps one record more where there is room.
fn keep<K: Keeper>(keeper: &mut K, bytes: &[u8]) -> Result<Kept, Memory>
    requires some { 0 < length bytes.now }
    requires size { length bytes.now ≤ 2 ^ 27 }
{
    if keeper.has_doubt() && keeper.settle().is_err() {
        return Ok(Kept::Failed);
    }
    let len = bytes.len() as u32;
    let room = keeper.room();
    let used = keeper.used();
    if used > room || room - used < keeper.cost(len) {
        return Ok(Kept::Full);
    }
    keeper.reserve(len)?;
    match keeper.append(bytes) {
        Ok(()) => Ok(Kept::Done),
        Err(_) => Ok(Kept::Failed),
    }
}

/// A record, where there is one and it is read.
fn record_of<K: Keeper>(alloc: Global, keeper: &mut K, i: u64) -> Option<Vec<u8>> {
    if i >= keeper.count() {
        return None;
    }
    keeper.record(alloc, i).ok()
}

/// The place of a record, where there is one.
fn place_of<K: Keeper>(keeper: &K, i: u64) -> Option<u64> {
    if i >= keeper.count() {
        return None;
    }
    Some(keeper.place(i))
}

/// Whether a record has these bytes.
fn has_record<K: Keeper>(alloc: Global, keeper: &mut K, i: u64, bytes: &[u8]) -> bool {
    match record_of(alloc, keeper, i) {
        Some(record) => record.as_slice() == bytes,
        None => false,
    }
}

/// How many records an image has, where the first two of them are these.
fn image_count(
    alloc: Global,
    disk: &MemoryDisk,
    fill: Option<u8>,
    first: &[u8],
    second: &[u8],
) -> Result<Option<u64>, Memory> {
    let image = disk.crashed(alloc, fill)?;
    let Ok(mut journal) = Journal::open(alloc, image, 1000) else {
        return Ok(None);
    };
    if !has_record(alloc, &mut journal, 0, first) || !has_record(alloc, &mut journal, 1, second) {
        return Ok(None);
    }
    Ok(Some(journal.count()))
}

/// The counts of the images whose bytes that aren't synced are as a read gives them, 00, 01 and ff.
fn image_counts(
    alloc: Global,
    disk: &MemoryDisk,
    first: &[u8],
    second: &[u8],
) -> Result<[Option<u64>; 4], Memory> {
    Ok([
        image_count(alloc, disk, None, first, second)?,
        image_count(alloc, disk, Some(0), first, second)?,
        image_count(alloc, disk, Some(1), first, second)?,
        image_count(alloc, disk, Some(255), first, second)?,
    ])
}
