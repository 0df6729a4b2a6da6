//! What a crash may have left of a disk in memory.

ghost use Rattle.std.specs.Prelude.{◌≡◌, IfOk};
ghost use Rattle.journal_disk.specs.Memory.{fill_write, fill_step, fill_calls};

use super::{Call, overwritten};
use std::alloc::{AllocError, Global};

fn copied(alloc: Global, bytes: &[u8]) -> Result<Vec<u8>, AllocError>
    ensures { IfOk result (λ v. v.items ≡ bytes.now) }
{
    bytes.to_vec(alloc)
}

// What a crash may have made of a write, with a byte in each of its places. One that failed makes the bytes no longer.
fn after_write(
    alloc: Global,
    image: &[u8],
    at: u64,
    len: usize,
    done: bool,
    fill: u8,
) -> Result<Vec<u8>, AllocError>
    ensures { IfOk result (λ v. v.items ≡ fill_write fill at len done image.now) }
{
    if at > image.len() as u64 {
        return copied(alloc, image);
    }
    let start = at as usize;
    let written = if done {
        len
    } else {
        len.min(image.len() - start)
    };
    let text = vec![in alloc; fill; written]?;
    overwritten(alloc, image, start, &text)
}

// What it may have made of a cut. One that failed leaves the byte in each place that would have been cut.
fn after_cut(
    alloc: Global,
    image: &[u8],
    len: u64,
    done: bool,
    fill: u8,
) -> Result<Vec<u8>, AllocError>
    ensures { IfOk result (λ v. v.items ≡ fill_step fill (Call.Shorten len done) image.now) }
{
    if len > image.len() as u64 {
        return copied(alloc, image);
    }
    let end = len as usize;
    if done {
        return copied(alloc, &image[..end]);
    }
    let text = vec![in alloc; fill; image.len() - end]?;
    overwritten(alloc, image, end, &text)
}

fn after(alloc: Global, image: &[u8], call: &Call, fill: u8) -> Result<Vec<u8>, AllocError>
    ensures { IfOk result (λ v. v.items ≡ fill_step fill call.now image.now) }
{
    match call {
        Call::Write { at, from, done } => after_write(alloc, image, *at, from.len(), *done, fill),
        Call::Shorten { len, done } => after_cut(alloc, image, *len, *done, fill),
        Call::Sync { bytes } => copied(alloc, bytes),
    }
}

// What a crash may have left after these calls, with a byte in each place that isn't synced.
pub(super) fn filled(
    alloc: Global,
    first: &[u8],
    calls: &[Call],
    fill: u8,
) -> Result<Vec<u8>, AllocError>
    ensures { IfOk result (λ v. v.items ≡ fill_calls fill calls.now first.now) }
{
    let mut image = first.to_vec(alloc)?;
    'calls: for call in calls {
        image = after(alloc, &image, call, fill)?;
    }
    Ok(image)
}
