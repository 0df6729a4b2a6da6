//! Readers of numbers, texts and ids. Each takes a part from the front of the bytes, and gives it with the bytes behind it.

ghost use Rattle.std.specs.Prelude.{◌≡◌};
ghost use Rattle.std.specs.Int.{w32, w64};
ghost use Rattle.entry_bytes.specs.Reading.{Gives, number_at, id_at, optional_at, repeated_at, list_at, slice_at, if_utf8, text_at};

use crate::error::DecodeError;
use std::alloc::Global;
use std::str;
use sysapi_base::{Id, Ids, Text};

#[tactic(auto, unfolding(crate::specs::Reading::number_at))]
pub(crate) fn read_u32(bytes: &[u8]) -> Result<(u32, &[u8]), DecodeError>
    ensures { Gives (λ x. (x.0, x.1.now)) result (number_at w32 bytes.now) }
{
    if bytes.len() < 4 {
        return Err(DecodeError::NotAnEntry);
    }
    let (front, rest) = bytes.split_at(4);
    let number = u32::from_be_bytes([front[0], front[1], front[2], front[3]]);
    Ok((number, rest))
}

#[tactic(auto, unfolding(crate::specs::Reading::number_at))]
pub(crate) fn read_u64(bytes: &[u8]) -> Result<(u64, &[u8]), DecodeError>
    ensures { Gives (λ x. (x.0, x.1.now)) result (number_at w64 bytes.now) }
{
    if bytes.len() < 8 {
        return Err(DecodeError::NotAnEntry);
    }
    let (front, rest) = bytes.split_at(8);
    let number = u64::from_be_bytes([
        front[0], front[1], front[2], front[3], front[4], front[5], front[6], front[7],
    ]);
    Ok((number, rest))
}

/// The number of an id.
pub(crate) fn read_id(bytes: &[u8]) -> Result<(u128, &[u8]), DecodeError>
    ensures { Gives (λ x. (x.0, x.1.now)) result (id_at bytes.now) }
{
    let (first, rest) = read_u64(bytes)?;
    let (second, rest) = read_u64(rest)?;
    let number = u128::from(first) * 18_446_744_073_709_551_616 + u128::from(second);
    Ok((number, rest))
}

pub(crate) fn read_optional_id(bytes: &[u8]) -> Result<(Option<u128>, &[u8]), DecodeError>
    ensures { Gives (λ x. (x.0, x.1.now)) result (optional_at id_at bytes.now) }
{
    match bytes {
        [0, rest @ ..] => Ok((None, rest)),
        [1, rest @ ..] => {
            let (number, rest) = read_id(rest)?;
            Ok((Some(number), rest))
        }
        _ => Err(DecodeError::NotAnEntry),
    }
}

/// The id with this number, if there is one.
pub(crate) fn optional_id(number: Option<u128>) -> Option<Id>
    ensures { result ≡ number }
{
    match number {
        Some(number) => Some(Id::from_u128(number)),
        None => None,
    }
}

/// A length, and so many bytes.
pub(crate) fn read_slice(bytes: &[u8]) -> Result<(&[u8], &[u8]), DecodeError>
    ensures { Gives (λ x. (x.0.now, x.1.now)) result (slice_at bytes.now) }
{
    let (len, rest) = read_u32(bytes)?;
    let len = len as usize;
    if rest.len() < len {
        return Err(DecodeError::NotAnEntry);
    }
    let (front, rest) = rest.split_at(len);
    Ok((front, rest))
}

fn read_text(alloc: Global, bytes: &[u8]) -> Result<(Text, &[u8]), DecodeError>
    ensures { Gives (λ x. (x.0, x.1.now)) result (text_at bytes.now) }
{
    let (slice, rest) = read_slice(bytes)?;
    let text = text_of(alloc, slice)?;
    Ok((text, rest))
}

fn text_of(alloc: Global, bytes: &[u8]) -> Result<Text, DecodeError>
    ensures { Gives (λ t. t) result (if_utf8 bytes.now) }
{
    match str::from_utf8(bytes) {
        Ok(text) => Ok(Text::of(String::from_str(alloc, text)?)),
        Err(_) => Err(DecodeError::NotAnEntry),
    }
}

pub(crate) fn read_optional_text(
    alloc: Global,
    bytes: &[u8],
) -> Result<(Option<Text>, &[u8]), DecodeError>
    ensures { Gives (λ x. (x.0, x.1.now)) result (optional_at text_at bytes.now) }
{
    match bytes {
        [0, rest @ ..] => Ok((None, rest)),
        [1, rest @ ..] => {
            let (text, rest) = read_text(alloc, rest)?;
            Ok((Some(text), rest))
        }
        _ => Err(DecodeError::NotAnEntry),
    }
}

/// A list of ids.
pub(crate) fn read_ids(alloc: Global, bytes: &[u8]) -> Result<(Ids, &[u8]), DecodeError>
    ensures { Gives (λ x. (x.0, x.1.now)) result (list_at id_at bytes.now) }
{
    let (count, rest) = read_u32(bytes)?;
    let (ids, rest) = read_members(alloc, count, rest)?;
    Ok((Ids::of(ids), rest))
}

/// So many ids.
fn read_members(alloc: Global, count: u32, bytes: &[u8]) -> Result<(Vec<Id>, &[u8]), DecodeError>
    ensures { Gives (λ x. (x.0.items, x.1.now)) result (repeated_at id_at count bytes.now) }
{
    let mut ids = Vec::new(alloc);
    let mut rest = bytes;
    for _ in 0..count {
        let (number, after) = read_id(rest)?;
        ids.push(Id::from_u128(number))?;
        rest = after;
    }
    Ok((ids, rest))
}
