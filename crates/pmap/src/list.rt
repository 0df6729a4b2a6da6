ghost use Rattle.std.specs.Prelude.{◌≡◌, ℕ, ◌+◌, ◌*◌, ◌<◌, [], ◌∷◌, ◌++◌, length, IfOk, option_map, slice_get};
ghost use Rattle.pmap.specs.Chunks.{behind, in_last};

use crate::map::{MOST, PMap};
use std::alloc::Global;
use std::marker::Model;
use std::sync::Arc;
use sysapi_base::Memory;

/// A list, seen as its items. One more item makes a new list and leaves the one before as it was; both share the full chunks
/// of 16 items. The last chunk, of fewer items, is copied by its pointers.
#[derive(Drop)]
pub struct PList<V> {
    chunks: PMap<u64, Vec<Arc<V>>>,
    last: Option<Arc<Vec<Arc<V>>>>,
    len: u64,
}

impl<V> Model for PList<V> {
    ghost use Rattle.std.specs.Prelude.{List, ◌++◌};
    ghost use Rattle.std.specs.Coded.{coded_list};

    ghost Value = { List V };

    ghost coded = { coded_list V.code };

    ghost use Rattle.pmap.specs.Chunks.{in_chunks, in_last, IsChunked};

    ghost view = { λ a. in_chunks a.chunks ++ in_last a.last };

    ghost invariant = { λ a. IsChunked a.chunks a.last a.len };
}

// How many items a full chunk has.
const FULL: u64 = 16;

impl<V: Drop> PList<V> {
    /// No items. It takes no memory.
    pub fn new() -> PList<V>
        ensures { result ≡ [] }
    {
        PList {
            chunks: PMap::new(),
            last: None,
            len: 0,
        }
    }

    /// How many items there are.
    pub fn len(&self) -> u64
        ensures { result ≡ length self.now }
    {
        self.len
    }

    /// An equal list. It copies no content, and fails only where no further owner can be counted.
    pub fn share(&self) -> Result<PList<V>, Memory>
        ensures { IfOk result (λ l. l ≡ self.now) }
    {
        Ok(PList {
            chunks: self.chunks.share()?,
            last: shared(&self.last)?,
            len: self.len,
        })
    }

    /// The item at the place, from 0 on.
    pub fn get(&self, place: u64) -> Option<&V>
        ensures { option_map (λ v. v.now) result ≡ slice_get self.now place }
    {
        let item = self.chunk(place / FULL).get((place % FULL) as usize)?;
        Some(item)
    }

    /// The list with one more item behind the others. This one stays as it is.
    pub fn push(&self, alloc: Global, value: Arc<V>) -> Result<PList<V>, Memory>
        ensures { IfOk result (λ l. l ≡ self.now ++ value.value ∷ []) }
    {
        if self.len >= MOST {
            return Err(Memory);
        }
        let chunk = longer(alloc, pointers(&self.last), value)?;
        let is_full = chunk.len() as u64 == FULL;
        let chunk = Arc::new(alloc, chunk)?;
        let len = self.len + 1;
        if is_full {
            let chunks = self.chunks.insert(alloc, self.chunks.len(), chunk)?;
            return Ok(PList {
                chunks,
                last: None,
                len,
            });
        }
        let chunks = self.chunks.share()?;
        Ok(PList {
            chunks,
            last: Some(chunk),
            len,
        })
    }

    // The pointers of the chunk of this number, full or last. There are none where there is no such chunk.
    fn chunk(&self, number: u64) -> &[Arc<V>]
        ensures { (k : ℕ) → k < FULL → slice_get (behind result.now) k ≡ slice_get self.now (FULL * number + k) }
    {
        match self.chunks.find(&number) {
            Some(chunk) => chunk.as_slice(),
            None if number == self.chunks.len() => pointers(&self.last),
            None => &[],
        }
    }
}

// The last chunk's pointers.
fn pointers<V>(last: &Option<Arc<Vec<Arc<V>>>>) -> &[Arc<V>]
    ensures { behind result.now ≡ in_last last.now }
{
    match last {
        Some(chunk) => chunk.as_slice(),
        None => &[],
    }
}

// The last chunk, of one owner more.
fn shared<V: Drop>(last: &Option<Arc<Vec<Arc<V>>>>) -> Result<Option<Arc<Vec<Arc<V>>>>, Memory>
    ensures { IfOk result (λ l. in_last l ≡ in_last last.now) }
{
    match last {
        Some(chunk) => Ok(Some(Arc::try_clone(chunk)?)),
        None => Ok(None),
    }
}

// These pointers and one more.
fn longer<V: Drop>(alloc: Global, chunk: &[Arc<V>], value: Arc<V>) -> Result<Vec<Arc<V>>, Memory>
    ensures { IfOk result (λ v. behind v.items ≡ behind chunk.now ++ value.value ∷ []) }
{
    let mut longer = Vec::with_capacity(alloc, chunk.len() + 1)?;
    for pointer in chunk {
        longer.push(Arc::try_clone(pointer)?)?;
    }
    longer.push(value)?;
    Ok(longer)
}
