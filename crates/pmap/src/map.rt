ghost use Rattle.std.specs.Prelude.{◌≡◌, ℕ, ◌+◌, ◌*◌, ◌^◌, ◌<◌, ◌≤◌, [], length, IfOk, option_map, take};
ghost use Rattle.std.specs.FinMap.{find, put};
ghost use Rattle.pmap.specs.Shape.{without};
ghost use Rattle.pmap.specs.Range.{keys_after};

use crate::steps::Steps;
use crate::tree::Tree;
use std::alloc::Global;
use std::marker::Model;
use std::sync::Arc;
use std::sync::ledger::Ledger;
use sysapi_base::Memory;

/// A map, seen as its entries in the order of their keys, each key once. A change makes a new map and leaves the one before as
/// it was; both share what they have in common.
#[derive(Drop)]
pub struct PMap<K: Ord + Copy, V> {
    tree: Tree<K, V>,
    len: u64,
}

impl<K: Ord + Copy, V> Model for PMap<K, V> {
    ghost use Rattle.std.specs.Prelude.{List, ◌≡◌, ◌<◌, ◌≤◌, ◌^◌, length};
    ghost use Rattle.std.specs.Coded.{coded_list, coded×};
    ghost use Rattle.pmap.specs.Shape.{least};

    ghost Value = { List (K × V) };

    ghost coded = { coded_list (coded× K.code V.code) };

    ghost view = { λ a. a.tree.0 };

    ghost invariant = { λ a. (a.len ≡ length a.tree.0) × (a.len < 2 ^ 63) × (least a.tree.1 ≤ length a.tree.0) };
}

// No memory holds so many entries.
pub(crate) const MOST: u64 = 0x3fff_ffff_ffff_ffff;

impl<K: Ord + Copy, V: Drop> PMap<K, V> {
    /// No entries. It takes no memory.
    pub fn new() -> PMap<K, V>
        ensures { result ≡ [] }
    {
        PMap {
            tree: Tree::new(),
            len: 0,
        }
    }

    /// How many keys have a value.
    pub fn len(&self) -> u64
        ensures { result ≡ length self.now }
    {
        self.len
    }

    /// An equal map. It copies no content, and fails only where no further owner can be counted.
    pub fn share(&self) -> Result<PMap<K, V>, Memory>
        ensures { IfOk result (λ m. m ≡ self.now) }
    {
        Ok(PMap {
            tree: self.tree.share()?,
            len: self.len,
        })
    }

    /// The value at the key.
    pub fn find(&self, key: &K) -> Option<&V>
        ensures { option_map (λ v. v.now) result ≡ find K.cmp key.now self.now }
    {
        self.tree.find(key)
    }

    /// The same, with a step for each node that is opened, which is one comparison of the key with a stored one. They are at
    /// most twice the binary digits of the length, and two more.
    pub fn get<L: Ledger>(&self, key: &K, steps: &mut Steps<L>) -> Option<&V>
        ensures value { option_map (λ v. v.now) result ≡ find K.cmp key.now self.now }
        ensures cost { (b : ℕ) → length self.now < 2 ^ b → steps.new ≤ steps.old + (2 * b + 2) }
        ensures opened { 0 < length self.now → steps.old < steps.new }
    {
        self.tree.find_in(key, steps)
    }

    /// The map with the value at the key. This one stays as it is.
    pub fn insert(&self, alloc: Global, key: K, value: Arc<V>) -> Result<PMap<K, V>, Memory>
        ensures { IfOk result (λ m. m ≡ put K.cmp key value.value self.now) }
    {
        let is_new = self.tree.find(&key).is_none();
        if self.len >= MOST {
            return Err(Memory);
        }
        // Its height leaves the tree room, since so few entries make a low one.
        let height = self.tree.height();
        prove!(height < 1000);
        let tree = self.tree.insert(alloc, key, value)?;
        // This says that the new tree is low too.
        let _height = tree.height();
        let len = if is_new { self.len + 1 } else { self.len };
        Ok(PMap { tree, len })
    }

    /// The map without the key. This one stays as it is.
    pub fn remove(&self, alloc: Global, key: &K) -> Result<PMap<K, V>, Memory>
        ensures { IfOk result (λ m. m ≡ without K.cmp key.now self.now) }
    {
        // Its height leaves the tree room, since so few entries make a low one.
        let height = self.tree.height();
        prove!(height < 1000);
        let is_there = self.tree.find(key).is_some();
        let tree = self.tree.remove(alloc, key)?;
        // This says that the new tree is low too.
        let _height = tree.height();
        let len = if is_there { self.len - 1 } else { self.len };
        Ok(PMap { tree, len })
    }

    /// The next keys after the bound in their order, or from the first on where there is no bound: at most `most`.
    pub fn range_after(
        &self,
        alloc: Global,
        after: Option<K>,
        most: usize,
    ) -> Result<Vec<K>, Memory>
        ensures { IfOk result (λ keys. keys.items ≡ take most (keys_after K.cmp after self.now)) }
    {
        let mut keys = Vec::new(alloc);
        self.tree.push_after(after, most, &mut keys)?;
        Ok(keys)
    }
}
