ghost use Rattle.std.specs.Prelude.{◌≡◌, ◌∷◌, ◌++◌, [], ◌+◌, ◌≤◌, ◌<◌, ◌^◌, min, max, take, length, IsTrue, IfOk, OnOk, MatchOption, option_map};
ghost use Rattle.std.specs.FinMap.{find, put, is_sorted};
ghost use Rattle.pmap.specs.Shape.{least, DifferByAtMost, IsSettled, without};
ghost use Rattle.pmap.specs.Range.{comes_after, keys_after};

use crate::steps::Steps;
use std::alloc::Global;
use std::cmp::Ordering;
use std::marker::Model;
use std::sync::Arc;
use std::sync::ledger::Ledger;
use sysapi_base::Memory;

/// A tree, seen as its entries in the order of their keys, and its height.
#[cycle(tree)]
#[derive(Drop)]
pub(crate) struct Tree<K: Ord + Copy, V> {
    root: Root<K, V>,
}

#[cycle(tree)]
#[derive(Drop)]
enum Root<K: Ord + Copy, V> {
    Leaf,
    Fork(Arc<Node<K, V>>),
}

#[cycle(tree)]
#[derive(Drop)]
struct Node<K: Ord + Copy, V> {
    left: Tree<K, V>,
    key: K,
    value: Arc<V>,
    height: u64,
    right: Tree<K, V>,
}

impl<K: Ord + Copy, V> Model for Tree<K, V> {
    ghost use Rattle.std.specs.Prelude.{ℕ, List, length};
    ghost use Rattle.std.specs.Coded.{coded_list, coded×, coded_ℕ};

    ghost Value = { List (K × V) × ℕ };

    ghost coded = { coded× (coded_list (coded× K.code V.code)) coded_ℕ };

    ghost use Rattle.pmap.specs.Seen.{entries, height, IsBalanced};

    ghost view = { λ a. (entries a.root, height a.root) };

    ghost invariant = { λ a. IsBalanced K.cmp a.root };

    ghost size = { λ d. length d.0 };

    ghost use Rattle.pmap.specs.Falls.{depth_le-length-entries};

    ghost size_decreases = { λ a h. depth_le-length-entries K V K.Ord K.PartialEq K.PartialOrd a.root };
}

impl<K: Ord + Copy, V: Drop> Tree<K, V> {
    pub fn new() -> Tree<K, V>
        ensures { result ≡ ([], 0) }
    {
        Tree { root: Root::Leaf }
    }

    /// A further owner of the nodes.
    pub fn share(&self) -> Result<Tree<K, V>, Memory>
        ensures { IfOk result (λ t. t ≡ self.now) }
    {
        match &self.root {
            Root::Leaf => Ok(Tree::new()),
            Root::Fork(node) => Ok(Tree {
                root: Root::Fork(Arc::try_clone(node)?),
            }),
        }
    }

    pub fn height(&self) -> u64
        ensures value { result ≡ self.now.1 }
        ensures full { least self.now.1 ≤ length self.now.0 }
        ensures sorted { IsTrue (is_sorted K.cmp self.now.0) }
    {
        match &self.root {
            Root::Leaf => 0,
            Root::Fork(node) => node.height,
        }
    }

    /// The parts of a tree that is not empty.
    fn open(&self) -> Result<(Tree<K, V>, K, Arc<V>, Tree<K, V>), Memory>
        requires { 0 < self.now.1 }
        ensures is { IfOk result (λ p. self.now.0 ≡ p.0.0 ++ (p.1, p.2.value) ∷ p.3.0) }
        ensures high { IfOk result (λ p. self.now.1 ≡ max p.0.1 p.3.1 + 1) }
        ensures near { IfOk result (λ p. DifferByAtMost 1 p.0.1 p.3.1) }
    {
        let Root::Fork(node) = &self.root else {
            unreachable!()
        };
        let value = Arc::try_clone(&node.value)?;
        let left = node.left.share()?;
        let right = node.right.share()?;
        Ok((left, node.key, value, right))
    }

    /// The value at a key.
    pub fn find(&self, key: &K) -> Option<&V>
        ensures { option_map (λ v. v.now) result ≡ find K.cmp key.now self.now.0 }
    {
        match &self.root {
            Root::Leaf => None,
            Root::Fork(node) => match key.cmp(&node.key) {
                Ordering::Less => node.left.find(key),
                Ordering::Equal => Some(&node.value),
                Ordering::Greater => node.right.find(key),
            },
        }
    }
}

impl<K: Ord + Copy, V: Drop> Tree<K, V> {
    /// The same, with a step for each node that is opened.
    pub fn find_in<L: Ledger>(&self, key: &K, steps: &mut Steps<L>) -> Option<&V>
        ensures value { option_map (λ v. v.now) result ≡ find K.cmp key.now self.now.0 }
        ensures cost { steps.new ≤ steps.old + self.now.1 }
        ensures opened { steps.old + min 1 (length self.now.0) ≤ steps.new }
    {
        match &self.root {
            Root::Leaf => None,
            Root::Fork(node) => {
                steps.tick();
                match key.cmp(&node.key) {
                    Ordering::Less => node.left.find_in(key, steps),
                    Ordering::Equal => Some(&node.value),
                    Ordering::Greater => node.right.find_in(key, steps),
                }
            }
        }
    }
}

/// The fork of two sides that differ by at most one.
fn fork<K: Ord + Copy, V: Drop>(
    alloc: Global,
    left: Tree<K, V>,
    key: K,
    value: Arc<V>,
    right: Tree<K, V>,
) -> Result<Tree<K, V>, Memory>
    requires sorted { IsTrue (is_sorted K.cmp (left.0 ++ (key, value.value) ∷ right.0)) }
    requires near { DifferByAtMost 1 left.1 right.1 }
    requires room { max left.1 right.1 < 2 ^ 63 }
    ensures { IfOk result (λ t. t ≡ (left.0 ++ (key, value.value) ∷ right.0, max left.1 right.1 + 1)) }
{
    let height = left.height().max(right.height()) + 1;
    let node = Node {
        left,
        key,
        value,
        height,
        right,
    };
    Ok(Tree {
        root: Root::Fork(Arc::new(alloc, node)?),
    })
}

/// The fork of two sides that differ by at most two.
fn balance<K: Ord + Copy, V: Drop>(
    alloc: Global,
    left: Tree<K, V>,
    key: K,
    value: Arc<V>,
    right: Tree<K, V>,
) -> Result<Tree<K, V>, Memory>
    requires sorted { IsTrue (is_sorted K.cmp (left.0 ++ (key, value.value) ∷ right.0)) }
    requires near { DifferByAtMost 2 left.1 right.1 }
    requires room { max left.1 right.1 < 2 ^ 62 }
    ensures entries { IfOk result (λ t. t.0 ≡ left.0 ++ (key, value.value) ∷ right.0) }
    ensures height { IfOk result (λ t. IsSettled left.1 right.1 t.1) }
{
    let (high_left, high_right) = (left.height(), right.height());
    if high_left > high_right + 1 {
        lean_left(alloc, left, key, value, right)
    } else if high_right > high_left + 1 {
        lean_right(alloc, left, key, value, right)
    } else {
        fork(alloc, left, key, value, right)
    }
}

/// The same, where the left side is two higher.
fn lean_left<K: Ord + Copy, V: Drop>(
    alloc: Global,
    left: Tree<K, V>,
    key: K,
    value: Arc<V>,
    right: Tree<K, V>,
) -> Result<Tree<K, V>, Memory>
    requires sorted { IsTrue (is_sorted K.cmp (left.0 ++ (key, value.value) ∷ right.0)) }
    requires higher { left.1 ≡ right.1 + 2 }
    requires room { left.1 < 2 ^ 62 }
    ensures entries { IfOk result (λ t. t.0 ≡ left.0 ++ (key, value.value) ∷ right.0) }
    ensures height { IfOk result (λ t. IsSettled left.1 right.1 t.1) }
{
    let (outer, outer_key, outer_value, inner) = left.open()?;
    if outer.height() >= inner.height() {
        let lower = fork(alloc, inner, key, value, right)?;
        return fork(alloc, outer, outer_key, outer_value, lower);
    }
    let (inner_left, inner_key, inner_value, inner_right) = inner.open()?;
    let first = fork(alloc, outer, outer_key, outer_value, inner_left)?;
    let last = fork(alloc, inner_right, key, value, right)?;
    fork(alloc, first, inner_key, inner_value, last)
}

/// The same, where the right side is two higher.
fn lean_right<K: Ord + Copy, V: Drop>(
    alloc: Global,
    left: Tree<K, V>,
    key: K,
    value: Arc<V>,
    right: Tree<K, V>,
) -> Result<Tree<K, V>, Memory>
    requires sorted { IsTrue (is_sorted K.cmp (left.0 ++ (key, value.value) ∷ right.0)) }
    requires higher { right.1 ≡ left.1 + 2 }
    requires room { right.1 < 2 ^ 62 }
    ensures entries { IfOk result (λ t. t.0 ≡ left.0 ++ (key, value.value) ∷ right.0) }
    ensures height { IfOk result (λ t. IsSettled left.1 right.1 t.1) }
{
    let (inner, outer_key, outer_value, outer) = right.open()?;
    if outer.height() >= inner.height() {
        let lower = fork(alloc, left, key, value, inner)?;
        return fork(alloc, lower, outer_key, outer_value, outer);
    }
    let (inner_left, inner_key, inner_value, inner_right) = inner.open()?;
    let first = fork(alloc, left, key, value, inner_left)?;
    let last = fork(alloc, inner_right, outer_key, outer_value, outer)?;
    fork(alloc, first, inner_key, inner_value, last)
}

impl<K: Ord + Copy, V: Drop> Tree<K, V> {
    /// The tree with the value at the key. This one stays as it is.
    pub fn insert(&self, alloc: Global, key: K, value: Arc<V>) -> Result<Tree<K, V>, Memory>
        requires room { self.now.1 < 2 ^ 61 }
        ensures entries { IfOk result (λ t. t.0 ≡ put K.cmp key value.value self.now.0) }
        ensures not_lower { IfOk result (λ t. self.now.1 ≤ t.1) }
        ensures at_most_one_higher { IfOk result (λ t. t.1 ≤ self.now.1 + 1) }
    {
        match &self.root {
            Root::Leaf => fork(alloc, Tree::new(), key, value, Tree::new()),
            Root::Fork(node) => match key.cmp(&node.key) {
                Ordering::Less => {
                    let left = node.left.insert(alloc, key, value)?;
                    balance(
                        alloc,
                        left,
                        node.key,
                        Arc::try_clone(&node.value)?,
                        node.right.share()?,
                    )
                }
                Ordering::Equal => fork(
                    alloc,
                    node.left.share()?,
                    node.key,
                    value,
                    node.right.share()?,
                ),
                Ordering::Greater => {
                    let right = node.right.insert(alloc, key, value)?;
                    balance(
                        alloc,
                        node.left.share()?,
                        node.key,
                        Arc::try_clone(&node.value)?,
                        right,
                    )
                }
            },
        }
    }
}

impl<K: Ord + Copy, V: Drop> Tree<K, V> {
    /// The first entry and the tree without it, unless the tree is empty.
    fn take_first(&self, alloc: Global) -> Result<Option<(K, Arc<V>, Tree<K, V>)>, Memory>
        requires room { self.now.1 < 2 ^ 61 }
        ensures entries { IfOk result (λ o. MatchOption o (self.now.0 ≡ []) (λ p. self.now.0 ≡ (p.0, p.1.value) ∷ p.2.0)) }
        ensures height { IfOk result (λ o. MatchOption o (self.now.1 ≡ 0) (λ p. (p.2.1 ≤ self.now.1) × (self.now.1 ≤ p.2.1 + 1))) }
    {
        match &self.root {
            Root::Leaf => Ok(None),
            Root::Fork(node) => match node.left.take_first(alloc)? {
                None => Ok(Some((node.key, Arc::try_clone(&node.value)?, node.right.share()?))),
                Some((key, value, left)) => {
                    let rest = balance(
                        alloc,
                        left,
                        node.key,
                        Arc::try_clone(&node.value)?,
                        node.right.share()?,
                    )?;
                    Ok(Some((key, value, rest)))
                }
            },
        }
    }

    /// The tree without the entry at the key. This one stays as it is.
    pub fn remove(&self, alloc: Global, key: &K) -> Result<Tree<K, V>, Memory>
        requires room { self.now.1 < 2 ^ 61 }
        ensures entries { IfOk result (λ t. t.0 ≡ without K.cmp key.now self.now.0) }
        ensures not_higher { IfOk result (λ t. t.1 ≤ self.now.1) }
        ensures at_most_one_lower { IfOk result (λ t. self.now.1 ≤ t.1 + 1) }
    {
        match &self.root {
            Root::Leaf => Ok(Tree::new()),
            Root::Fork(node) => match key.cmp(&node.key) {
                Ordering::Less => {
                    let left = node.left.remove(alloc, key)?;
                    balance(
                        alloc,
                        left,
                        node.key,
                        Arc::try_clone(&node.value)?,
                        node.right.share()?,
                    )
                }
                Ordering::Equal => join(alloc, node.left.share()?, &node.right),
                Ordering::Greater => {
                    let right = node.right.remove(alloc, key)?;
                    balance(
                        alloc,
                        node.left.share()?,
                        node.key,
                        Arc::try_clone(&node.value)?,
                        right,
                    )
                }
            },
        }
    }
}

/// Two trees, one after the other.
fn join<K: Ord + Copy, V: Drop>(
    alloc: Global,
    left: Tree<K, V>,
    right: &Tree<K, V>,
) -> Result<Tree<K, V>, Memory>
    requires sorted { IsTrue (is_sorted K.cmp (left.0 ++ right.now.0)) }
    requires near { DifferByAtMost 1 left.1 right.now.1 }
    requires room { max left.1 right.now.1 < 2 ^ 61 }
    ensures entries { IfOk result (λ t. t.0 ≡ left.0 ++ right.now.0) }
    ensures not_lower { IfOk result (λ t. max left.1 right.now.1 ≤ t.1) }
    ensures at_most_one_higher { IfOk result (λ t. t.1 ≤ max left.1 right.now.1 + 1) }
{
    match right.take_first(alloc)? {
        None => Ok(left),
        Some((key, value, rest)) => balance(alloc, left, key, value, rest),
    }
}

impl<K: Ord + Copy, V: Drop> Tree<K, V> {
    /// Puts the keys after the bound behind those that are there, up to `most` in all.
    pub fn push_after(&self, after: Option<K>, most: usize, keys: &mut Vec<K>) -> Result<(), Memory>
        requires room { length keys.old.items ≤ most }
        ensures { OnOk result (keys.new.items ≡ take most (keys.old.items ++ keys_after K.cmp after self.now.0)) }
    {
        match &self.root {
            Root::Leaf => Ok(()),
            Root::Fork(node) => {
                if !is_after(&node.key, after) {
                    return node.right.push_after(after, most, keys);
                }
                node.left.push_after(after, most, keys)?;
                if keys.len() >= most {
                    return Ok(());
                }
                keys.push(node.key)?;
                node.right.push_after(after, most, keys)
            }
        }
    }
}

/// Whether the key comes after the bound.
fn is_after<K: Ord + Copy>(key: &K, after: Option<K>) -> bool
    ensures { result ≡ comes_after K.cmp after key.now }
{
    match after {
        None => true,
        Some(bound) => bound.cmp(key).is_lt(),
    }
}
