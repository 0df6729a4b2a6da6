//! Good paths, each generic call once, and what threads may share.

mod list;

ghost use Rattle.std.specs.Prelude.{◌≡◌, ◌<◌};

use crate::{PMap, Steps};
use std::alloc::Global;
use std::marker::Brand;
use std::sync::Arc;
use std::sync::ledger::{Blank, Ledger};
use std::test::Fail;
use sysapi_base::Memory;

// The keys 2, 1 and 3, put in that order, each with ten times itself.
fn three(alloc: Global) -> Result<PMap<u64, u64>, Memory> {
    PMap::new()
        .insert(alloc, 2, Arc::new(alloc, 20)?)?
        .insert(alloc, 1, Arc::new(alloc, 10)?)?
        .insert(alloc, 3, Arc::new(alloc, 30)?)
}

#[test]
fn a_removal_leaves_the_map_before(rt: HostRuntime) -> Result<(), Fail> {
    let before = three(rt.alloc()).or(Err("no memory"))?;
    let after = before.remove(rt.alloc(), &2).or(Err("no memory"))?;
    assert_eq!(rt; after.len(), 2);
    assert_eq!(rt; after.find(&1), Some(&10));
    assert_eq!(rt; after.find(&2), None);
    assert_eq!(rt; after.find(&3), Some(&30));
    assert_eq!(rt; before.len(), 3);
    assert_eq!(rt; before.find(&2), Some(&20));
    Ok(())
}

#[test]
fn the_next_keys_come_in_order(rt: HostRuntime) -> Result<(), Fail> {
    let map = three(rt.alloc()).or(Err("no memory"))?;
    let few = map.range_after(rt.alloc(), None, 2).or(Err("no memory"))?;
    assert_eq!(rt; few.as_slice(), [1, 2].as_slice());
    let rest = map
        .range_after(rt.alloc(), Some(1), 10)
        .or(Err("no memory"))?;
    assert_eq!(rt; rest.as_slice(), [2, 3].as_slice());
    let after = map.remove(rt.alloc(), &2).or(Err("no memory"))?;
    let both = after
        .range_after(rt.alloc(), None, 10)
        .or(Err("no memory"))?;
    assert_eq!(rt; both.as_slice(), [1, 3].as_slice());
    Ok(())
}

#[test]
fn a_shared_map_answers_alike(rt: HostRuntime) -> Result<(), Fail> {
    let map = three(rt.alloc()).or(Err("no memory"))?;
    let shared = map.share().or(Err("no memory"))?;
    drop(map);
    assert_eq!(rt; shared.len(), 3);
    assert_eq!(rt; shared.find(&3), Some(&30));
    assert_eq!(rt; shared.find(&4), None);
    Ok(())
}

// The value at the key, with the steps counted in the book.
fn counted<L: Ledger>(map: &PMap<u64, u64>, key: u64, blank: Blank) -> Option<u64>
    requires name { blank.name ≡ L.name }
    requires parts { blank.parts ≡ L.parts }
    requires some { 0 < blank.parts }
{
    let mut steps = Steps::<L>::new(blank);
    map.get(&key, &mut steps).copied()
}

#[test]
fn a_counted_get_answers_alike(rt: HostRuntime) -> Result<(), Fail> {
    let map = three(rt.alloc()).or(Err("no memory"))?;
    assert_eq!(rt; counted::<Brand>(&map, 1, Blank::new(1)), Some(10));
    Ok(())
}

// Takes what threads may share and what may be dropped.
fn may_be_shared<T: Send + Sync + Drop>(_value: T) {}

#[test]
fn threads_may_share_it(_rt: HostRuntime) -> Result<(), Fail> {
    may_be_shared(PMap::<u64, u64>::new());
    Ok(())
}
