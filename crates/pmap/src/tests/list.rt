//! Lists across the ends of their chunks.

use super::may_be_shared;
use crate::PList;
use std::alloc::Global;
use std::sync::Arc;
use std::test::Fail;
use sysapi_base::Memory;

// The list with ten times its length behind its items.
fn one_more(alloc: Global, list: &PList<u64>) -> Result<PList<u64>, Memory> {
    list.push(alloc, Arc::new(alloc, list.len().saturating_mul(10))?)
}

// 0, 10, 20 and so on, so many of them.
fn tens(alloc: Global, count: u64) -> Result<PList<u64>, Memory> {
    let mut list = PList::new();
    for _ in 0..count {
        list = one_more(alloc, &list)?;
    }
    Ok(list)
}

// Whether these are so many tens, each at its place, and no item is behind them.
fn are_tens(list: &PList<u64>, count: u64) -> bool {
    for place in 0..count {
        if list.get(place).copied() != place.checked_mul(10) {
            return false;
        }
    }
    list.len() == count && list.get(count).is_none()
}

#[test]
fn each_item_is_at_its_place(rt: HostRuntime) -> Result<(), Fail> {
    let list = tens(rt.alloc(), 100).or(Err("no memory"))?;
    assert!(rt; are_tens(&list, 100));
    assert_eq!(rt; list.get(99), Some(&990));
    assert_eq!(rt; list.get(1000), None);
    assert_eq!(rt; list.get(u64::MAX), None);
    Ok(())
}

// Whether so many tens stay as they are under two pushes, each of which puts its item behind them.
fn stays(alloc: Global, count: u64) -> Result<bool, Memory> {
    let before = tens(alloc, count)?;
    let after = one_more(alloc, &before)?;
    let other = before.push(alloc, Arc::new(alloc, 7)?)?;
    let are_behind = are_tens(&after, count.saturating_add(1)) && other.get(count) == Some(&7);
    Ok(are_behind && are_tens(&before, count))
}

#[test]
fn a_push_leaves_the_list_before(rt: HostRuntime) -> Result<(), Fail> {
    for count in [0, 15, 16, 17, 31, 32, 33] {
        assert!(rt; stays(rt.alloc(), count).or(Err("no memory"))?);
    }
    Ok(())
}

#[test]
fn a_shared_list_answers_alike(rt: HostRuntime) -> Result<(), Fail> {
    let list = tens(rt.alloc(), 40).or(Err("no memory"))?;
    let shared = list.share().or(Err("no memory"))?;
    drop(list);
    assert!(rt; are_tens(&shared, 40));
    Ok(())
}

#[test]
fn threads_may_share_it(_rt: HostRuntime) -> Result<(), Fail> {
    may_be_shared(PList::<u64>::new());
    Ok(())
}
