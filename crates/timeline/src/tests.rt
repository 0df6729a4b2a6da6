//! Good paths, and what threads may share.

use crate::Timeline;
use std::alloc::Global;
use std::sync::Arc;
use std::test::Fail;
use sysapi_base::{Id, Memory};

const FIRST: u128 = 7;

const SECOND: u128 = 3;

// The first id has 10 from 1 on, 20 from 3 on, and nothing from 5 on. The second has 30 from 4 on.
fn some_changes(alloc: Global) -> Result<Timeline<u64>, Memory> {
    let (first, second) = (Id::from_u128(FIRST), Id::from_u128(SECOND));
    Timeline::new()
        .set_at(alloc, first, 1, Arc::new(alloc, 10)?)?
        .set_at(alloc, first, 3, Arc::new(alloc, 20)?)?
        .set_at(alloc, second, 4, Arc::new(alloc, 30)?)?
        .end_at(alloc, first, 5)
}

fn value(timeline: &Timeline<u64>, id: u128, n: u64) -> Option<u64> {
    timeline.at(Id::from_u128(id), n).copied()
}

fn numbers(timeline: &Timeline<u64>, alloc: Global, n: u64) -> Result<Vec<u128>, Memory> {
    let ids = timeline.list_at(alloc, n)?;
    Ok(ids.iter().map(|id| id.number()).collect(alloc)?)
}

#[test]
fn a_value_holds_up_to_the_next_change(rt: HostRuntime) -> Result<(), Fail> {
    let timeline = some_changes(rt.alloc()).or(Err("no memory"))?;
    assert_eq!(rt; value(&timeline, FIRST, 0), None);
    assert_eq!(rt; value(&timeline, FIRST, 1), Some(10));
    assert_eq!(rt; value(&timeline, FIRST, 2), Some(10));
    assert_eq!(rt; value(&timeline, FIRST, 3), Some(20));
    assert_eq!(rt; value(&timeline, FIRST, 4), Some(20));
    assert_eq!(rt; value(&timeline, FIRST, 5), None);
    assert_eq!(rt; timeline.last(), 5);
    Ok(())
}

#[test]
fn a_list_has_the_ids_with_a_value(rt: HostRuntime) -> Result<(), Fail> {
    let timeline = some_changes(rt.alloc()).or(Err("no memory"))?;
    let early = numbers(&timeline, rt.alloc(), 3).or(Err("no memory"))?;
    assert_eq!(rt; early.as_slice(), [FIRST].as_slice());
    let both = numbers(&timeline, rt.alloc(), 4).or(Err("no memory"))?;
    assert_eq!(rt; both.as_slice(), [SECOND, FIRST].as_slice());
    let late = numbers(&timeline, rt.alloc(), 5).or(Err("no memory"))?;
    assert_eq!(rt; late.as_slice(), [SECOND].as_slice());
    Ok(())
}

#[test]
fn a_shared_timeline_answers_alike(rt: HostRuntime) -> Result<(), Fail> {
    let timeline = some_changes(rt.alloc()).or(Err("no memory"))?;
    let shared = timeline.share().or(Err("no memory"))?;
    drop(timeline);
    assert_eq!(rt; value(&shared, FIRST, 4), Some(20));
    assert_eq!(rt; value(&shared, FIRST, 5), None);
    let both = numbers(&shared, rt.alloc(), 4).or(Err("no memory"))?;
    assert_eq!(rt; both.as_slice(), [SECOND, FIRST].as_slice());
    Ok(())
}

// Three points later the first id has k, or nothing where 5 divides k.
fn next_change(alloc: Global, timeline: &Timeline<u64>, k: u64) -> Result<Timeline<u64>, Memory> {
    let id = Id::from_u128(FIRST);
    let point = timeline.last().saturating_add(3);
    if k % 5 == 0 {
        return timeline.end_at(alloc, id, point);
    }
    timeline.set_at(alloc, id, point, Arc::new(alloc, k)?)
}

// 200 changes of the first id, at the points 3, 6, 9 and so on up to 600.
fn many_changes(alloc: Global) -> Result<Timeline<u64>, Memory> {
    let mut timeline = Timeline::new();
    for k in 1..201 {
        timeline = next_change(alloc, &timeline, k)?;
    }
    Ok(timeline)
}

#[test]
fn each_of_many_changes_is_found(rt: HostRuntime) -> Result<(), Fail> {
    let timeline = many_changes(rt.alloc()).or(Err("no memory"))?;
    for n in 0..700 {
        let k = (n / 3).min(200);
        let expected = (k % 5 != 0).then_some(k);
        assert_eq!(rt; value(&timeline, FIRST, n), expected);
    }
    Ok(())
}

#[test]
fn a_timeline_stays_while_others_grow_from_it(rt: HostRuntime) -> Result<(), Fail> {
    let before = many_changes(rt.alloc()).or(Err("no memory"))?;
    let one = next_change(rt.alloc(), &before, 201).or(Err("no memory"))?;
    let other = next_change(rt.alloc(), &before, 202).or(Err("no memory"))?;
    assert_eq!(rt; value(&before, FIRST, 603), None);
    assert_eq!(rt; value(&one, FIRST, 603), Some(201));
    assert_eq!(rt; value(&other, FIRST, 603), Some(202));
    assert_eq!(rt; before.last(), 600);
    assert_eq!(rt; one.last(), 603);
    assert_eq!(rt; value(&other, FIRST, 599), Some(199));
    Ok(())
}

// Takes what threads may share and what may be dropped.
fn may_be_shared<T: Send + Sync + Drop>(_value: T) {}

#[test]
fn threads_may_share_it(_rt: HostRuntime) -> Result<(), Fail> {
    may_be_shared(Timeline::<u64>::new());
    Ok(())
}
