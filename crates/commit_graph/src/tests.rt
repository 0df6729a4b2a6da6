//! Good paths, refusals, and what threads may share.

use crate::{AddError, Graph};
use std::alloc::Global;
use std::test::Fail;

// 0, then 1 behind it and 2 behind that; 3 stands alone.
fn some_commits(alloc: Global) -> Result<Graph, AddError> {
    let (graph, first) = Graph::new().add(alloc, None)?;
    let (graph, second) = graph.add(alloc, Some(first))?;
    let (graph, _third) = graph.add(alloc, Some(second))?;
    let (graph, _alone) = graph.add(alloc, None)?;
    Ok(graph)
}

#[test]
fn commits_are_numbered(rt: HostRuntime) -> Result<(), Fail> {
    let (graph, first) = Graph::new().add(rt.alloc(), None).or(Err("refused"))?;
    let (graph, second) = graph.add(rt.alloc(), Some(0)).or(Err("refused"))?;
    let (graph, third) = graph.add(rt.alloc(), Some(1)).or(Err("refused"))?;
    assert_eq!(rt; (first, second, third), (0, 1, 2));
    assert_eq!(rt; graph.len(), 3);
    Ok(())
}

#[test]
fn an_unknown_previous_is_refused(rt: HostRuntime) -> Result<(), Fail> {
    let graph = some_commits(rt.alloc()).or(Err("refused"))?;
    assert_eq!(rt;
        graph.add(rt.alloc(), Some(9)).err(),
        Some(AddError::UnknownPrevious)
    );
    assert_eq!(rt;
        graph.add(rt.alloc(), Some(4)).err(),
        Some(AddError::UnknownPrevious)
    );
    assert!(rt; graph.add(rt.alloc(), Some(3)).is_ok());
    Ok(())
}

fn is_as_built(graph: &Graph) -> bool {
    graph.len() == 4
        && graph.previous(2) == Some(1)
        && graph.previous(0).is_none()
        && graph.depth(2) == 2
        && graph.depth(3) == 0
        && graph.ancestor(2, 0) == Some(2)
        && graph.ancestor(2, 2) == Some(0)
        && graph.ancestor(2, 3).is_none()
        && graph.is_ancestor(0, 2)
        && graph.is_ancestor(2, 2)
        && !graph.is_ancestor(2, 0)
        && !graph.is_ancestor(3, 2)
}

#[test]
fn ancestry_is_answered(rt: HostRuntime) -> Result<(), Fail> {
    let graph = some_commits(rt.alloc()).or(Err("refused"))?;
    let shared = graph.share().or(Err("no memory"))?;
    assert!(rt; is_as_built(&graph));
    drop(graph);
    assert!(rt; is_as_built(&shared));
    Ok(())
}

// The graph with so many more commits, each behind the one before it, and the first behind this one.
fn with_chain(
    alloc: Global,
    graph: &Graph,
    behind: Option<u64>,
    length: u64,
) -> Result<Graph, AddError> {
    let mut graph = graph.share()?;
    let mut previous = behind;
    for _ in 0..length {
        let (longer, number) = graph.add(alloc, previous)?;
        graph = longer;
        previous = Some(number);
    }
    Ok(graph)
}

// A chain of the commits 0 to 299, and a branch of it: 300 behind 100, and so on to 499.
fn two_branches(alloc: Global) -> Result<Graph, AddError> {
    let chain = with_chain(alloc, &Graph::new(), None, 300)?;
    with_chain(alloc, &chain, Some(100), 200)
}

fn goes_back_in_the_chain(graph: &Graph) -> bool {
    if graph.len() != 500 {
        return false;
    }
    for k in 0..300 {
        if graph.ancestor(299, k) != Some(299 - k) {
            return false;
        }
    }
    graph.ancestor(299, 300).is_none() && graph.depth(299) == 299
}

fn goes_back_in_the_branch(graph: &Graph) -> bool {
    if graph.len() != 500 {
        return false;
    }
    for k in 0..200 {
        if graph.ancestor(499, k) != Some(499 - k) {
            return false;
        }
    }
    for k in 200..301 {
        if graph.ancestor(499, k) != Some(300 - k) {
            return false;
        }
    }
    graph.ancestor(499, 301).is_none() && graph.depth(499) == 300
}

// Which commits stand in the ancestry of each branch's last one.
fn keeps_branches_apart(graph: &Graph) -> bool {
    if graph.len() != 500 {
        return false;
    }
    for a in 0..500 {
        let is_in_chain = a < 300;
        let is_in_branch = a <= 100 || a >= 300;
        if graph.is_ancestor(a, 299) != is_in_chain || graph.is_ancestor(a, 499) != is_in_branch {
            return false;
        }
    }
    true
}

#[test]
fn jumps_meet_what_steps_meet(rt: HostRuntime) -> Result<(), Fail> {
    let graph = two_branches(rt.alloc()).or(Err("refused"))?;
    assert!(rt; goes_back_in_the_chain(&graph));
    assert!(rt; goes_back_in_the_branch(&graph));
    assert!(rt; keeps_branches_apart(&graph));
    Ok(())
}

// Takes what threads may share and what may be dropped.
fn may_be_shared<T: Send + Sync + Drop>(_value: T) {}

#[test]
fn threads_may_share_it(_rt: HostRuntime) -> Result<(), Fail> {
    may_be_shared(Graph::new());
    Ok(())
}
