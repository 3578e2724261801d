use crate::{Edge, caught};
use std::alloc::Global;
use std::test::Fail;

/// The edges of pairs of threads, from one to the other.
fn edges(alloc: Global, pairs: &[(u32, u32)]) -> Result<Vec<Edge>, Fail> {
    let mut edges = Vec::new(alloc);
    for (from, to) in pairs {
        edges.push(Edge {
            from: *from,
            to: *to,
        })?;
    }
    Ok(edges)
}

/// Whether exactly these threads are caught.
fn are_caught(alloc: Global, pairs: &[(u32, u32)], threads: &[u32]) -> Result<bool, Fail> {
    let edges = edges(alloc, pairs)?;
    let found = caught(alloc, edges.as_slice())?;
    Ok(found.as_slice() == threads)
}

#[test]
fn without_edges_none_is_caught(rt: HostRuntime) -> Result<(), Fail> {
    assert!(rt; are_caught(rt.alloc(), &[], &[])?);
    Ok(())
}

#[test]
fn who_waits_for_itself_is_caught(rt: HostRuntime) -> Result<(), Fail> {
    assert!(rt; are_caught(rt.alloc(), &[(7, 7)], &[7])?);
    Ok(())
}

#[test]
fn two_that_wait_for_each_other_are_caught(rt: HostRuntime) -> Result<(), Fail> {
    assert!(rt; are_caught(rt.alloc(), &[(2, 1), (1, 2)], &[1, 2])?);
    Ok(())
}

#[test]
fn a_tail_is_not_caught(rt: HostRuntime) -> Result<(), Fail> {
    let pairs = [(1, 2), (2, 5), (5, 4), (4, 3), (3, 5)];
    assert!(rt; are_caught(rt.alloc(), &pairs, &[3, 4, 5])?);
    Ok(())
}

#[test]
fn two_circles_are_caught(rt: HostRuntime) -> Result<(), Fail> {
    let pairs = [(9, 8), (8, 9), (3, 1), (1, 3), (3, 8), (4, 9)];
    assert!(rt; are_caught(rt.alloc(), &pairs, &[1, 3, 8, 9])?);
    Ok(())
}

#[test]
fn an_edge_may_come_twice(rt: HostRuntime) -> Result<(), Fail> {
    let pairs = [(1, 2), (1, 2), (2, 1), (2, 1), (3, 1), (3, 1)];
    assert!(rt; are_caught(rt.alloc(), &pairs, &[1, 2])?);
    Ok(())
}

#[test]
fn a_chain_catches_none(rt: HostRuntime) -> Result<(), Fail> {
    assert!(rt; are_caught(rt.alloc(), &[(1, 2), (2, 3), (1, 3)], &[])?);
    Ok(())
}

#[test]
fn many_in_one_circle_are_caught(rt: HostRuntime) -> Result<(), Fail> {
    let alloc = rt.alloc();
    let mut edges = Vec::new(alloc);
    for thread in 0..899u32 {
        edges.push(Edge {
            from: thread,
            to: thread + 1,
        })?;
    }
    let open = caught(alloc, edges.as_slice())?;
    assert_eq!(rt; open.len(), 0);
    edges.push(Edge { from: 899, to: 0 })?;
    let closed = caught(alloc, edges.as_slice())?;
    assert_eq!(rt; closed.len(), 900);
    assert_eq!(rt; closed.last(), Some(&899));
    Ok(())
}
