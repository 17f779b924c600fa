// What becomes of lists of edges, by the rules as they are said: each edge is looked at.

use mv_edges::{Change, Edge, Edges};
use mv_move_types::Node;
use std::alloc::{AllocError, Global};

/// The edges but for those that lead out of a node.
pub fn but_out_of(alloc: Global, n: Node, edges: &Edges) -> Result<Edges, AllocError> {
    let mut left = Edges::new(alloc);
    for e in edges.as_slice() {
        if !e.starts_at(n) {
            left.insert(e.copy(alloc)?)?;
        }
    }
    Ok(left)
}

/// The edges without those at a node.
pub fn without(alloc: Global, n: Node, edges: &Edges) -> Result<Edges, AllocError> {
    let mut left = Edges::new(alloc);
    for e in edges.as_slice() {
        if !e.starts_at(n) && !e.ends_at(n) {
            left.insert(e.copy(alloc)?)?;
        }
    }
    Ok(left)
}

/// The edges with one node in place of another.
pub fn renamed(alloc: Global, old: Node, new: Node, edges: &Edges) -> Result<Edges, AllocError> {
    let mut moved = Edges::new(alloc);
    for e in edges.as_slice() {
        let from = if e.starts_at(old) { new } else { e.from() };
        let to = if e.ends_at(old) { new } else { e.to() };
        moved.insert(Edge::new(from, e.label().copy(alloc)?, to))?;
    }
    Ok(moved)
}

/// The edges that lead into a node, with a change made to their labels, for another node.
pub fn inherited(
    alloc: Global,
    change: Change,
    old: Node,
    new: Node,
    edges: &Edges,
) -> Result<Edges, AllocError> {
    let mut more = Edges::new(alloc);
    for e in edges.as_slice() {
        if e.ends_at(old) {
            more.insert(Edge::new(e.from(), e.label().changed(alloc, change)?, new))?;
        }
    }
    Ok(more)
}

/// Whether an edge leads out of a node, and agrees with a position, if one is asked for.
pub fn leads_out_of(edges: &Edges, n: Node, position: Option<u8>) -> bool {
    for e in edges.as_slice() {
        let agrees = match position {
            Some(position) => e.label().agrees(position),
            None => true,
        };
        if e.starts_at(n) && agrees {
            return true;
        }
    }
    false
}
