// Edges of the borrow graph, and their labels.

use mv_edges::{Change, Edge, Edges, Label, leq_counted};
use mv_move_types::Node;
use std::alloc::{AllocError, Global};
use std::test::Fail;

fn edge(alloc: Global, from: Node, position: u8, to: Node) -> Result<Edge, AllocError> {
    Ok(Edge::new(from, Label::new(vec![in alloc; position]?, false), to))
}

#[test]
fn edges_that_ascend_are_pushed(rt: HostRuntime) -> Result<(), Fail> {
    let alloc = rt.alloc();
    let mut edges = Edges::new(alloc);
    assert!(rt; edges.push_last(edge(alloc, Node::Own(1), 0, Node::Slot(2))?)?);
    assert!(rt; edges.push_last(edge(alloc, Node::Own(1), 3, Node::Slot(2))?)?);
    assert!(rt; !edges.push_last(edge(alloc, Node::Slot(9), 0, Node::Slot(2))?)?);
    assert_eq!(rt; edges.len(), 2);
    Ok(())
}

#[test]
fn each_edge_is_inserted_once(rt: HostRuntime) -> Result<(), Fail> {
    let alloc = rt.alloc();
    let mut edges = Edges::new(alloc);
    for from in [Node::Glob(0), Node::Own(1), Node::Glob(0)] {
        edges.insert(edge(alloc, from, 0, Node::Slot(0))?)?;
    }
    assert_eq!(rt; edges.len(), 2);
    assert_eq!(rt; edges.get(0).ok_or("first")?.from(), Node::Own(1));
    Ok(())
}

#[test]
fn edges_are_joined(rt: HostRuntime) -> Result<(), Fail> {
    let alloc = rt.alloc();
    let mut edges = Edges::new(alloc);
    edges.insert(Edge::new(Node::Own(1), Label::here(alloc), Node::Slot(0)))?;
    let before = edges.copy(alloc)?;
    assert!(rt; before == edges);
    let mut after = Edges::new(alloc);
    after.insert(Edge::new(Node::Own(1), Label::here(alloc), Node::Temp(0)))?;
    let both = Edges::join(alloc, &before, &after)?;
    assert_eq!(rt; both.len(), 2);
    assert!(rt; before.leq(&both) && after.leq(&both));
    assert!(rt; !both.leq(&before));
    Ok(())
}

// Whether an edge with a label is below one that leads to anywhere below the second field of the first one, and how many
// comparisons say so.
fn is_below_open(alloc: Global, path: &[u8], is_open: bool) -> Result<(bool, u64), AllocError> {
    let mut high = Edges::new(alloc);
    let open = Label::new(vec![in alloc; 1, 2]?, false).opened(alloc)?;
    high.insert(Edge::new(Node::Own(1), open, Node::Temp(0)))?;
    let mut low = Edges::new(alloc);
    let label = Label::new(Vec::from_slice(alloc, path)?, is_open);
    low.insert(Edge::new(Node::Own(1), label, Node::Temp(0)))?;
    let mut comparisons = 0;
    let is_below = leq_counted(&low, &high, &mut comparisons);
    Ok((is_below, comparisons))
}

#[test]
fn edges_that_lie_above_are_found(rt: HostRuntime) -> Result<(), Fail> {
    for (path, is_open, wanted) in [
        (&[1, 2][..], false, true),
        (&[1, 2, 3], false, true),
        (&[1, 2, 3], true, true),
        (&[1], false, false),
        (&[2, 2], false, false),
    ] {
        let (is_below, comparisons) = is_below_open(rt.alloc(), path, is_open)?;
        assert_eq!(rt; is_below, wanted);
        assert!(rt; comparisons >= 1 && comparisons <= 110);
    }
    Ok(())
}

#[test]
fn edges_are_added_together(rt: HostRuntime) -> Result<(), Fail> {
    let alloc = rt.alloc();
    let mut edges = Edges::new(alloc);
    assert_eq!(rt; edges.longest(), 0);
    edges.insert(edge(alloc, Node::Own(1), 4, Node::Temp(0))?)?;
    let mut more = Edges::new(alloc);
    let field = Label::new(vec![in alloc; 4, 7]?, false);
    more.insert(Edge::new(Node::Own(1), field, Node::Temp(0)))?;
    edges.add_all(more)?;
    assert_eq!(rt; (edges.len(), edges.longest()), (2, 2));
    Ok(())
}

#[test]
fn labels_change(rt: HostRuntime) -> Result<(), Fail> {
    let alloc = rt.alloc();
    let here = Label::here(alloc);
    let field = here.extended(alloc, 3)?;
    assert!(rt; field.path() == &[3][..] && !field.is_open());
    let open = field.opened(alloc)?;
    assert!(rt; open.extended(alloc, 9)? == open);
    assert!(rt; field.changed(alloc, Change::Kept)? == field);
    assert!(rt; field.agrees(3) && !field.agrees(9) && here.agrees(9));
    assert!(rt; field.is_below(&open) && !open.is_below(&field));
    Ok(())
}
