// Borrow graphs on their way through a block, beside what the same steps make of lists of edges.

use super::lists::{but_out_of, inherited, leads_out_of, renamed, without};
use mv_edges::{Change, Edge, Edges, Label};
use mv_move_types::Node;
use mv_ways::{All, Graph, One, Reborrow};
use std::alloc::{AllocError, Global};
use std::test::Fail;

/// How many labels there are between two nodes, where there are few edges.
const FEW: u8 = 4;

/// How many, where there are many.
const MANY: u8 = 40;

/// What leads into references: a local's value, a global and an operand.
const SOURCES: [Node; 3] = [Node::Own(1), Node::Glob(2), Node::Temp(0)];

/// References that edges lead into.
const REFERENCES: [Node; 4] = [Node::Slot(3), Node::Slot(4), Node::Temp(1), Node::Temp(2)];

/// A label by its number: of up to three positions, exact or open.
fn label(alloc: Global, number: u8) -> Result<Label, AllocError> {
    let path = [number % 5, number / 5, 7];
    Label::from_slice(alloc, &path[..usize::from(number % 4)], number % 3 == 0)
}

/// Adds an edge for each of so many labels.
fn insert_between(
    alloc: Global,
    count: u8,
    from: Node,
    to: Node,
    edges: &mut Edges,
) -> Result<(), AllocError> {
    for number in 0..count {
        edges.insert(Edge::new(from, label(alloc, number)?, to))?;
    }
    Ok(())
}

/// Edges with so many labels from each source to each reference, and from one reference to two others.
fn some_edges(alloc: Global, count: u8) -> Result<Edges, AllocError> {
    let mut edges = Edges::new(alloc);
    for to in REFERENCES {
        for from in SOURCES {
            insert_between(alloc, count, from, to, &mut edges)?;
        }
    }
    insert_between(alloc, count, Node::Slot(3), Node::Slot(4), &mut edges)?;
    insert_between(alloc, count, Node::Slot(3), Node::Temp(1), &mut edges)?;
    Ok(edges)
}

/// What is done to a graph.
#[derive(Clone, Copy)]
enum Step {
    RemoveAt(Node),
    RemoveOutOf(Node),
    Rename(Node, Node),
    Lend(Node, Node),
    Share(Node, Node),
    Extend(u8, Node),
    /// Two nodes are taken. What leads into both goes to the first of them, and what leads into the second to operand 8.
    Tie(Node, Node),
}

/// The graph where two nodes are taken.
fn tie(alloc: Global, first: Node, second: Node, graph: &mut Graph) -> Result<(), AllocError> {
    let both = [first, second];
    let reborrows = [
        Reborrow::new(first, &both),
        Reborrow::new(Node::Temp(8), &both[1..]),
    ];
    graph.tie(alloc, &both, &reborrows)
}

/// Makes a step of a graph.
fn step_on(alloc: Global, step: Step, graph: &mut Graph) -> Result<(), AllocError> {
    match step {
        Step::RemoveAt(n) => {
            graph.remove_at(n);
            Ok(())
        }
        Step::RemoveOutOf(n) => {
            graph.remove_out_of(n);
            Ok(())
        }
        Step::Rename(old, new) => {
            graph.rename(old, new);
            Ok(())
        }
        Step::Lend(from, to) => graph.lend(from, to),
        Step::Share(old, new) => graph.share(old, new),
        Step::Extend(position, n) => graph.extend(alloc, position, n),
        Step::Tie(first, second) => tie(alloc, first, second, graph),
    }
}

/// The edges where two nodes are taken.
fn tied_edges(
    alloc: Global,
    first: Node,
    second: Node,
    edges: &Edges,
) -> Result<Edges, AllocError> {
    let mut new = inherited(alloc, Change::Opened, first, first, edges)?;
    new.add_all(inherited(alloc, Change::Opened, second, first, edges)?)?;
    new.add_all(inherited(alloc, Change::Opened, second, Node::Temp(8), edges)?)?;
    new.add_all(without(alloc, second, &without(alloc, first, edges)?)?)?;
    Ok(new)
}

/// The edges with those that lead into a node for another one, too.
fn shared_edges(
    alloc: Global,
    old: Node,
    new: Node,
    mut edges: Edges,
) -> Result<Edges, AllocError> {
    let more = inherited(alloc, Change::Kept, old, new, &edges)?;
    edges.add_all(more)?;
    Ok(edges)
}

/// The edges where a reference is one to a field.
fn extended_edges(
    alloc: Global,
    position: u8,
    n: Node,
    edges: &Edges,
) -> Result<Edges, AllocError> {
    let mut new = inherited(alloc, Change::Extended(position), n, n, edges)?;
    new.add_all(without(alloc, n, edges)?)?;
    Ok(new)
}

/// What a step makes of a list of edges.
fn stepped_edges(alloc: Global, step: Step, mut edges: Edges) -> Result<Edges, AllocError> {
    match step {
        Step::RemoveAt(n) => without(alloc, n, &edges),
        Step::RemoveOutOf(n) => but_out_of(alloc, n, &edges),
        Step::Rename(old, new) => renamed(alloc, old, new, &edges),
        Step::Lend(from, to) => {
            edges.insert(Edge::new(from, Label::here(alloc), to))?;
            Ok(edges)
        }
        Step::Share(old, new) => shared_edges(alloc, old, new, edges),
        Step::Extend(position, n) => extended_edges(alloc, position, n, &edges),
        Step::Tie(first, second) => tied_edges(alloc, first, second, &edges),
    }
}

/// What steps make of a graph.
fn after(alloc: Global, steps: &[Step], edges: Edges) -> Result<Graph, AllocError> {
    let mut graph = Graph::of_edges(alloc, &edges)?;
    for step in steps {
        step_on(alloc, *step, &mut graph)?;
    }
    Ok(graph)
}

/// What steps make of a list of edges.
fn edges_after(alloc: Global, steps: &[Step], mut edges: Edges) -> Result<Edges, AllocError> {
    for step in steps {
        edges = stepped_edges(alloc, *step, edges)?;
    }
    Ok(edges)
}

/// Whether each part of a chain of steps, from its beginning on, makes the same of a graph and of its edges.
fn goes_alike(alloc: Global, steps: &[Step], count: u8) -> Result<bool, AllocError> {
    for end in 0..steps.len() + 1 {
        let graph = after(alloc, &steps[..end], some_edges(alloc, count)?)?;
        let edges = edges_after(alloc, &steps[..end], some_edges(alloc, count)?)?;
        if graph.to_edges(alloc)? != edges {
            return Ok(false);
        }
    }
    Ok(true)
}

/// Copies, references to fields, moves, calls and stores.
const CHAIN: [Step; 18] = [
    Step::Share(Node::Slot(4), Node::Temp(3)),
    Step::Lend(Node::Slot(4), Node::Temp(3)),
    Step::Extend(6, Node::Temp(3)),
    Step::Share(Node::Slot(3), Node::Temp(4)),
    Step::Lend(Node::Own(1), Node::Temp(5)),
    Step::Lend(Node::Own(1), Node::Slot(9)),
    Step::RemoveOutOf(Node::Slot(3)),
    Step::Rename(Node::Temp(3), Node::Slot(6)),
    Step::Tie(Node::Temp(1), Node::Temp(2)),
    Step::Share(Node::Temp(1), Node::Temp(9)),
    Step::Tie(Node::Temp(1), Node::Temp(9)),
    Step::Rename(Node::Temp(4), Node::Slot(6)),
    Step::Extend(1, Node::Slot(6)),
    Step::Extend(2, Node::Temp(1)),
    Step::Rename(Node::Slot(4), Node::Temp(9)),
    Step::RemoveAt(Node::Slot(3)),
    Step::RemoveAt(Node::Glob(2)),
    Step::RemoveOutOf(Node::Temp(0)),
];

#[test]
fn a_graph_goes_as_its_list_does(rt: HostRuntime) -> Result<(), Fail> {
    let alloc = rt.alloc();
    assert!(rt; some_edges(alloc, MANY)?.len() > 300);
    assert!(rt; goes_alike(alloc, &CHAIN, MANY)?);
    assert!(rt; goes_alike(alloc, &CHAIN, FEW)?);
    Ok(())
}

/// A reference that leads to itself is extended, or one that another leads out of is taken.
const AT_ITSELF: [Step; 7] = [
    Step::Lend(Node::Slot(4), Node::Slot(4)),
    Step::Extend(6, Node::Slot(4)),
    Step::Lend(Node::Temp(2), Node::Slot(5)),
    Step::Share(Node::Temp(2), Node::Temp(3)),
    Step::Tie(Node::Temp(2), Node::Temp(3)),
    Step::Lend(Node::Temp(1), Node::Temp(2)),
    Step::Tie(Node::Temp(1), Node::Temp(2)),
];

#[test]
fn edges_at_references_that_have_some_go_as_well(rt: HostRuntime) -> Result<(), Fail> {
    let alloc = rt.alloc();
    assert!(rt; goes_alike(alloc, &AT_ITSELF, MANY)?);
    assert!(rt; goes_alike(alloc, &AT_ITSELF, FEW)?);
    Ok(())
}

/// Nodes at which queries are tried.
const NODES: [Node; 10] = [
    Node::Own(1),
    Node::Glob(2),
    Node::Temp(0),
    Node::Slot(3),
    Node::Slot(4),
    Node::Temp(1),
    Node::Temp(2),
    Node::Slot(6),
    Node::Temp(8),
    Node::Temp(9),
];

/// Whether some edge leads from one node to another, and agrees with a position, if one is asked for.
fn has_between(edges: &Edges, from: Node, position: Option<u8>, to: Node) -> bool {
    for e in edges.as_slice() {
        let agrees = match position {
            Some(position) => e.label().agrees(position),
            None => true,
        };
        if e.starts_at(from) && e.ends_at(to) && agrees {
            return true;
        }
    }
    false
}

/// Whether a graph answers as its edges do about what leads from a node, to each of some others and to any.
fn answers_between(graph: &Graph, edges: &Edges, from: Node, position: Option<u8>) -> bool {
    for to in NODES {
        let answer = graph.any_between(&One(from), position, &One(to));
        if answer != has_between(edges, from, position, to) {
            return false;
        }
    }
    graph.any_between(&One(from), position, &All) == leads_out_of(edges, from, position)
}

/// Whether a graph answers as its edges do about what leads out of a node.
fn answers_out_of(graph: &Graph, edges: &Edges, n: Node) -> bool {
    for position in 0..9 {
        if !answers_between(graph, edges, n, Some(position)) {
            return false;
        }
    }
    answers_between(graph, edges, n, None)
}

/// Whether each part of the chain leaves a graph that answers as its edges do.
fn answers_alike(alloc: Global, count: u8) -> Result<bool, AllocError> {
    for end in 0..CHAIN.len() + 1 {
        let graph = after(alloc, &CHAIN[..end], some_edges(alloc, count)?)?;
        let edges = edges_after(alloc, &CHAIN[..end], some_edges(alloc, count)?)?;
        for n in NODES {
            if !answers_out_of(&graph, &edges, n) {
                return Ok(false);
            }
        }
    }
    Ok(true)
}

#[test]
fn graphs_answer_as_their_edges_do(rt: HostRuntime) -> Result<(), Fail> {
    let alloc = rt.alloc();
    assert!(rt; answers_alike(alloc, MANY)?);
    assert!(rt; answers_alike(alloc, FEW)?);
    Ok(())
}

/// Many edges, and one each to two references, of which both become references to field 6: the first leads to field 4, and the
/// second has no position.
fn to_fields(alloc: Global) -> Result<Graph, AllocError> {
    let mut edges = some_edges(alloc, MANY)?;
    let field = Label::from_slice(alloc, &[4], false)?;
    edges.insert(Edge::new(Node::Own(8), field, Node::Slot(8)))?;
    edges.insert(Edge::new(Node::Own(9), Label::here(alloc), Node::Slot(9)))?;
    let steps = [
        Step::Extend(6, Node::Slot(8)),
        Step::Extend(6, Node::Slot(9)),
    ];
    after(alloc, &steps, edges)
}

#[test]
fn the_first_position_decides(rt: HostRuntime) -> Result<(), Fail> {
    let graph = to_fields(rt.alloc())?;
    assert!(rt; graph.any_between(&One(Node::Own(8)), Some(4), &All));
    assert!(rt; !graph.any_between(&One(Node::Own(8)), Some(6), &All));
    assert!(rt; graph.any_between(&One(Node::Own(9)), Some(6), &All));
    assert!(rt; !graph.any_between(&One(Node::Own(9)), Some(4), &All));
    assert!(rt; graph.any_between(&One(Node::Glob(2)), None, &One(Node::Slot(4))));
    assert!(rt; !graph.any_between(&One(Node::Glob(2)), None, &One(Node::Slot(9))));
    Ok(())
}

/// Two references to fields of one reference are taken, so that the first leads to anything below each of them.
const TO_TWO_FIELDS: [Step; 5] = [
    Step::Share(Node::Slot(8), Node::Temp(5)),
    Step::Extend(6, Node::Temp(5)),
    Step::Share(Node::Slot(8), Node::Temp(6)),
    Step::Extend(5, Node::Temp(6)),
    Step::Tie(Node::Temp(5), Node::Temp(6)),
];

/// Edges with so many labels, and two to a reference, at fields 3 and 4.
fn with_fields(alloc: Global, count: u8) -> Result<Edges, AllocError> {
    let mut edges = some_edges(alloc, count)?;
    for position in 3..5 {
        let field = Label::from_slice(alloc, &[position], false)?;
        edges.insert(Edge::new(Node::Own(8), field, Node::Slot(8)))?;
    }
    Ok(edges)
}

/// What those steps leave, but for what leads into the first reference; to this lead open labels of these positions.
fn others(alloc: Global, count: u8, paths: &[&[u8]]) -> Result<Edges, AllocError> {
    let edges = edges_after(alloc, &TO_TWO_FIELDS, with_fields(alloc, count)?)?;
    let mut edges = without(alloc, Node::Temp(5), &edges)?;
    for path in paths {
        let label = Label::from_slice(alloc, *path, true)?;
        edges.insert(Edge::new(Node::Own(8), label, Node::Temp(5)))?;
    }
    Ok(edges)
}

/// Whether the graph that those steps leave is below edges with such labels, and whether its list is.
fn are_under(alloc: Global, count: u8, paths: &[&[u8]]) -> Result<(bool, bool), AllocError> {
    let graph = after(alloc, &TO_TWO_FIELDS, with_fields(alloc, count)?)?;
    let others = others(alloc, count, paths)?;
    let is_under = graph.is_under(&others);
    Ok((is_under, graph.to_edges(alloc)?.leq(&others)))
}

#[test]
fn graphs_are_below_open_labels(rt: HostRuntime) -> Result<(), Fail> {
    let alloc = rt.alloc();
    for count in [FEW, MANY] {
        for (paths, wanted) in [
            (&[&[][..]][..], true),
            (&[&[3][..], &[4]], true),
            (&[&[3][..], &[4, 5], &[4, 6]], true),
            (&[&[3, 5][..], &[3, 6], &[4, 5], &[4, 6]], true),
            (&[&[3][..]], false),
            (&[&[3][..], &[4, 5]], false),
            (&[&[3][..], &[4, 6], &[4, 7]], false),
            (&[&[3, 5][..], &[3, 6], &[4, 5, 0], &[4, 6]], false),
        ] {
            assert_eq!(rt; are_under(alloc, count, paths)?, (wanted, wanted));
        }
    }
    Ok(())
}

/// The edges but for the one at a place.
fn without_one(alloc: Global, edges: &Edges, place: usize) -> Result<Edges, AllocError> {
    let mut left = Edges::new(alloc);
    for (i, e) in edges.as_slice().iter().enumerate() {
        if i != place {
            left.insert(e.copy(alloc)?)?;
        }
    }
    Ok(left)
}

/// Whether a graph is below its edges, and below those without one of them, whichever it is, where its list is.
fn is_under_alike(alloc: Global, count: u8) -> Result<bool, AllocError> {
    let graph = after(alloc, &TO_TWO_FIELDS, with_fields(alloc, count)?)?;
    let edges = edges_after(alloc, &TO_TWO_FIELDS, with_fields(alloc, count)?)?;
    for place in 0..edges.len() {
        let left = without_one(alloc, &edges, place)?;
        if graph.is_under(&left) != edges.leq(&left) {
            return Ok(false);
        }
    }
    Ok(graph.is_under(&edges))
}

#[test]
fn graphs_are_below_their_edges(rt: HostRuntime) -> Result<(), Fail> {
    let alloc = rt.alloc();
    assert!(rt; is_under_alike(alloc, MANY)?);
    assert!(rt; is_under_alike(alloc, FEW)?);
    Ok(())
}
