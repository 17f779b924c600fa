// States in each of their forms, two by two, beside what their lists answer.

use mv_edges::{Edge, Edges, Label};
use mv_move_types::Node;
use mv_ways::Borrows;
use std::alloc::{AllocError, Global};
use std::test::Fail;

/// How a state holds its edges.
#[derive(Clone, Copy)]
enum Form {
    /// As a view of a list.
    Stated,
    /// As a list.
    Listed,
    /// As a graph in which a reference was copied, and the copy dropped again.
    Grown,
}

const FORMS: [Form; 3] = [Form::Stated, Form::Listed, Form::Grown];

/// A reference to which edges lead.
const REFERENCE: Node = Node::Slot(3);

/// The edges of a list as a graph.
fn grown(alloc: Global, edges: &Edges) -> Result<Borrows<'_>, AllocError> {
    let mut graph = Borrows::of_stated(edges).grown(alloc)?;
    graph.share(REFERENCE, Node::Temp(9))?;
    graph.lend(REFERENCE, Node::Temp(9))?;
    graph.remove_at(Node::Temp(9));
    Ok(Borrows::of_graph(graph))
}

/// The edges of a list in a form.
fn state(alloc: Global, form: Form, edges: &Edges) -> Result<Borrows<'_>, AllocError> {
    match form {
        Form::Stated => Ok(Borrows::of_stated(edges)),
        Form::Listed => Borrows::of_list(alloc, edges.copy(alloc)?),
        Form::Grown => grown(alloc, edges),
    }
}

/// Edges to a reference with these labels, each with its positions and whether it is open.
fn edges_to(alloc: Global, labels: &[(&[u8], bool)]) -> Result<Edges, AllocError> {
    let mut edges = Edges::new(alloc);
    for (path, is_open) in labels {
        let label = Label::from_slice(alloc, *path, *is_open)?;
        edges.insert(Edge::new(Node::Own(1), label, REFERENCE))?;
    }
    Ok(edges)
}

/// Lists of which some are below others: none, one edge, another one, both, an open one above both, and one with 9 positions.
fn lists(alloc: Global) -> Result<Vec<Edges>, AllocError> {
    let mut lists = Vec::new(alloc);
    lists.push(Edges::new(alloc))?;
    lists.push(edges_to(alloc, &[(&[4, 2], false)])?)?;
    lists.push(edges_to(alloc, &[(&[4], false)])?)?;
    lists.push(edges_to(alloc, &[(&[4], false), (&[4, 2], false)])?)?;
    lists.push(edges_to(alloc, &[(&[4], true)])?)?;
    lists.push(edges_to(alloc, &[(&[0, 1, 2, 3, 4, 5, 6, 7, 8], false)])?)?;
    Ok(lists)
}

/// Whether two states answer as their lists do.
fn answer_alike(
    alloc: Global,
    a: &Borrows<'_>,
    b: &Borrows<'_>,
    left: &Edges,
    right: &Edges,
) -> Result<bool, AllocError> {
    let joined = Borrows::join(alloc, a, b)?.into_list(alloc)?;
    Ok(
        a.leq(b) == left.leq(right)
            && (a == b) == (left == right)
            && joined == Edges::join(alloc, left, right)?,
    )
}

/// Whether lists answer as they do in each pair of forms.
fn forms_answer_alike(alloc: Global, left: &Edges, right: &Edges) -> Result<bool, AllocError> {
    for form in FORMS {
        for other in FORMS {
            let a = state(alloc, form, left)?;
            let b = state(alloc, other, right)?;
            if !answer_alike(alloc, &a, &b, left, right)? {
                return Ok(false);
            }
        }
    }
    Ok(true)
}

#[test]
fn states_answer_as_their_lists_do(rt: HostRuntime) -> Result<(), Fail> {
    let alloc = rt.alloc();
    let lists = lists(alloc)?;
    for left in &lists {
        for right in &lists {
            assert!(rt; forms_answer_alike(alloc, left, right)?);
        }
    }
    Ok(())
}

#[test]
fn a_state_without_edges_is_below_all(rt: HostRuntime) -> Result<(), Fail> {
    let alloc = rt.alloc();
    let nothing = Borrows::nothing();
    let none = Edges::new(alloc);
    for list in &lists(alloc)? {
        for form in FORMS {
            let other = state(alloc, form, list)?;
            assert!(rt; answer_alike(alloc, &nothing, &other, &none, list)?);
            assert!(rt; answer_alike(alloc, &other, &nothing, list, &none)?);
        }
    }
    assert!(rt; nothing.are_few() && nothing == nothing.copy(alloc)?);
    Ok(())
}

#[test]
fn copies_are_equal(rt: HostRuntime) -> Result<(), Fail> {
    let alloc = rt.alloc();
    for list in &lists(alloc)? {
        for form in FORMS {
            let state = state(alloc, form, list)?;
            let copy = state.copy(alloc)?;
            assert!(rt; copy == state);
            assert!(rt; copy.into_list(alloc)? == *list);
        }
    }
    Ok(())
}

#[test]
fn few_edges_with_short_labels_are_few(rt: HostRuntime) -> Result<(), Fail> {
    let alloc = rt.alloc();
    for (place, list) in lists(alloc)?.iter().enumerate() {
        for form in FORMS {
            assert_eq!(rt; state(alloc, form, list)?.are_few(), place < 5);
        }
    }
    Ok(())
}

/// So many edges.
fn many_edges(alloc: Global, count: u16) -> Result<Edges, AllocError> {
    let mut edges = Edges::new(alloc);
    for number in 0..count {
        let path = [(number / 64 % 32) as u8, (number % 64) as u8];
        let label = Label::from_slice(alloc, &path, number % 2 == 0)?;
        edges.insert(Edge::new(Node::Own(number / 512), label, REFERENCE))?;
    }
    Ok(edges)
}

#[test]
fn a_thousand_and_twenty_four_edges_are_few(rt: HostRuntime) -> Result<(), Fail> {
    let alloc = rt.alloc();
    for count in [1_024, 1_025] {
        let edges = many_edges(alloc, count)?;
        assert_eq!(rt; edges.len(), usize::from(count));
        for form in FORMS {
            assert_eq!(rt; state(alloc, form, &edges)?.are_few(), count == 1_024);
        }
    }
    Ok(())
}
