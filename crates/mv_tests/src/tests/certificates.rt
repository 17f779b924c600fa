// The bytes of certificates that are put together by hand.

use mv_certificate::{Cert, Known, encode};
use mv_edges::{Edge, Edges, Label};
use mv_locals_safety::Availabilities;
use mv_move_types::{Availability, Node};
use std::alloc::{AllocError, Global};
use std::test::Fail;

// What is known of three locals, the second of which borrows a field of the first.
fn known(alloc: Global) -> Result<Known, AllocError> {
    let mut edges = Edges::new(alloc);
    let label = Label::new(vec![in alloc; 31]?, true);
    edges.insert(Edge::new(Node::Own(0), label, Node::Slot(1)))?;
    edges.insert(Edge::new(Node::Glob(128), Label::here(alloc), Node::Slot(1)))?;
    let locals = [
        Availability::Available,
        Availability::Maybe,
        Availability::Unavailable,
    ];
    Ok(Known {
        locals: Availabilities::new(locals.to_vec(alloc)?),
        edges,
    })
}

// The text of a certificate of one function.
fn text_of(alloc: Global, stated: Vec<Option<Known>>) -> Result<Vec<u8>, AllocError> {
    let mut functions = Vec::new(alloc);
    functions.push(stated)?;
    encode(alloc, &Cert { functions })
}

#[test]
fn reached_and_unreached_blocks_are_written(rt: HostRuntime) -> Result<(), Fail> {
    let alloc = rt.alloc();
    let mut stated = Vec::new(alloc);
    stated.push(Some(known(alloc)?))?;
    stated.push(None)?;
    // The locals, an edge out of a local, an edge out of the storage, and the block to which no path leads.
    let wanted = [
        1, 1, 2, 0, 2, 1, 0, 0, 1, 1, 31, 1, 2, 0x80, 1, 0, 1, 0, 0, 0,
    ];
    assert_eq!(rt; text_of(alloc, stated)?.as_slice(), wanted.as_slice());
    assert!(rt; text_of(alloc, Vec::new(alloc))?.is_empty());
    Ok(())
}
