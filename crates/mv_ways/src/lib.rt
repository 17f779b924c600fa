//! Provenances: how the references of a block came about, in place of a list of the borrow graph's edges. The list of edges is the
//! model, so that whoever calls it speaks of edges alone.
//!
//! ```
//! use mv_edges::{Edge, Edges, Label};
//! use mv_move_types::Node;
//! use mv_ways::{All, Graph, One};
//! use std::alloc::{AllocError, Global};
//!
//! /// Local 1 is a reference, and the topmost operand one to the field 2 of what it leads to.
//! fn example(alloc: Global) -> Result<bool, AllocError> {
//!     let mut edges = Edges::new(alloc);
//!     let field = Label::here(alloc).extended(alloc, 2)?;
//!     edges.insert(Edge::new(Node::Slot(1), field, Node::Temp(0)))?;
//!     // While that operand is there, what stands in the field 2 isn't written through local 1; field 3 may be.
//!     let graph = Graph::of_edges(alloc, &edges)?;
//!     let agrees = graph.any_between(&One(Node::Slot(1)), Some(2), &All);
//!     let other = graph.any_between(&One(Node::Slot(1)), Some(3), &All);
//!     Ok(agrees && !other)
//! }
//! ```
#![tactic(auto)]

mod borrows;
mod graph;
mod nodes;
mod provenances;

pub use borrows::Borrows;
pub use graph::{Graph, Reborrow};
pub use nodes::{All, NodeSet, One};
