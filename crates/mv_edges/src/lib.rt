//! Edges of the borrow graph as they are stated: labels, edges, and ascending lists of them with their order and their join.
//! mv_ways has the graph on its way through a block.
//!
//! ```
//! use mv_edges::{Edge, Edges, Label};
//! use mv_move_types::Node;
//! use std::alloc::{AllocError, Global};
//!
//! /// Operand 0 refers to the field 2 of what local 1 refers to. That it refers to anything below local 1 says less.
//! fn example(alloc: Global) -> Result<bool, AllocError> {
//!     let mut exact = Edges::new(alloc);
//!     let field = Label::here(alloc).extended(alloc, 2)?;
//!     exact.insert(Edge::new(Node::Slot(1), field, Node::Temp(0)))?;
//!     let mut open = Edges::new(alloc);
//!     open.insert(Edge::new(Node::Slot(1), Label::anything(), Node::Temp(0)))?;
//!     Ok(exact.leq(&open) && !open.leq(&exact))
//! }
//! ```
#![tactic(auto)]

mod edge;
mod edges;
mod label;
mod path;
mod search;
mod union;
mod unordered;

pub use edge::{Edge, is_same, renamed};
pub use edges::Edges;
pub use label::{Change, Label};
pub use search::leq_counted;
