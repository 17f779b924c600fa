//! Changes that are noted, so that they can be taken back block by block: the marks of open blocks, and definitions and proofs that
//! serve whatever is changed.
//!
//! A part of a ledger that changes keeps a list of what it changed since its first open block was begun, the oldest first, and for
//! each open block a mark: how many changes were noted by then. What was held at a mark is what is left once the changes after it
//! are taken back, the newest first. So a change that is noted leaves what was held at each mark, and a block is taken back by taking
//! back the changes after its mark. The part says what it holds and how one of its changes is taken back.
//!
//! ```
//! use mv_undo::Marks;
//! use std::alloc::AllocError;
//!
//! /// A block is begun when seven changes were noted, and closed again.
//! fn example(marks: &mut Marks) -> Result<Option<usize>, AllocError> {
//!     marks.begin(7)?;
//!     Ok(marks.end())
//! }
//! ```
#![tactic(auto)]

mod marks;

pub use crate::marks::Marks;
