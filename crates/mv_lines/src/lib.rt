//! The lines that a ledger tells of what it stores and of its tallies: shows and audits, as text and as JSON, each made when it
//! is asked for.
//!
//! ```
//! use mv_lines::{Lines, Piece};
//! use mv_linker::Store;
//! use mv_storage::Storage;
//! use std::alloc::{AllocError, Global};
//!
//! /// How the line of a show of all that is stored begins, as JSON.
//! fn example(alloc: Global, store: &Store, storage: &Storage) -> Result<Option<Piece>, AllocError> {
//!     Lines::json_of_storage(alloc, store, storage).next_piece()
//! }
//! ```
#![tactic(auto)]

mod ahead;
mod audit;
mod changed;
mod json_counts;
mod json_entries;
mod lines;
mod pieces;
mod source;
mod texts;
mod values;
mod walk;

pub use changed::Side;
pub use lines::Lines;
pub use pieces::Piece;
pub use texts::put_address;
