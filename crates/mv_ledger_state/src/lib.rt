//! What a ledger holds: its published modules, with the tallies of their structs, which bundles join, and blocks of both, which can be
//! taken back; and what a record's payload asks.
//!
//! ```
//! use mv_ledger_state::Published;
//! use mv_move_types::Refusal;
//! use std::alloc::Global;
//!
//! /// Publishes what the payload of a record offers, and says how many modules there are then.
//! fn example(alloc: Global, payload: &[u8]) -> Result<usize, Refusal> {
//!     let mut published = Published::new(alloc);
//!     published.publish(alloc, payload)?;
//!     Ok(published.store.len())
//! }
//! ```
#![tactic(auto)]

mod blocks;
mod payload;
mod published;
mod publishing;
mod tallies;
mod undoing;
pub mod unread;

pub use mv_linker::Store;
pub use payload::{Bundle, Offered, RunRecord, leaf, offers, read_bundle, read_run};
pub use published::Published;
pub use publishing::{all_verified, are_bytes, verified};
pub use tallies::Tallies;
