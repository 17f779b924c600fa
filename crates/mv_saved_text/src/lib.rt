//! The text that a ledger is saved as, and loaded from: whole, or piece by piece.
//!
//! ```
//! use mv_saved_text::{LoadError, load, text_of};
//! use std::alloc::Global;
//!
//! /// The text of the ledger that these bytes are a text of, in the form of today.
//! fn example(alloc: Global, bytes: &[u8]) -> Result<Vec<u8>, LoadError> {
//!     let loaded = load(alloc, bytes)?;
//!     let published = &loaded.published;
//!     Ok(text_of(
//!         alloc,
//!         &published.store,
//!         &loaded.storage,
//!         &published.tallies,
//!         loaded.runs,
//!     )?)
//! }
//! ```
#![tactic(auto)]

mod counts;
mod flowing;
mod layouts;
mod loading;
mod position;
mod saving;
mod steps;

pub use flowing::Saving;
pub use loading::longer::refusal_of_longer;
pub use loading::{LoadError, Loaded, load};
pub use saving::text_of;
