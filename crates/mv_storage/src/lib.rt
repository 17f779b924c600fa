//! Storage of values under keys, and an overlay in which a run changes it before the changes are kept or given up.
//!
//! ```
//! use mv_move_types::Key;
//! use mv_storage::{Storage, Value};
//! use std::alloc::AllocError;
//!
//! /// A run that takes the value under a key is given up; one that puts 7 where nothing is stored, and
//! /// writes 8 over a leaf in place, is kept.
//! fn example(storage: &mut Storage, key: Key) -> Result<(), AllocError> {
//!     let mut overlay = storage.overlay();
//!     overlay.take(&key)?;
//!     overlay.discard();
//!     let mut overlay = storage.overlay();
//!     if !overlay.claim(&key)? {
//!         overlay.put(key, Value::leaf(7))?;
//!     }
//!     if let Some(words) = overlay.edit(&key, 0, 1)? {
//!         words.fill(8);
//!     }
//!     overlay.commit()
//! }
//! ```
#![tactic(auto)]

mod blocks;
mod changes;
mod entries;
mod filling;
mod known;
mod overlay;
mod page;
mod places;
mod room;
mod slot;
mod slots;
mod storage;
mod value;

pub use changes::Changes;
pub use entries::Entries;
pub use filling::Filling;
pub use overlay::Overlay;
pub use page::Page;
pub use room::Room;
pub use storage::Storage;
pub use value::Value;
