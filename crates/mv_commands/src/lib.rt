//! What of the commands needs no ledger: the command line, and how a saved ledger takes its file's place.
//!
//! ```
//! use mv_commands::{LineError, Task, command};
//!
//! /// The file whose records a command line asks to answer, if it asks for that.
//! fn example<'a>(alloc: std::alloc::Global, words: &'a [&'a str]) -> Result<Option<&'a str>, LineError> {
//!     match command(alloc, words)? {
//!         Task::Apply { file, .. } => Ok(Some(file)),
//!         _ => Ok(None),
//!     }
//! }
//! ```
#![tactic(auto)]

mod bytes;
mod claim;
mod command_line;
mod error;
mod fresh;
mod holding;
mod keeping;
mod names;
mod on_disk;
mod own_names;
mod shelf;
mod telling;

pub use bytes::{MARK, filled, is_mark};
pub use claim::{Claim, Stand, claim_place, release};
pub use command_line::{LineError, Task, command, not_text};
pub use error::KeepError;
pub use fresh::{Fresh, NewFile, fill};
pub use holding::{Found, Hold, Lock, Looks, Place, Seen, Sort, held, is_one};
pub use keeping::keep;
pub use names::{Names, NotPut, put, put_aside, put_first};
pub use shelf::Shelf;
pub use telling::{Notice, Tell};
