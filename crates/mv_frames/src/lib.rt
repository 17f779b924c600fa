//! Frames: the words of a run's functions at work, their locals in one list and their operands in another, and the
//! functions that wait.
//!
//! ```
//! use mv_frames::{Halt, Words};
//! use std::alloc::Global;
//!
//! /// The sum of two operands takes their place.
//! fn example(alloc: Global) -> Result<u128, Halt> {
//!     let mut operands = Words::new(alloc);
//!     operands.extend(&[1, 2])?;
//!     let (second, first) = (operands.pop()?, operands.pop()?);
//!     operands.push(first.saturating_add(second))?;
//!     operands.pop()
//! }
//! ```
#![tactic(auto)]

mod counters;
mod frame;
mod halt;
mod words;

pub use counters::Counters;
pub use frame::{Frame, Top};
pub use halt::Halt;
pub use mv_machine::StructTally;
pub use words::Words;
