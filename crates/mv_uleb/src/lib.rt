//! ULEB128 numbers, as DWARF has them: seven bits a byte, the least significant first, in the shortest form.
//!
//! ```
//! use mv_uleb::{UlebError, read, write};
//! use std::alloc::AllocError;
//!
//! fn example(out: &mut Vec<u8>) -> Result<bool, AllocError> {
//!     write(300, out)?;
//!     // 300 in two bytes, and a number above the most that is wanted.
//!     let two = matches!(read(&[0xac, 0x02, 0xff], 65_535), Ok((300, 2)));
//!     let large = matches!(read(&[0xac, 0x02], 255), Err(UlebError::Range));
//!     Ok(two && large)
//! }
//! ```
#![tactic(auto)]

ghost use Rattle.mv_uleb.specs.Laws.{HasOneForm, HasForm, StandsByForm};

use thiserror::Error;

/// Why no number stands at the front of bytes.
#[derive(Clone, Copy, PartialEq, Eq, Debug, Error)]
pub enum UlebError {
    /// The bytes end before the number does.
    #[error("the number is cut")]
    Ends,
    /// A shorter form would do.
    #[error("the number is not in its shortest form")]
    Long,
    /// The number is above the greatest one, or has more than ten bytes.
    #[error("the number is out of range")]
    Range,
}

mod reading;
mod writing;

pub use reading::read;
pub use writing::write;

/// No number's form is a prefix of another's, and no bytes are the forms of two numbers.
pub fn one_form()
    ensures { HasOneForm }
{}

/// Each number below 2^70 has a form.
pub fn has_form()
    ensures { HasForm }
{}

/// A number stands at the front of bytes exactly where its form does.
pub fn stands_by_form()
    ensures { StandsByForm }
{}
