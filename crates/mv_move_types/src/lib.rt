//! The small types that code and definitions share: abilities, types, instructions, handles and refusals.
//!
//! ```
//! use mv_move_types::{Exit, Immediate, Instruction, Width};
//!
//! fn example() -> bool {
//!     let branch = Instruction::BrTrue(7);
//!     let number = Instruction::LdU8(5);
//!     branch.opcode() == 0x03
//!         && branch.exit() == Exit::Fork(7)
//!         && number.immediate() == Immediate::Literal(Width::U8, 5)
//! }
//! ```
#![tactic(auto)]

mod borrow;
mod instruction;
pub mod limits;
mod refusal;
mod tables;
mod token;
mod version;

pub use borrow::{Availability, Node};
pub use instruction::{Exit, Immediate, Instruction};
pub use refusal::Refusal;
pub use tables::{
    Address, Definition, Field, FieldHandle, FunctionHandle, Key, ModuleHandle, StructHandle,
    Visibility,
};
pub use token::{Abilities, LeafKind, Token, ValueType, Width};
pub use version::Version;
