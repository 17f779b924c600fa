//! The text of each entry of a module, as the Move binary format has it: reading from the front of bytes, and writing.
//!
//! ```
//! use mv_module_text::{Reader, write_token};
//! use mv_move_types::{Refusal, Token, ValueType, Version};
//!
//! fn example(text: &mut Vec<u8>) -> Result<bool, Refusal> {
//!     // A reference to a value of the struct of handle 3.
//!     let token = Token::Reference(ValueType::OfStruct(3));
//!     write_token(token, text)?;
//!     let mut reader = Reader::new(text);
//!     Ok(reader.token(Version::Five)? == token && reader.is_empty())
//! }
//! ```
#![tactic(auto)]

mod abilities;
mod codes;
mod constant;
mod identifiers;
mod laws;
mod reader;
mod writing;

pub use constant::Constant;
pub use laws::{entries_stand_by_text, tables_stand_as_texts};
pub use reader::Reader;
pub use writing::{
    FunctionParts, write_address, write_constant, write_field, write_field_handle,
    write_function_definition, write_function_handle, write_identifier, write_index,
    write_instruction, write_module_handle, write_signature, write_struct_definition,
    write_struct_handle, write_token, write_u32,
};
