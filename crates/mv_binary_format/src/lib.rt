//! Whole modules in the Move binary format: their tables and their texts.
//!
//! ```
//! use mv_binary_format::{decode, encode};
//! use mv_move_types::Refusal;
//! use std::alloc::Global;
//!
//! /// Whether a module has no functions and is written as the bytes that it was read from. The latter holds exactly if their
//! /// headers and tables stand in ascending order of kind.
//! fn example(alloc: Global, bytes: &[u8]) -> Result<bool, Refusal> {
//!     let module = decode(alloc, bytes)?;
//!     let text = encode(alloc, &module)?;
//!     Ok(module.functions().is_empty() && text.as_slice() == bytes)
//! }
//! ```
#![tactic(auto)]

mod contents;
mod cursor;
mod definitions;
mod entries;
mod headers;
mod laws;
mod layout;
mod module;
mod names;

ghost use Rattle.std.specs.Prelude.{◌≡◌, IfOk, IfErr, None, Some, ◌⊎◌};
ghost use Rattle.mv_move_types.specs.Module.{Module as Tables};
ghost use Rattle.mv_binary_format.specs.ModuleText.{IsModuleText};
ghost use Rattle.mv_binary_format.specs.Parsing.{module_of};
ghost use Rattle.mv_binary_format.specs.Outcomes.{Decides};

pub use cursor::{Cursor, code};
pub use definitions::{FunctionDefinition, StructDefinition};
pub use laws::{modules_are_read_by_text, texts_are_of_one_module};
pub use layout::encode;
pub use module::Module;
pub use mv_module_text::Constant;
use mv_module_text::Reader;
use mv_move_types::Refusal;
use std::alloc::Global;

/// Reads the module that the bytes are a text of; its names, the bytes of its constants and its code remain slices of these bytes.
///
/// # Errors
/// [`Refusal::Phase`] with 2 if the bytes aren't the text of a module; [`Refusal::Memory`] if an allocation failed.
pub fn decode<'a>(alloc: Global, bytes: &'a [u8]) -> Result<Module<'a>, Refusal>
    ensures ok { IfOk result (λ m. module_of bytes.entry.now ≡ Some m) }
    ensures text { IfOk result (λ m. IsModuleText bytes.entry.now m) }
    ensures refused { result ≡ Err (Refusal.Phase 2) → module_of bytes.entry.now ≡ None }
    ensures none { result ≡ Err (Refusal.Phase 2) → (m : Tables) → IsModuleText bytes.entry.now m → ⊥ }
    ensures errors { IfErr result (λ e. (e ≡ Refusal.Phase 2) ⊎ (e ≡ Refusal.Memory)) }
{
    modules_are_read_by_text();
    read(alloc, bytes)
}

// Reads the magic bytes, the version, the headers, the contents that they tell of, and the own handle.
#[tactic(auto, unfolding(crate::specs::Parsing::module_of))]
fn read<'a>(alloc: Global, bytes: &'a [u8]) -> Result<Module<'a>, Refusal>
    ensures { Decides (module_of bytes.entry.now) result }
{
    let mut reader = Reader::new(bytes);
    headers::read_magic(&mut reader)?;
    let version = headers::read_version(&mut reader)?;
    let headers = headers::read_headers(alloc, &mut reader)?;
    let tables = contents::read_contents(alloc, headers, &mut reader)?;
    let own = reader.index()?;
    if !reader.is_empty() {
        return Err(Refusal::Phase(2));
    }
    modules_are_read_by_text();
    Module::read(alloc, version, own, tables)
}
