//! What other modules see of a module: the names and abilities of its structs and fields, its functions with their types, and whether
//! types of two modules are one. It needs no store: where the structs of a module's handles are defined is given.
//!
//! ```
//! use mv_binary_format::Module;
//! use mv_interface::{Interface, Outline};
//! use mv_move_types::Definition;
//! use std::alloc::{AllocError, Global};
//!
//! /// The number of parameters of a module's function of an identifier, if there is one. `structs` has where the structs of the
//! /// module's handles are defined.
//! fn example(
//!     alloc: Global,
//!     m: &Module<'_>,
//!     structs: &[Definition],
//!     name: &[u8],
//! ) -> Result<Option<usize>, AllocError> {
//!     let outline = Outline::of(alloc, m)?;
//!     let interface = Interface::of(alloc, outline, m, structs)?;
//!     let Some(index) = interface.outline.find_function(name) else {
//!         return Ok(None);
//!     };
//!     match interface.parameters.get(index) {
//!         Some(types) => Ok(Some(types.len())),
//!         None => Ok(None),
//!     }
//! }
//! ```
#![tactic(auto)]

mod by_definition;
mod by_name;
mod definitions;
mod interface;
mod lists;
mod names;
mod outline;
mod shapes;
mod types;

pub use by_definition::is_signature;
pub use definitions::{function_handle, is_public};
pub use interface::{Interface, LinkedType, Signature};
pub use lists::Lists;
pub use names::{
    StructName, function_place, have_one_name, module_name, name_of, names_own, struct_name,
};
pub use outline::Outline;
pub use shapes::Part;
pub use types::{are_same, same_kind, same_signature};
