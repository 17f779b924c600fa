// Entries of a module's tables. Each number is an index into the table that its field names.

/// Who may call a function.
#[derive(Clone, Copy, PartialEq, Eq, Debug)]
pub enum Visibility {
    Private,
    Public,
}

/// A module, by an address identifier and an identifier.
#[derive(Clone, Copy, PartialEq, Eq, Debug)]
pub struct ModuleHandle {
    pub address: u16,
    pub name: u16,
}

/// A struct, by its module's handle and an identifier, with its declared abilities.
#[derive(Clone, Copy, PartialEq, Eq, Debug)]
pub struct StructHandle {
    pub module: u16,
    pub name: u16,
    pub abilities: super::Abilities,
}

/// A function, by its module's handle and an identifier, with its declared signatures.
#[derive(Clone, Copy, PartialEq, Eq, Debug)]
pub struct FunctionHandle {
    pub module: u16,
    pub name: u16,
    pub parameters: u16,
    pub results: u16,
}

/// A field of a struct: its name, an index into the identifiers, and its type.
#[derive(Clone, Copy, PartialEq, Eq, Debug)]
pub struct Field {
    pub name: u16,
    pub token: super::Token,
}

/// A field, by its struct's definition and its position there.
#[derive(Clone, Copy, PartialEq, Eq, Debug)]
pub struct FieldHandle {
    pub definition: u16,
    pub position: u16,
}

/// A function or a struct that a published module defines, by the module's place in the order of publication.
#[derive(Clone, Copy, PartialEq, Eq, Debug)]
pub struct Definition {
    pub place: u16,
    pub index: u16,
}

/// An account's address: its 16 bytes as a big-endian number.
pub type Address = u128;

/// Where a value is stored: an address, and the struct by its module's place and its definition's index.
#[derive(Clone, Copy, PartialEq, Eq, PartialOrd, Ord, Debug)]
pub struct Key {
    pub address: Address,
    pub place: u16,
    pub index: u16,
}
