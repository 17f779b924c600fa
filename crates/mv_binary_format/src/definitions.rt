// Structs and functions as a module defines them.
ghost use Rattle.std.specs.Prelude.{◌≡◌};
ghost use Rattle.mv_module_text.specs.Parsing.{struct_definition_from, function_definition_from};
ghost use Rattle.mv_module_text.specs.Entries.{struct_definition_text, function_definition_text};

use super::cursor::Cursor;
use super::entries::Entry;
use mv_module_text::{FunctionParts, Reader, write_function_definition, write_struct_definition};
use mv_move_types::{Field, Refusal, Version, Visibility};
use std::alloc::{AllocError, Global};
use std::marker::Model;

/// A struct that a module defines: its handle, and its fields in order.
#[derive(Drop)]
pub struct StructDefinition {
    handle: u16,
    fields: Vec<Field>,
}

impl Model for StructDefinition {
    ghost use Rattle.mv_move_types.specs.Module.{StructDefinition as StructTable};

    ghost Value = { StructTable };

    ghost view = { λ d. record { handle = d.handle; fields = d.fields.items } };
}

impl StructDefinition {
    /// The index of its handle.
    pub fn handle(&self) -> u16
        ensures { result ≡ self.now.handle }
    {
        self.handle
    }

    /// Its fields, in order.
    pub fn fields(&self) -> &[Field]
        ensures { result.now ≡ self.now.fields }
    {
        &self.fields
    }
}

impl<'a> Entry<'a> for StructDefinition {
    ghost from = { struct_definition_from };

    ghost text = { struct_definition_text };

    // Reads its handle, the byte of declared fields, and its fields.
    fn read(alloc: Global, version: Version, reader: &mut Reader<'a>) -> Result<Self, Refusal> {
        let handle = reader.index()?;
        reader.mark(2)?;
        let fields = reader.fields(alloc, version)?;
        Ok(StructDefinition { handle, fields })
    }

    fn write(&self, _alloc: Global, out: &mut Vec<u8>) -> Result<(), AllocError> {
        write_struct_definition(self.handle, &self.fields, out)
    }
}

/// A function that a module defines: its handle, who may call it, and its code, which remains in the module's bytes.
#[derive(Drop)]
pub struct FunctionDefinition<'a> {
    handle: u16,
    visibility: Visibility,
    is_entry: bool,
    acquires: Vec<u16>,
    locals: u16,
    code: Cursor<'a>,
}

impl<'a> Model for FunctionDefinition<'a> {
    ghost use Rattle.mv_move_types.specs.Module.{FunctionDefinition as FunctionTable};

    ghost Value = { FunctionTable };

    ghost view = { λ d. record {
      handle = d.handle;
      visibility = d.visibility;
      is_entry = d.is_entry;
      acquires = d.acquires.items;
      locals = d.locals;
      code = d.code;
    } };
}

impl<'a> FunctionDefinition<'a> {
    /// The index of its handle.
    pub fn handle(&self) -> u16
        ensures { result ≡ self.now.handle }
    {
        self.handle
    }

    /// Whether other modules may call it.
    pub fn visibility(&self) -> Visibility
        ensures { result ≡ self.now.visibility }
    {
        self.visibility
    }

    /// Whether a run record may name it.
    pub fn is_entry(&self) -> bool
        ensures { result ≡ self.now.is_entry }
    {
        self.is_entry
    }

    /// The struct definitions that it says it reaches in the storage.
    pub fn acquires(&self) -> &[u16]
        ensures { result.now ≡ self.now.acquires }
    {
        &self.acquires
    }

    /// The signature of its locals other than the parameters.
    pub fn locals(&self) -> u16
        ensures { result ≡ self.now.locals }
    {
        self.locals
    }

    /// Its instructions, in order.
    pub fn code(&self) -> Cursor<'a>
        ensures { result ≡ self.now.code }
    {
        self.code.another()
    }
}

impl<'a> Entry<'a> for FunctionDefinition<'a> {
    ghost from = { function_definition_from };

    ghost text = { function_definition_text };

    // Reads its handle, its visibility, its flags, its acquires list, its further locals and its code.
    fn read(alloc: Global, version: Version, reader: &mut Reader<'a>) -> Result<Self, Refusal> {
        let handle = reader.index()?;
        let visibility = reader.visibility()?;
        let is_entry = reader.flags()?;
        let acquires = reader.indices(alloc)?;
        let locals = reader.index()?;
        let code = Cursor::read(version, reader)?;
        Ok(FunctionDefinition {
            handle,
            visibility,
            is_entry,
            acquires,
            locals,
            code,
        })
    }

    fn write(&self, alloc: Global, out: &mut Vec<u8>) -> Result<(), AllocError> {
        let code = self.code().to_vec(alloc)?;
        let parts = FunctionParts {
            handle: self.handle(),
            visibility: self.visibility(),
            is_entry: self.is_entry(),
            acquires: self.acquires(),
            locals: self.locals(),
            code: &code,
        };
        write_function_definition(parts, out)
    }
}
