// What stands in a module's tables: how each entry is read, and how it is written.

ghost use Rattle.std.specs.Prelude.{ℕ, List};
ghost use Rattle.mv_move_types.specs.Versions.{version_number};
ghost use Rattle.mv_module_text.specs.Parsing.{Read, module_handle_from, struct_handle_from, function_handle_from, constant_from, address_from, field_handle_from};
ghost use Rattle.mv_module_text.specs.Entries.{module_handle_text, struct_handle_text, function_handle_text, constant_text, address_text, field_handle_text};
ghost use Rattle.mv_module_text.specs.Writes.{Writes};
ghost use Rattle.mv_binary_format.specs.Outcomes.{Takes};

use mv_module_text::{
    Constant, Reader, write_address, write_constant, write_field_handle, write_function_handle,
    write_module_handle, write_struct_handle,
};
use mv_move_types::{FieldHandle, FunctionHandle, ModuleHandle, Refusal, StructHandle, Version};
use std::alloc::{AllocError, Global};

// An entry of a table: what it is read by, and its text.
pub trait Entry<'a>: Drop {
    ghost from: { ℕ → List ℕ → Read Self };

    ghost text: { Self → List ℕ };

    // Reads an entry, as the version has it.
    fn read(alloc: Global, version: Version, reader: &mut Reader<'a>) -> Result<Self, Refusal>
        ensures { Takes (λ x. x) (from (version_number version)) reader.old result reader.new };

    // Writes the entry.
    fn write(&self, alloc: Global, out: &mut Vec<u8>) -> Result<(), AllocError>
        ensures { Writes (text self.now) out.old.items result out.new.items };
}

impl<'a> Entry<'a> for ModuleHandle {
    ghost from = { λ version. module_handle_from };

    ghost text = { module_handle_text };

    fn read(_alloc: Global, _version: Version, reader: &mut Reader<'a>) -> Result<Self, Refusal> {
        reader.module_handle()
    }

    fn write(&self, _alloc: Global, out: &mut Vec<u8>) -> Result<(), AllocError> {
        write_module_handle(*self, out)
    }
}

impl<'a> Entry<'a> for StructHandle {
    ghost from = { λ version. struct_handle_from };

    ghost text = { struct_handle_text };

    fn read(_alloc: Global, _version: Version, reader: &mut Reader<'a>) -> Result<Self, Refusal> {
        reader.struct_handle()
    }

    fn write(&self, _alloc: Global, out: &mut Vec<u8>) -> Result<(), AllocError> {
        write_struct_handle(*self, out)
    }
}

impl<'a> Entry<'a> for FunctionHandle {
    ghost from = { λ version. function_handle_from };

    ghost text = { function_handle_text };

    fn read(_alloc: Global, _version: Version, reader: &mut Reader<'a>) -> Result<Self, Refusal> {
        reader.function_handle()
    }

    fn write(&self, _alloc: Global, out: &mut Vec<u8>) -> Result<(), AllocError> {
        write_function_handle(*self, out)
    }
}

impl<'a> Entry<'a> for Constant<'a> {
    ghost from = { constant_from };

    ghost text = { constant_text };

    fn read(_alloc: Global, version: Version, reader: &mut Reader<'a>) -> Result<Self, Refusal> {
        reader.constant(version)
    }

    fn write(&self, _alloc: Global, out: &mut Vec<u8>) -> Result<(), AllocError> {
        write_constant(self.token(), self.bytes(), out)
    }
}

impl<'a> Entry<'a> for u128 {
    ghost from = { λ version. address_from };

    ghost text = { address_text };

    fn read(_alloc: Global, _version: Version, reader: &mut Reader<'a>) -> Result<Self, Refusal> {
        reader.address()
    }

    fn write(&self, _alloc: Global, out: &mut Vec<u8>) -> Result<(), AllocError> {
        write_address(*self, out)
    }
}

impl<'a> Entry<'a> for FieldHandle {
    ghost from = { λ version. field_handle_from };

    ghost text = { field_handle_text };

    fn read(_alloc: Global, _version: Version, reader: &mut Reader<'a>) -> Result<Self, Refusal> {
        reader.field_handle()
    }

    fn write(&self, _alloc: Global, out: &mut Vec<u8>) -> Result<(), AllocError> {
        write_field_handle(*self, out)
    }
}
