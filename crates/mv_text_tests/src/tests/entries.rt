// The entries of modules, read and written.

use mv_module_text::*;
use mv_move_types::{
    Abilities, Field, FieldHandle, FunctionHandle, Instruction, LeafKind, ModuleHandle, Refusal,
    StructHandle, Token, ValueType, Version, Visibility, Width,
};
use std::alloc::{AllocError, Global};
use std::test::Fail;

const NUMBER: Token = Token::Plain(ValueType::OfLeaf(LeafKind::Number(Width::U64)));

const SIGNER: Token = Token::Plain(ValueType::OfLeaf(LeafKind::Signer));

const FIELD: Field = Field {
    name: 128,
    token: NUMBER,
};

// Whether a reader reads these types next.
fn is_signature(alloc: Global, reader: &mut Reader<'_>, wanted: &[Token]) -> Result<bool, Refusal> {
    Ok(reader.signature(alloc, Version::Five)?.as_slice() == wanted)
}

// Whether a reader reads these fields next.
fn are_fields(alloc: Global, reader: &mut Reader<'_>, wanted: &[Field]) -> Result<bool, Refusal> {
    Ok(reader.fields(alloc, Version::Five)?.as_slice() == wanted)
}

// Whether a reader reads these indices next.
fn are_indices(alloc: Global, reader: &mut Reader<'_>, wanted: &[u16]) -> Result<bool, Refusal> {
    Ok(reader.indices(alloc)?.as_slice() == wanted)
}

#[test]
fn lists_are_read(rt: HostRuntime) -> Result<(), Fail> {
    let alloc = rt.alloc();
    let mut reader = Reader::new(&[2, 0x03, 0x0C, 1, 0x80, 0x01, 0x03, 2, 5, 6]);
    assert!(rt; is_signature(alloc, &mut reader, &[NUMBER, SIGNER])?);
    assert!(rt; are_fields(alloc, &mut reader, &[FIELD])?);
    assert!(rt; are_indices(alloc, &mut reader, &[5, 6])? && reader.is_empty());
    Ok(())
}

// Whether a reader reads this instruction next.
fn is_next(
    reader: &mut Reader<'_>,
    version: Version,
    wanted: Result<Instruction, Refusal>,
) -> bool {
    reader.instruction(version) == wanted
}

#[test]
fn code_is_read_in_its_version(rt: HostRuntime) {
    let mut six = Reader::new(&[0x48, 2, 1, 0x02, 0x07]);
    let mut five = six.copied();
    assert!(rt; is_next(&mut six, Version::Six, Ok(Instruction::LdU16(0x0102))));
    assert!(rt; is_next(&mut six, Version::Six, Ok(Instruction::Ret)));
    assert!(rt; six.byte() == Ok(0x07));
    assert!(rt; is_next(&mut five, Version::Five, Err(Refusal::Phase(2))));
}

// An index, and handles of each kind.
fn write_handles(out: &mut Vec<u8>) -> Result<(), AllocError> {
    write_index(128, out)?;
    let handle = ModuleHandle {
        address: 1,
        name: 2,
    };
    write_module_handle(handle, out)?;
    let abilities = Abilities {
        copy: false,
        drop: false,
        store: true,
        key: true,
    };
    let handle = StructHandle {
        module: 3,
        name: 4,
        abilities,
    };
    write_struct_handle(handle, out)?;
    let handle = FunctionHandle {
        module: 5,
        name: 6,
        parameters: 7,
        results: 8,
    };
    write_function_handle(handle, out)?;
    let handle = FieldHandle {
        definition: 9,
        position: 10,
    };
    write_field_handle(handle, out)
}

// A name, types, a field and an address.
fn write_names_and_types(out: &mut Vec<u8>) -> Result<(), AllocError> {
    write_identifier(b"Coin", out)?;
    write_token(SIGNER, out)?;
    write_signature(&[NUMBER, SIGNER], out)?;
    write_field(FIELD, out)?;
    write_address(0xA550C18, out)
}

// A struct, an instruction and a function.
fn write_definitions(out: &mut Vec<u8>) -> Result<(), AllocError> {
    write_struct_definition(0, &[FIELD], out)?;
    write_instruction(Instruction::Pack(0), out)?;
    let parts = FunctionParts {
        handle: 0,
        visibility: Visibility::Public,
        is_entry: true,
        acquires: &[0],
        locals: 2,
        code: &[Instruction::MoveLoc(0), Instruction::Ret],
    };
    write_function_definition(parts, out)
}

// What is written of each entry, in turn.
static ENTRIES: [u8; 61] = [
    // An index, and handles of a module, a struct, a function and a field.
    0x80, 0x01, 1, 2, 3, 4, 12, 0, 5, 6, 7, 8, 0, 9, 10,
    // A name, a token, a signature, a field and an address.
    4, b'C', b'o', b'i', b'n', 0x0C, 2, 0x03, 0x0C, 0x80, 0x01, 0x03, 0, 0, 0, 0, 0, 0, 0, 0, 0, 0,
    0, 0, 0x0A, 0x55, 0x0C, 0x18,
    // A struct, an instruction and a function.
    0, 2, 1, 0x80, 0x01, 0x03, 0x12, 0, 0, 1, 4, 1, 0, 2, 2, 0x0B, 0, 0x02,
];

// Each entry, written.
fn written(alloc: Global) -> Result<Vec<u8>, AllocError> {
    let mut out = Vec::new(alloc);
    write_handles(&mut out)?;
    write_names_and_types(&mut out)?;
    write_definitions(&mut out)?;
    Ok(out)
}

#[test]
fn entries_are_written(rt: HostRuntime) -> Result<(), Fail> {
    let out = written(rt.alloc())?;
    assert!(rt; out.as_slice() == ENTRIES.as_slice(), "{out:?}");
    Ok(())
}

// Whether a constant of a type is written as these bytes, whose first two are the type and the length, and read back.
fn is_constant(alloc: Global, token: Token, bytes: &[u8], text: &[u8]) -> Result<bool, Refusal> {
    let mut out = Vec::new(alloc);
    write_constant(token, bytes, &mut out)?;
    let mut reader = Reader::new(out.as_slice());
    let constant = reader.constant(Version::Five)?;
    let is_right = constant.token() == token && constant.bytes() == bytes;
    Ok(is_right && reader.is_empty() && out.as_slice() == text)
}

#[test]
fn constants_are_read_as_they_are_written(rt: HostRuntime) -> Result<(), Fail> {
    let bytes = [7, 0, 0, 0, 0, 0, 0, 0];
    let text = [0x03, 8, 7, 0, 0, 0, 0, 0, 0, 0];
    assert!(rt; is_constant(rt.alloc(), NUMBER, &bytes, &text)?);
    Ok(())
}
