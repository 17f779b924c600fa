// Writing entries after bytes.

ghost use Rattle.std.specs.Prelude.{◌≡◌, ◌<◌, ◌^◌, ◌∷◌, [], take, OnOk, OnErr, IsTrue, ℕ, List};
ghost use Rattle.mv_uleb.specs.Uleb.{uleb};
ghost use Rattle.mv_move_types.specs.Tokens.{width_bits};
ghost use Rattle.mv_move_types.specs.declared.token.Width.TheVariants.{U16, U32, U64, U128};
ghost use Rattle.mv_module_text.specs.Fits.{immediate_fits};
ghost use Rattle.mv_module_text.specs.Writes.{Writes};
ghost use Rattle.mv_module_text.specs.Written.{definition};
ghost use Rattle.mv_module_text.specs.Entries.{counted, leaf_token, value_type_text, token_text, module_handle_text, struct_handle_text};
ghost use Rattle.mv_module_text.specs.Entries.{function_handle_text, signature_text, constant_text, identifier_text, address_text, field_text};
ghost use Rattle.mv_module_text.specs.Entries.{struct_definition_text, number_text, immediate_text, instruction_text, function_definition_text};
ghost use Rattle.mv_module_text.specs.Entries.{field_handle_text};

use byteorder::{ByteOrder, LittleEndian};
use mv_move_types::{
    Address, Field, FieldHandle, FunctionHandle, Immediate, Instruction, LeafKind, ModuleHandle,
    StructHandle, Token, ValueType, Visibility, Width,
};
use std::alloc::AllocError;

// The outcome of a write. Where an allocation failed, `out` is cut back to its first `count` bytes.
fn or_undo(
    written: Result<(), AllocError>,
    count: usize,
    out: &mut Vec<u8>,
) -> Result<(), AllocError>
    ensures same { result ≡ written }
    ensures whole { OnOk written (out.new.items ≡ out.old.items) }
    ensures undone { OnErr written (out.new.items ≡ take count out.old.items) }
{
    if written.is_err() {
        out.truncate(count);
    }
    written
}

/// Appends an index or a count to `out`.
///
/// # Errors
/// If an allocation failed. Then `out` is as before, here and in each function below.
pub fn write_index(index: u16, out: &mut Vec<u8>) -> Result<(), AllocError>
    ensures { Writes (uleb index) out.old.items result out.new.items }
{
    mv_uleb::write(u64::from(index), out)
}

// Writes a byte.
fn write_byte(byte: u8, out: &mut Vec<u8>) -> Result<(), AllocError>
    ensures { Writes (byte ∷ []) out.old.items result out.new.items }
{
    out.push(byte)?;
    Ok(())
}

// Writes a byte, and an index after it.
fn write_coded(code: u8, index: u16, out: &mut Vec<u8>) -> Result<(), AllocError>
    ensures { Writes (code ∷ uleb index) out.old.items result out.new.items }
{
    let count = out.len();
    write_byte(code, out)?;
    or_undo(write_index(index, out), count, out)
}

// The token of a leaf type.
fn leaf_code(kind: LeafKind) -> u8
    ensures { result ≡ leaf_token kind }
{
    match kind {
        LeafKind::Boolean => 0x01,
        LeafKind::Number(Width::U8) => 0x02,
        LeafKind::Number(Width::U16) => 0x0D,
        LeafKind::Number(Width::U32) => 0x0E,
        LeafKind::Number(Width::U64) => 0x03,
        LeafKind::Number(Width::U128) => 0x04,
        LeafKind::Address => 0x05,
        LeafKind::Signer => 0x0C,
    }
}

// Writes a type that is no reference.
fn write_value_type(t: ValueType, out: &mut Vec<u8>) -> Result<(), AllocError>
    ensures { Writes (value_type_text t) out.old.items result out.new.items }
{
    match t {
        ValueType::OfLeaf(kind) => write_byte(leaf_code(kind), out),
        ValueType::OfStruct(handle) => write_coded(0x08, handle, out),
    }
}

// Writes a byte, and a type that is no reference after it.
fn write_reference(code: u8, t: ValueType, out: &mut Vec<u8>) -> Result<(), AllocError>
    ensures { Writes (code ∷ value_type_text t) out.old.items result out.new.items }
{
    let count = out.len();
    write_byte(code, out)?;
    or_undo(write_value_type(t, out), count, out)
}

/// Writes a type.
pub fn write_token(token: Token, out: &mut Vec<u8>) -> Result<(), AllocError>
    ensures { Writes (token_text token) out.old.items result out.new.items }
{
    match token {
        Token::Plain(t) => write_value_type(t, out),
        Token::Reference(t) => write_reference(0x06, t, out),
        Token::MutableReference(t) => write_reference(0x07, t, out),
    }
}

/// Writes a module handle.
pub fn write_module_handle(handle: ModuleHandle, out: &mut Vec<u8>) -> Result<(), AllocError>
    ensures { Writes (module_handle_text handle) out.old.items result out.new.items }
{
    let count = out.len();
    write_index(handle.address, out)?;
    or_undo(write_index(handle.name, out), count, out)
}

/// Writes a struct handle.
pub fn write_struct_handle(handle: StructHandle, out: &mut Vec<u8>) -> Result<(), AllocError>
    ensures { Writes (struct_handle_text handle) out.old.items result out.new.items }
{
    let count = out.len();
    let bits = super::abilities::bits(handle.abilities);
    write_index(handle.module, out)?;
    or_undo(write_index(handle.name, out), count, out)?;
    or_undo(mv_uleb::write(bits, out), count, out)?;
    or_undo(write_byte(0, out), count, out)
}

/// Writes a function handle.
pub fn write_function_handle(handle: FunctionHandle, out: &mut Vec<u8>) -> Result<(), AllocError>
    ensures { Writes (function_handle_text handle) out.old.items result out.new.items }
{
    let count = out.len();
    write_index(handle.module, out)?;
    or_undo(write_index(handle.name, out), count, out)?;
    or_undo(write_index(handle.parameters, out), count, out)?;
    or_undo(write_index(handle.results, out), count, out)?;
    or_undo(write_byte(0, out), count, out)
}

/// Writes a signature.
pub fn write_signature(tokens: &[Token], out: &mut Vec<u8>) -> Result<(), AllocError>
    ensures { Writes (signature_text tokens.now) out.old.items result out.new.items }
{
    write_list(tokens, out)
}

// Writes the number of bytes, and the bytes after it.
fn write_bytes(bytes: &[u8], out: &mut Vec<u8>) -> Result<(), AllocError>
    ensures { Writes (identifier_text bytes.now) out.old.items result out.new.items }
{
    let count = out.len();
    mv_uleb::write(bytes.len() as u64, out)?;
    or_undo(out.extend_from_slice(bytes), count, out)
}

/// Writes a constant: its type, and its bytes after their number.
pub fn write_constant(token: Token, bytes: &[u8], out: &mut Vec<u8>) -> Result<(), AllocError>
    ensures { Writes (constant_text (record { token = token; bytes = bytes.now })) out.old.items result out.new.items }
{
    let count = out.len();
    write_token(token, out)?;
    or_undo(write_bytes(bytes, out), count, out)
}

/// Writes an identifier, after the number of its bytes.
pub fn write_identifier(name: &[u8], out: &mut Vec<u8>) -> Result<(), AllocError>
    ensures { Writes (identifier_text name.now) out.old.items result out.new.items }
{
    write_bytes(name, out)
}

/// Writes an address, big-endian.
pub fn write_address(address: Address, out: &mut Vec<u8>) -> Result<(), AllocError>
    ensures { Writes (address_text address) out.old.items result out.new.items }
{
    out.extend_from_slice(&address.to_be_bytes())
}

/// Writes a field.
pub fn write_field(field: Field, out: &mut Vec<u8>) -> Result<(), AllocError>
    ensures { Writes (field_text field) out.old.items result out.new.items }
{
    let count = out.len();
    write_index(field.name, out)?;
    or_undo(write_token(field.token, out), count, out)
}

/// Writes a struct definition: its handle and its fields.
pub fn write_struct_definition(
    handle: u16,
    fields: &[Field],
    out: &mut Vec<u8>,
) -> Result<(), AllocError>
    ensures { Writes (struct_definition_text (record { handle = handle; fields = fields.now })) out.old.items result out.new.items }
{
    let count = out.len();
    write_index(handle, out)?;
    or_undo(write_byte(2, out), count, out)?;
    or_undo(write_list(fields, out), count, out)
}

// Writes a number of 16 bits, little-endian.
fn write_u16(number: u16, out: &mut Vec<u8>) -> Result<(), AllocError>
    ensures { Writes (number_text U16 number) out.old.items result out.new.items }
{
    let mut bytes = [0; 2];
    LittleEndian::write_u16(&mut bytes, number);
    out.extend_from_slice(&bytes)
}

/// Writes a number of 32 bits, little-endian.
pub fn write_u32(number: u32, out: &mut Vec<u8>) -> Result<(), AllocError>
    ensures { Writes (number_text U32 number) out.old.items result out.new.items }
{
    let mut bytes = [0; 4];
    LittleEndian::write_u32(&mut bytes, number);
    out.extend_from_slice(&bytes)
}

// Writes a number of 64 bits, little-endian.
fn write_u64(number: u64, out: &mut Vec<u8>) -> Result<(), AllocError>
    ensures { Writes (number_text U64 number) out.old.items result out.new.items }
{
    let mut bytes = [0; 8];
    LittleEndian::write_u64(&mut bytes, number);
    out.extend_from_slice(&bytes)
}

// Writes a number of 128 bits, little-endian.
fn write_u128(number: u128, out: &mut Vec<u8>) -> Result<(), AllocError>
    ensures { Writes (number_text U128 number) out.old.items result out.new.items }
{
    let mut bytes = [0; 16];
    LittleEndian::write_u128(&mut bytes, number);
    out.extend_from_slice(&bytes)
}

// Writes a number in as many bytes as its width has, little-endian.
fn write_number(width: Width, number: u128, out: &mut Vec<u8>) -> Result<(), AllocError>
    requires { number < 2 ^ width_bits width }
    ensures { Writes (number_text width number) out.old.items result out.new.items }
{
    match width {
        Width::U8 => write_byte(number as u8, out),
        Width::U16 => write_u16(number as u16, out),
        Width::U32 => write_u32(number as u32, out),
        Width::U64 => write_u64(number as u64, out),
        Width::U128 => write_u128(number, out),
    }
}

// Writes what an instruction names or holds.
fn write_immediate(immediate: Immediate, out: &mut Vec<u8>) -> Result<(), AllocError>
    requires { IsTrue (immediate_fits immediate) }
    ensures { Writes (immediate_text immediate) out.old.items result out.new.items }
{
    match immediate {
        Immediate::Nothing => Ok(()),
        Immediate::Local(index)
        | Immediate::Struct(index)
        | Immediate::Field(index)
        | Immediate::Function(index)
        | Immediate::Constant(index)
        | Immediate::Target(index) => write_index(index, out),
        Immediate::Literal(width, number) => write_number(width, number, out),
    }
}

/// Writes an instruction: its opcode and its immediate.
pub fn write_instruction(instruction: Instruction, out: &mut Vec<u8>) -> Result<(), AllocError>
    ensures { Writes (instruction_text instruction) out.old.items result out.new.items }
{
    let count = out.len();
    write_byte(instruction.opcode(), out)?;
    or_undo(write_immediate(instruction.immediate(), out), count, out)
}

/// A function definition to write.
#[derive(Clone, Copy)]
pub struct FunctionParts<'a> {
    /// The index of the function's handle.
    pub handle: u16,
    /// Who may call it.
    pub visibility: Visibility,
    /// Whether a run record may name it.
    pub is_entry: bool,
    /// The struct definitions that it says it reaches in the storage.
    pub acquires: &'a [u16],
    /// The signature of the locals after its parameters.
    pub locals: u16,
    /// Its instructions.
    pub code: &'a [Instruction],
}

/// Writes a function definition.
pub fn write_function_definition(parts: FunctionParts, out: &mut Vec<u8>) -> Result<(), AllocError>
    ensures { Writes (function_definition_text (definition parts.entry)) out.old.items result out.new.items }
{
    let count = out.len();
    let visibility = match parts.visibility {
        Visibility::Private => 0,
        Visibility::Public => 1,
    };
    let flags = if parts.is_entry { 4 } else { 0 };
    write_index(parts.handle, out)?;
    or_undo(write_byte(visibility, out), count, out)?;
    or_undo(write_byte(flags, out), count, out)?;
    or_undo(write_list(parts.acquires, out), count, out)?;
    or_undo(write_index(parts.locals, out), count, out)?;
    or_undo(write_list(parts.code, out), count, out)
}

/// Writes a field handle: its struct definition and its position there.
pub fn write_field_handle(handle: FieldHandle, out: &mut Vec<u8>) -> Result<(), AllocError>
    ensures { Writes (field_handle_text handle) out.old.items result out.new.items }
{
    let count = out.len();
    write_index(handle.definition, out)?;
    or_undo(write_index(handle.position, out), count, out)
}

// An entry of a list.
trait Entry: Copy {
    // its bytes
    ghost text: { Self → List ℕ };

    // Writes it.
    fn write(self, out: &mut Vec<u8>) -> Result<(), AllocError>
        ensures { Writes (text self) out.old.items result out.new.items };
}

impl Entry for Token {
    ghost text = { token_text };

    fn write(self, out: &mut Vec<u8>) -> Result<(), AllocError> {
        write_token(self, out)
    }
}

impl Entry for Field {
    ghost text = { field_text };

    fn write(self, out: &mut Vec<u8>) -> Result<(), AllocError> {
        write_field(self, out)
    }
}

impl Entry for u16 {
    ghost text = { uleb };

    fn write(self, out: &mut Vec<u8>) -> Result<(), AllocError> {
        write_index(self, out)
    }
}

impl Entry for Instruction {
    ghost text = { instruction_text };

    fn write(self, out: &mut Vec<u8>) -> Result<(), AllocError> {
        write_instruction(self, out)
    }
}

// Writes entries after their number.
fn write_list<T: Entry>(entries: &[T], out: &mut Vec<u8>) -> Result<(), AllocError>
    ensures { Writes (counted T.text entries.now) out.old.items result out.new.items }
{
    let count = out.len();
    mv_uleb::write(entries.len() as u64, out)?;
    for entry in entries {
        or_undo(entry.write(out), count, out)?;
    }
    Ok(())
}
