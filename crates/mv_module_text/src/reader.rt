// Reading entries from the front of bytes.

ghost use Rattle.std.specs.Prelude.{◌≡◌, ◌<◌, ◌^◌, ◌≤◌, IfOk, IsTrue, ◌↔◌, [], ℕ, List, None, option_and_then};
ghost use Rattle.mv_move_types.specs.declared.token.Width.TheVariants.{U16, U32, U64, U128};
ghost use Rattle.mv_move_types.specs.Tokens.{width_bits};
ghost use Rattle.mv_move_types.specs.Versions.{version_number};
ghost use Rattle.mv_uleb.specs.Parsing.{number_from};
ghost use Rattle.mv_module_text.specs.Parsing.{Read, index_from, byte_from, mark_from, bytes_from, number_of_from, counted_from, kind_of};
ghost use Rattle.mv_module_text.specs.Parsing.{value_type_by, value_type_from, token_from, module_handle_from, struct_handle_from};
ghost use Rattle.mv_module_text.specs.Parsing.{function_handle_from, signature_from, constant_from, identifier_from, address_from, field_from};
ghost use Rattle.mv_module_text.specs.Parsing.{field_handle_from, visibility_from, entry_from, form_of, bare_of, instruction_by, instruction_from};
ghost use Rattle.mv_module_text.specs.Reads.{Reads, ReadsAs, Marks, Collects};

use crate::{Constant, codes};
use byteorder::{BigEndian, ByteOrder, LittleEndian};
use mv_move_types::limits::{MOST_FIELDS, MOST_NAME_BYTES, MOST_TYPES};
use mv_move_types::{
    Address, Field, FieldHandle, FunctionHandle, Instruction, LeafKind, ModuleHandle, Refusal,
    StructHandle, Token, ValueType, Version, Visibility, Width,
};
use std::alloc::Global;
use std::marker::Model;

// Bytes that are no entry are refused when a module is read, which is the second phase.
const MALFORMED: Refusal = Refusal::Phase(2);

// The greatest index, and the greatest count of what has no limit of its own.
const MOST_INDEX: u64 = 65535;

// The bits of all four abilities.
const ALL_ABILITIES: u64 = 15;

/// Reads entries from the front of bytes. What it stands for is the bytes that are left.
#[derive(Drop)]
pub struct Reader<'a> {
    rest: &'a [u8],
}

impl<'a> Model for Reader<'a> {
    ghost use Rattle.std.specs.Prelude.{ℕ, List};

    ghost Value = { List ℕ };

    ghost view = { λ r. r.rest.now };
}

impl<'a> Reader<'a> {
    /// A reader of these bytes.
    pub fn new(bytes: &'a [u8]) -> Self
        ensures { result ≡ bytes.now }
    {
        Reader { rest: bytes }
    }

    /// Another reader of the bytes that are left.
    #[inline]
    pub fn copied(&self) -> Reader<'a>
        ensures { result ≡ self.now }
    {
        Reader { rest: self.rest }
    }

    /// Whether no bytes are left.
    pub fn is_empty(&self) -> bool
        ensures { IsTrue result ↔ (self.now ≡ []) }
    {
        self.rest.is_empty()
    }

    /// Reads a ULEB128 number that is at most `max`.
    ///
    /// # Errors
    /// [`Refusal::Phase`] with 2 if no such number is at the front; the other functions here refuse in the same way. Then
    /// nothing is known of what is left.
    #[inline(always)]
    pub fn number(&mut self, max: u64) -> Result<u64, Refusal>
        ensures reads { Reads (number_from max) self.old result self.new }
        ensures small { IfOk result (λ v. v ≤ max) }
    {
        match mv_uleb::read(self.rest, max) {
            Ok((number, used)) => {
                self.rest = &self.rest[used..];
                Ok(number)
            }
            Err(_) => Err(MALFORMED),
        }
    }

    /// Reads an index or a count, which is at most 65,535.
    #[inline(always)]
    pub fn index(&mut self) -> Result<u16, Refusal>
        ensures { Reads index_from self.old result self.new }
    {
        // Most indices are below 128, and then they are their one byte.
        if let Some((first, rest)) = self.rest.split_first() {
            if *first < 128 {
                self.rest = rest;
                return Ok(u16::from(*first));
            }
        }
        let number = self.number(MOST_INDEX)?;
        Ok(number as u16)
    }

    /// Reads one byte.
    #[inline(always)]
    pub fn byte(&mut self) -> Result<u8, Refusal>
        ensures { Reads byte_from self.old result self.new }
    {
        let Some((first, rest)) = self.rest.split_first() else {
            return Err(MALFORMED);
        };
        self.rest = rest;
        Ok(*first)
    }

    /// Reads one byte, which has to be `b`.
    pub fn mark(&mut self, b: u8) -> Result<(), Refusal>
        ensures { Marks (mark_from b) self.old result self.new }
    {
        let Some((first, rest)) = self.rest.split_first() else {
            return Err(MALFORMED);
        };
        if *first != b {
            return Err(MALFORMED);
        }
        self.rest = rest;
        Ok(())
    }

    // Reads the number of type parameters, which has to be none.
    fn no_type_parameters(&mut self) -> Result<(), Refusal>
        ensures { Marks (mark_from 0) self.old result self.new }
    {
        self.mark(0)
    }

    /// Reads `n` bytes.
    pub fn bytes(&mut self, n: usize) -> Result<&'a [u8], Refusal>
        ensures { ReadsAs (λ s. s.now) (bytes_from n) self.old result self.new }
    {
        if n > self.rest.len() {
            return Err(MALFORMED);
        }
        let (front, rest) = self.rest.split_at(n);
        self.rest = rest;
        Ok(front)
    }

    /// The kind of leaf with this token, if the version has it.
    pub fn leaf(version: Version, code: u8) -> Option<LeafKind>
        ensures { result ≡ kind_of (version_number version) code }
    {
        match code {
            0x01 => Some(LeafKind::Boolean),
            0x02 => Some(LeafKind::Number(Width::U8)),
            0x03 => Some(LeafKind::Number(Width::U64)),
            0x04 => Some(LeafKind::Number(Width::U128)),
            0x05 => Some(LeafKind::Address),
            0x0C => Some(LeafKind::Signer),
            0x0D if version == Version::Six => Some(LeafKind::Number(Width::U16)),
            0x0E if version == Version::Six => Some(LeafKind::Number(Width::U32)),
            _ => None,
        }
    }

    // Reads what stands after the token of a type that is no reference.
    fn value_type_by(&mut self, version: Version, code: u8) -> Result<ValueType, Refusal>
        ensures { Reads (value_type_by (version_number version) code) self.old result self.new }
    {
        if code == 0x08 {
            return Ok(ValueType::OfStruct(self.index()?));
        }
        match Self::leaf(version, code) {
            Some(kind) => Ok(ValueType::OfLeaf(kind)),
            None => Err(MALFORMED),
        }
    }

    // Reads a type that is no reference.
    fn value_type(&mut self, version: Version) -> Result<ValueType, Refusal>
        ensures { Reads (value_type_from (version_number version)) self.old result self.new }
    {
        let code = self.byte()?;
        self.value_type_by(version, code)
    }

    /// Reads a type, as the version has it.
    pub fn token(&mut self, version: Version) -> Result<Token, Refusal>
        ensures { Reads (token_from (version_number version)) self.old result self.new }
    {
        match self.byte()? {
            0x06 => Ok(Token::Reference(self.value_type(version)?)),
            0x07 => Ok(Token::MutableReference(self.value_type(version)?)),
            code => Ok(Token::Plain(self.value_type_by(version, code)?)),
        }
    }

    /// Reads a module handle: its address and its name.
    pub fn module_handle(&mut self) -> Result<ModuleHandle, Refusal>
        ensures { Reads module_handle_from self.old result self.new }
    {
        let address = self.index()?;
        let name = self.index()?;
        Ok(ModuleHandle { address, name })
    }

    /// Reads a struct handle: its module, its name, its abilities, and the byte of no type parameters.
    pub fn struct_handle(&mut self) -> Result<StructHandle, Refusal>
        ensures { Reads struct_handle_from self.old result self.new }
    {
        let module = self.index()?;
        let name = self.index()?;
        let bits = self.number(ALL_ABILITIES)?;
        self.no_type_parameters()?;
        Ok(StructHandle {
            module,
            name,
            abilities: super::abilities::of_bits(bits),
        })
    }

    /// Reads a function handle: its module, its name, its signatures, and the byte of no type parameters.
    pub fn function_handle(&mut self) -> Result<FunctionHandle, Refusal>
        ensures { Reads function_handle_from self.old result self.new }
    {
        let module = self.index()?;
        let name = self.index()?;
        let parameters = self.index()?;
        let results = self.index()?;
        self.no_type_parameters()?;
        Ok(FunctionHandle {
            module,
            name,
            parameters,
            results,
        })
    }

    /// Reads an identifier of at most 128 bytes, after their number.
    pub fn identifier(&mut self) -> Result<&'a [u8], Refusal>
        ensures { ReadsAs (λ s. s.now) identifier_from self.old result self.new }
    {
        let count = self.number(MOST_NAME_BYTES)?;
        let name = self.bytes(count as usize)?;
        if super::identifiers::is_identifier(name) {
            Ok(name)
        } else {
            Err(MALFORMED)
        }
    }

    /// Reads an address: the number that its 16 bytes are, big-endian.
    pub fn address(&mut self) -> Result<Address, Refusal>
        ensures { Reads address_from self.old result self.new }
    {
        let bytes = self.bytes(16)?;
        Ok(BigEndian::read_u128(bytes))
    }

    /// Reads a field: its name and its type.
    pub fn field(&mut self, version: Version) -> Result<Field, Refusal>
        ensures { Reads (field_from (version_number version)) self.old result self.new }
    {
        let name = self.index()?;
        let token = self.token(version)?;
        Ok(Field { name, token })
    }

    /// Reads a function's visibility.
    pub fn visibility(&mut self) -> Result<Visibility, Refusal>
        ensures { Reads visibility_from self.old result self.new }
    {
        match self.byte()? {
            0 => Ok(Visibility::Private),
            1 => Ok(Visibility::Public),
            _ => Err(MALFORMED),
        }
    }

    /// Reads a function's flags: whether it is an entry function.
    pub fn flags(&mut self) -> Result<bool, Refusal>
        ensures { Reads entry_from self.old result self.new }
    {
        match self.byte()? {
            0 => Ok(false),
            4 => Ok(true),
            _ => Err(MALFORMED),
        }
    }

    /// Reads a constant: its type, and its bytes after their number.
    pub fn constant(&mut self, version: Version) -> Result<Constant<'a>, Refusal>
        ensures { Reads (constant_from (version_number version)) self.old result self.new }
    {
        let token = self.token(version)?;
        let count = self.index()?;
        let bytes = self.bytes(usize::from(count))?;
        Ok(Constant::new(token, bytes))
    }

    /// Reads a field handle: its struct definition and its position there.
    pub fn field_handle(&mut self) -> Result<FieldHandle, Refusal>
        ensures { Reads field_handle_from self.old result self.new }
    {
        let definition = self.index()?;
        let position = self.index()?;
        Ok(FieldHandle {
            definition,
            position,
        })
    }

    // Reads a little-endian number of 16 bits.
    fn u16(&mut self) -> Result<u16, Refusal>
        ensures { Reads (number_of_from U16) self.old result self.new }
    {
        let bytes = self.bytes(2)?;
        Ok(LittleEndian::read_u16(bytes))
    }

    // Reads a little-endian number of 32 bits.
    fn u32(&mut self) -> Result<u32, Refusal>
        ensures { Reads (number_of_from U32) self.old result self.new }
    {
        let bytes = self.bytes(4)?;
        Ok(LittleEndian::read_u32(bytes))
    }

    // Reads a little-endian number of 64 bits.
    fn u64(&mut self) -> Result<u64, Refusal>
        ensures { Reads (number_of_from U64) self.old result self.new }
    {
        let bytes = self.bytes(8)?;
        Ok(LittleEndian::read_u64(bytes))
    }

    // Reads a little-endian number of 128 bits.
    fn u128(&mut self) -> Result<u128, Refusal>
        ensures { Reads (number_of_from U128) self.old result self.new }
    {
        let bytes = self.bytes(16)?;
        Ok(LittleEndian::read_u128(bytes))
    }

    /// Reads a little-endian number of a width.
    pub fn number_of(&mut self, width: Width) -> Result<u128, Refusal>
        ensures reads { Reads (number_of_from width) self.old result self.new }
        ensures small { IfOk result (λ n. n < 2 ^ width_bits width) }
    {
        match width {
            Width::U8 => Ok(u128::from(self.byte()?)),
            Width::U16 => Ok(u128::from(self.u16()?)),
            Width::U32 => Ok(u128::from(self.u32()?)),
            Width::U64 => Ok(u128::from(self.u64()?)),
            Width::U128 => self.u128(),
        }
    }

    /// Reads an instruction, as the version has it: its opcode and its immediate.
    #[inline(always)]
    pub fn instruction(&mut self, version: Version) -> Result<Instruction, Refusal>
        ensures { Reads (instruction_from (version_number version)) self.old result self.new }
    {
        let code = self.byte()?;
        match codes::bare(version, code) {
            Some(instruction) => Ok(instruction),
            None => self.holding(version, code),
        }
    }

    // Reads an instruction that holds an index or a number, after its opcode.
    #[inline(always)]
    fn holding(&mut self, version: Version, code: u8) -> Result<Instruction, Refusal>
        requires { option_and_then bare_of (form_of (version_number version) code) ≡ None }
        ensures { Reads (instruction_by (version_number version) code) self.old result self.new }
    {
        match code {
            0x06 => Ok(Instruction::LdU64(self.u64()?)),
            0x31 => Ok(Instruction::LdU8(self.byte()?)),
            0x32 => Ok(Instruction::LdU128(self.u128()?)),
            0x48 | 0x49 if version != Version::Six => Err(MALFORMED),
            0x48 => Ok(Instruction::LdU16(self.u16()?)),
            0x49 => Ok(Instruction::LdU32(self.u32()?)),
            _ => {
                let index = self.index()?;
                match codes::indexed(code, index) {
                    Some(instruction) => Ok(instruction),
                    None => Err(MALFORMED),
                }
            }
        }
    }

    /// Reads a signature: its types, of which there are at most 64.
    ///
    /// # Errors
    /// [`Refusal::Phase`] with 2 if no signature is at the front; [`Refusal::Memory`] if an allocation failed, and then
    /// the reader is as before.
    pub fn signature(&mut self, alloc: Global, version: Version) -> Result<Vec<Token>, Refusal>
        ensures { Collects (signature_from (version_number version)) self.old result self.new }
    {
        self.collect(alloc, version, MOST_TYPES)
    }

    /// Reads the fields of a struct, of which there are at most 32, after their number.
    ///
    /// # Errors
    /// As [`Reader::signature`].
    pub fn fields(&mut self, alloc: Global, version: Version) -> Result<Vec<Field>, Refusal>
        ensures { Collects (counted_from 32 (field_from (version_number version))) self.old result self.new }
    {
        self.collect(alloc, version, MOST_FIELDS)
    }

    /// Reads indices after their number, which is at most 65,535.
    ///
    /// # Errors
    /// As [`Reader::signature`].
    pub fn indices(&mut self, alloc: Global) -> Result<Vec<u16>, Refusal>
        ensures { Collects (counted_from 65535 index_from) self.old result self.new }
    {
        // All versions have the same indices.
        self.collect(alloc, Version::Five, MOST_INDEX)
    }

    // Reads entries after their number, which is at most `most`.
    fn collect<T: Entry>(
        &mut self,
        alloc: Global,
        version: Version,
        most: u64,
    ) -> Result<Vec<T>, Refusal>
        ensures { Collects (counted_from most (T.from (version_number version))) self.old result self.new }
    {
        let mut ahead = Reader { rest: self.rest };
        let count = ahead.number(most)?;
        let mut entries = Vec::with_capacity(alloc, count as usize)?;
        'entries: for _ in 0..count {
            let entry = T::read(&mut ahead, version)?;
            entries.push(entry).map_err(|_| Refusal::Memory)?;
        }
        self.rest = ahead.rest;
        Ok(entries)
    }
}

// An entry of a list.
trait Entry: Copy {
    // the one at the front of bytes, as a version has it
    ghost from: { ℕ → List ℕ → Read Self };

    // Reads one.
    fn read(reader: &mut Reader, version: Version) -> Result<Self, Refusal>
        ensures { Reads (from (version_number version)) reader.old result reader.new };
}

impl Entry for Token {
    ghost from = { token_from };

    #[inline(always)]
    fn read(reader: &mut Reader, version: Version) -> Result<Self, Refusal> {
        reader.token(version)
    }
}

impl Entry for Field {
    ghost from = { field_from };

    #[inline(always)]
    fn read(reader: &mut Reader, version: Version) -> Result<Self, Refusal> {
        reader.field(version)
    }
}

impl Entry for u16 {
    ghost from = { λ _. index_from };

    #[inline(always)]
    fn read(reader: &mut Reader, _: Version) -> Result<Self, Refusal> {
        reader.index()
    }
}
