// The front of a module: the magic bytes, its version, and the headers of its tables.

ghost use Rattle.std.specs.Prelude.{◌≡◌, ◌==◌, OnSome, position, option_map};
ghost use Rattle.std.specs.Bool.{then_some};
ghost use Rattle.std.specs.List.{find, list_any};
ghost use Rattle.mv_move_types.specs.Versions.{version_number};
ghost use Rattle.mv_module_text.specs.Parsing.{counted_from};
ghost use Rattle.mv_module_text.specs.Reads.{ReadsAs, Marks};
ghost use Rattle.mv_binary_format.specs.Parsing.{kinds, header_from, without, begins_at, marks_from, magic, version_from};
ghost use Rattle.mv_binary_format.specs.Kinds.{table_code, header_of, headers_of};
ghost use Rattle.mv_binary_format.specs.Outcomes.{Takes};

use mv_module_text::Reader;
use mv_move_types::limits::MOST_CONTENT_BYTES;
use mv_move_types::{Refusal, Version};
use std::alloc::Global;

// At most one table of each kind.
const MOST_TABLES: u64 = 10;

// What a table has entries of.
#[derive(Clone, Copy)]
pub enum TableKind {
    ModuleHandles,
    StructHandles,
    FunctionHandles,
    Signatures,
    Constants,
    Identifiers,
    Addresses,
    Structs,
    Functions,
    FieldHandles,
}

impl TableKind {
    ghost use Rattle.mv_binary_format.specs.Kinds.{table_code};

    // Its byte in a header.
    pub fn code(self) -> u8
        ensures { result ≡ table_code self }
    {
        match self {
            TableKind::ModuleHandles => 0x01,
            TableKind::StructHandles => 0x02,
            TableKind::FunctionHandles => 0x03,
            TableKind::Signatures => 0x05,
            TableKind::Constants => 0x06,
            TableKind::Identifiers => 0x07,
            TableKind::Addresses => 0x08,
            TableKind::Structs => 0x0A,
            TableKind::Functions => 0x0C,
            TableKind::FieldHandles => 0x0D,
        }
    }

    // The kind of this byte.
    fn of(code: u8) -> Option<TableKind>
        ensures { option_map table_code result ≡ then_some (list_any (λ k. k == code) kinds) code }
    {
        match code {
            0x01 => Some(TableKind::ModuleHandles),
            0x02 => Some(TableKind::StructHandles),
            0x03 => Some(TableKind::FunctionHandles),
            0x05 => Some(TableKind::Signatures),
            0x06 => Some(TableKind::Constants),
            0x07 => Some(TableKind::Identifiers),
            0x08 => Some(TableKind::Addresses),
            0x0A => Some(TableKind::Structs),
            0x0C => Some(TableKind::Functions),
            0x0D => Some(TableKind::FieldHandles),
            _ => None,
        }
    }
}

// Where a table's content stands, from the first byte after the last header.
#[derive(Clone, Copy)]
pub struct Header {
    pub kind: TableKind,
    pub offset: u32,
    pub length: u32,
}

// Reads the magic bytes.
pub fn read_magic(reader: &mut Reader<'_>) -> Result<(), Refusal>
    ensures { Marks (marks_from magic) reader.old result reader.new }
{
    reader.mark(0xA1)?;
    reader.mark(0x1C)?;
    reader.mark(0xEB)?;
    reader.mark(0x0B)
}

// Reads the version, a little-endian number of four bytes.
pub fn read_version(reader: &mut Reader<'_>) -> Result<Version, Refusal>
    ensures { ReadsAs version_number version_from reader.old result reader.new }
{
    match reader.bytes(4)? {
        [5, 0, 0, 0] => Ok(Version::Five),
        [6, 0, 0, 0] => Ok(Version::Six),
        _ => Err(Refusal::Phase(2)),
    }
}

// Reads a header.
#[tactic(auto, unfolding(crate::specs::Parsing::header_from))]
fn read_header(reader: &mut Reader<'_>) -> Result<Header, Refusal>
    ensures { ReadsAs header_of header_from reader.old result reader.new }
{
    let code = reader.byte()?;
    let offset = reader.number(MOST_CONTENT_BYTES)?;
    let length = reader.number(MOST_CONTENT_BYTES)?;
    if length == 0 {
        return Err(Refusal::Phase(2));
    }
    let kind = TableKind::of(code).ok_or(Refusal::Phase(2))?;
    Ok(Header {
        kind,
        offset: offset as u32,
        length: length as u32,
    })
}

// Reads the headers, after their number.
pub fn read_headers(alloc: Global, reader: &mut Reader<'_>) -> Result<Vec<Header>, Refusal>
    ensures { Takes (λ v. headers_of v.items) (counted_from 10 header_from) reader.old result reader.new }
{
    let count = reader.number(MOST_TABLES)?;
    let mut headers = Vec::with_capacity(alloc, count as usize)?;
    'reading: for _ in 0..count {
        let header = read_header(reader)?;
        headers.push(header).map_err(|_| Refusal::Memory)?;
    }
    Ok(headers)
}

// The place of the header whose table begins at this offset.
fn place_of(headers: &[Header], offset: u64) -> Option<usize>
    ensures { result ≡ position (λ h. h.offset == offset) headers.now }
{
    headers.iter().position(|h| u64::from(h.offset) == offset)
}

// Takes the header out whose table begins at this offset.
pub fn take_header(headers: &mut Vec<Header>, offset: u64) -> Option<Header>
    ensures first { option_map header_of result ≡ find (begins_at offset) (headers_of headers.old.items) }
    ensures others { OnSome result (headers_of headers.new.items ≡ without (begins_at offset) (headers_of headers.old.items)) }
{
    let i = place_of(headers, offset)?;
    Some(headers.remove(i))
}
