// The contents of a module's tables, as they stand in its bytes.

ghost use Rattle.std.specs.Prelude.{◌≡◌, ◌==◌, position, length};
ghost use Rattle.mv_move_types.specs.Versions.{version_number};
ghost use Rattle.mv_binary_format.specs.Parsing.{contents_from, without, is_of, content_of, entries_of};
ghost use Rattle.mv_binary_format.specs.Kinds.{table_code, headers_of};
ghost use Rattle.mv_binary_format.specs.Tables.{tables_of};
ghost use Rattle.mv_binary_format.specs.Outcomes.{Takes};

use super::entries::Entry;
use super::headers::{Header, TableKind, take_header};
use mv_module_text::Reader;
use mv_move_types::limits::MOST_CONTENT_BYTES;
use mv_move_types::{Refusal, Version};
use std::alloc::Global;

// A table's kind, and the bytes of its entries.
#[derive(Clone, Copy)]
pub struct Table<'a> {
    pub kind: TableKind,
    pub content: &'a [u8],
}

// Reads the contents that the headers tell of: each begins where the one before it ends, the first at 0.
pub fn read_contents<'a>(
    alloc: Global,
    mut headers: Vec<Header>,
    reader: &mut Reader<'a>,
) -> Result<Vec<Table<'a>>, Refusal>
    ensures { Takes (λ v. tables_of v.items) (contents_from (length (headers_of headers.items)) 0 (headers_of headers.items)) reader.old result reader.new }
{
    let mut tables = Vec::with_capacity(alloc, headers.len())?;
    let mut end = 0;
    'reading: while !headers.is_empty() {
        let header = take_header(&mut headers, end).ok_or(Refusal::Phase(2))?;
        end += u64::from(header.length);
        if end > MOST_CONTENT_BYTES {
            return Err(Refusal::Phase(2));
        }
        let content = reader.bytes(header.length as usize)?;
        let table = Table {
            kind: header.kind,
            content,
        };
        tables.push(table).map_err(|_| Refusal::Memory)?;
    }
    Ok(tables)
}

// The place of the table of this kind.
fn place_of(tables: &[Table<'_>], kind: TableKind) -> Option<usize>
    ensures { result ≡ position (λ t. table_code t.kind == table_code kind) tables.now }
{
    let code = kind.code();
    tables.iter().position(|t| t.kind.code() == code)
}

// Takes the table of this kind out, and returns its content, which is empty where there is no such table.
fn take_content<'a>(tables: &mut Vec<Table<'a>>, kind: TableKind) -> &'a [u8]
    ensures content { result.now ≡ content_of (table_code kind) (tables_of tables.old.items) }
    ensures others { tables_of tables.new.items ≡ without (is_of (table_code kind)) (tables_of tables.old.items) }
{
    match place_of(tables, kind) {
        Some(i) => {
            let table = tables.remove(i);
            table.content
        }
        None => &[],
    }
}

// Takes the table of this kind out and reads its entries, which fill it. Each has a byte at least, so there are no more
// of them than bytes.
#[tactic(auto, unfolding(crate::specs::Parsing::entries_of))]
pub fn read_entries<'a, E: Entry<'a>>(
    alloc: Global,
    version: Version,
    kind: TableKind,
    tables: &mut Vec<Table<'a>>,
) -> Result<Vec<E>, Refusal>
    ensures { Takes (λ v. v.items) (entries_of (table_code kind) (E.from (version_number version))) (tables_of tables.old.items) result (tables_of tables.new.items) }
{
    let content = take_content(tables, kind);
    let mut reader = Reader::new(content);
    let mut entries = Vec::new(alloc);
    'reading: for _ in 0..content.len() {
        if reader.is_empty() {
            break;
        }
        let entry = E::read(alloc, version, &mut reader)?;
        if entries.push(entry).is_err() {
            return Err(Refusal::Memory);
        }
    }
    if !reader.is_empty() {
        return Err(Refusal::Phase(2));
    }
    Ok(entries)
}
