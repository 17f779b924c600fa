// The text of a module, with its tables in ascending order of kind.

ghost use Rattle.std.specs.Prelude.{◌≡◌, ◌≤◌, ◌-◌, ◌++◌, ◌∷◌, [], List, nat_lt, cond, OnOk, IfOk, Some, flat_map};
ghost use Rattle.mv_binary_format.specs.ModuleText.{Table, table, header_text, ordered_text, IsModuleText, all_tables};
ghost use Rattle.mv_module_text.specs.Laws.{AreBytes};
ghost use Rattle.mv_binary_format.specs.Parsing.{module_of};
ghost use Rattle.mv_binary_format.specs.Kinds.{table_code};
ghost use Rattle.mv_binary_format.specs.Written.{written_headers, AreOf};

use super::Module;
use super::entries::Entry;
use super::headers::TableKind;
use super::laws::{are_bytes, modules_are_read_by_text};
use mv_module_text::{write_index, write_u32};
use std::alloc::{AllocError, Global};

// The magic bytes, with which each module begins.
const MAGIC: [u8; 4] = [0xA1, 0x1C, 0xEB, 0x0B];

// A header to write: the offset and the length of a table's content.
#[derive(Clone, Copy)]
pub struct WrittenHeader {
    pub kind: TableKind,
    pub offset: u64,
    pub length: u64,
}

// A module's headers and contents, as far as they are laid out.
#[derive(Drop)]
struct Layout {
    headers: Vec<WrittenHeader>,
    contents: Vec<u8>,
}

// Notes where a table stands, unless it has no entries.
fn end_table(
    headers: &mut Vec<WrittenHeader>,
    kind: TableKind,
    start: usize,
    end: usize,
) -> Result<(), AllocError>
    requires { start ≤ end }
    ensures { OnOk result (written_headers headers.new.items ≡ written_headers headers.old.items
        ++ cond (nat_lt start end) (record { kind = table_code kind; offset = start; length = end - start } ∷ []) []) }
{
    if start < end {
        let header = WrittenHeader {
            kind,
            offset: start as u64,
            length: (end - start) as u64,
        };
        headers.push(header)?;
    }
    Ok(())
}

// Writes entries.
fn write_entries<'a, E: Entry<'a>>(
    alloc: Global,
    entries: &[E],
    out: &mut Vec<u8>,
) -> Result<(), AllocError>
    ensures { OnOk result (out.new.items ≡ out.old.items ++ flat_map E.text entries.now) }
{
    for entry in entries {
        entry.write(alloc, out)?;
    }
    Ok(())
}

// Adds the table of these entries.
fn add_table<'a, E: Entry<'a>>(
    alloc: Global,
    kind: TableKind,
    entries: &[E],
    layout: &mut Layout,
) -> Result<(), AllocError>
    ensures { OnOk result ((ts : List Table) → AreOf ts (written_headers layout.old.headers.items) layout.old.contents.items
        → AreOf (ts ++ table (table_code kind) E.text entries.now ∷ []) (written_headers layout.new.headers.items) layout.new.contents.items) }
{
    let start = layout.contents.len();
    write_entries(alloc, entries, &mut layout.contents)?;
    end_table(&mut layout.headers, kind, start, layout.contents.len())?;
    Ok(())
}

// Lays a module's tables out, in ascending order of kind.
fn lay_out(alloc: Global, m: &Module<'_>) -> Result<Layout, AllocError>
    ensures { IfOk result (λ l. AreOf (all_tables m.now) (written_headers l.headers.items) l.contents.items) }
{
    let mut layout = Layout {
        headers: Vec::new(alloc),
        contents: Vec::new(alloc),
    };
    let l = &mut layout;
    add_table(alloc, TableKind::ModuleHandles, m.module_handles(), l)?;
    add_table(alloc, TableKind::StructHandles, m.struct_handles(), l)?;
    add_table(alloc, TableKind::FunctionHandles, m.function_handles(), l)?;
    add_table(alloc, TableKind::Signatures, m.signatures(), l)?;
    add_table(alloc, TableKind::Constants, m.constants(), l)?;
    add_table(alloc, TableKind::Identifiers, m.identifiers(), l)?;
    add_table(alloc, TableKind::Addresses, m.addresses(), l)?;
    add_table(alloc, TableKind::Structs, m.structs(), l)?;
    add_table(alloc, TableKind::Functions, m.functions(), l)?;
    add_table(alloc, TableKind::FieldHandles, m.field_handles(), l)?;
    Ok(layout)
}

// Writes headers.
fn write_headers(headers: &[WrittenHeader], out: &mut Vec<u8>) -> Result<(), AllocError>
    ensures { OnOk result (out.new.items ≡ out.old.items ++ flat_map header_text (written_headers headers.now)) }
{
    for header in headers {
        out.push(header.kind.code())?;
        mv_uleb::write(header.offset, out)?;
        mv_uleb::write(header.length, out)?;
    }
    Ok(())
}

// Writes the module's text.
fn write(alloc: Global, m: &Module<'_>) -> Result<Vec<u8>, AllocError>
    ensures ordered { IfOk result (λ v. v.items ≡ ordered_text m.now) }
    ensures bytes { IfOk result (λ v. AreBytes v.items) }
{
    let layout = lay_out(alloc, m)?;
    let mut out = Vec::from_slice(alloc, &MAGIC)?;
    write_u32(u32::from(m.version().number()), &mut out)?;
    mv_uleb::write(layout.headers.len() as u64, &mut out)?;
    write_headers(&layout.headers, &mut out)?;
    out.extend_from_slice(&layout.contents)?;
    write_index(m.own(), &mut out)?;
    are_bytes(&out);
    Ok(out)
}

/// Writes the text of a module, its headers and tables in ascending order of kind; tables without entries are left out.
/// `decode` reads it back as the same module.
///
/// # Errors
/// If an allocation failed.
pub fn encode(alloc: Global, m: &Module<'_>) -> Result<Vec<u8>, AllocError>
    ensures ordered { IfOk result (λ v. v.items ≡ ordered_text m.now) }
    ensures text { IfOk result (λ v. IsModuleText v.items m.now) }
    ensures read_back { IfOk result (λ v. module_of v.items ≡ Some m.now) }
{
    m.has_text();
    modules_are_read_by_text();
    write(alloc, m)
}
