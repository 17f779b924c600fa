// Values as text.
ghost use Rattle.std.specs.Prelude.{◌≡◌, ◌++◌, IfOk, OnOk};
ghost use Rattle.mv_move_types.specs.Module.{name_at};
ghost use Rattle.mv_link_rules.specs.Link.{tables_in};
ghost use Rattle.mv_machine.specs.Lines.{value_text};
ghost use Rattle.mv_lines.specs.Showing.{PutsText, fields_text, key_value_text};
ghost use Rattle.mv_lines.specs.ValueParts.{Extends, part_from, parts_from, value_at};

use crate::texts::put_leaf;
use mv_linker::{Part, Store};
use mv_move_types::Definition;
use mv_move_types::limits::MOST_NESTING;
use std::alloc::AllocError;

/// Appends the value of a struct that some words begin with to a text, and returns the words after it. None where they
/// begin with no such value.
#[cycle(values)]
fn put_struct<'w>(
    store: &Store,
    depth: usize,
    d: Definition,
    words: &'w [u128],
    text: &mut Vec<u8>,
) -> Result<Option<&'w [u128]>, AllocError>
    ensures value { IfOk result (λ rest. PutsText value_text (value_at depth (tables_in store.now) d words.entry.now) rest text.old.items text.new.items) }
    ensures kept { OnOk result (Extends text.old.items text.new.items) }
{
    if depth == 0 {
        return Ok(None);
    }
    let Some(parts) = store.fields(d) else {
        return Ok(None);
    };
    text.push(b'{')?;
    let rest = put_parts(store, depth - 1, parts, words, text)?;
    text.push(b'}')?;
    Ok(rest)
}

/// Appends the values of fields to a text, with a comma between each two, and returns the words after them.
#[cycle(values)]
fn put_parts<'w>(
    store: &Store,
    depth: usize,
    parts: &[Part],
    words: &'w [u128],
    text: &mut Vec<u8>,
) -> Result<Option<&'w [u128]>, AllocError>
    ensures value { IfOk result (λ rest. PutsText fields_text (parts_from (part_from (tables_in store.now) depth) parts.now words.entry.now) rest text.old.items text.new.items) }
    ensures kept { OnOk result (Extends text.old.items text.new.items) }
{
    let mut rest = words;
    'each: for (i, part) in parts.iter().enumerate() {
        if i > 0 {
            text.push(b',')?;
        }
        let Some(more) = put_part(store, depth, *part, rest, text)? else {
            return Ok(None);
        };
        rest = more;
    }
    Ok(Some(rest))
}

/// Appends the value of a field to a text, and returns the words after it.
#[cycle(values)]
fn put_part<'w>(
    store: &Store,
    depth: usize,
    part: Part,
    words: &'w [u128],
    text: &mut Vec<u8>,
) -> Result<Option<&'w [u128]>, AllocError>
    ensures value { IfOk result (λ rest. PutsText value_text (part_from (tables_in store.now) depth part words.entry.now) rest text.old.items text.new.items) }
    ensures kept { OnOk result (Extends text.old.items text.new.items) }
{
    match part {
        Part::Leaf(kind) => match words {
            [] => Ok(None),
            [first, rest @ ..] => {
                put_leaf(text, kind, *first)?;
                Ok(Some(rest))
            }
        },
        Part::Struct(d) => put_struct(store, depth, d, words, text),
        Part::Nothing => Ok(None),
    }
}

/// Appends a stored value of the struct at a place and an index to a text.
pub fn put_value(
    text: &mut Vec<u8>,
    store: &Store,
    d: Definition,
    words: &[u128],
) -> Result<(), AllocError>
    ensures { OnOk result (text.new.items ≡ text.old.items ++ key_value_text (tables_in store.now) (name_at (tables_in store.now) d.place d.index) words.now) }
{
    let start = text.len();
    match put_struct(store, MOST_NESTING as usize, d, words, text)? {
        Some(_) => Ok(()),
        None => {
            text.truncate(start);
            text.extend_from_slice(b"false")
        }
    }
}
