// Reading the stored values of a saved ledger.
ghost use Rattle.std.specs.Prelude.{◌≡◌, [], Some, IfOk, IfErr, OnOk};
ghost use Rattle.mv_saved_text.specs.Parts.BodyParts.{form_of, leaves_from, struct_from, entry_from, is_after, group_into, groups_into, storage_into};
ghost use Rattle.mv_saved_text.specs.Parts.Fillings.{Fills, IsUnfilled};
ghost use Rattle.mv_ledger_state.specs.Payloads.{leaf_from};
ghost use Rattle.mv_ledger_state.specs.Unread.{IsUnread};

use crate::layouts::Layouts;
use crate::loading::head::SavedForm;
use mv_ledger_state::leaf;
use mv_ledger_state::unread::{Unread, number};
use mv_module_text::Reader;
use mv_move_types::{Definition, Key, LeafKind};
use mv_storage::{Filling, Storage, Value};
use std::alloc::{AllocError, Global};

// Room for so many values of a group is taken at once at most, since their number may be a lie.
const ROOM_AT_ONCE: u64 = 4096;

// The greatest place of a module, and the greatest index of a struct.
const MOST_INDEX: u64 = 65535;

/// A value that is to be stored, with its key.
#[derive(Drop)]
struct Stored {
    key: Key,
    value: Value,
}

/// Reads a leaf of a kind.
fn word(reader: &mut Reader<'_>, kind: LeafKind) -> Result<u128, Unread>
    ensures ok { IfOk result (λ n. leaf_from kind reader.old ≡ Some (n, reader.new)) }
    ensures refused { IfErr result (IsUnread (leaf_from kind) reader.old) }
{
    match kind {
        LeafKind::Boolean => {
            let byte = reader.byte()?;
            if byte < 2 {
                Ok(u128::from(byte))
            } else {
                Err(Unread::Malformed)
            }
        }
        _ => {
            let word = leaf(reader, kind)?;
            Ok(word)
        }
    }
}

/// Reads leaves of these kinds, one after the other.
fn leaves(alloc: Global, reader: &mut Reader<'_>, kinds: &[LeafKind]) -> Result<Vec<u128>, Unread>
    ensures ok { IfOk result (λ v. leaves_from kinds.now reader.old ≡ Some (v.items, reader.new)) }
    ensures refused { IfErr result (IsUnread (leaves_from kinds.now) reader.old) }
{
    let mut words = Vec::new(alloc);
    'each: for kind in kinds {
        let next = word(reader, *kind)?;
        words.push(next).map_err(AllocError::from)?;
    }
    Ok(words)
}

/// Reads a value by the kinds of its leaves. A single leaf takes no memory.
fn value(alloc: Global, reader: &mut Reader<'_>, kinds: &[LeafKind]) -> Result<Value, Unread>
    ensures ok { IfOk result (λ v. leaves_from kinds.now reader.old ≡ Some (v, reader.new)) }
    ensures refused { IfErr result (IsUnread (leaves_from kinds.now) reader.old) }
{
    match kinds {
        [kind] => {
            let word = word(reader, *kind)?;
            Ok(Value::leaf(word))
        }
        _ => {
            let words = leaves(alloc, reader, kinds)?;
            Ok(Value::words(words))
        }
    }
}

/// Reads which struct a value is of, unless it is known.
fn struct_at(reader: &mut Reader<'_>, known: Option<Definition>) -> Result<Definition, Unread>
    ensures ok { IfOk result (λ d. struct_from known reader.old ≡ Some (d, reader.new)) }
    ensures refused { IfErr result (IsUnread (struct_from known) reader.old) }
{
    match known {
        Some(d) => Ok(d),
        None => {
            let place = number(reader, MOST_INDEX)?;
            let index = number(reader, MOST_INDEX)?;
            Ok(Definition {
                place: place as u16,
                index: index as u16,
            })
        }
    }
}

/// Reads a value with its key.
fn entry(
    alloc: Global,
    layouts: &Layouts<'_>,
    reader: &mut Reader<'_>,
    known: Option<Definition>,
) -> Result<Stored, Unread>
    ensures ok { IfOk result (λ e. entry_from layouts.now known reader.old ≡ Some (record { key = e.key; words = e.value }, reader.new)) }
    ensures refused { IfErr result (IsUnread (entry_from layouts.now known) reader.old) }
{
    let address = reader.address()?;
    let at = struct_at(reader, known)?;
    let Some(kinds) = layouts.kinds(alloc, at)? else {
        return Err(Unread::Malformed);
    };
    let value = value(alloc, reader, &kinds)?;
    Ok(Stored {
        key: Key {
            address,
            place: at.place,
            index: at.index,
        },
        value,
    })
}

/// Whether a key comes after the last one, if there was one.
fn follows(last: Option<Key>, key: &Key) -> bool
    ensures { result ≡ is_after last key.now }
{
    match last {
        None => true,
        Some(last) => last < *key,
    }
}

/// Reads values by ascending key after their number, and adds them to those that are to be stored.
fn group(
    alloc: Global,
    layouts: &Layouts<'_>,
    reader: &mut Reader<'_>,
    known: Option<Definition>,
    filling: &mut Filling,
) -> Result<(), Unread>
    ensures ok { OnOk result (Fills (group_into (entry_from layouts.now known)) filling.old reader.old filling.new reader.new) }
    ensures refused { IfErr result (IsUnfilled (group_into (entry_from layouts.now known)) filling.old reader.old) }
{
    let count = number(reader, u64::MAX)?;
    filling.reserve(count.min(ROOM_AT_ONCE) as usize)?;
    let mut last = None;
    'each: for _number in 0..count {
        let next = entry(alloc, layouts, reader, known)?;
        if !follows(last, &next.key) {
            return Err(Unread::Malformed);
        }
        last = Some(next.key);
        filling.add(next.key, next.value)?;
    }
    Ok(())
}

/// Reads the values of each of these structs, and adds them to those that are to be stored.
fn groups(
    alloc: Global,
    layouts: &Layouts<'_>,
    reader: &mut Reader<'_>,
    structs: &[Definition],
    filling: &mut Filling,
) -> Result<(), Unread>
    ensures ok { OnOk result (Fills (groups_into layouts.now structs.now) filling.old reader.old filling.new reader.new) }
    ensures refused { IfErr result (IsUnfilled (groups_into layouts.now structs.now) filling.old reader.old) }
{
    'each: for at in structs {
        group(alloc, layouts, reader, Some(*at), filling)?;
    }
    Ok(())
}

/// Reads all values that are to be stored.
fn fill(
    alloc: Global,
    layouts: &Layouts<'_>,
    reader: &mut Reader<'_>,
    form: SavedForm,
    filling: &mut Filling,
) -> Result<(), Unread>
    ensures ok { OnOk result (Fills (storage_into layouts.now (form_of form)) filling.old reader.old filling.new reader.new) }
    ensures refused { IfErr result (IsUnfilled (storage_into layouts.now (form_of form)) filling.old reader.old) }
{
    match form {
        SavedForm::First => group(alloc, layouts, reader, None, filling),
        SavedForm::Second => groups(alloc, layouts, reader, layouts.keyed(), filling),
    }
}

/// Reads all stored values.
///
/// # Errors
///
/// `Cut` or `Malformed` if no such values stand at the front; `Memory` if an allocation failed.
pub fn read_storage(
    alloc: Global,
    layouts: &Layouts<'_>,
    reader: &mut Reader<'_>,
    form: SavedForm,
) -> Result<Storage, Unread>
    ensures ok { IfOk result (λ s. storage_into layouts.now (form_of form) [] reader.old ≡ Some (s.committed, reader.new)) }
    ensures refused { IfErr result (IsUnread (storage_into layouts.now (form_of form) []) reader.old) }
    ensures closed { IfOk result (λ s. s.marks ≡ []) }
{
    let mut filling = Filling::new(alloc);
    fill(alloc, layouts, reader, form, &mut filling)?;
    let storage = filling.into_storage()?;
    Ok(storage)
}
