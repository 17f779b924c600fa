// A stored value with its key as an object of JSON: its texts, one behind the other, and what of them is sent. No text has a byte
// that JSON would escape.
ghost use Rattle.std.specs.Prelude.{◌≡◌, ◌≤◌, ◌++◌, drop, length, slice_range, take, IfOk, OnOk};
ghost use Rattle.mv_link_rules.specs.Link.{tables_in};
ghost use Rattle.mv_machine.specs.Flat.{value_under};
ghost use Rattle.mv_machine.specs.Lines.{address_text, entry_object, key_text, value_text};
ghost use Rattle.mv_lines.specs.Plain.{IsPlain};

use crate::texts::{definition_of, put_address, put_key, struct_at};
use crate::values::put_value;
use mv_linker::Store;
use mv_move_types::Key;
use serde::{Described, Serialize, Serializer};
use std::alloc::{AllocError, Global};

/// A plain text as characters.
pub fn as_str(text: &[u8]) -> &str
    requires { IsPlain text.now }
    ensures { result.now ≡ text.now }
{
    match str::from_utf8(text) {
        Ok(text) => text,
        Err(_) => unreachable!(),
    }
}

/// The texts of a stored value, which are sent as an object: those of its address, of its struct and of the value.
#[derive(Clone, Copy)]
struct EntryShow<'a> {
    address: &'a str,
    name: &'a str,
    value: &'a str,
}

impl<'a> Described for EntryShow<'a> {
    ghost use Rattle.serde_json.specs.Events.{SendsValue};
    ghost use Rattle.mv_lines.specs.Sending.{texts_data};

    ghost writes = { λ e. SendsValue (texts_data e.address.now e.name.now e.value.now) };
}

impl<'a> Serialize for EntryShow<'a> {
    fn serialize<S: Serializer>(&self, out: &mut S) -> Result<(), S::Error> {
        out.begin_map(Some(3))?;
        out.key("address")?;
        out.str(self.address)?;
        out.key("struct")?;
        out.str(self.name)?;
        out.key("value")?;
        out.str(self.value)?;
        out.end_map()
    }
}

/// Makes the texts of a stored value in this room, one behind the other, and returns where the second and the third begin.
fn put_texts(
    room: &mut Vec<u8>,
    store: &Store,
    key: Key,
    words: &[u128],
) -> Result<(usize, usize), AllocError>
    ensures texts { OnOk result (room.new.items ≡ address_text key.address ++ key_text (tables_in store.now) key ++ value_text (value_under (tables_in store.now) key words.now)) }
    ensures name { IfOk result (λ at. at.0 ≡ length (address_text key.address)) }
    ensures value { IfOk result (λ at. at.1 ≡ length (address_text key.address ++ key_text (tables_in store.now) key)) }
{
    room.clear();
    put_address(room, key.address)?;
    let name = room.len();
    put_key(room, struct_at(store, key).as_ref())?;
    let value = room.len();
    put_value(room, store, definition_of(key), words)?;
    Ok((name, value))
}

/// The texts that stand one behind the other, the second and the third from these places on.
fn parted(texts: &[u8], name: usize, value: usize) -> EntryShow<'_>
    requires plain { IsPlain texts.now }
    requires name { name ≤ value }
    requires value { value ≤ length texts.now }
    ensures address { result.address.now ≡ take name texts.now }
    ensures struct_name { result.name.now ≡ slice_range texts.now name value }
    ensures value { result.value.now ≡ drop value texts.now }
{
    let text = as_str(texts);
    EntryShow {
        address: &text[..name],
        name: &text[name..value],
        value: &text[value..],
    }
}

/// A stored value with its key as JSON. Its texts are made in this room.
pub fn entry_json(
    alloc: Global,
    room: &mut Vec<u8>,
    store: &Store,
    key: Key,
    words: &[u128],
) -> Result<Vec<u8>, AllocError>
    ensures { IfOk result (λ text. text.items ≡ entry_object (tables_in store.now) (record { key = key; value = value_under (tables_in store.now) key words.now })) }
{
    // For the prover: what it holds is a store.
    let _len = store.len();
    let (name, value) = put_texts(room, store, key, words)?;
    let entry = parted(room, name, value);
    match serde_json::to_vec(alloc, &entry) {
        Ok(json) => Ok(json),
        Err(_) => Err(AllocError),
    }
}
