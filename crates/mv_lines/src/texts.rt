// Names and values as text.
ghost use Rattle.std.specs.Prelude.{◌≡◌, ◌++◌, decimal, OnOk};
ghost use Rattle.std.specs.Option.{option_copied};
ghost use Rattle.mv_move_types.specs.Module.{name_at};
ghost use Rattle.mv_link_rules.specs.Link.{tables_in};
ghost use Rattle.mv_machine.specs.Lines.{address_text, leaf_text, struct_text};
ghost use Rattle.mv_lines.specs.Showing.{key_name_text};

use itoa::Buffer;
use mv_linker::{Store, StructName};
use mv_move_types::{Definition, Key, LeafKind};
use std::alloc::AllocError;

/// Appends a number to a text, in decimal.
pub fn put_number(text: &mut Vec<u8>, n: u128) -> Result<(), AllocError>
    ensures { OnOk result (text.new.items ≡ text.old.items ++ decimal n) }
{
    let mut digits = Buffer::new();
    text.extend_from_slice(digits.format(n).as_bytes())
}

/// Appends a label and a number to a text, which is in decimal.
pub fn put_labelled(text: &mut Vec<u8>, label: &[u8], n: u128) -> Result<(), AllocError>
    ensures { OnOk result (text.new.items ≡ text.old.items ++ (label.now ++ decimal n)) }
{
    text.extend_from_slice(label)?;
    put_number(text, n)
}

/// Appends an address to a text, as 32 digits.
pub fn put_address(text: &mut Vec<u8>, address: u128) -> Result<(), AllocError>
    ensures { OnOk result (text.new.items ≡ text.old.items ++ address_text address) }
{
    let mut digits = [0; 32];
    match hex::encode_to_slice(address.to_be_bytes(), &mut digits) {
        Ok(()) => text.extend_from_slice(&digits),
        Err(_) => unreachable!(),
    }
}

/// Appends a leaf of a kind to a text.
pub fn put_leaf(text: &mut Vec<u8>, kind: LeafKind, n: u128) -> Result<(), AllocError>
    ensures { OnOk result (text.new.items ≡ text.old.items ++ leaf_text kind n) }
{
    match kind {
        LeafKind::Boolean => text.extend_from_slice(if n == 0 { b"false" } else { b"true" }),
        LeafKind::Number(_) => put_number(text, n),
        LeafKind::Address | LeafKind::Signer => put_address(text, n),
    }
}

/// Appends a struct's name to a text: its module's address, its module's name and its own.
pub fn put_name(text: &mut Vec<u8>, name: &StructName<'_>) -> Result<(), AllocError>
    ensures { OnOk result (text.new.items ≡ text.old.items ++ struct_text name.now) }
{
    put_address(text, name.address())?;
    text.extend_from_slice(b"::")?;
    text.extend_from_slice(name.home())?;
    text.extend_from_slice(b"::")?;
    text.extend_from_slice(name.identifier())?;
    Ok(())
}

/// Where the struct of a key is defined.
pub fn definition_of(key: Key) -> Definition
    ensures { result ≡ record { place = key.place; index = key.index } }
{
    Definition {
        place: key.place,
        index: key.index,
    }
}

/// The struct that a key names.
pub fn struct_at(store: &Store, key: Key) -> Option<StructName<'_>>
    ensures { result ≡ name_at (tables_in store.now) key.place key.index }
{
    store.struct_name(definition_of(key))
}

/// Appends the struct of a key to a text.
pub fn put_key(text: &mut Vec<u8>, name: Option<&StructName<'_>>) -> Result<(), AllocError>
    ensures { OnOk result (text.new.items ≡ text.old.items ++ key_name_text (option_copied name.entry)) }
{
    match name {
        Some(name) => put_name(text, name),
        None => Ok(()),
    }
}
