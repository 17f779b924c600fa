// Of what the fields of structs are made.
ghost use Rattle.std.specs.Prelude.{◌≡◌, ◌+◌, ◌++◌, length, OnOk, vec_len};
ghost use Rattle.mv_interface.specs.Shapes.{part_by, parts_by};

use mv_move_types::{Definition, Field, LeafKind, Token, ValueType};
use std::alloc::AllocError;

/// What a field is made of.
#[derive(Clone, Copy)]
pub enum Part {
    /// A leaf.
    Leaf(LeafKind),
    /// The fields of a struct, which is defined there.
    Struct(Definition),
    /// Nothing: the type is no field's.
    Nothing,
}

/// Of what a field of a type is made, where `structs` has where the struct of each struct handle is defined.
pub(crate) fn part_of(structs: &[Definition], token: Token) -> Part
    ensures { result ≡ part_by structs.now token }
{
    match token {
        Token::Plain(ValueType::OfLeaf(kind)) => Part::Leaf(kind),
        Token::Plain(ValueType::OfStruct(handle)) => match structs.get(usize::from(handle)) {
            Some(definition) => Part::Struct(*definition),
            None => Part::Nothing,
        },
        _ => Part::Nothing,
    }
}

/// Puts that of which fields are made at the end.
pub(crate) fn put_parts(
    parts: &mut Vec<Part>,
    structs: &[Definition],
    fields: &[Field],
) -> Result<(), AllocError>
    ensures parts { OnOk result (parts.new.items ≡ parts.old.items ++ parts_by structs.now fields.now) }
    ensures len { OnOk result (vec_len parts.new ≡ vec_len parts.old + length fields.now) }
{
    for field in fields {
        parts.push(part_of(structs, field.token))?;
    }
    Ok(())
}
