// Types of a module against types as they are kept, in which a struct stands as where it is defined.
ghost use Rattle.std.specs.Prelude.{◌≡◌, false, slice_get};
ghost use Rattle.std.specs.Option.{option_map_or};
ghost use Rattle.mv_interface.specs.TypesByDefinition.{are_types, is_part, is_type, same_definition};

use crate::interface::LinkedType;
use crate::shapes::Part;
use crate::types::same_kind;
use mv_binary_format::Module;
use mv_move_types::{Definition, Token, ValueType};

/// Whether two structs are defined at one place.
fn is_same(d: Definition, e: Definition) -> bool
    ensures { result ≡ same_definition d e }
{
    d.place == e.place && d.index == e.index
}

/// Whether a type that is no reference is a kept one, where `structs` has where the structs of its module's handles are defined.
fn is_part(structs: &[Definition], t: ValueType, part: Part) -> bool
    ensures { result ≡ is_part structs.now t part }
{
    match (t, part) {
        (ValueType::OfLeaf(a), Part::Leaf(b)) => same_kind(a, b),
        (ValueType::OfStruct(h), Part::Struct(e)) => match structs.get(h as usize) {
            Some(d) => is_same(*d, e),
            None => false,
        },
        _ => false,
    }
}

/// Whether a type is a kept one, likewise.
fn is_type(structs: &[Definition], token: Token, kept: LinkedType) -> bool
    ensures { result ≡ is_type structs.now token kept }
{
    match (token, kept) {
        (Token::Plain(t), LinkedType::Plain(part)) => is_part(structs, t, part),
        (Token::Reference(t), LinkedType::Reference(part)) => is_part(structs, t, part),
        (Token::MutableReference(t), LinkedType::MutableReference(part)) => {
            is_part(structs, t, part)
        }
        _ => false,
    }
}

/// Whether types are kept ones, in order.
fn are_types(structs: &[Definition], tokens: &[Token], kept: &[LinkedType]) -> bool
    ensures { result ≡ are_types structs.now tokens.now kept.now }
{
    match tokens {
        [] => kept.is_empty(),
        [t, ts @ ..] => {
            match kept {
                [] => false,
                [k, ks @ ..] => is_type(structs, *t, *k) && are_types(structs, ts, ks),
            }
        }
    }
}

/// Whether a signature is there and its types equal the kept ones, in order.
pub fn is_signature(m: &Module<'_>, i: u16, structs: &[Definition], kept: &[LinkedType]) -> bool
    ensures { result ≡ option_map_or (λ ts. are_types structs.now ts kept.now) (slice_get m.now.signatures i) false }
{
    match m.signature(i as usize) {
        Some(tokens) => are_types(structs, tokens, kept),
        None => false,
    }
}
