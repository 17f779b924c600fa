// Types of two modules, compared by names.
ghost use Rattle.std.specs.Prelude.{◌≡◌};
ghost use Rattle.mv_move_types.specs.Names.{same_struct};
ghost use Rattle.mv_move_types.specs.Module.{struct_name as name_at_handle};
ghost use Rattle.mv_move_types.specs.AbilitySets.{same_abilities};
ghost use Rattle.mv_move_types.specs.Tags.{same_tag};
ghost use Rattle.mv_move_types.specs.Tokens.{kind_code as code_of, same_kind as is_one_kind, width_bits};
ghost use Rattle.mv_bound_rules.specs.TypesByName.{value_type_named, token_named, same_signature as is_one_signature, same_types, both_there};

use crate::names::struct_name;
use mv_binary_format::Module;
use mv_move_types::{Abilities, LeafKind, Token, ValueType, Width};

/// The bits of a number of a width.
fn bits(w: Width) -> u8
    ensures { result ≡ width_bits w }
{
    match w {
        Width::U8 => 8,
        Width::U16 => 16,
        Width::U32 => 32,
        Width::U64 => 64,
        Width::U128 => 128,
    }
}

/// A number for each kind of leaf.
fn kind_code(kind: LeafKind) -> u8
    ensures { result ≡ code_of kind }
{
    match kind {
        LeafKind::Boolean => 0,
        LeafKind::Address => 1,
        LeafKind::Signer => 2,
        LeafKind::Number(w) => bits(w),
    }
}

/// Whether two kinds of leaves are one.
pub fn same_kind(a: LeafKind, b: LeafKind) -> bool
    ensures { result ≡ is_one_kind a b }
{
    kind_code(a) == kind_code(b)
}

/// Whether two sets of abilities are one.
pub fn are_same(a: Abilities, b: Abilities) -> bool
    ensures { result ≡ same_abilities a b }
{
    a.copy == b.copy && a.drop == b.drop && a.store == b.store && a.key == b.key
}

/// Whether two modules' handles name one struct.
pub fn same_handle(m: &Module<'_>, h: usize, n: &Module<'_>, k: usize) -> bool
    ensures { result ≡ both_there same_struct (name_at_handle m.now h) (name_at_handle n.now k) }
{
    match (struct_name(m, h), struct_name(n, k)) {
        (Some(a), Some(b)) => a.is_same(&b),
        _ => false,
    }
}

/// Whether two types that are no references are one, by names.
fn same_value_type(m: &Module<'_>, t: ValueType, n: &Module<'_>, u: ValueType) -> bool
    ensures { result ≡ both_there same_tag (value_type_named m.now t) (value_type_named n.now u) }
{
    match (t, u) {
        (ValueType::OfLeaf(a), ValueType::OfLeaf(b)) => same_kind(a, b),
        (ValueType::OfStruct(h), ValueType::OfStruct(k)) => {
            same_handle(m, h as usize, n, k as usize)
        }
        _ => false,
    }
}

/// Whether two types are one, by names.
pub fn same_token(m: &Module<'_>, t: Token, n: &Module<'_>, u: Token) -> bool
    ensures { result ≡ both_there same_tag (token_named m.now t) (token_named n.now u) }
{
    match (t, u) {
        (Token::Plain(a), Token::Plain(b)) => same_value_type(m, a, n, b),
        (Token::Reference(a), Token::Reference(b)) => same_value_type(m, a, n, b),
        (Token::MutableReference(a), Token::MutableReference(b)) => same_value_type(m, a, n, b),
        _ => false,
    }
}

/// Whether two lists of types are one, by names.
fn same_tokens(m: &Module<'_>, ts: &[Token], n: &Module<'_>, us: &[Token]) -> bool
    ensures { result ≡ same_types m.now ts.now n.now us.now }
{
    match ts {
        [] => us.is_empty(),
        [t, ts @ ..] => {
            match us {
                [] => false,
                [u, us @ ..] => same_token(m, *t, n, *u) && same_tokens(m, ts, n, us),
            }
        }
    }
}

/// Whether two signatures are there and list the same types, by names.
#[tactic(auto, using(crate::proofs::TypeTests::same_types_is))]
pub fn same_signature(m: &Module<'_>, i: usize, n: &Module<'_>, j: usize) -> bool
    ensures { result ≡ is_one_signature m.now i n.now j }
{
    match (m.signature(i), n.signature(j)) {
        (Some(ts), Some(us)) => same_tokens(m, ts, n, us),
        _ => false,
    }
}
