// Types as numbers, which have an order: two types of one module are one exactly where their numbers are equal.
ghost use Rattle.std.specs.Prelude.{◌≡◌, ◌<◌, IfOk, map};
ghost use Rattle.mv_move_types.specs.Tokens.{kind_code as code_of_kind, width_bits};
ghost use Rattle.mv_bounds.specs.Codes.{value_code as code_of_value, token_code as code_of_token};

use mv_move_types::{LeafKind, Token, ValueType, Width};
use std::alloc::{AllocError, Global};

/// The bits of a number of a width.
fn bits(width: Width) -> u8
    ensures { result ≡ width_bits width }
{
    match width {
        Width::U8 => 8,
        Width::U16 => 16,
        Width::U32 => 32,
        Width::U64 => 64,
        Width::U128 => 128,
    }
}

/// A number for each kind of leaf.
fn kind_code(kind: LeafKind) -> u8
    ensures { result ≡ code_of_kind kind }
{
    match kind {
        LeafKind::Boolean => 0,
        LeafKind::Address => 1,
        LeafKind::Signer => 2,
        LeafKind::Number(width) => bits(width),
    }
}

/// A number for each type that is no reference.
fn value_code(value: ValueType) -> u32
    ensures is { result ≡ code_of_value value }
    ensures small { result < 65792 }
{
    match value {
        ValueType::OfLeaf(kind) => u32::from(kind_code(kind)),
        ValueType::OfStruct(handle) => 256 + u32::from(handle),
    }
}

/// A number for each type.
pub fn token_code(token: Token) -> u32
    ensures { result ≡ code_of_token token }
{
    match token {
        Token::Plain(value) => 3 * value_code(value),
        Token::Reference(value) => 3 * value_code(value) + 1,
        Token::MutableReference(value) => 3 * value_code(value) + 2,
    }
}

/// The numbers of types, in their order.
pub fn token_codes(alloc: Global, tokens: &[Token]) -> Result<Vec<u32>, AllocError>
    ensures { IfOk result (λ v. v.items ≡ map code_of_token tokens.now) }
{
    tokens.iter().map(|token| token_code(*token)).collect(alloc)
}
