//! Phase 5 of publishing: which fields, signatures, numbers of locals, constants and entry functions are allowed.
//!
//! ```
//! use mv_move_types::Refusal;
//! use std::alloc::Global;
//!
//! /// Whether a module that passes phases 3 and 4 passes phase 5.
//! fn example(alloc: Global, bytes: &[u8]) -> Result<bool, Refusal> {
//!     let module = mv_binary_format::decode(alloc, bytes)?;
//!     let bounded = mv_bounds::check(alloc, module)?;
//!     Ok(mv_signatures::check(&bounded).is_ok())
//! }
//! ```
#![tactic(auto)]

ghost use Rattle.std.specs.Prelude.{◌≡◌, is_some, OnOk, IfErr, length, nat_le, slice_get, false};
ghost use Rattle.std.specs.List.{list_all};
ghost use Rattle.std.specs.Option.{option_map_or};
ghost use Rattle.mv_bound_rules.specs.Bounds.{local_count};
ghost use Rattle.mv_move_types.specs.Module.{parameter_tokens, StructDefinition as Structure};
ghost use Rattle.mv_move_types.specs.Numbers.{leaf_number};
ghost use Rattle.mv_move_types.specs.Tokens.{width_bytes};
ghost use Rattle.mv_move_types.specs.Refusals.{IsRefusedIn};
ghost use Rattle.mv_signatures.specs.Signatures.{WellSigned, is_constant, may_be_field, handle_is_small, is_plain_argument, are_entry_parameters, has_no_results, entry_fits};

use mv_bound_rules::{Bounded, Constant, FunctionDefinition, Module, StructDefinition};
use mv_move_types::limits::{MOST_LOCALS, MOST_PARAMETERS, MOST_RESULTS};
use mv_move_types::{FunctionHandle, LeafKind, Refusal, Token, ValueType, Width};

/// Accepts exactly the modules for which the rules of phase 5 hold.
///
/// # Errors
///
/// `Phase(5)` if one of them fails.
pub fn check(m: &Bounded<'_>) -> Result<(), Refusal>
    ensures ok { OnOk result (WellSigned m.now) }
    ensures refused { IfErr result (IsRefusedIn 5 (WellSigned m.now)) }
    ensures phase { IfErr result (λ e. e ≡ Refusal.Phase 5) }
{
    let module = m.module();
    if are_fields_plain(module)
        && are_handles_small(module)
        && are_locals_few(module)
        && are_constants_whole(module)
        && are_entries_callable(module)
    {
        Ok(())
    } else {
        Err(Refusal::Phase(5))
    }
}

/// Whether no field of any struct is a reference or a signer.
fn are_fields_plain(m: &Module<'_>) -> bool
    ensures { result ≡ list_all (λ (d : Structure). list_all (λ f. may_be_field f.token) d.fields) m.now.structs }
{
    m.structs().iter().all(|d| has_plain_fields(d))
}

/// Whether every function that the module names has at most 16 parameters and 8 results.
fn are_handles_small(m: &Module<'_>) -> bool
    ensures { result ≡ list_all (handle_is_small m.now) m.now.function_handles }
{
    m.function_handles().iter().all(|h| is_small(m, *h))
}

/// Whether every function has at most 64 locals.
fn are_locals_few(m: &Module<'_>) -> bool
    ensures { result ≡ list_all (λ d. nat_le (local_count m.now d) 64) m.now.functions }
{
    m.functions()
        .iter()
        .all(|d| count_locals(m, d) <= MOST_LOCALS)
}

/// Whether every constant is a leaf of its type, of exactly its length.
fn are_constants_whole(m: &Module<'_>) -> bool
    ensures { result ≡ list_all is_constant m.now.constants }
{
    m.constants().iter().all(|c| is_whole(c))
}

/// Whether a constant is a leaf of its type, of exactly its length.
fn is_whole(c: &Constant<'_>) -> bool
    ensures { result ≡ is_constant c.now }
{
    match c.token() {
        Token::Plain(ValueType::OfLeaf(kind)) => is_leaf(kind, c.bytes()),
        _ => false,
    }
}

/// Whether the bytes are a leaf of the kind: a bool is 0 or 1, and no bytes are a signer.
fn is_leaf(kind: LeafKind, bytes: &[u8]) -> bool
    ensures { result ≡ is_some (leaf_number kind bytes.now) }
{
    match kind {
        LeafKind::Boolean => bytes.len() == 1 && bytes[0] < 2,
        LeafKind::Number(width) => bytes.len() == byte_count(width),
        LeafKind::Address => bytes.len() == 16,
        LeafKind::Signer => false,
    }
}

/// How many bytes a number of the width has.
fn byte_count(width: Width) -> usize
    ensures { result ≡ width_bytes width }
{
    match width {
        Width::U8 => 1,
        Width::U16 => 2,
        Width::U32 => 4,
        Width::U64 => 8,
        Width::U128 => 16,
    }
}

/// Whether a run record can name every function that is an entry.
fn are_entries_callable(m: &Module<'_>) -> bool
    ensures { result ≡ list_all (entry_fits m.now) m.now.functions }
{
    m.functions().iter().all(|d| may_be_entry(m, d))
}

/// Whether no field is a reference or a signer.
fn has_plain_fields(d: &StructDefinition) -> bool
    ensures { result ≡ list_all (λ f. may_be_field f.token) d.now.fields }
{
    d.fields().iter().all(|f| is_field_type(f.token))
}

/// Whether a value of the type can stand in a struct: it is no reference and no signer.
fn is_field_type(token: Token) -> bool
    ensures { result ≡ may_be_field token }
{
    match token {
        Token::Plain(ValueType::OfLeaf(LeafKind::Signer)) => false,
        Token::Plain(_) => true,
        Token::Reference(_) | Token::MutableReference(_) => false,
    }
}

/// Whether a function has at most 16 parameters and 8 results.
fn is_small(m: &Module<'_>, h: FunctionHandle) -> bool
    ensures { result ≡ handle_is_small m.now h }
{
    has_at_most(m, h.parameters, MOST_PARAMETERS) && has_at_most(m, h.results, MOST_RESULTS)
}

/// Whether a signature is there and has at most so many types.
fn has_at_most(m: &Module<'_>, signature: u16, most: usize) -> bool
    ensures { result ≡ option_map_or (λ ts. nat_le (length ts) most) (slice_get m.now.signatures signature) false }
{
    match m.signature(usize::from(signature)) {
        Some(tokens) => tokens.len() <= most,
        None => false,
    }
}

/// How many locals a function has, parameters included; 0 where its signatures aren't there.
fn count_locals(m: &Module<'_>, d: &FunctionDefinition) -> usize
    ensures { result ≡ local_count m.now d.now }
{
    let Some(handle) = m.function_handles().get(usize::from(d.handle())) else {
        return 0;
    };
    let Some(parameters) = m.signature(usize::from(handle.parameters)) else {
        return 0;
    };
    let Some(others) = m.signature(usize::from(d.locals())) else {
        return 0;
    };
    parameters.len() + others.len()
}

/// Whether a function is no entry, or one that a run record can name: without results, and with parameters that a
/// record can give.
fn may_be_entry(m: &Module<'_>, d: &FunctionDefinition) -> bool
    ensures { result ≡ entry_fits m.now d.now }
{
    !d.is_entry() || gives_nothing(m, d) && takes_arguments(m, d)
}

/// Whether a function is there and has no results.
fn gives_nothing(m: &Module<'_>, d: &FunctionDefinition) -> bool
    ensures { result ≡ has_no_results m.now d.now }
{
    match m.function_handles().get(usize::from(d.handle())) {
        Some(handle) => has_at_most(m, handle.results, 0),
        None => false,
    }
}

/// Whether a function's parameters are there and a run record can give them.
fn takes_arguments(m: &Module<'_>, d: &FunctionDefinition) -> bool
    ensures { result ≡ option_map_or are_entry_parameters (parameter_tokens m.now d.now) false }
{
    let Some(handle) = m.function_handles().get(usize::from(d.handle())) else {
        return false;
    };
    match m.signature(usize::from(handle.parameters)) {
        Some(tokens) => are_arguments(tokens),
        None => false,
    }
}

/// Whether these are parameters that a run record can give: a signer that may come first, and then leaves.
fn are_arguments(tokens: &[Token]) -> bool
    ensures { result ≡ are_entry_parameters tokens.now }
{
    match tokens {
        [
            Token::Plain(ValueType::OfLeaf(LeafKind::Signer)),
            others @ ..,
        ] => are_leaves(others),
        _ => are_leaves(tokens),
    }
}

/// Whether these are all leaves that a run record can give.
fn are_leaves(tokens: &[Token]) -> bool
    ensures { result ≡ list_all is_plain_argument tokens.now }
{
    tokens.iter().all(|t| is_argument(*t))
}

/// Whether a run record can give a value of the type: it is a leaf, and no signer.
fn is_argument(token: Token) -> bool
    ensures { result ≡ is_plain_argument token }
{
    match token {
        Token::Plain(ValueType::OfLeaf(LeafKind::Signer)) => false,
        Token::Plain(ValueType::OfLeaf(_)) => true,
        _ => false,
    }
}
