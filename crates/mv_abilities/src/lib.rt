//! Phase 6 of publishing: a struct's fields have what its abilities ask for; and the abilities of a type.
//!
//! ```
//! use mv_abilities::of;
//! use mv_move_types::{Refusal, Token, ValueType};
//! use std::alloc::Global;
//!
//! /// Whether a value of a module's first struct handle may be dropped.
//! fn example(alloc: Global, bytes: &[u8]) -> Result<bool, Refusal> {
//!     let module = mv_binary_format::decode(alloc, bytes)?;
//!     let bounded = mv_bounds::check(alloc, module)?;
//!     mv_abilities::check(&bounded)?;
//!     let first = Token::Plain(ValueType::OfStruct(0));
//!     Ok(of(&bounded, first).drop)
//! }
//! ```
#![tactic(auto)]

ghost use Rattle.std.specs.Prelude.{◌≡◌, OnOk, IfErr, None, Some, unwrap_or};
ghost use Rattle.mv_move_types.specs.Refusals.{IsRefusedIn};
ghost use Rattle.std.specs.List.{list_all};
ghost use Rattle.mv_move_types.specs.Module.{struct_abilities};
ghost use Rattle.mv_move_types.specs.AbilitySets.{leaf_abilities, no_abilities};
ghost use Rattle.mv_abilities.specs.Abilities.{AbilitiesHold, token_abilities, field_is_able, struct_is_able};

use mv_bound_rules::{Bounded, StructDefinition};
use mv_move_types::{Abilities, Field, LeafKind, Refusal, Token, ValueType};

/// Accepts exactly the modules for which the rules of phase 6 hold.
///
/// # Errors
///
/// `Phase(6)` if one of them fails.
pub fn check(m: &Bounded<'_>) -> Result<(), Refusal>
    ensures ok { OnOk result (AbilitiesHold m.now) }
    ensures refused { IfErr result (IsRefusedIn 6 (AbilitiesHold m.now)) }
    ensures phase { IfErr result (λ e. e ≡ Refusal.Phase 6) }
{
    if are_structs_able(m) {
        Ok(())
    } else {
        Err(Refusal::Phase(6))
    }
}

/// Whether each field of each struct has what the struct's abilities ask for.
fn are_structs_able(m: &Bounded<'_>) -> bool
    ensures { result ≡ list_all (struct_is_able m.now) m.now.structs }
{
    m.module().structs().iter().all(|d| has_able_fields(m, d))
}

/// Whether a struct's handle is there and each field has what the struct's abilities ask for.
fn has_able_fields(m: &Bounded<'_>, d: &StructDefinition) -> bool
    ensures { result ≡ struct_is_able m.now d.now }
{
    match declared(m, d) {
        Some(structure) => are_able(m, structure, d.fields()),
        None => false,
    }
}

/// The abilities that a struct is declared with, if its handle is there.
fn declared(m: &Bounded<'_>, d: &StructDefinition) -> Option<Abilities>
    ensures { result ≡ struct_abilities m.now d.now }
{
    let handle = m.module().struct_handles().get(usize::from(d.handle()))?;
    Some(handle.abilities)
}

/// Whether each field has what its struct's abilities ask for.
fn are_able(m: &Bounded<'_>, structure: Abilities, fields: &[Field]) -> bool
    ensures { result ≡ list_all (field_is_able m.now structure) fields.now }
{
    fields.iter().all(|f| is_able(m, structure, *f))
}

/// Whether a field has what its struct's abilities ask for: copy for copy, drop for drop, and store for store or key.
fn is_able(m: &Bounded<'_>, structure: Abilities, f: Field) -> bool
    ensures { result ≡ field_is_able m.now structure f }
{
    match find(m, f.token) {
        Some(field) => {
            (!structure.copy || field.copy)
                && (!structure.drop || field.drop)
                && (!(structure.store || structure.key) || field.store)
        }
        None => false,
    }
}

/// The abilities of a type, as `find` has them. A struct whose handle isn't there has none of them; the module itself names no
/// such struct.
pub fn of(m: &Bounded<'_>, token: Token) -> Abilities
    ensures { result ≡ unwrap_or (token_abilities m.now token) no_abilities }
{
    match find(m, token) {
        Some(abilities) => abilities,
        None => Abilities {
            copy: false,
            drop: false,
            store: false,
            key: false,
        },
    }
}

/// The abilities of a type: a leaf's and a reference's are fixed, a struct has what its handle declares. None where the
/// handle isn't there.
pub fn find(m: &Bounded<'_>, token: Token) -> Option<Abilities>
    ensures { result ≡ token_abilities m.now token }
{
    match token {
        Token::Plain(ValueType::OfStruct(h)) => {
            let handle = m.module().struct_handles().get(usize::from(h))?;
            Some(handle.abilities)
        }
        Token::Plain(ValueType::OfLeaf(kind)) => Some(of_leaf(kind)),
        Token::Reference(_) | Token::MutableReference(_) => {
            Some(Abilities {
                copy: true,
                drop: true,
                store: false,
                key: false,
            })
        }
    }
}

/// The abilities of a leaf: a signer can only be dropped, and every other leaf be copied, dropped and stored.
fn of_leaf(kind: LeafKind) -> Abilities
    ensures { result ≡ leaf_abilities kind }
{
    match kind {
        LeafKind::Signer => Abilities {
            copy: false,
            drop: true,
            store: false,
            key: false,
        },
        LeafKind::Boolean | LeafKind::Number(_) | LeafKind::Address => {
            Abilities {
                copy: true,
                drop: true,
                store: true,
                key: false,
            }
        }
    }
}
