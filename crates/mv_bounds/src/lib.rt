//! Phases 3 and 4 of publishing: every index is in bounds, no entry occurs twice, the module defines each of its own structs
//! and functions once, and its structs are finite.
//!
//! ```
//! use mv_move_types::Refusal;
//! use std::alloc::Global;
//!
//! /// How many instructions the first function of a module has, if there is one.
//! fn example(alloc: Global, bytes: &[u8]) -> Result<usize, Refusal> {
//!     let module = mv_binary_format::decode(alloc, bytes)?;
//!     let bounded = mv_bounds::check(alloc, module)?;
//!     if bounded.module().functions().is_empty() {
//!         return Ok(0);
//!     }
//!     Ok(bounded.code(0).len())
//! }
//! ```
#![tactic(auto)]

mod codes;
mod containment;
mod cycles;
mod duplicates;
mod indices;

ghost use Rattle.std.specs.Prelude.{◌≡◌, IfOk, IfErr, map};
ghost use Rattle.mv_move_types.specs.Refusals.{IsRefusedBy};
ghost use Rattle.mv_bounds.specs.Answers.{FailsBounds};
ghost use Rattle.mv_bound_rules.specs.Functions.{codes_of};
ghost use Rattle.mv_bound_rules.specs.Places.{IsBounded};

pub use cycles::is_acyclic;
use duplicates::well_defined;
use indices::in_bounds;
use mv_binary_format::code;
pub use mv_bound_rules::{
    Bounded, Constant, FunctionDefinition, Module, StructDefinition, function_places, struct_places,
};
use mv_move_types::{Instruction, Refusal};
use std::alloc::{AllocError, Global};

/// Tries phases 3 and 4 on a module.
///
/// # Errors
///
/// `Phase(3)` if an index is not below the length of its table. Otherwise `Phase(4)` if an entry occurs twice, a handle of
/// the module itself is not defined exactly once, a handle of another module is defined, or a struct has no fields, has two
/// fields of the same name, or contains itself. `Memory` if an allocation failed.
pub fn check<'a>(alloc: Global, m: Module<'a>) -> Result<Bounded<'a>, Refusal>
    ensures ok { IfOk result (λ b. b ≡ m.entry) }
    ensures refused { IfErr result (IsRefusedBy (FailsBounds m.entry)) }
{
    let codes = instructions(alloc, &m)?;
    let places = bounded_places(alloc, &m, &codes)?;
    Ok(Bounded::new(m, places, codes))
}

// The instructions of each function.
fn instructions(alloc: Global, m: &Module) -> Result<Vec<Vec<Instruction>>, AllocError>
    ensures { IfOk result (λ v. map (λ c. c.items) v.items ≡ codes_of m.now) }
{
    let count = m.functions().len();
    let mut codes = Vec::with_capacity(alloc, count)?;
    for f in 0..count {
        codes.push(code(m, f).to_vec(alloc)?)?;
    }
    Ok(codes)
}

// Tries both phases, and gives the definition of each function handle, if the module has one. `codes` are the instructions of each
// function.
fn bounded_places(
    alloc: Global,
    m: &Module,
    codes: &[Vec<Instruction>],
) -> Result<Vec<Option<usize>>, Refusal>
    requires { map (λ c. c.items) codes.now ≡ codes_of m.now }
    ensures ok { IfOk result (λ v. IsBounded m.now v.items (map (λ c. c.items) codes.now)) }
    ensures refused { IfErr result (IsRefusedBy (FailsBounds m.now)) }
{
    if !in_bounds(m, codes) {
        return Err(Refusal::Phase(3));
    }
    if !well_defined(alloc, m)? {
        return Err(Refusal::Phase(4));
    }
    Ok(function_places(alloc, m)?)
}
