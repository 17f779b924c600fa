//! Phase 12 of publishing: each acquires list is exactly the structs that its function reaches in the storage.
//!
//! ```
//! use mv_move_types::Refusal;
//! use std::alloc::Global;
//!
//! /// Whether each function of a module says which structs it reaches in the storage.
//! fn example(alloc: Global, bytes: &[u8]) -> Result<bool, Refusal> {
//!     let module = mv_binary_format::decode(alloc, bytes)?;
//!     let bounded = mv_bounds::check(alloc, module)?;
//!     Ok(mv_acquires::check(alloc, &bounded).is_ok())
//! }
//! ```
#![tactic(auto)]

mod marks;

ghost use Rattle.std.specs.Prelude.{◌≡◌, ℕ, ◌||◌, ◌==◌, ◌<◌, length, slice_get, OnOk, IfOk, IfErr, IfSome, flat_map};
ghost use Rattle.std.specs.List.{list_all};
ghost use Rattle.mv_move_types.specs.Refusals.{IsRefusedIn};
ghost use Rattle.mv_move_types.specs.Module.{has_key, own_acquires};
ghost use Rattle.mv_bit_sets.specs.BitSets.{has};
ghost use Rattle.mv_bound_rules.specs.Definitions.{all_differ};
ghost use Rattle.mv_acquires.specs.Acquires.{AcquiresHold, reached_by, has_member, same_members, acquires_are_right};
ghost use Rattle.mv_acquires.specs.Marks.{AreFollowed};

use marks::{are_same, is_member, mark, mark_all, marks_of};
use mv_bit_sets::BitSet;
use mv_bound_rules::Bounded;
use mv_move_types::{Instruction, Refusal};
use std::alloc::{AllocError, Global};

/// Accepts exactly the modules for which the rules of phase 12 hold.
///
/// # Errors
///
/// `Phase(12)` if one of them fails; `Memory` if an allocation failed.
pub fn check(alloc: Global, m: &Bounded<'_>) -> Result<(), Refusal>
    ensures ok { OnOk result (AcquiresHold m.now) }
    ensures refused { IfErr result (IsRefusedIn 12 (AcquiresHold m.now)) }
{
    if are_lists_right(alloc, m)? {
        Ok(())
    } else {
        Err(Refusal::Phase(12))
    }
}

/// Whether each function's list is right.
fn are_lists_right(alloc: Global, m: &Bounded<'_>) -> Result<bool, AllocError>
    ensures { IfOk result (λ right. right ≡ list_all (acquires_are_right m.now) m.now.functions) }
{
    for f in 0..m.module().functions().len() {
        if !is_right(alloc, m, f)? {
            return Ok(false);
        }
    }
    Ok(true)
}

/// Whether the list of function `f` has no entry twice, only structs with key, and exactly those that its code reaches.
fn is_right(alloc: Global, m: &Bounded<'_>, f: usize) -> Result<bool, AllocError>
    requires { f < length m.now.functions }
    ensures { IfOk result (λ right. IfSome (slice_get m.now.functions f) (λ d. right ≡ acquires_are_right m.now d)) }
{
    let list = m.module().functions()[f].acquires();
    let code = m.code(f);
    Ok(is_distinct(alloc, list)? && have_key(m, list) && is_exact(alloc, m, list, code)?)
}

/// Whether no number stands twice.
fn is_distinct(alloc: Global, numbers: &[u16]) -> Result<bool, AllocError>
    ensures { IfOk result (λ distinct. distinct ≡ all_differ ◌==◌ numbers.now) }
{
    let mut later = BitSet::new(alloc);
    let mut left = numbers.len();
    while left > 0 {
        left -= 1;
        let number = numbers[left];
        if is_member(&later, number) {
            return Ok(false);
        }
        mark(&mut later, number)?;
    }
    Ok(true)
}

/// Whether each of these struct definitions has key.
fn have_key(m: &Bounded<'_>, structs: &[u16]) -> bool
    ensures { result ≡ list_all (has_key m.now) structs.now }
{
    structs.iter().all(|s| m.has_key(*s))
}

/// Whether a list has exactly the structs that code reaches.
fn is_exact(
    alloc: Global,
    m: &Bounded<'_>,
    list: &[u16],
    code: &[Instruction],
) -> Result<bool, AllocError>
    ensures { IfOk result (λ exact. exact ≡ same_members list.now (flat_map (reached_by m.now) code.now)) }
{
    let listed = marks_of(alloc, list)?;
    let reached = reached_marks(alloc, m, code)?;
    Ok(are_same(&listed, &reached))
}

/// Marks of the structs that code reaches.
fn reached_marks(alloc: Global, m: &Bounded<'_>, code: &[Instruction]) -> Result<BitSet, AllocError>
    ensures { IfOk result (λ v. (y : ℕ) → has v y ≡ has_member (flat_map (reached_by m.now) code.now) y) }
{
    let mut marks = BitSet::new(alloc);
    let mut called = BitSet::new(alloc);
    for i in code {
        mark_reached(&mut marks, &mut called, m, *i)?;
    }
    Ok(marks)
}

/// Marks the structs that the instruction reaches in the storage, itself or by a call in the own module.
fn mark_reached(
    marks: &mut BitSet,
    called: &mut BitSet,
    m: &Bounded<'_>,
    i: Instruction,
) -> Result<(), AllocError>
    requires { AreFollowed m.now called.old marks.old }
    ensures exact { OnOk result ((y : ℕ) → has marks.new y ≡ (has marks.old y || has_member (reached_by m.now i) y)) }
    ensures followed { OnOk result (AreFollowed m.now called.new marks.new) }
{
    match i {
        Instruction::MoveFrom(definition)
        | Instruction::MutBorrowGlobal(definition)
        | Instruction::ImmBorrowGlobal(definition) => mark(marks, definition),
        Instruction::Call(handle) => mark_called(marks, called, m, handle),
        _ => Ok(()),
    }
}

/// Marks what the list of a called function has, at the first of its calls.
fn mark_called(
    marks: &mut BitSet,
    called: &mut BitSet,
    m: &Bounded<'_>,
    handle: u16,
) -> Result<(), AllocError>
    requires { AreFollowed m.now called.old marks.old }
    ensures exact { OnOk result ((y : ℕ) → has marks.new y ≡ (has marks.old y || has_member (own_acquires m.now handle) y)) }
    ensures followed { OnOk result (AreFollowed m.now called.new marks.new) }
{
    if is_member(called, handle) {
        return Ok(());
    }
    mark(called, handle)?;
    mark_all(marks, m.own_acquires(handle))
}
