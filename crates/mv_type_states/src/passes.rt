// The types through blocks and functions.
ghost use Rattle.std.specs.Prelude.{◌≡◌, ◌<◌, ◌++◌, length, reverse, slice_get, OnOk, IfErr, IfSome, IsSome, IsTrue, IfOk};
ghost use Rattle.mv_move_types.specs.Refusals.{IsRefusedIn};
ghost use Rattle.mv_cfg.specs.FlowGraph.{IsFlowGraph};
ghost use Rattle.mv_stack_use.specs.Heights.{height_through, function_is_level};
ghost use Rattle.mv_type_rules.specs.TypesHold.{types_through, function_is_typed};
ghost use Rattle.mv_type_rules.specs.Sound.{types_each, types_before};
ghost use Rattle.mv_type_states.specs.Answers.{Follows};
ghost use Rattle.mv_type_states.specs.Scopes.{IsScope};

use super::scope::{Scope, scope_of};
use mv_bound_rules::Bounded;
use mv_cfg::Cfg;
use mv_move_types::{Instruction, Refusal, Token};
use mv_type_rules::StackTypes;
use std::alloc::Global;

/// Carries the types on a stack through these instructions, for which there is always room, and lists those before each.
/// Refused in phase 8 where one doesn't find what it needs.
fn carry(
    scope: &Scope<'_, '_>,
    code: &[Instruction],
    stack: &mut Vec<Token>,
    all: &mut StackTypes,
) -> Result<(), Refusal>
    requires scope { IsScope scope.now }
    requires level { IsSome (height_through scope.now.module.now scope.now.function.now code.now (length (reverse stack.old.items))) }
    ensures types { Follows result (types_through scope.now.module.now scope.now.function.now code.now (reverse stack.old.items)) (reverse stack.new.items) }
    ensures listed { OnOk result (all.new ≡ all.old ++ types_each scope.now.module.now scope.now.function.now code.now (reverse stack.old.items)) }
{
    for instruction in code {
        all.add(stack)?;
        scope.step(*instruction, stack)?;
    }
    Ok(())
}

/// Accepts a function exactly where each instruction of each block finds the types that it needs, and each block begins
/// and ends with none: the types before each. Each block is level already; `code` is the function's code, and `g` its flow
/// graph. The types are put on `stack`, whatever it contains.
fn check_blocks(
    alloc: Global,
    scope: &Scope<'_, '_>,
    code: &[Instruction],
    g: &Cfg,
    stack: &mut Vec<Token>,
) -> Result<StackTypes, Refusal>
    requires scope { IsScope scope.now }
    requires code { code.now ≡ scope.now.function.now.code }
    requires graph { IsFlowGraph scope.now.function.now.code g.now }
    requires level { IsTrue (function_is_level scope.now.module.now scope.now.function.now) }
    ensures ok { OnOk result (IsTrue (function_is_typed scope.now.module.now scope.now.function.now)) }
    ensures listed { IfOk result (λ all. all ≡ types_before scope.now.module.now scope.now.function.now) }
    ensures refused { IfErr result (IsRefusedIn 8 (IsTrue (function_is_typed scope.now.module.now scope.now.function.now))) }
{
    let mut all = StackTypes::with_room(alloc, code.len())?;
    // Each block leaves it empty.
    stack.clear();
    for block in &g.blocks {
        carry(scope, &code[block.first..=block.last], stack, &mut all)?;
    }
    Ok(all)
}

/// Accepts function `f` exactly if each instruction of each block finds the types that it needs, and each block begins and
/// ends with none; returns the types of the whole stack before each instruction. `g` is the function's flow
/// graph. The types are put on `stack`, whatever it contains.
pub fn check_function(
    alloc: Global,
    m: &Bounded<'_>,
    f: usize,
    g: &Cfg,
    stack: &mut Vec<Token>,
) -> Result<StackTypes, Refusal>
    requires function { f < length m.now.functions }
    requires graph { IfSome (slice_get m.now.functions f) (λ d. IsFlowGraph d.code g.now) }
    ensures ok { OnOk result (IfSome (slice_get m.now.functions f) (λ d. IsTrue (function_is_typed m.now d))) }
    ensures listed { IfOk result (λ all. IfSome (slice_get m.now.functions f) (λ d. all ≡ types_before m.now d)) }
    ensures refused { IfErr result (λ e. IfSome (slice_get m.now.functions f) (λ d. IsRefusedIn 8 (IsTrue (function_is_typed m.now d)) e)) }
{
    let scope = scope_of(m, f);
    mv_stack_use::check(m, f, g)?;
    check_blocks(alloc, &scope, m.code(f), g, stack)
}
