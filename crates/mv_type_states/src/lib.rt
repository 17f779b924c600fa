//! Phases 5 to 8 of publishing, and the types on the stack at each instruction.
//!
//! ```
//! use mv_move_types::Refusal;
//! use std::alloc::Global;
//!
//! /// How many operands stand on the stack before the second instruction of a module's first function, if there is one.
//! fn example(alloc: Global, bytes: &[u8]) -> Result<usize, Refusal> {
//!     let module = mv_binary_format::decode(alloc, bytes)?;
//!     let typed = mv_type_states::check(alloc, mv_bounds::check(alloc, module)?)?;
//!     if typed.module().functions().is_empty() || typed.stack_types(0).len() < 2 {
//!         return Ok(0);
//!     }
//!     Ok(typed.stack_types(0).before(1).len())
//! }
//! ```
#![tactic(auto)]

ghost use Rattle.std.specs.Prelude.{◌≡◌, ◌<◌, length, map, IfOk, IfErr, OnOk};
ghost use Rattle.mv_move_types.specs.Refusals.{IsRefusedBy, IsRefusedIn};
ghost use Rattle.mv_cfg.specs.Blocks.{FlowHolds};
ghost use Rattle.mv_signatures.specs.Signatures.{WellSigned};
ghost use Rattle.mv_abilities.specs.Abilities.{AbilitiesHold};
ghost use Rattle.mv_type_rules.specs.TypesHold.{TypesHold};
ghost use Rattle.mv_type_rules.specs.Graphs.{AreGraphs};
ghost use Rattle.mv_type_rules.specs.Sound.{FailsTypes, types_before};

mod passes;
mod rules;
mod scope;
mod stack;

use mv_bound_rules::Bounded;
use mv_cfg::Cfg;
use mv_move_types::Refusal;
pub use mv_type_rules::{StackTypes, Tops, Typed};
use passes::check_function;
use std::alloc::{AllocError, Global};

/// The flow graphs of all functions, in order; refused in phase 7 where a function has none.
fn flow_graphs(alloc: Global, m: &Bounded<'_>) -> Result<Vec<Cfg>, Refusal>
    ensures ok { IfOk result (λ graphs. AreGraphs m.now.functions (length m.now.functions) graphs.items) }
    ensures refused { IfErr result (IsRefusedIn 7 (FlowHolds m.now)) }
{
    let count = m.module().functions().len();
    let mut graphs = Vec::with_capacity(alloc, count)?;
    for f in 0..count {
        let graph = mv_cfg::blocks(alloc, m, f)?;
        graphs.push(graph).map_err(AllocError::from)?;
    }
    Ok(graphs)
}

/// Accepts exactly the modules whose functions are well typed, and returns the types before the instructions of each. `graphs`
/// are the functions' flow graphs.
fn check_functions(
    alloc: Global,
    m: &Bounded<'_>,
    graphs: &[Cfg],
) -> Result<Vec<StackTypes>, Refusal>
    requires { AreGraphs m.now.functions (length m.now.functions) graphs.now }
    ensures ok { OnOk result (TypesHold m.now) }
    ensures listed { IfOk result (λ stacks. stacks.items ≡ map (types_before m.now) m.now.functions) }
    ensures refused { IfErr result (IsRefusedIn 8 (TypesHold m.now)) }
{
    let mut stacks = Vec::with_capacity(alloc, graphs.len())?;
    // The functions use it one after the other.
    let mut stack = Vec::new(alloc);
    for (f, graph) in graphs.iter().enumerate() {
        let all = check_function(alloc, m, f, graph, &mut stack)?;
        stacks.push(all).map_err(AllocError::from)?;
    }
    Ok(stacks)
}

/// Tries phases 5, 6, 7 and 8 on a module.
///
/// # Errors
///
/// `Phase` with the first of these that the module fails; `Memory`, if an allocation failed.
pub fn check<'a>(alloc: Global, m: Bounded<'a>) -> Result<Typed<'a>, Refusal>
    ensures ok { IfOk result (λ t. t ≡ m.entry) }
    ensures refused { IfErr result (IsRefusedBy (FailsTypes m.entry)) }
{
    let (graphs, stacks) = try_phases(alloc, &m)?;
    Ok(Typed::new(m, graphs, stacks))
}

/// Tries the phases in turn: the flow graphs of the functions, and the types before their instructions.
fn try_phases(alloc: Global, m: &Bounded<'_>) -> Result<(Vec<Cfg>, Vec<StackTypes>), Refusal>
    ensures signed { OnOk result (WellSigned m.now) }
    ensures abilities { OnOk result (AbilitiesHold m.now) }
    ensures types { OnOk result (TypesHold m.now) }
    ensures graphs { IfOk result (λ found. AreGraphs m.now.functions (length m.now.functions) found.0.items) }
    ensures stacks { IfOk result (λ found. found.1.items ≡ map (types_before m.now) m.now.functions) }
    ensures refused { IfErr result (IsRefusedBy (FailsTypes m.now)) }
{
    mv_signatures::check(m)?;
    mv_abilities::check(m)?;
    let graphs = flow_graphs(alloc, m)?;
    let stacks = check_functions(alloc, m, &graphs)?;
    Ok((graphs, stacks))
}
