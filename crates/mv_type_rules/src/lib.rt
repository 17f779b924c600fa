//! The rules of phases 5 to 8, as definitions: how the types on the stack change, and when a module is well typed. With them the modules
//! of which these rules hold. `mv_type_states` contains the code that tests them.
#![tactic(auto)]

ghost use Rattle.std.specs.Prelude.{◌≡◌, ◌<◌, length, map, slice_get, IfSome};
ghost use Rattle.mv_cfg.specs.FlowGraph.{IsFlowGraph};
ghost use Rattle.mv_type_rules.specs.Graphs.{AreGraphs};
ghost use Rattle.mv_type_rules.specs.Sound.{IsSound, types_before};

mod stack_types;
mod tops;

pub use mv_bound_rules::{Bounded, Module};
use mv_cfg::Cfg;
pub use stack_types::StackTypes;
use std::marker::Model;
pub use tops::Tops;

/// A module that passed phases 3 to 8, with the flow graphs of its functions and the types before their instructions.
#[derive(Drop)]
pub struct Typed<'a> {
    bounded: Bounded<'a>,
    graphs: Vec<Cfg>,
    stacks: Vec<StackTypes>,
}

impl<'a> Model for Typed<'a> {
    ghost use Rattle.std.specs.Prelude.{◌≡◌, ℕ, length, map, Some, slice_get};
    ghost use Rattle.mv_move_types.specs.Module.{Module as Tables, FunctionDefinition as FunctionTable};
    ghost use Rattle.mv_cfg.specs.declared.Cfg.{Cfg as Graph};
    ghost use Rattle.mv_cfg.specs.FlowGraph.{IsFlowGraph};
    ghost use Rattle.mv_type_rules.specs.Sound.{IsSound, types_before};

    ghost Value = { Tables };

    ghost view = { λ t. t.bounded };

    ghost invariant = { λ t. IsSound t.bounded × (length t.graphs.items ≡ length t.bounded.functions)
        × ((f : ℕ) (d : FunctionTable) (g : Graph) → slice_get t.bounded.functions f ≡ Some d → slice_get t.graphs.items f ≡ Some g → IsFlowGraph d.code g)
        × (t.stacks.items ≡ map (types_before t.bounded) t.bounded.functions) };
}

impl<'a> Typed<'a> {
    /// A module that passed phases 3 and 4, once phases 5 to 8 hold of it, with the flow graphs of its functions and the types before
    /// their instructions. `mv_type_states::check` is what finds these.
    pub fn new(bounded: Bounded<'a>, graphs: Vec<Cfg>, stacks: Vec<StackTypes>) -> Self
        requires sound { IsSound bounded }
        requires graphs { AreGraphs bounded.functions (length bounded.functions) graphs.items }
        requires stacks { stacks.items ≡ map (types_before bounded) bounded.functions }
        ensures { result ≡ bounded.entry }
    {
        Typed {
            bounded,
            graphs,
            stacks,
        }
    }

    /// The module, as phases 3 and 4 left it.
    pub fn bounded(&self) -> &Bounded<'a>
        ensures value { result.now ≡ self.now }
        ensures sound { IsSound self.now }
    {
        &self.bounded
    }

    /// The module.
    pub fn module(&self) -> &Module<'a>
        ensures value { result.now ≡ self.now }
        ensures sound { IsSound self.now }
    {
        self.bounded.module()
    }

    /// The flow graph of function `f`.
    pub fn graph(&self, f: usize) -> &Cfg
        requires { f < length self.now.functions }
        ensures { IfSome (slice_get self.now.functions f) (λ d. IsFlowGraph d.code result.now) }
    {
        &self.graphs[f]
    }

    /// The types of the whole stack before each instruction of function `f`.
    pub fn stack_types(&self, f: usize) -> &StackTypes
        requires { f < length self.now.functions }
        ensures { IfSome (slice_get self.now.functions f) (λ d. result.now ≡ types_before self.now d) }
    {
        &self.stacks[f]
    }
}
