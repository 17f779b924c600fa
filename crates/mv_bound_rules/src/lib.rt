//! The rules of phases 3 and 4, as definitions: that each index is in bounds, and that definitions are well formed. With them the modules
//! of which these rules hold. `mv_bounds` contains the code that tests them.
#![tactic(auto)]

mod functions;
mod places;

ghost use Rattle.std.specs.Prelude.{◌≡◌, ◌<◌, length, map, slice_get, IfSome};
ghost use Rattle.mv_bound_rules.specs.Bounds.{InBounds};
ghost use Rattle.mv_bound_rules.specs.Definitions.{WellDefined};
ghost use Rattle.mv_bound_rules.specs.Places.{IsBounded};

pub use mv_binary_format::{Constant, FunctionDefinition, Module, StructDefinition};
use mv_move_types::Instruction;
pub use places::{defined_functions, defined_structs, function_places, place_at, struct_places};
use std::marker::Model;

/// A module whose indices are in bounds and whose definitions are well formed. The instructions of its functions are read once, and
/// stand here for all later phases.
#[derive(Drop)]
pub struct Bounded<'a> {
    module: Module<'a>,
    places: Vec<Option<usize>>,
    codes: Vec<Vec<Instruction>>,
}

impl<'a> Model for Bounded<'a> {
    ghost use Rattle.std.specs.Prelude.{map};
    ghost use Rattle.mv_move_types.specs.Module.{Module as Tables};
    ghost use Rattle.mv_bound_rules.specs.Places.{IsBounded};

    ghost Value = { Tables };

    ghost view = { λ b. b.module };

    ghost invariant = { λ b. IsBounded b.module b.places.items (map (λ c. c.items) b.codes.items) };
}

impl<'a> Bounded<'a> {
    /// A module that passes phases 3 and 4, with the definition of each function handle that has one and the instructions of each
    /// function. `mv_bounds::check` is what finds this out.
    pub fn new(m: Module<'a>, places: Vec<Option<usize>>, codes: Vec<Vec<Instruction>>) -> Self
        requires { IsBounded m places.items (map (λ c. c.items) codes.items) }
        ensures { result ≡ m.entry }
    {
        Bounded {
            module: m,
            places,
            codes,
        }
    }

    /// The module.
    pub fn module(&self) -> &Module<'a>
        ensures value { result.now ≡ self.now }
        ensures bounds { InBounds self.now }
        ensures definitions { WellDefined self.now }
    {
        &self.module
    }

    /// The instructions of function `f`.
    pub fn code(&self, f: usize) -> &[Instruction]
        requires { f < length self.now.functions }
        ensures { IfSome (slice_get self.now.functions f) (λ d. result.now ≡ d.code) }
    {
        &self.codes[f]
    }
}
