// Rule e of linking: the functions that a module's handles name are there, with the same types, and public where they are of
// another module. Types are compared by names in a bundle, and by where structs are defined with what the store keeps.
ghost use Rattle.std.specs.Prelude.{◌≡◌, ◌<◌, ◌&&◌, ◌||◌, List, true, false, slice_get, Some, IsTrue, IfOk, IfErr, IfSome, OnOk, MatchOption};
ghost use Rattle.std.specs.List.{list_all};
ghost use Rattle.std.specs.Option.{option_map_or};
ghost use Rattle.mv_move_types.specs.Module.{Module as Tables, FunctionDefinition as FunctionTable, module_name as name_of_module, own_name};
ghost use Rattle.mv_move_types.specs.Names.{ModuleName, same_module};
ghost use Rattle.mv_move_types.specs.Refusals.{IsRefusedIn};
ghost use Rattle.mv_linker.specs.Found.{AreTargets, IsFound};
ghost use Rattle.mv_interface.specs.Handles.{AreFunctionsAt, AreStructsAt, IsFunctionAt, IsFunctionIn};
ghost use Rattle.mv_interface.specs.Interface.{IsInterface};
ghost use Rattle.mv_linker.specs.Matches.{IsOf, function_matches};
ghost use Rattle.mv_link_rules.specs.StoreRules.{function_fits, function_is_there};
ghost use Rattle.mv_linker.specs.Targets.{modules_in};
ghost use Rattle.mv_interface.specs.TypesByDefinition.{are_types};
ghost use Rattle.mv_bound_rules.specs.TypesByName.{both_there};

use crate::rules::named_modules::{Found, Target};
use crate::rules::named_structs::{definition, target_at};
use crate::rules::pushed::pushed;
use crate::rules::scope::Scope;
use mv_binary_format::{FunctionDefinition, Module};
use mv_bound_rules::function_places;
use mv_interface::{
    Interface, LinkedType, function_handle, have_one_name, is_public, is_signature, names_own,
    same_signature,
};
use mv_move_types::{Definition, FunctionHandle, Refusal};
use std::alloc::Global;

/// Whether a function definition has the types that a handle says, and may be called from the handle's module.
fn fits(m: &Module<'_>, handle: FunctionHandle, n: &Module<'_>, d: &FunctionDefinition) -> bool
    ensures { result ≡ function_fits m.now handle n.now d.now }
{
    let may_call = is_public(d) || have_one_name(m, n);
    match function_handle(n, d.handle() as usize) {
        Some(own) => {
            may_call
                && (same_signature(m, handle.parameters as usize, n, own.parameters as usize)
                    && same_signature(m, handle.results as usize, n, own.results as usize))
        }
        None => false,
    }
}

/// Whether a function with these types may be called from a module, and has those that one of its handles says. `structs` has
/// where the structs of the module's handles are defined.
fn fits_types(
    m: &Module<'_>,
    handle: FunctionHandle,
    structs: &[Definition],
    is_public: bool,
    parameters: &[LinkedType],
    results: &[LinkedType],
) -> bool
    ensures { result ≡ ((is_public || both_there same_module (name_of_module m.now handle.module) (own_name m.now))
        && (option_map_or (λ ts. are_types structs.now ts parameters.now) (slice_get m.now.signatures handle.parameters) false
        && option_map_or (λ ts. are_types structs.now ts results.now) (slice_get m.now.signatures handle.results) false)) }
{
    let may_call = is_public || names_own(m, handle.module as usize);
    may_call
        && (is_signature(m, handle.parameters, structs, parameters)
            && is_signature(m, handle.results, structs, results))
}

/// Whether a function of which an interface is kept has the types that a handle says, and may be called from the handle's module.
fn fits_kept(
    m: &Module<'_>,
    handle: FunctionHandle,
    structs: &[Definition],
    kept: &Interface,
    index: usize,
) -> bool
    ensures { (modules : List Tables) (n : Tables) (home : ModuleName) (d : FunctionTable) → IsOf m.now handle.module n home → IsInterface modules n kept.now
        → AreStructsAt modules m.now structs.now → slice_get n.functions index ≡ Some d → result ≡ function_fits m.now handle n d }
{
    let Some(parameters) = kept.parameters.get(index) else {
        return false;
    };
    let Some(results) = kept.results.get(index) else {
        return false;
    };
    let is_public = kept.outline.is_public(index);
    fits_types(m, handle, structs, is_public, parameters, results)
}

/// Whether the function at an index of a module is there as a handle says.
fn fits_at(m: &Module<'_>, handle: FunctionHandle, n: &Module<'_>, index: usize) -> bool
    ensures { (d : FunctionTable) → slice_get n.now.functions index ≡ Some d → result ≡ function_fits m.now handle n.now d }
{
    match n.functions().get(index) {
        Some(d) => fits(m, handle, n, d),
        None => false,
    }
}

/// Whether the function at an index of a module that was found is as a handle says.
fn fits_found(
    m: &Module<'_>,
    handle: FunctionHandle,
    structs: &[Definition],
    found: &Found<'_>,
    index: usize,
) -> bool
    ensures { (modules : List Tables) (n : Tables) (home : ModuleName) (d : FunctionTable) → IsOf m.now handle.module n home → IsFound modules n found.now
        → AreStructsAt modules m.now structs.now → slice_get n.functions index ≡ Some d → result ≡ function_fits m.now handle n d }
{
    match found {
        Found::New(n, _) => fits_at(m, handle, n, index),
        Found::Kept(kept) => fits_kept(m, handle, structs, kept, index),
    }
}

/// The index of the function that a handle names, if a module that was found has it as the handle says.
fn function_in(
    m: &Module<'_>,
    handle: FunctionHandle,
    structs: &[Definition],
    found: &Found<'_>,
    likely: Option<usize>,
) -> Option<usize>
    ensures found { (modules : List Tables) (n : Tables) (home : ModuleName) → IsOf m.now handle.module n home
        → IsFound modules n found.now → AreStructsAt modules m.now structs.now
        → MatchOption result (function_matches m.now handle n ≡ false) (λ k. (function_matches m.now handle n ≡ true) × IsFunctionIn m.now handle n k) }
    ensures few { IfSome result (λ k. k < 65536) }
{
    let name = m.identifier(handle.name as usize)?;
    let index = found.outline().function_named(name, likely)?;
    if fits_found(m, handle, structs, found, index) {
        Some(index)
    } else {
        None
    }
}

impl<'a> Scope<'a> {
    /// Where the function of a handle is defined; `Phase(13)`, where it is not there as the handle says.
    fn function(
        &self,
        m: &Module<'_>,
        targets: &[Target<'_>],
        structs: &[Definition],
        h: usize,
        handle: FunctionHandle,
        likely: Option<usize>,
    ) -> Result<Definition, Refusal>
        requires named { AreTargets (modules_in self.now) m.now targets.now }
        requires structs { AreStructsAt (modules_in self.now) m.now structs.now }
        requires handle { slice_get m.now.function_handles h ≡ Some handle }
        ensures ok { IfOk result (IsFunctionAt (modules_in self.now) m.now h) }
        ensures there { OnOk result (IsTrue (function_is_there (modules_in self.now) m.now handle)) }
        ensures refused { IfErr result (IsRefusedIn 13 (IsTrue (function_is_there (modules_in self.now) m.now handle))) }
    {
        let Some(target) = target_at(targets, handle.module as usize) else {
            return Err(Refusal::Phase(13));
        };
        match function_in(m, handle, structs, &target.module, likely) {
            Some(index) => Ok(definition(target.place, index)),
            None => Err(Refusal::Phase(13)),
        }
    }

    /// Where the functions of a module's handles are defined; `Phase(13)`, where one is not there as its handle says. `structs`
    /// has where its structs are.
    pub fn functions(
        &self,
        alloc: Global,
        m: &Module<'_>,
        targets: &[Target<'_>],
        structs: &[Definition],
    ) -> Result<Vec<Definition>, Refusal>
        requires named { AreTargets (modules_in self.now) m.now targets.now }
        requires structs { AreStructsAt (modules_in self.now) m.now structs.now }
        ensures ok { IfOk result (λ v. AreFunctionsAt (modules_in self.now) m.now v.items) }
        ensures there { OnOk result (IsTrue (list_all (function_is_there (modules_in self.now) m.now) m.now.function_handles)) }
        ensures refused { IfErr result (IsRefusedIn 13 (IsTrue (list_all (function_is_there (modules_in self.now) m.now) m.now.function_handles))) }
    {
        // Where its own functions are likely to stand, so that no search is needed for these.
        let likely = function_places(alloc, m)?;
        let mut found = Vec::with_capacity(alloc, likely.len())?;
        for h in 0..m.function_handles().len() {
            let handle = m.function_handles()[h];
            let definition = self.function(m, targets, structs, h, handle, likely[h])?;
            pushed(&mut found, definition)?;
        }
        Ok(found)
    }
}
