// Which definition each handle has.
ghost use Rattle.std.specs.Prelude.{◌≡◌, map, slice_get, unwrap_or, None, IfOk};
ghost use Rattle.mv_move_types.specs.Module.{StructDefinition as StructTable, FunctionDefinition as FunctionTable};
ghost use Rattle.mv_bound_rules.specs.Places.{ArePlaces, AreStructPlaces, AreFunctionPlaces};

use mv_binary_format::Module;
use std::alloc::{AllocError, Global};

/// The handle of each struct definition.
pub fn defined_structs(alloc: Global, m: &Module) -> Result<Vec<u16>, AllocError>
    ensures { IfOk result (λ v. v.items ≡ map (λ (d : StructTable). d.handle) m.now.structs) }
{
    m.structs().iter().map(|d| d.handle()).collect(alloc)
}

/// The handle of each function definition.
pub fn defined_functions(alloc: Global, m: &Module) -> Result<Vec<u16>, AllocError>
    ensures { IfOk result (λ v. v.items ≡ map (λ (d : FunctionTable). d.handle) m.now.functions) }
{
    m.functions().iter().map(|d| d.handle()).collect(alloc)
}

/// For each of `handles` handles, its first definition, if there is one; `defined` lists the definitions' handles.
fn places(alloc: Global, handles: usize, defined: &[u16]) -> Result<Vec<Option<usize>>, AllocError>
    ensures { IfOk result (λ v. ArePlaces defined.now handles v.items) }
{
    let mut places = vec![in alloc; None; handles]?;
    for i in 0..defined.len() {
        let handle = usize::from(defined[i]);
        if handle < places.len() && places[handle].is_none() {
            places[handle] = Some(i);
        }
    }
    Ok(places)
}

/// The definition of each struct handle, if the module has one.
pub fn struct_places(alloc: Global, m: &Module) -> Result<Vec<Option<usize>>, AllocError>
    ensures { IfOk result (λ v. AreStructPlaces m.now v.items) }
{
    if m.struct_handles().is_empty() {
        return Ok(Vec::new(alloc));
    }
    let defined = defined_structs(alloc, m)?;
    places(alloc, m.struct_handles().len(), &defined)
}

/// The definition of each function handle, if the module has one.
pub fn function_places(alloc: Global, m: &Module) -> Result<Vec<Option<usize>>, AllocError>
    ensures { IfOk result (λ v. AreFunctionPlaces m.now v.items) }
{
    if m.function_handles().is_empty() {
        return Ok(Vec::new(alloc));
    }
    let defined = defined_functions(alloc, m)?;
    places(alloc, m.function_handles().len(), &defined)
}

/// The definition of a handle by such a table, if there is one.
pub fn place_at(places: &[Option<usize>], handle: u16) -> Option<usize>
    ensures { result ≡ unwrap_or (slice_get places.now handle) None }
{
    places.get(usize::from(handle)).copied().unwrap_or(None)
}
