// Phase 4: no entry occurs twice, and the module defines each of its own structs and functions once.
ghost use Rattle.std.specs.Prelude.{◌≡◌, ◌↔◌, ◌==◌, ◌&&◌, ◌<◌, List, ℕ, length, nat_lt, IsTrue, IfOk, map, count_by, slice_index, vec_len};
ghost use Rattle.std.specs.List.{list_all, list_any};
ghost use Rattle.std.specs.Str.{bytes_eq};
ghost use Rattle.std.specs.BTreeSet.{IsFromIterResult};
ghost use Rattle.mv_move_types.specs.Module.{Constant as ConstantEntry, StructDefinition as StructTable, FunctionDefinition as FunctionTable};
ghost use Rattle.mv_move_types.specs.Tokens.{same_tokens};
ghost use Rattle.mv_move_types.specs.declared.tables.ModuleHandle.{ModuleHandle};
ghost use Rattle.mv_move_types.specs.declared.tables.StructHandle.{StructHandle};
ghost use Rattle.mv_move_types.specs.declared.tables.FunctionHandle.{FunctionHandle};
ghost use Rattle.mv_move_types.specs.declared.tables.FieldHandle.{FieldHandle};
ghost use Rattle.mv_move_types.specs.declared.tables.Field.{Field as FieldEntry};
ghost use Rattle.mv_bound_rules.specs.Bounds.{InBounds};
ghost use Rattle.mv_bounds.specs.Codes.{token_code};
ghost use Rattle.mv_bound_rules.specs.Definitions.{all_differ, same_constant, defined_once, struct_home, function_home, WellDefined};

use super::codes::{token_code, token_codes};
use super::containment::are_finite;
use mv_binary_format::{Constant, Module};
use mv_bound_rules::{defined_functions, defined_structs};
use mv_move_types::Field;
use std::alloc::{AllocError, Global};
use std::collections::BTreeSet;

/// The items as a set.
fn set_of<K: Ord + Copy>(alloc: Global, items: &[K]) -> Result<BTreeSet<K>, AllocError>
    ensures { IfOk result (IsFromIterResult K.cmp items.now) }
{
    items.iter().copied().collect(alloc)
}

/// Whether no two items are equal, by the set of them.
fn differ_as_set<K: Ord + Copy>(alloc: Global, items: &[K]) -> Result<bool, AllocError>
    ensures { IfOk result (λ b. b ≡ all_differ K.eq items.now) }
{
    let seen = set_of(alloc, items)?;
    Ok(seen.len() == items.len())
}

/// Whether no two items are equal. Fewer than two need no set.
#[tactic(auto, using(crate::proofs::Distinct::few_differ))]
fn all_distinct<K: Ord + Copy>(alloc: Global, items: &[K]) -> Result<bool, AllocError>
    ensures { IfOk result (λ b. b ≡ all_differ K.eq items.now) }
{
    if items.len() < 2 {
        return Ok(true);
    }
    differ_as_set(alloc, items)
}

/// The address and the name of each module handle, as indices.
fn module_names(alloc: Global, m: &Module) -> Result<Vec<(u16, u16)>, AllocError>
    ensures { IfOk result (λ v. v.items ≡ map (λ (h : ModuleHandle). (h.address, h.name)) m.now.module_handles) }
{
    m.module_handles()
        .iter()
        .map(|h| (h.address, h.name))
        .collect(alloc)
}

/// Whether no two module handles have the same address and name, by the list of both.
fn module_names_differ(alloc: Global, m: &Module) -> Result<bool, AllocError>
    ensures { IfOk result (λ b. b ≡ all_differ (λ (x y : ModuleHandle). (x.address == y.address) && (x.name == y.name)) m.now.module_handles) }
{
    let names = module_names(alloc, m)?;
    all_distinct(alloc, &names)
}

/// Whether no two module handles have the same address and name. Many modules name none but themselves.
#[tactic(auto, using(crate::proofs::Distinct::few_differ))]
fn module_handles_differ(alloc: Global, m: &Module) -> Result<bool, AllocError>
    ensures { IfOk result (λ b. b ≡ all_differ (λ (x y : ModuleHandle). (x.address == y.address) && (x.name == y.name)) m.now.module_handles) }
{
    if m.module_handles().len() < 2 {
        return Ok(true);
    }
    module_names_differ(alloc, m)
}

/// The module and the name of each struct handle, as indices.
fn struct_names(alloc: Global, m: &Module) -> Result<Vec<(u16, u16)>, AllocError>
    ensures { IfOk result (λ v. v.items ≡ map (λ (h : StructHandle). (h.module, h.name)) m.now.struct_handles) }
{
    m.struct_handles()
        .iter()
        .map(|h| (h.module, h.name))
        .collect(alloc)
}

/// Whether no two struct handles have the same module and name.
fn struct_handles_differ(alloc: Global, m: &Module) -> Result<bool, AllocError>
    ensures { IfOk result (λ b. b ≡ all_differ (λ (x y : StructHandle). (x.module == y.module) && (x.name == y.name)) m.now.struct_handles) }
{
    let names = struct_names(alloc, m)?;
    all_distinct(alloc, &names)
}

/// The module and the name of each function handle, as indices.
fn function_names(alloc: Global, m: &Module) -> Result<Vec<(u16, u16)>, AllocError>
    ensures { IfOk result (λ v. v.items ≡ map (λ (h : FunctionHandle). (h.module, h.name)) m.now.function_handles) }
{
    m.function_handles()
        .iter()
        .map(|h| (h.module, h.name))
        .collect(alloc)
}

/// Whether no two function handles have the same module and name.
fn function_handles_differ(alloc: Global, m: &Module) -> Result<bool, AllocError>
    ensures { IfOk result (λ b. b ≡ all_differ (λ (x y : FunctionHandle). (x.module == y.module) && (x.name == y.name)) m.now.function_handles) }
{
    let names = function_names(alloc, m)?;
    all_distinct(alloc, &names)
}

/// The definition and the position of each field handle.
fn field_places(alloc: Global, m: &Module) -> Result<Vec<(u16, u16)>, AllocError>
    ensures { IfOk result (λ v. v.items ≡ map (λ (h : FieldHandle). (h.definition, h.position)) m.now.field_handles) }
{
    m.field_handles()
        .iter()
        .map(|h| (h.definition, h.position))
        .collect(alloc)
}

/// Whether no two field handles have the same definition and position.
fn field_handles_differ(alloc: Global, m: &Module) -> Result<bool, AllocError>
    ensures { IfOk result (λ b. b ≡ all_differ (λ (x y : FieldHandle). (x.definition == y.definition) && (x.position == y.position)) m.now.field_handles) }
{
    let places = field_places(alloc, m)?;
    all_distinct(alloc, &places)
}

/// Whether no two addresses are equal.
fn addresses_differ(alloc: Global, m: &Module) -> Result<bool, AllocError>
    ensures { IfOk result (λ b. b ≡ all_differ ◌==◌ m.now.addresses) }
{
    all_distinct(alloc, m.addresses())
}

/// The identifiers.
fn identifiers<'a>(alloc: Global, m: &Module<'a>) -> Result<Vec<&'a [u8]>, AllocError>
    ensures { IfOk result (λ v. map (λ name. name.now) v.items ≡ m.now.identifiers) }
{
    let mut names = Vec::with_capacity(alloc, m.identifier_count())?;
    for i in 0..m.identifier_count() {
        if let Some(name) = m.identifier(i) {
            names.push(name)?;
        }
    }
    Ok(names)
}

/// Whether no two identifiers are equal, by the list of them.
fn texts_differ(alloc: Global, m: &Module) -> Result<bool, AllocError>
    ensures { IfOk result (λ b. b ≡ all_differ bytes_eq m.now.identifiers) }
{
    let texts = identifiers(alloc, m)?;
    all_distinct(alloc, &texts)
}

/// Whether no two identifiers are equal.
#[tactic(auto, using(crate::proofs::Distinct::few_differ))]
fn identifiers_differ(alloc: Global, m: &Module) -> Result<bool, AllocError>
    ensures { IfOk result (λ b. b ≡ all_differ bytes_eq m.now.identifiers) }
{
    if m.identifier_count() < 2 {
        return Ok(true);
    }
    texts_differ(alloc, m)
}

/// The types of each signature, as numbers.
fn signature_codes(alloc: Global, m: &Module) -> Result<Vec<Vec<u32>>, AllocError>
    ensures { IfOk result (λ v. map (λ codes. codes.items) v.items ≡ map (map token_code) m.now.signatures) }
{
    let mut lists = Vec::with_capacity(alloc, m.signature_count())?;
    for i in 0..m.signature_count() {
        if let Some(tokens) = m.signature(i) {
            lists.push(token_codes(alloc, tokens)?)?;
        }
    }
    Ok(lists)
}

/// The lists, each as a slice.
fn slices_of<'a>(alloc: Global, lists: &'a [Vec<u32>]) -> Result<Vec<&'a [u32]>, AllocError>
    ensures { IfOk result (λ v. map (λ slice. slice.now) v.items ≡ map (λ list. list.items) lists.now) }
{
    let mut slices = Vec::with_capacity(alloc, lists.len())?;
    for list in lists {
        slices.push(list.as_slice())?;
    }
    Ok(slices)
}

/// Whether no two signatures are equal.
fn signatures_differ(alloc: Global, m: &Module) -> Result<bool, AllocError>
    ensures { IfOk result (λ b. b ≡ all_differ same_tokens m.now.signatures) }
{
    let codes = signature_codes(alloc, m)?;
    let keys = slices_of(alloc, &codes)?;
    all_distinct(alloc, &keys)
}

/// The type of each constant, as a number, and its bytes.
fn constant_keys<'a>(
    alloc: Global,
    constants: &[Constant<'a>],
) -> Result<Vec<(u32, &'a [u8])>, AllocError>
    ensures { IfOk result (λ v. map {B = ℕ × List ℕ} (λ k. (k.0, k.1.now)) v.items ≡ map {B = ℕ × List ℕ} (λ (c : ConstantEntry). (token_code c.token, c.bytes)) constants.now) }
{
    let mut keys = Vec::with_capacity(alloc, constants.len())?;
    for constant in constants {
        keys.push((token_code(constant.token()), constant.bytes()))?;
    }
    Ok(keys)
}

/// Whether no two of the constants are equal: they have one type and the same bytes.
fn constants_differ(alloc: Global, constants: &[Constant]) -> Result<bool, AllocError>
    ensures { IfOk result (λ b. b ≡ all_differ same_constant constants.now) }
{
    let keys = constant_keys(alloc, constants)?;
    all_distinct(alloc, &keys)
}

/// Whether one of the fields has this name.
fn has_name(fields: &[Field], name: u16) -> bool
    ensures { result ≡ list_any (λ (f : FieldEntry). name == f.name) fields.now }
{
    fields.iter().any(|f| name == f.name)
}

/// Whether no two of a struct's fields have one name. It has at most 32.
fn field_names_differ(fields: &[Field]) -> bool
    ensures { result ≡ all_differ (λ (x y : FieldEntry). x.name == y.name) fields.now }
{
    let mut left = fields;
    while let Some((first, others)) = left.split_first() {
        if has_name(others, first.name) {
            return false;
        }
        left = others;
    }
    true
}

/// Whether in each struct the fields' names differ.
fn all_field_names_differ(m: &Module) -> bool
    ensures { result ≡ list_all (λ (d : StructTable). all_differ (λ (x y : FieldEntry). x.name == y.name) d.fields) m.now.structs }
{
    m.structs().iter().all(|d| field_names_differ(d.fields()))
}

/// Whether each struct has fields.
fn all_have_fields(m: &Module) -> bool
    ensures { result ≡ list_all (λ (d : StructTable). nat_lt 0 (length d.fields)) m.now.structs }
{
    m.structs().iter().all(|d| !d.fields().is_empty())
}

/// How often each number below `n` stands among the items.
fn counts(alloc: Global, n: usize, items: &[u16]) -> Result<Vec<usize>, AllocError>
    ensures len { IfOk result (λ v. vec_len v ≡ n) }
    ensures counts { IfOk result (λ v. (k : ℕ) → k < n → slice_index v.items k ≡ count_by (λ x. x == k) items.now) }
{
    let mut counts = vec![in alloc; 0usize; n]?;
    for x in items {
        let at = usize::from(*x);
        if at < n {
            counts[at] += 1;
        }
    }
    Ok(counts)
}

/// Whether each handle of the module itself has exactly one definition, and every other handle none.
fn defined_once(alloc: Global, homes: &[u16], own: u16, defined: &[u16]) -> Result<bool, AllocError>
    ensures { IfOk result (λ b. b ≡ defined_once (λ h. slice_index homes.now h) own (length homes.now) defined.now) }
{
    let counts = counts(alloc, homes.len(), defined)?;
    for h in 0..homes.len() {
        if counts[h] != usize::from(homes[h] == own) {
            return Ok(false);
        }
    }
    Ok(true)
}

/// The module handle of each struct handle.
fn struct_homes(alloc: Global, m: &Module) -> Result<Vec<u16>, AllocError>
    ensures { IfOk result (λ v. v.items ≡ map (λ (h : StructHandle). h.module) m.now.struct_handles) }
{
    m.struct_handles().iter().map(|h| h.module).collect(alloc)
}

/// The module handle of each function handle.
fn function_homes(alloc: Global, m: &Module) -> Result<Vec<u16>, AllocError>
    ensures { IfOk result (λ v. v.items ≡ map (λ (h : FunctionHandle). h.module) m.now.function_handles) }
{
    m.function_handles().iter().map(|h| h.module).collect(alloc)
}

/// Whether the module defines each struct of its own once, and no other.
fn structs_defined_once(alloc: Global, m: &Module) -> Result<bool, AllocError>
    ensures { IfOk result (λ b. b ≡ defined_once (struct_home m.now) m.now.own (length m.now.struct_handles) (map (λ (d : StructTable). d.handle) m.now.structs)) }
{
    if m.struct_handles().is_empty() {
        return Ok(true);
    }
    let homes = struct_homes(alloc, m)?;
    let defined = defined_structs(alloc, m)?;
    defined_once(alloc, &homes, m.own(), &defined)
}

/// Whether the module defines each function of its own once, and no other.
fn functions_defined_once(alloc: Global, m: &Module) -> Result<bool, AllocError>
    ensures { IfOk result (λ b. b ≡ defined_once (function_home m.now) m.now.own (length m.now.function_handles) (map (λ (d : FunctionTable). d.handle) m.now.functions)) }
{
    if m.function_handles().is_empty() {
        return Ok(true);
    }
    let homes = function_homes(alloc, m)?;
    let defined = defined_functions(alloc, m)?;
    defined_once(alloc, &homes, m.own(), &defined)
}

/// Whether no handle of a module stands twice.
fn handles_differ(alloc: Global, m: &Module) -> Result<bool, AllocError>
    ensures { IfOk result (λ b. IsTrue b ↔ (IsTrue (all_differ (λ (x y : ModuleHandle). (x.address == y.address) && (x.name == y.name)) m.now.module_handles)
        × IsTrue (all_differ (λ (x y : FieldHandle). (x.definition == y.definition) && (x.position == y.position)) m.now.field_handles)
        × IsTrue (all_differ (λ (x y : StructHandle). (x.module == y.module) && (x.name == y.name)) m.now.struct_handles)
        × IsTrue (all_differ (λ (x y : FunctionHandle). (x.module == y.module) && (x.name == y.name)) m.now.function_handles))) }
{
    Ok(
        module_handles_differ(alloc, m)?
            && field_handles_differ(alloc, m)?
            && struct_handles_differ(alloc, m)?
            && function_handles_differ(alloc, m)?,
    )
}

/// Whether no signature, constant, identifier or address of a module stands twice.
fn contents_differ(alloc: Global, m: &Module) -> Result<bool, AllocError>
    ensures { IfOk result (λ b. IsTrue b ↔ (IsTrue (all_differ same_tokens m.now.signatures) × IsTrue (all_differ same_constant m.now.constants)
        × IsTrue (all_differ bytes_eq m.now.identifiers) × IsTrue (all_differ ◌==◌ m.now.addresses))) }
{
    Ok(
        signatures_differ(alloc, m)?
            && constants_differ(alloc, m.constants())?
            && identifiers_differ(alloc, m)?
            && addresses_differ(alloc, m)?,
    )
}

/// Whether a module defines each of its own structs and functions once, and each struct has fields, all of different names.
fn definitions_hold(alloc: Global, m: &Module) -> Result<bool, AllocError>
    ensures { IfOk result (λ b. IsTrue b ↔ (IsTrue (defined_once (struct_home m.now) m.now.own (length m.now.struct_handles) (map (λ (d : StructTable). d.handle) m.now.structs))
        × IsTrue (defined_once (function_home m.now) m.now.own (length m.now.function_handles) (map (λ (d : FunctionTable). d.handle) m.now.functions))
        × IsTrue (list_all (λ (d : StructTable). all_differ (λ (x y : FieldEntry). x.name == y.name) d.fields) m.now.structs)
        × IsTrue (list_all (λ (d : StructTable). nat_lt 0 (length d.fields)) m.now.structs))) }
{
    Ok(
        structs_defined_once(alloc, m)?
            && functions_defined_once(alloc, m)?
            && all_field_names_differ(m)
            && all_have_fields(m),
    )
}

/// Whether no entry of a module occurs twice, it defines each of its own structs and functions once, and its structs are finite.
pub fn well_defined(alloc: Global, m: &Module) -> Result<bool, AllocError>
    requires { InBounds m.now }
    ensures { IfOk result (λ b. IsTrue b ↔ WellDefined m.now) }
{
    Ok(
        handles_differ(alloc, m)?
            && contents_differ(alloc, m)?
            && definitions_hold(alloc, m)?
            && are_finite(alloc, m)?,
    )
}
