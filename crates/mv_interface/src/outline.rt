// What the structs, fields and functions of a module are called and how they may be used, without types.
ghost use Rattle.std.specs.Prelude.{◌≡◌, ◌≤◌, ◌<◌, ℕ, length, map, option_map, slice_get, false, [], Some, IsTrue, IfOk, OnOk, IfSome, MatchOption};
ghost use Rattle.std.specs.Option.{option_map_or};
ghost use Rattle.std.specs.Str.{bytes_eq};
ghost use Rattle.mv_move_types.specs.Limits.{most_name_bytes};
ghost use Rattle.mv_bound_rules.specs.Bounds.{InBounds};
ghost use Rattle.mv_interface.specs.ByName.{IsByName, names_at};
ghost use Rattle.mv_interface.specs.Outline.{IsOutline, are_names, IsStructNamed, IsFunctionNamed, identifier_at, struct_by, function_by, names_by};

use crate::by_name::{ByName, by_name, find};
use crate::definitions::is_public;
use crate::lists::Lists;
use mv_binary_format::{FunctionDefinition, Module, StructDefinition};
use mv_move_types::{Abilities, Field};
use std::alloc::{AllocError, Global};
use std::marker::Model;

/// A struct: the index of its identifier, and its abilities.
#[derive(Clone, Copy)]
pub struct StructEntry {
    identifier: u16,
    abilities: Abilities,
}

/// A function: the index of its identifier, whether other modules may call it, and whether it is an entry.
#[derive(Clone, Copy)]
pub struct FunctionEntry {
    identifier: u16,
    is_public: bool,
    is_entry: bool,
}

/// What others can name of a module: its structs with their abilities and the names of their fields, and its functions, in the
/// order of the definitions. Its model has the names themselves; they are kept once each, as the module's table of identifiers.
#[derive(Drop)]
pub struct Outline {
    identifiers: Lists<u8>,
    structs: Vec<StructEntry>,
    fields: Lists<u16>,
    functions: Vec<FunctionEntry>,
    structs_by_name: Vec<ByName>,
    functions_by_name: Vec<ByName>,
}

impl Model for Outline {
    ghost use Rattle.std.specs.Prelude.{◌≤◌, length, map};
    ghost use Rattle.mv_interface.specs.ByName.{IsByName, names_at};
    ghost use Rattle.mv_interface.specs.Outline.{OutlineView, outline_kept};

    ghost Value = { OutlineView };

    ghost view = { λ o. outline_kept o.identifiers o.structs.items o.fields o.functions.items };

    ghost invariant = { λ o. length o.structs.items ≤ 65536 × length o.functions.items ≤ 256
        × IsByName o.identifiers (names_at o.identifiers (map (λ s. s.identifier) o.structs.items)) o.structs_by_name.items
        × IsByName o.identifiers (names_at o.identifiers (map (λ f. f.identifier) o.functions.items)) o.functions_by_name.items };
}

// The identifier at an index of a module's table.
pub fn identifier_at(identifiers: &Lists<u8>, index: u16) -> &[u8]
    ensures { result.now ≡ identifier_at identifiers.now index }
{
    identifiers.get(usize::from(index)).unwrap_or(&[])
}

// The identifier at an index of a module's own table, which is there.
fn identifier_in<'a>(m: &Module<'a>, index: usize) -> &'a [u8]
    requires { index < length m.now.identifiers }
    ensures value { slice_get m.now.identifiers index ≡ Some result.now }
    ensures short { length result.now ≤ most_name_bytes }
{
    // For the prover: an identifier has at most 128 bytes.
    m.has_text();
    match m.identifier(index) {
        Some(name) => name,
        None => &[],
    }
}

// How many bytes the identifiers of a module's table have together, so that they get just the room that they take.
fn byte_count(m: &Module<'_>) -> usize {
    let mut count: usize = 0;
    for i in 0..m.identifier_count() {
        if let Some(name) = m.identifier(i) {
            count = count.saturating_add(name.len());
        }
    }
    count
}

// How many fields the structs of a module have together, likewise.
pub(crate) fn field_count(m: &Module<'_>) -> usize {
    let mut count: usize = 0;
    for d in m.structs() {
        count = count.saturating_add(d.fields().len());
    }
    count
}

// The identifiers of a module's table.
fn identifiers_of(alloc: Global, m: &Module<'_>) -> Result<Lists<u8>, AllocError>
    ensures { IfOk result (λ l. l ≡ m.now.identifiers) }
{
    // For the prover: at most 65,536 identifiers.
    m.has_text();
    let count = m.identifier_count();
    let mut identifiers = Lists::with_capacity(alloc, count, byte_count(m))?;
    for i in 0..count {
        identifiers.push(identifier_in(m, i))?;
    }
    Ok(identifiers)
}

// A struct definition, whose handle is there.
fn struct_entry(m: &Module<'_>, d: &StructDefinition) -> StructEntry
    ensures { result ≡ struct_by m.now d.now }
{
    match m.struct_handles().get(usize::from(d.handle())) {
        Some(handle) => StructEntry {
            identifier: handle.name,
            abilities: handle.abilities,
        },
        None => StructEntry {
            identifier: 0,
            abilities: Abilities {
                copy: false,
                drop: false,
                store: false,
                key: false,
            },
        },
    }
}

// The struct definitions of a module.
fn structs_of(alloc: Global, m: &Module<'_>) -> Result<Vec<StructEntry>, AllocError>
    ensures value { IfOk result (λ v. v.items ≡ map (struct_by m.now) m.now.structs) }
    ensures few { IfOk result (λ v. length v.items ≤ 65536) }
{
    m.structs()
        .iter()
        .map(|d| struct_entry(m, d))
        .collect(alloc)
}

// A function definition, whose handle is there.
fn function_entry(m: &Module<'_>, d: &FunctionDefinition) -> FunctionEntry
    ensures { result ≡ function_by m.now d.now }
{
    let identifier = match m.function_handles().get(usize::from(d.handle())) {
        Some(handle) => handle.name,
        None => 0,
    };
    FunctionEntry {
        identifier,
        is_public: is_public(d),
        is_entry: d.is_entry(),
    }
}

// The function definitions of a module.
fn functions_of(alloc: Global, m: &Module<'_>) -> Result<Vec<FunctionEntry>, AllocError>
    ensures value { IfOk result (λ v. v.items ≡ map (function_by m.now) m.now.functions) }
    ensures few { IfOk result (λ v. length v.items ≤ 256) }
{
    let functions = m.functions();
    let mut entries = Vec::with_capacity(alloc, functions.len())?;
    for d in functions {
        entries.push(function_entry(m, d))?;
    }
    Ok(entries)
}

// The names of fields, at the end of an empty list.
fn put_names(names: &mut Vec<u16>, fields: &[Field]) -> Result<(), AllocError>
    requires { names.old.items ≡ [] }
    ensures { OnOk result (names.new.items ≡ map (λ f. f.name) fields.now) }
{
    for field in fields {
        names.push(field.name)?;
    }
    Ok(())
}

// The names of the fields of each struct of a module.
fn fields_of(alloc: Global, m: &Module<'_>) -> Result<Lists<u16>, AllocError>
    ensures { IfOk result (λ l. l ≡ map names_by m.now.structs) }
{
    let structs = m.structs();
    let mut fields = Lists::with_capacity(alloc, structs.len(), field_count(m))?;
    let mut names = Vec::new(alloc);
    for d in structs {
        names.clear();
        put_names(&mut names, d.fields())?;
        fields.push(&names)?;
    }
    Ok(fields)
}

// The struct definitions of a module by their names.
fn structs_by_name(
    alloc: Global,
    identifiers: &Lists<u8>,
    structs: &[StructEntry],
) -> Result<Vec<ByName>, AllocError>
    requires { length structs.now ≤ 65536 }
    ensures { IfOk result (λ v. IsByName identifiers.now (names_at identifiers.now (map (λ s. s.identifier) structs.now)) v.items) }
{
    let names: Vec<u16> = structs.iter().map(|s| s.identifier).collect(alloc)?;
    by_name(alloc, identifiers, &names)
}

// The function definitions of a module by their names.
fn functions_by_name(
    alloc: Global,
    identifiers: &Lists<u8>,
    functions: &[FunctionEntry],
) -> Result<Vec<ByName>, AllocError>
    requires { length functions.now ≤ 65536 }
    ensures { IfOk result (λ v. IsByName identifiers.now (names_at identifiers.now (map (λ f. f.identifier) functions.now)) v.items) }
{
    let names: Vec<u16> = functions.iter().map(|f| f.identifier).collect(alloc)?;
    by_name(alloc, identifiers, &names)
}

// Whether a module defines neither structs nor functions.
fn defines_nothing(m: &Module<'_>) -> bool
    ensures structs { IsTrue result → m.now.structs ≡ [] }
    ensures functions { IsTrue result → m.now.functions ≡ [] }
{
    m.structs().is_empty() && m.functions().is_empty()
}

// Whether an identifier is that at an index of another module.
fn has_identifier(identifiers: &Lists<u8>, index: u16, n: &Module<'_>, other: u16) -> bool
    ensures { result ≡ option_map_or (bytes_eq (identifier_at identifiers.now index)) (slice_get n.now.identifiers other) false }
{
    match n.identifier(usize::from(other)) {
        Some(name) => identifier_at(identifiers, index) == name,
        None => false,
    }
}

// Whether names are those of another module's fields, in order.
fn have_names(identifiers: &Lists<u8>, names: &[u16], n: &Module<'_>, fields: &[Field]) -> bool
    ensures { result ≡ are_names (map (identifier_at identifiers.now) names.now) n.now fields.now }
{
    match names {
        [] => fields.is_empty(),
        [x, xs @ ..] => {
            match fields {
                [] => false,
                [f, fs @ ..] => {
                    has_identifier(identifiers, *x, n, f.name) && have_names(identifiers, xs, n, fs)
                }
            }
        }
    }
}

impl Outline {
    /// That of a module that defines nothing.
    fn new(alloc: Global) -> Self
        ensures { result ≡ record { structs = []; fields = []; functions = [] } }
    {
        Outline {
            identifiers: Lists::new(alloc),
            structs: Vec::new(alloc),
            fields: Lists::new(alloc),
            functions: Vec::new(alloc),
            structs_by_name: Vec::new(alloc),
            functions_by_name: Vec::new(alloc),
        }
    }

    /// The outline of a module.
    ///
    /// # Errors
    ///
    /// If an allocation failed.
    pub fn of(alloc: Global, m: &Module<'_>) -> Result<Self, AllocError>
        ensures { IfOk result (λ o. InBounds m.now → IsOutline m.now o) }
    {
        if defines_nothing(m) {
            return Ok(Outline::new(alloc));
        }
        let identifiers = identifiers_of(alloc, m)?;
        let structs = structs_of(alloc, m)?;
        let functions = functions_of(alloc, m)?;
        let structs_by_name = structs_by_name(alloc, &identifiers, &structs)?;
        let functions_by_name = functions_by_name(alloc, &identifiers, &functions)?;
        let fields = fields_of(alloc, m)?;
        Ok(Outline {
            identifiers,
            structs,
            fields,
            functions,
            structs_by_name,
            functions_by_name,
        })
    }

    /// How many structs the module defines.
    pub fn struct_count(&self) -> usize
        ensures count { result ≡ length self.now.structs }
        ensures few { result ≤ 65536 }
    {
        self.structs.len()
    }

    /// How many functions it defines.
    pub fn function_count(&self) -> usize
        ensures count { result ≡ length self.now.functions }
        ensures few { result ≤ 256 }
    {
        self.functions.len()
    }

    /// The identifier of the struct at an index, if it is there.
    pub fn struct_identifier(&self, index: usize) -> Option<&[u8]>
        ensures { option_map (λ b. b.now) result ≡ option_map (λ s. s.identifier) (slice_get self.now.structs index) }
    {
        let entry = self.structs.get(index)?;
        Some(identifier_at(&self.identifiers, entry.identifier))
    }

    /// The abilities of the struct at an index, if it is there.
    pub fn abilities(&self, index: usize) -> Option<Abilities>
        ensures { result ≡ option_map (λ s. s.abilities) (slice_get self.now.structs index) }
    {
        let entry = self.structs.get(index)?;
        Some(entry.abilities)
    }

    /// Whether the struct at an index is there and has key.
    pub fn is_keyed(&self, index: usize) -> bool
        ensures { result ≡ option_map_or (λ s. s.abilities.key) (slice_get self.now.structs index) false }
    {
        match self.structs.get(index) {
            Some(entry) => entry.abilities.key,
            None => false,
        }
    }

    /// Whether the struct at an index is there, and its fields have the names of another module's, in order.
    pub fn has_fields(&self, index: usize, n: &Module<'_>, fields: &[Field]) -> bool
        ensures { result ≡ option_map_or (λ names. are_names names n.now fields.now) (slice_get self.now.fields index) false }
    {
        match self.fields.get(index) {
            Some(names) => have_names(&self.identifiers, names, n, fields),
            None => false,
        }
    }

    /// The identifier of the function at an index, if it is there.
    pub fn function_identifier(&self, index: usize) -> Option<&[u8]>
        ensures { option_map (λ b. b.now) result ≡ option_map (λ f. f.identifier) (slice_get self.now.functions index) }
    {
        let entry = self.functions.get(index)?;
        Some(identifier_at(&self.identifiers, entry.identifier))
    }

    /// Whether the function at an index is there and other modules may call it.
    pub fn is_public(&self, index: usize) -> bool
        ensures { result ≡ option_map_or (λ f. f.is_public) (slice_get self.now.functions index) false }
    {
        match self.functions.get(index) {
            Some(entry) => entry.is_public,
            None => false,
        }
    }

    /// Whether the function at an index is there and an entry.
    pub fn is_entry(&self, index: usize) -> bool
        ensures { result ≡ option_map_or (λ f. f.is_entry) (slice_get self.now.functions index) false }
    {
        match self.functions.get(index) {
            Some(entry) => entry.is_entry,
            None => false,
        }
    }

    /// The index of a struct with an identifier. In a module there is no second one.
    pub fn find_struct(&self, name: &[u8]) -> Option<usize>
        ensures found { MatchOption result ((k : ℕ) → IsStructNamed self.now k name.now → ⊥) (λ k. IsStructNamed self.now k name.now) }
        ensures few { IfSome result (λ k. k < 65536) }
    {
        find(&self.identifiers, &self.structs_by_name, name)
    }

    /// The index of a function with an identifier. In a module there is no second one.
    pub fn find_function(&self, name: &[u8]) -> Option<usize>
        ensures found { MatchOption result ((k : ℕ) → IsFunctionNamed self.now k name.now → ⊥) (λ k. IsFunctionNamed self.now k name.now) }
        ensures few { IfSome result (λ k. k < 256) }
    {
        find(&self.identifiers, &self.functions_by_name, name)
    }

    /// The index of a struct with an identifier: one that is likely is tried before the others.
    pub fn struct_named(&self, name: &[u8], likely: Option<usize>) -> Option<usize>
        ensures found { MatchOption result ((k : ℕ) → IsStructNamed self.now k name.now → ⊥) (λ k. IsStructNamed self.now k name.now) }
        ensures few { IfSome result (λ k. k < 65536) }
    {
        // For the prover: at most 65,536 structs.
        let _structs = self.struct_count();
        if let Some(index) = likely {
            if let Some(own) = self.struct_identifier(index) {
                if own == name {
                    return Some(index);
                }
            }
        }
        self.find_struct(name)
    }

    /// The index of a function with an identifier: one that is likely is tried before the others.
    pub fn function_named(&self, name: &[u8], likely: Option<usize>) -> Option<usize>
        ensures found { MatchOption result ((k : ℕ) → IsFunctionNamed self.now k name.now → ⊥) (λ k. IsFunctionNamed self.now k name.now) }
        ensures few { IfSome result (λ k. k < 256) }
    {
        // For the prover: at most 256 functions.
        let _functions = self.function_count();
        if let Some(index) = likely {
            if let Some(own) = self.function_identifier(index) {
                if own == name {
                    return Some(index);
                }
            }
        }
        self.find_function(name)
    }

    /// The same outline in memory of its own.
    ///
    /// # Errors
    ///
    /// If an allocation failed.
    pub fn copied(&self, alloc: Global) -> Result<Self, AllocError>
        ensures { IfOk result (λ o. o ≡ self.now) }
    {
        let identifiers = self.identifiers.copied(alloc)?;
        let structs = Vec::from_slice(alloc, &self.structs)?;
        let fields = self.fields.copied(alloc)?;
        let functions = Vec::from_slice(alloc, &self.functions)?;
        let structs_by_name = Vec::from_slice(alloc, &self.structs_by_name)?;
        let functions_by_name = Vec::from_slice(alloc, &self.functions_by_name)?;
        Ok(Outline {
            identifiers,
            structs,
            fields,
            functions,
            structs_by_name,
            functions_by_name,
        })
    }
}
