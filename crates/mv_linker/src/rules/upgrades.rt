// Rule h of linking: what a module has to keep of the one that it replaces. Of the old module only what is kept of it is read, and a
// struct in its types is compared by its name.
ghost use Rattle.std.specs.Prelude.{◌≡◌, ◌<◌, false, length, option_map, slice_get, Some, IfSome};
ghost use Rattle.std.specs.Option.{option_map_or};
ghost use Rattle.std.specs.Str.{bytes_eq};
ghost use Rattle.mv_move_types.specs.AbilitySets.{same_abilities};
ghost use Rattle.mv_move_types.specs.Module.{Module as Tables, name_at, name_of_struct, struct_abilities};
ghost use Rattle.mv_move_types.specs.Tags.{same_tag};
ghost use Rattle.mv_type_rules.specs.Sound.{IsSound};
ghost use Rattle.mv_interface.specs.Interface.{IsInterface};
ghost use Rattle.mv_linker.specs.KeptTypes.{are_kept, are_parts, function_same, kept_at, kept_named, part_named, struct_same, types_same};
ghost use Rattle.mv_bound_rules.specs.TypesByName.{both_there, token_named, value_type_named};
ghost use Rattle.mv_link_rules.specs.Link.{tables_in, follows, all_follow as each_follows};
ghost use Rattle.mv_linker.specs.Scope.{offered};
ghost use Rattle.mv_link_rules.specs.Upgrades.{structs_stay as all_stay, function_stays as this_stays, may_replace as may_stand_for};
ghost use Rattle.std.specs.List.{list_all};

use crate::Store;
use crate::rules::scope::Scope;
use mv_binary_format::{FunctionDefinition, Module, StructDefinition};
use mv_interface::{
    Interface, LinkedType, Part, are_same, function_handle, function_place, is_public, same_kind,
    struct_name,
};
use mv_move_types::{Abilities, Definition, Field, Token, ValueType};

/// The abilities that a struct definition is declared with, if its handle is there.
fn abilities_of(m: &Module<'_>, d: &StructDefinition) -> Option<Abilities>
    ensures { result ≡ struct_abilities m.now d.now }
{
    let handle = m.struct_handles().get(d.handle() as usize)?;
    Some(handle.abilities)
}

impl Store {
    /// Whether what is kept for a type that is no reference is a type of another module.
    fn is_part(&self, part: Part, n: &Module<'_>, t: ValueType) -> bool
        ensures { result ≡ both_there same_tag (part_named (tables_in self.now) part) (value_type_named n.now t) }
    {
        match (part, t) {
            (Part::Leaf(a), ValueType::OfLeaf(b)) => same_kind(a, b),
            (Part::Struct(d), ValueType::OfStruct(h)) => {
                match (self.struct_name(d), struct_name(n, h as usize)) {
                    (Some(a), Some(b)) => a.is_same(&b),
                    _ => false,
                }
            }
            _ => false,
        }
    }

    /// Whether a kept type is a type of another module.
    fn is_type(&self, kept: LinkedType, n: &Module<'_>, t: Token) -> bool
        ensures { result ≡ both_there same_tag (kept_named (tables_in self.now) kept) (token_named n.now t) }
    {
        match (kept, t) {
            (LinkedType::Plain(p), Token::Plain(t)) => self.is_part(p, n, t),
            (LinkedType::Reference(p), Token::Reference(t)) => self.is_part(p, n, t),
            (LinkedType::MutableReference(p), Token::MutableReference(t)) => self.is_part(p, n, t),
            _ => false,
        }
    }

    /// Whether kept types are those of another module, in order.
    fn are_types(&self, kept: &[LinkedType], n: &Module<'_>, tokens: &[Token]) -> bool
        ensures { result ≡ are_kept (tables_in self.now) kept.now n.now tokens.now }
    {
        match kept {
            [] => tokens.is_empty(),
            [x, xs @ ..] => {
                match tokens {
                    [] => false,
                    [t, ts @ ..] => self.is_type(*x, n, *t) && self.are_types(xs, n, ts),
                }
            }
        }
    }

    /// Whether kept types, if they are there, are those of a signature of another module.
    fn is_signature(&self, kept: Option<&[LinkedType]>, n: &Module<'_>, signature: u16) -> bool
        ensures { result ≡ kept_at (tables_in self.now) (option_map (λ k. k.now) kept.entry) n.now signature }
    {
        match (kept, n.signature(usize::from(signature))) {
            (Some(types), Some(tokens)) => self.are_types(types, n, tokens),
            _ => false,
        }
    }

    /// Whether what fields are made of is what those of another module are made of, in order.
    fn are_parts(&self, parts: &[Part], n: &Module<'_>, fields: &[Field]) -> bool
        ensures { result ≡ are_parts (tables_in self.now) parts.now n.now fields.now }
    {
        match parts {
            [] => fields.is_empty(),
            [p, ps @ ..] => {
                match fields {
                    [] => false,
                    [f, fs @ ..] => {
                        self.is_type(LinkedType::Plain(*p), n, f.token) && self.are_parts(ps, n, fs)
                    }
                }
            }
        }
    }
}

/// A published module whose place another one is to take, by what is kept of it.
#[derive(Clone, Copy)]
struct Replaced<'a> {
    store: &'a Store,
    place: u16,
    interface: &'a Interface,
}

impl<'a> Replaced<'a> {
    /// That of a store at a place.
    fn of(store: &'a Store, place: usize) -> Self
        requires there { place < length store.now }
        ensures store { result.store.now ≡ store.entry.now }
        ensures place { result.place ≡ place }
        ensures kept { IfSome (slice_get (tables_in result.store.now) result.place) (λ m. IsInterface (tables_in result.store.now) m result.interface.now × IsSound m) }
    {
        // For the prover: the store's modules are few, and passed what a publish tries.
        let _count = store.len();
        Replaced {
            store,
            place: place as u16,
            interface: store.interface(place),
        }
    }

    /// Whether the struct at an index has the identifier of a new one.
    fn has_name(&self, d: Definition, n: &Module<'_>, e: &StructDefinition) -> bool
        ensures { result ≡ both_there (λ a b. bytes_eq a.name b.name) (name_at (tables_in self.now.store.now) d.place d.index) (name_of_struct n.now e.now) }
    {
        match (
            self.store.struct_name(d),
            struct_name(n, e.handle() as usize),
        ) {
            (Some(a), Some(b)) => a.has_identifier_of(&b),
            _ => false,
        }
    }

    /// Whether it has its abilities.
    fn has_abilities(&self, index: usize, n: &Module<'_>, e: &StructDefinition) -> bool
        ensures { result ≡ both_there same_abilities (option_map (λ s. s.abilities) (slice_get self.now.interface.now.outline.structs index)) (struct_abilities n.now e.now) }
    {
        match (self.interface.outline.abilities(index), abilities_of(n, e)) {
            (Some(a), Some(b)) => are_same(a, b),
            _ => false,
        }
    }

    /// Whether its fields are made of what those of the new one are.
    fn has_parts(&self, index: usize, n: &Module<'_>, e: &StructDefinition) -> bool
        ensures { result ≡ option_map_or (λ ps. are_parts (tables_in self.now.store.now) ps n.now e.now.fields) (slice_get self.now.interface.now.parts index) false }
    {
        match self.interface.parts.get(index) {
            Some(parts) => self.store.are_parts(parts, n, e.fields()),
            None => false,
        }
    }

    /// Whether the struct at an index stays what it is in a new one.
    fn struct_stays(&self, index: u16, n: &Module<'_>, e: &StructDefinition) -> bool
        ensures { result ≡ struct_same (tables_in self.now.store.now) self.now.interface.now (record { place = self.now.place; index = index }) n.now e.now }
    {
        let d = Definition {
            place: self.place,
            index,
        };
        let at = usize::from(index);
        self.has_name(d, n, e)
            && self.has_abilities(at, n, e)
            && (self.interface.outline.has_fields(at, n, e.fields()) && self.has_parts(at, n, e))
    }

    /// Whether each struct stands in a new module at its index, as it is.
    fn structs_stay(&self, n: &Module<'_>) -> bool
        ensures { (m : Tables) → slice_get (tables_in self.now.store.now) self.now.place ≡ Some m → IsInterface (tables_in self.now.store.now) m self.now.interface.now → IsSound m
            → result ≡ all_stay m m.structs n.now n.now.structs }
    {
        let new = n.structs();
        let count = self.interface.outline.struct_count();
        if new.len() < count {
            return false;
        }
        'each: for k in 0..count {
            if !self.struct_stays(k as u16, n, &new[k]) {
                return false;
            }
        }
        true
    }

    /// Whether the function at an index has the types of a new one.
    fn has_types(&self, index: usize, n: &Module<'_>, e: &FunctionDefinition) -> bool
        ensures { result ≡ types_same (tables_in self.now.store.now) self.now.interface.now index n.now e.now }
    {
        match function_handle(n, e.handle() as usize) {
            Some(h) => {
                let store = self.store;
                store.is_signature(self.interface.parameters.get(index), n, h.parameters)
                    && store.is_signature(self.interface.results.get(index), n, h.results)
            }
            None => false,
        }
    }

    /// Whether the function at an index is private, or stays public with its types in a new module.
    fn function_stays(&self, index: usize, n: &Module<'_>) -> bool
        ensures { result ≡ function_same (tables_in self.now.store.now) self.now.interface.now index n.now }
    {
        if !self.interface.outline.is_public(index) {
            return true;
        }
        let Some(name) = self.interface.outline.function_identifier(index) else {
            return false;
        };
        let Some(place) = function_place(n, name) else {
            return false;
        };
        match n.functions().get(place) {
            Some(e) => is_public(e) && self.has_types(index, n, e),
            None => false,
        }
    }

    /// Whether each public function stays public, with its types.
    fn functions_stay(&self, n: &Module<'_>) -> bool
        ensures { (m : Tables) → slice_get (tables_in self.now.store.now) self.now.place ≡ Some m → IsInterface (tables_in self.now.store.now) m self.now.interface.now → IsSound m
            → result ≡ list_all (this_stays m n.now) m.functions }
    {
        'each: for k in 0..self.interface.outline.function_count() {
            if !self.function_stays(k, n) {
                return false;
            }
        }
        true
    }

    /// Whether a new module may take its place.
    fn may_be_replaced(&self, n: &Module<'_>) -> bool
        ensures { (m : Tables) → slice_get (tables_in self.now.store.now) self.now.place ≡ Some m → IsInterface (tables_in self.now.store.now) m self.now.interface.now → IsSound m
            → result ≡ may_stand_for m n.now }
    {
        self.structs_stay(n) && self.functions_stay(n)
    }
}

impl<'a> Scope<'a> {
    /// Whether the module of the bundle at an index replaces nothing in the store, or what it may replace.
    fn follows(&self, k: usize) -> bool
        requires there { k < length self.now.new.now }
        ensures { (n : Tables) → slice_get (offered self.now.new.now) k ≡ Some n → result ≡ follows (tables_in self.now.store.now) n }
    {
        let place = self.places[k];
        if place >= self.store.len() {
            return true;
        }
        let n = self.new[k].module.module();
        Replaced::of(self.store, place).may_be_replaced(n)
    }

    /// Whether each module of the bundle replaces nothing in the store, or what it may replace.
    pub fn all_follow(&self) -> bool
        ensures { result ≡ each_follows (tables_in self.now.store.now) (offered self.now.new.now) }
    {
        'each: for k in 0..self.new.len() {
            if !self.follows(k) {
                return false;
            }
        }
        true
    }
}
