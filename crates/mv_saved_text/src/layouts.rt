// The structs whose values can be stored, and the leaves of which each such value is made.
ghost use Rattle.std.specs.Prelude.{◌≡◌, ◌≤◌, ◌++◌, is_some, length, List, option_map, slice_get, Some, IfOk, OnOk};
ghost use Rattle.mv_move_types.specs.Module.{Module as Tables};
ghost use Rattle.mv_link_rules.specs.Link.{tables_in};
ghost use Rattle.mv_interface.specs.Shapes.{AreFieldsAt, structs_in};
ghost use Rattle.mv_saved_text.specs.Layouts.{is_keyed, kinds_under};
ghost use Rattle.mv_saved_text.specs.Parts.LayoutParts.{kinds_at, kinds_of_part, kinds_of_parts, keyed_at, IsOfStore, PutsKinds};
ghost use Rattle.mv_saved_text.specs.SavedText.{keyed_from};

use mv_linker::{Part, Store};
use mv_move_types::limits::MOST_NESTING;
use mv_move_types::{Definition, LeafKind};
use std::alloc::{AllocError, Global};
use std::marker::Model;

/// Appends the structs with key of the module at a place.
fn put_keyed(store: &Store, place: u16, keyed: &mut Vec<Definition>) -> Result<(), AllocError>
    ensures { OnOk result ((m : Tables) → slice_get (tables_in store.now) place ≡ Some m → keyed.new.items ≡ keyed.old.items ++ keyed_at place m) }
{
    'each: for i in 0..store.structs(usize::from(place)) {
        let d = Definition {
            place,
            index: i as u16,
        };
        if store.is_keyed(d) {
            keyed.push(d)?;
        }
    }
    Ok(())
}

/// The structs of a store's modules, with the list of those that have key. Its model is the modules.
#[derive(Drop)]
pub struct Layouts<'a> {
    store: &'a Store,
    keyed: Vec<Definition>,
}

impl<'a> Model for Layouts<'a> {
    ghost use Rattle.std.specs.Prelude.{◌≡◌, List};
    ghost use Rattle.mv_move_types.specs.Module.{Module};
    ghost use Rattle.mv_link_rules.specs.Link.{tables_in};
    ghost use Rattle.mv_saved_text.specs.SavedText.{keyed_from};

    ghost Value = { List Module };

    ghost view = { λ l. tables_in l.store.now };

    ghost invariant = { λ l. l.keyed.items ≡ keyed_from 0 (tables_in l.store.now) };
}

impl<'a> Layouts<'a> {
    /// Those of a store's modules, of which no byte is read.
    pub fn new(alloc: Global, store: &'a Store) -> Result<Self, AllocError>
        requires { length store.now ≤ 65536 }
        ensures { IfOk result (λ l. l ≡ tables_in store.entry.now) }
    {
        let mut keyed = Vec::new(alloc);
        'each: for place in 0..store.len() {
            put_keyed(store, place as u16, &mut keyed)?;
        }
        Ok(Layouts { store, keyed })
    }

    /// The structs with key, by place of their module and index of their definition.
    pub fn keyed(&self) -> &[Definition]
        ensures { result.now ≡ keyed_from 0 self.now }
    {
        &self.keyed
    }

    /// How many modules there are.
    pub fn len(&self) -> usize
        ensures count { result ≡ length self.now }
        ensures store { IsOfStore self.now }
    {
        self.store.len()
    }

    /// How many structs the module at a place has; none, if no module is there.
    pub fn structs(&self, place: usize) -> usize
        ensures { result ≡ structs_in self.now place }
    {
        self.store.structs(place)
    }

    /// Of what the fields of the struct at a place and an index are made, if there is one.
    pub fn fields(&self, d: Definition) -> Option<&[Part]>
        ensures { AreFieldsAt self.now d (option_map (λ p. p.now) result) }
    {
        self.store.fields(d)
    }

    // Appends the kinds of the leaves of a struct whose nesting is at most so much, and says whether there is such a struct.
    #[cycle(kinds)]
    fn put_struct(
        &self,
        depth: usize,
        d: Definition,
        kinds: &mut Vec<LeafKind>,
    ) -> Result<bool, AllocError>
        ensures { IfOk result (λ there. PutsKinds (kinds_at depth self.now d) there kinds.old.items kinds.new.items) }
    {
        if depth == 0 {
            return Ok(false);
        }
        // For the prover: the modules are a store's.
        let _modules = self.len();
        let Some(parts) = self.fields(d) else {
            return Ok(false);
        };
        let there = self.put_parts(depth - 1, parts, kinds)?;
        Ok(there)
    }

    // Appends those of parts.
    #[cycle(kinds)]
    fn put_parts(
        &self,
        depth: usize,
        parts: &[Part],
        kinds: &mut Vec<LeafKind>,
    ) -> Result<bool, AllocError>
        ensures { IfOk result (λ there. PutsKinds (kinds_of_parts self.now depth parts.now) there kinds.old.items kinds.new.items) }
    {
        'each: for part in parts {
            let there = self.put_part(depth, *part, kinds)?;
            if !there {
                return Ok(false);
            }
        }
        Ok(true)
    }

    // Appends those of a part.
    #[cycle(kinds)]
    fn put_part(
        &self,
        depth: usize,
        part: Part,
        kinds: &mut Vec<LeafKind>,
    ) -> Result<bool, AllocError>
        ensures { IfOk result (λ there. PutsKinds (kinds_of_part self.now depth part) there kinds.old.items kinds.new.items) }
    {
        match part {
            Part::Leaf(kind) => {
                kinds.push(kind)?;
                Ok(true)
            }
            Part::Struct(d) => self.put_struct(depth, d, kinds),
            Part::Nothing => Ok(false),
        }
    }

    // Whether the struct at a place and an index is there and has key.
    fn is_keyed(&self, d: Definition) -> bool
        ensures { result ≡ is_keyed self.now d }
    {
        self.store.is_keyed(d)
    }

    /// The kinds of the leaves of each value of a struct, in order; none, where there is no such struct or it has no key. It
    /// takes as long as there are leaves.
    pub fn kinds(&self, alloc: Global, d: Definition) -> Result<Option<Vec<LeafKind>>, AllocError>
        ensures kinds { IfOk result (λ kinds. option_map (λ v. v.items) kinds ≡ kinds_under self.now d) }
        ensures there { IfOk result (λ kinds. is_some kinds ≡ is_keyed self.now d) }
    {
        if !self.is_keyed(d) {
            return Ok(None);
        }
        // For the prover: the modules are a store's, and so their structs are small.
        let _modules = self.len();
        let mut kinds = Vec::new(alloc);
        let there = self.put_struct(MOST_NESTING as usize, d, &mut kinds)?;
        if there { Ok(Some(kinds)) } else { Ok(None) }
    }
}
