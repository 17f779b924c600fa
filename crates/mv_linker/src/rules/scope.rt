// A store and a bundle that is to join it, with the place of each module of the bundle.
ghost use Rattle.std.specs.Prelude.{◌≡◌, ◌+◌, ◌≤◌, ◌==◌, Some, IsTrue, length, position, slice_get, IfOk, OnOk};
ghost use Rattle.mv_move_types.specs.Module.{own_name as name_of_module};
ghost use Rattle.mv_bound_rules.specs.Definitions.{all_differ};
ghost use Rattle.mv_linker.specs.Indexed.{ArePlacesOf};
ghost use Rattle.mv_linker.specs.Kept.{name_in};
ghost use Rattle.mv_link_rules.specs.Link.{IsStore, tables_in, have_one_name};
ghost use Rattle.mv_linker.specs.Scope.{offered, places_in, all_named, with_tables};

use crate::store::entry::{Name, asked_for};
use crate::store::indexed::{PlacesByName, place_of};
use crate::{New, Store};
use mv_interface::name_of;
use std::alloc::{AllocError, Global};

/// The modules of a store and of a bundle that is to join it: a module of the bundle takes the place of the module of its
/// name, or the next place.
#[derive(Drop)]
pub struct Scope<'a> {
    /// The store.
    pub store: &'a Store,
    /// The bundle.
    pub new: &'a [New<'a>],
    /// The place of each module of the bundle.
    pub places: Vec<usize>,
    /// The same by name.
    pub names: PlacesByName<'a>,
    ghost placed: { places.items ≡ places_in (tables_in store.now) (offered new.now) },
    ghost named: { IsTrue (all_named (offered new.now)) },
    ghost few: { length (with_tables (tables_in store.now) (offered new.now)) ≤ 65536 },
    ghost once: { IsTrue (all_differ have_one_name (offered new.now)) },
    ghost found: { ArePlacesOf names (offered new.now) places.items },
}

/// The name of a module that passed its phases.
fn own_name<'n>(n: &'n New<'_>) -> Name<'n>
    ensures { name_of_module n.entry.now.module ≡ Some (name_in result) }
{
    let Some((address, name)) = name_of(n.module.module()) else {
        unreachable!();
    };
    asked_for(address, name)
}

/// The places that modules of a bundle take, in order and by name.
#[derive(Drop)]
struct Places<'a> {
    /// In order.
    places: Vec<usize>,
    /// Under the names.
    names: PlacesByName<'a>,
}

/// The places that the modules of a bundle take, each of which has a name.
fn places_of<'a>(alloc: Global, store: &Store, new: &'a [New<'a>]) -> Result<Places<'a>, AllocError>
    requires { length store.now + length new.now ≤ 65536 }
    ensures places { IfOk result (λ p. p.places.items ≡ places_in (tables_in store.now) (offered new.entry.now)) }
    ensures names { IfOk result (λ p. ArePlacesOf p.names (offered new.entry.now) p.places.items) }
    ensures named { OnOk result (IsTrue (all_named (offered new.entry.now))) }
    ensures sound { OnOk result (IsStore store.now) }
{
    let mut places = Vec::with_capacity(alloc, new.len())?;
    let mut names = PlacesByName::new();
    let mut count = store.len();
    for i in 0..new.len() {
        let name = own_name(&new[i]);
        let place = place_of(store, &names, &name).unwrap_or(count);
        places.push(place)?;
        names.put(alloc, name, place)?;
        if place == count {
            count += 1;
        }
    }
    Ok(Places { places, names })
}

impl<'a> Scope<'a> {
    /// The scope of a store and a bundle.
    #[tactic(auto, using(crate::proofs::Joining::Scopes::few_modules))]
    pub fn of(alloc: Global, store: &'a Store, new: &'a [New<'a>]) -> Result<Self, AllocError>
        requires few { length store.now + length new.now ≤ 65536 }
        requires once { IsTrue (all_differ have_one_name (offered new.now)) }
        ensures store { IfOk result (λ s. s.store.now ≡ store.entry.now) }
        ensures new { IfOk result (λ s. s.new.now ≡ new.entry.now) }
        ensures sound { OnOk result (IsStore store.entry.now) }
    {
        let Places { places, names } = places_of(alloc, store, new)?;
        Ok(Scope {
            store,
            new,
            places,
            names,
        })
    }

    /// Which module of the bundle is to stand at a place, if one is.
    pub fn bundled(&self, place: usize) -> Option<usize>
        ensures { result ≡ position (λ p. p == place) self.now.places.items }
    {
        // Where no module of the bundle replaces one, each stands at its own index behind the store's.
        let count = self.store.len();
        if place >= count && self.stands_at(place - count, place) {
            return Some(place - count);
        }
        self.places.iter().position(|p| *p == place)
    }

    /// Whether the module of the bundle at an index is there, and is to stand at a place.
    fn stands_at(&self, index: usize, place: usize) -> bool
        ensures { IsTrue result → slice_get self.now.places.items index ≡ Some place }
    {
        match self.places.get(index) {
            Some(own) => *own == place,
            None => false,
        }
    }
}
