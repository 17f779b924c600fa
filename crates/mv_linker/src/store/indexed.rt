// The modules of a bundle, found by their names.
ghost use Rattle.std.specs.Prelude.{◌≡◌, [], not, is_some, IfOk, OnOk};
ghost use Rattle.std.specs.Option.{option_map_or, option_or};
ghost use Rattle.std.specs.Map.{lookup};
ghost use Rattle.mv_move_types.specs.Named.{module_place};
ghost use Rattle.mv_linker.specs.Indexed.{PutsName, PutsPlace, has_name_of};
ghost use Rattle.mv_linker.specs.Kept.{name_in};
ghost use Rattle.mv_link_rules.specs.Link.{tables_in};

use crate::Store;
use crate::store::entry::Name;
use indexmap::IndexMap;
use std::alloc::{AllocError, Global};
use std::marker::Model;

/// The places of a bundle's modules by their names. The one that was put last stands beside the map of the others, so that a
/// bundle of one module needs no map. Its model is the list of both.
#[derive(Drop)]
pub struct PlacesByName<'a> {
    last: Option<(Name<'a>, usize)>,
    others: Option<Box<IndexMap<Name<'a>, usize>>>,
}

impl<'a> Model for PlacesByName<'a> {
    ghost use Rattle.std.specs.Prelude.{ℕ, List, []};
    ghost use Rattle.std.specs.Option.{option_map_or};
    ghost use Rattle.mv_linker.specs.declared.store.entry.Name.{Name};
    ghost use Rattle.mv_linker.specs.Indexed.{with_last};

    ghost Value = { List (Name × ℕ) };

    ghost view = { λ p. with_last p.last (option_map_or (λ m. m.value.entries) p.others []) };
}

impl<'a> PlacesByName<'a> {
    /// Those of no modules.
    pub fn new() -> Self
        ensures { result ≡ [] }
    {
        PlacesByName {
            last: None,
            others: None,
        }
    }

    /// The place under a name, if there is one.
    fn get(&self, name: &Name<'_>) -> Option<usize>
        ensures { result ≡ lookup (has_name_of name.now) self.now }
    {
        if let Some((last, place)) = &self.last {
            if is_one_name(name, last) {
                return Some(*place);
            }
        }
        match &self.others {
            Some(others) => others.get(name).copied(),
            None => None,
        }
    }

    /// Puts a place under a name.
    pub fn put(&mut self, alloc: Global, name: Name<'a>, place: usize) -> Result<(), AllocError>
        ensures { OnOk result (PutsPlace self.old self.new name.entry place) }
    {
        if let Some((last, before)) = self.last.take() {
            put_other(alloc, &mut self.others, last, before)?;
        }
        self.last = Some((name, place));
        Ok(())
    }
}

/// Whether two keys stand for one name.
fn is_one_name(a: &Name<'_>, b: &Name<'_>) -> bool
    ensures { result ≡ has_name_of a.now b.now }
{
    a.address == b.address && a.identifier.as_slice() == b.identifier.as_slice()
}

/// Puts a place under a name in a map.
fn put_in<'a>(
    places: &mut IndexMap<Name<'a>, usize>,
    name: Name<'a>,
    place: usize,
) -> Result<(), AllocError>
    ensures { OnOk result (PutsPlace places.old.entries places.new.entries name.entry place) }
{
    match places.insert(name, place) {
        Ok(_) => Ok(()),
        Err(_) => Err(AllocError),
    }
}

/// Puts a place under a name in a map, which is made where there is none. Where memory runs out there is none afterwards.
fn put_other<'a>(
    alloc: Global,
    places: &mut Option<Box<IndexMap<Name<'a>, usize>>>,
    name: Name<'a>,
    place: usize,
) -> Result<(), AllocError>
    ensures { OnOk result (PutsPlace (option_map_or (λ m. m.value.entries) places.old []) (option_map_or (λ m. m.value.entries) places.new []) name.entry place) }
{
    let mut map = match places.take() {
        Some(map) => map,
        None => Box::new(alloc, IndexMap::new(alloc))?,
    };
    put_in(&mut map, name, place)?;
    *places = Some(map);
    Ok(())
}

/// The place under a name of a bundle, or else that of the module that a store has of it.
pub fn place_of(store: &Store, places: &PlacesByName<'_>, name: &Name<'_>) -> Option<usize>
    ensures { result ≡ option_or (lookup (has_name_of name.now) places.now) (module_place (tables_in store.now) (name_in name.now)) }
{
    match places.get(name) {
        Some(place) => Some(place),
        None => store.find(name.address, name.identifier.as_slice()),
    }
}

/// Puts a name among others, and says whether it was not yet there.
pub fn put_name<'a>(names: &mut IndexMap<Name<'a>, ()>, name: Name<'a>) -> Result<bool, AllocError>
    ensures new { IfOk result (λ b. b ≡ not (is_some (lookup (has_name_of name.entry) names.old.entries))) }
    ensures put { OnOk result (PutsName names.old.entries names.new.entries name.entry) }
{
    match names.insert(name, ()) {
        Ok(old) => Ok(old.is_none()),
        Err(_) => Err(AllocError),
    }
}
