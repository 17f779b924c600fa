// The modules that a store has once a bundle joins it, as others name them, found by name and by place; and rule c of linking:
// those that a module's handles name are there. No byte of a published module is read.
ghost use Rattle.std.specs.Prelude.{◌≡◌, ◌<◌, List, Some, length, map, slice_get, IsTrue, IfOk, IfErr, OnOk};
ghost use Rattle.mv_move_types.specs.Module.{Module as Tables};
ghost use Rattle.mv_move_types.specs.Refusals.{IsRefusedIn};
ghost use Rattle.mv_move_types.specs.Named.{module_place};
ghost use Rattle.mv_linker.specs.Found.{AreOutlines, AreTargets, IsFound, IsTarget};
ghost use Rattle.mv_interface.specs.Outline.{IsOutline};
ghost use Rattle.mv_linker.specs.Relinked.{IsFitting};
ghost use Rattle.mv_linker.specs.Scope.{offered};
ghost use Rattle.mv_link_rules.specs.StoreRules.{module_is_there, modules_are_there};
ghost use Rattle.mv_linker.specs.Targets.{modules_in};

use crate::rules::pushed::pushed;
use crate::rules::scope::Scope;
use crate::store::entry::asked_for;
use crate::store::indexed::place_of;
use mv_binary_format::Module;
use mv_interface::{Interface, Outline, module_name};
use mv_move_types::{Address, Refusal};
use std::alloc::{AllocError, Global};

/// A module of a scope.
#[derive(Drop)]
pub enum Found<'a> {
    /// One of the bundle, with its outline.
    New(&'a Module<'a>, &'a Outline),
    /// What the store keeps of one.
    Kept(&'a Interface),
}

impl<'a> Found<'a> {
    /// What others can name of it.
    pub fn outline(&self) -> &Outline
        ensures { (modules : List Tables) (n : Tables) → IsFound modules n self.now → IsOutline n result.now }
    {
        match self {
            Found::New(_, outline) => outline,
            Found::Kept(interface) => &interface.outline,
        }
    }
}

/// A module that another one names, with its place.
#[derive(Drop)]
pub struct Target<'a> {
    /// Its place among the modules of the scope.
    pub place: usize,
    /// The module.
    pub module: Found<'a>,
}

/// The places of targets.
pub fn places_of(alloc: Global, targets: &[Target<'_>]) -> Result<Vec<usize>, AllocError>
    ensures { IfOk result (λ v. v.items ≡ map (λ t. t.place) targets.now) }
{
    targets.iter().map(|t| t.place).collect(alloc)
}

impl<'a> Scope<'a> {
    /// The outlines of the bundle's modules.
    pub fn outlines(&self, alloc: Global) -> Result<Vec<Outline>, AllocError>
        requires { IsFitting self.now }
        ensures { IfOk result (λ v. AreOutlines (offered self.now.new.now) v.items) }
    {
        let mut outlines = Vec::with_capacity(alloc, self.new.len())?;
        for i in 0..self.new.len() {
            let outline = Outline::of(alloc, self.new[i].module.module())?;
            outlines.push(outline)?;
        }
        Ok(outlines)
    }

    /// The place of the module with this address and identifier.
    pub fn find(&self, address: Address, name: &[u8]) -> Option<usize>
        ensures { result ≡ module_place (modules_in self.now) (record { address = address; name = name.now }) }
    {
        let asked = asked_for(address, name);
        place_of(self.store, &self.names, &asked)
    }

    /// The module at a place; `outlines` has those of the bundle.
    fn found<'s>(&'s self, outlines: &'s [Outline], place: usize) -> Found<'s>
        requires place { place < length (modules_in self.now) }
        requires fits { IsFitting self.now }
        requires outlines { AreOutlines (offered self.now.new.now) outlines.now }
        ensures { (n : Tables) → slice_get (modules_in self.entry.now) place ≡ Some n → IsFound (modules_in self.entry.now) n result }
    {
        match self.bundled(place) {
            Some(k) => Found::New(self.new[k].module.module(), &outlines[k]),
            None => Found::Kept(self.store.interface(place)),
        }
    }

    /// The module that a handle names; `Phase(13)`, where it is not there.
    fn target<'s>(
        &'s self,
        outlines: &'s [Outline],
        m: &Module<'_>,
        h: usize,
    ) -> Result<Target<'s>, Refusal>
        requires fits { IsFitting self.now }
        requires outlines { AreOutlines (offered self.now.new.now) outlines.now }
        ensures ok { IfOk result (IsTarget (modules_in self.entry.now) m.now h) }
        ensures refused { IfErr result (IsRefusedIn 13 (IsTrue (module_is_there (modules_in self.entry.now) m.now h))) }
    {
        let Some((address, name)) = module_name(m, h) else {
            return Err(Refusal::Phase(13));
        };
        let Some(place) = self.find(address, name) else {
            return Err(Refusal::Phase(13));
        };
        let module = self.found(outlines, place);
        Ok(Target { place, module })
    }

    /// The modules that a module's handles name; `Phase(13)`, where one is not there. `outlines` has those of the bundle.
    pub fn targets<'s>(
        &'s self,
        alloc: Global,
        outlines: &'s [Outline],
        m: &Module<'_>,
    ) -> Result<Vec<Target<'s>>, Refusal>
        requires fits { IsFitting self.now }
        requires outlines { AreOutlines (offered self.now.new.now) outlines.now }
        ensures ok { IfOk result (λ v. AreTargets (modules_in self.entry.now) m.now v.items) }
        ensures there { OnOk result (IsTrue (modules_are_there (modules_in self.entry.now) m.now (length m.now.module_handles))) }
        ensures refused { IfErr result (IsRefusedIn 13 (IsTrue (modules_are_there (modules_in self.entry.now) m.now (length m.now.module_handles)))) }
    {
        let mut targets = Vec::with_capacity(alloc, m.module_handles().len())?;
        for h in 0..m.module_handles().len() {
            let target = self.target(outlines, m, h)?;
            pushed(&mut targets, target)?;
        }
        Ok(targets)
    }
}
