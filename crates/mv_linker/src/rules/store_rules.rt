// The rules over a whole store, c to g of linking, for the modules that it has once a bundle joins it: c is in named_modules.rt, d in
// named_structs.rt, e in named_functions.rt, f in acyclic.rt and g in small_structs.rt.
ghost use Rattle.std.specs.Prelude.{All, IsTrue, IfOk, IfErr, OnOk};
ghost use Rattle.std.specs.List.{list_all};
ghost use Rattle.mv_move_types.specs.Refusals.{IsRefusedIn};
ghost use Rattle.mv_linker.specs.DependencyGraph.{IsOrdered};
ghost use Rattle.mv_linker.specs.Found.{AreOutlines};
ghost use Rattle.mv_linker.specs.News.{published_of};
ghost use Rattle.mv_link_rules.specs.Link.{IsPublishable, IsStore, are_compatible, tables_in};
ghost use Rattle.mv_link_rules.specs.StoreRules.{Links, names_hold};
ghost use Rattle.mv_linker.specs.Relinked.{IsFitting};
ghost use Rattle.mv_linker.specs.Scope.{offered};
ghost use Rattle.mv_linker.specs.ScopeDependencies.{AreDependenciesIn};
ghost use Rattle.mv_linker.specs.Stored.{AreLowered, AreNames, AreNamesOf};
ghost use Rattle.mv_linker.specs.Targets.{modules_in};

use crate::lowering::to_link::Lowered;
use crate::rules::acyclic::Dependencies;
use crate::rules::named_modules::places_of;
use crate::rules::pushed::pushed;
use crate::rules::scope::Scope;
use mv_binary_format::Module;
use mv_bit_sets::BitSet;
use mv_interface::Outline;
use mv_move_types::{Definition, Refusal};
use std::alloc::Global;

/// What the handles of a module name.
#[derive(Drop)]
pub struct Names {
    /// The place of each module.
    pub modules: Vec<usize>,
    /// Where each struct is defined.
    pub structs: Vec<Definition>,
    /// Where each function is defined.
    pub functions: Vec<Definition>,
}

impl<'a> Scope<'a> {
    /// What a module's handles name; `Phase(13)`, where something is not there as a handle says. `outlines` has those of the
    /// bundle.
    fn names(&self, alloc: Global, outlines: &[Outline], m: &Module<'_>) -> Result<Names, Refusal>
        requires fits { IsFitting self.now }
        requires outlines { AreOutlines (offered self.now.new.now) outlines.now }
        ensures names { IfOk result (AreNames (modules_in self.now) m.now) }
        ensures there { OnOk result (IsTrue (names_hold (modules_in self.now) m.now)) }
        ensures refused { IfErr result (IsRefusedIn 13 (IsTrue (names_hold (modules_in self.now) m.now))) }
    {
        let targets = self.targets(alloc, outlines, m)?;
        let modules = places_of(alloc, &targets)?;
        let structs = self.structs(alloc, m, &targets)?;
        let functions = self.functions(alloc, m, &targets, &structs)?;
        Ok(Names {
            modules,
            structs,
            functions,
        })
    }

    /// What the handles of the bundle's modules name; `Phase(13)`, where rule c, d or e fails.
    fn named(&self, alloc: Global, outlines: &[Outline]) -> Result<Vec<Names>, Refusal>
        requires fits { IsFitting self.now }
        requires outlines { AreOutlines (offered self.now.new.now) outlines.now }
        ensures names { IfOk result (λ v. AreNamesOf (modules_in self.now) (offered self.now.new.now) v.items) }
        ensures ok { OnOk result (IsTrue (list_all (names_hold (modules_in self.now)) (offered self.now.new.now))) }
        ensures refused { IfErr result (IsRefusedIn 13 (Links (modules_in self.now))) }
    {
        let mut all = Vec::with_capacity(alloc, self.new.len())?;
        for i in 0..self.new.len() {
            let names = self.names(alloc, outlines, self.new[i].module.module())?;
            pushed(&mut all, names)?;
        }
        Ok(all)
    }

    /// What each module of the bundle depends on; `Phase(13)`, where rule f fails. `names` has what the handles of each name.
    fn ordered(&self, alloc: Global, names: &[Names]) -> Result<Vec<BitSet>, Refusal>
        requires fits { IsFitting self.now }
        requires names { AreNamesOf (modules_in self.now) (offered self.now.new.now) names.now }
        ensures needed { IfOk result (λ v. AreDependenciesIn (modules_in self.now) (offered self.now.new.now) v.items) }
        ensures ok { OnOk result (IsOrdered (modules_in self.now)) }
        ensures refused { IfErr result (IsRefusedIn 13 (IsOrdered (modules_in self.now))) }
    {
        let needed = self.dependencies(alloc, names)?;
        let dependencies = Dependencies {
            scope: self,
            needed: &needed,
        };
        if dependencies.is_ordered(alloc)? {
            Ok(needed)
        } else {
            Err(Refusal::Phase(13))
        }
    }

    /// Tries rules f and g over all the modules, for which c, d and e hold, and links the bundle's. `names` has what the handles of
    /// each name; `outlines` are theirs, and are kept.
    fn linked(
        &self,
        alloc: Global,
        names: &[Names],
        outlines: Vec<Outline>,
    ) -> Result<Vec<Lowered>, Refusal>
        requires fits { IsFitting self.now }
        requires names { AreNamesOf (modules_in self.now) (offered self.now.new.now) names.now }
        requires hold { IsTrue (list_all (names_hold (modules_in self.now)) (offered self.now.new.now)) }
        requires outlines { AreOutlines (offered self.now.new.now) outlines.items }
        ensures ok { OnOk result (Links (modules_in self.now)) }
        ensures lowered { IfOk result (λ v. AreLowered (tables_in self.now.store.now) (offered self.now.new.now) (modules_in self.now) v.items) }
        ensures refused { IfErr result (IsRefusedIn 13 (Links (modules_in self.now))) }
    {
        let needed = self.ordered(alloc, names)?;
        let sizes = self.sizes(alloc, names)?;
        Ok(self.lowered(alloc, names, &sizes, outlines, needed)?)
    }

    /// Tries rules c to g over all the modules, and links the bundle's.
    fn links(&self, alloc: Global) -> Result<Vec<Lowered>, Refusal>
        requires fits { IsFitting self.now }
        ensures ok { OnOk result (Links (modules_in self.now)) }
        ensures lowered { IfOk result (λ v. AreLowered (tables_in self.now.store.now) (offered self.now.new.now) (modules_in self.now) v.items) }
        ensures refused { IfErr result (IsRefusedIn 13 (Links (modules_in self.now))) }
    {
        let outlines = self.outlines(alloc)?;
        let names = self.named(alloc, &outlines)?;
        self.linked(alloc, &names, outlines)
    }

    /// Tries rules c to h, and links the bundle's modules.
    pub fn joins(&self, alloc: Global) -> Result<Vec<Lowered>, Refusal>
        requires store { IsStore self.now.store.now }
        requires passed { All IsPublishable (published_of self.now.new.now) }
        ensures compatible { OnOk result (IsTrue (are_compatible (tables_in self.now.store.now) (offered self.now.new.now))) }
        ensures ok { OnOk result (Links (modules_in self.now)) }
        ensures lowered { IfOk result (λ v. AreLowered (tables_in self.now.store.now) (offered self.now.new.now) (modules_in self.now) v.items) }
        ensures refused { IfErr result (IsRefusedIn 13 (IsTrue (are_compatible (tables_in self.now.store.now) (offered self.now.new.now)) × Links (modules_in self.now))) }
    {
        if !self.all_follow() {
            return Err(Refusal::Phase(13));
        }
        self.links(alloc)
    }
}
