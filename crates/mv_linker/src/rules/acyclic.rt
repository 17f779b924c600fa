// Rule f of linking: no module that a store has once a bundle joins depends on itself by a chain.
ghost use Rattle.std.specs.Prelude.{◌↔◌, ◌<◌, [], IsTrue, IfOk};
ghost use Rattle.mv_link_rules.specs.Link.{IsStore, tables_in};
ghost use Rattle.mv_linker.specs.DependencyGraph.{IsOrdered};
ghost use Rattle.mv_linker.specs.ScopeDependencies.{AreDependenciesIn};
ghost use Rattle.mv_linker.specs.Relinked.{IsFitting};
ghost use Rattle.mv_linker.specs.Scope.{offered};
ghost use Rattle.mv_linker.specs.Finished.{AreFinished, GainsNothing};
ghost use Rattle.mv_linker.specs.Stored.{AreNamesOf};
ghost use Rattle.mv_linker.specs.Targets.{modules_in};

use crate::rules::scope::Scope;
use crate::rules::store_rules::Names;
use crate::store::dependencies::needs_of;
use mv_bit_sets::BitSet;
use std::alloc::{AllocError, Global};

/// What each module of a bundle depends on.
#[derive(Clone, Copy)]
pub struct Dependencies<'s, 'a, 'n> {
    /// The store and the bundle.
    pub scope: &'s Scope<'a>,
    /// The places that each module of the bundle depends on.
    pub needed: &'n [BitSet],
    ghost are: { AreDependenciesIn (modules_in scope.now) (offered scope.now.new.now) needed.now },
}

impl<'a> Scope<'a> {
    /// What each module of the bundle depends on, by what its handles name.
    pub fn dependencies(&self, alloc: Global, names: &[Names]) -> Result<Vec<BitSet>, AllocError>
        requires store { IsStore self.now.store.now }
        requires names { AreNamesOf (modules_in self.now) (offered self.now.new.now) names.now }
        ensures { IfOk result (λ v. AreDependenciesIn (modules_in self.now) (offered self.now.new.now) v.items) }
    {
        let mut all = Vec::with_capacity(alloc, names.len())?;
        for k in 0..names.len() {
            all.push(needs_of(alloc, self.places[k], &names[k].modules)?)?;
        }
        Ok(all)
    }
}

impl<'s, 'a, 'n> Dependencies<'s, 'a, 'n> {
    /// Whether each module of the bundle that replaces one depends on nothing that the replaced one didn't depend on.
    fn gains_nothing(&self) -> bool
        requires { IsFitting self.now.scope.now }
        ensures { IsTrue result ↔ GainsNothing (tables_in self.now.scope.now.store.now) (modules_in self.now.scope.now) }
    {
        for k in 0..self.scope.places.len() {
            let place = self.scope.places[k];
            if place >= self.scope.store.len() {
                continue;
            }
            let old = self.scope.store.needs_at(place);
            if self.needed[k].outside(0, old).is_some() {
                return false;
            }
        }
        true
    }

    /// How many of the first modules are in order by themselves. Where the bundle gains no dependency, these are the published
    /// modules and those that take their places; otherwise it is known of none.
    fn finished(&self) -> usize
        requires { IsFitting self.now.scope.now }
        ensures { AreFinished (modules_in self.now.scope.now) result [] }
    {
        if self.gains_nothing() {
            self.scope.store.len()
        } else {
            0
        }
    }

    /// Whether no module depends on itself by a chain. Other modules are looked at only if one of the bundle depends on something
    /// that the module that it replaces didn't depend on.
    pub fn is_ordered(&self, alloc: Global) -> Result<bool, AllocError>
        requires { IsFitting self.now.scope.now }
        ensures { IfOk result (λ b. IsTrue b ↔ IsOrdered (modules_in self.now.scope.now)) }
    {
        let base = self.finished();
        self.is_ordered_from(alloc, base)
    }
}
