// Rule g of linking: the structs of a bundle are small.
ghost use Rattle.std.specs.Prelude.{map, IsSome, IfOk, IfErr, OnOk};
ghost use Rattle.std.specs.List.{AllZip};
ghost use Rattle.mv_move_types.specs.Module.{name_at};
ghost use Rattle.mv_move_types.specs.Refusals.{IsRefusedIn};
ghost use Rattle.mv_link_rules.specs.Link.{tables_in};
ghost use Rattle.mv_linker.specs.Relinked.{IsFitting};
ghost use Rattle.mv_linker.specs.Sizes.{AreSizes, AreSmall};
ghost use Rattle.mv_linker.specs.FoundStructs.{IsFoundAt, AreFoundFor};
ghost use Rattle.mv_linker.specs.Scope.{offered};
ghost use Rattle.mv_linker.specs.Stored.{AreNamesOf};
ghost use Rattle.mv_linker.specs.Targets.{EachAt, modules_in};

use crate::rules::scope::Scope;
use crate::rules::sizes::{Defined, Size, have_no_structs, no_sizes, sizes_of};
use crate::rules::store_rules::Names;
use mv_move_types::{Definition, Refusal};
use std::alloc::{AllocError, Global};

impl<'a> Scope<'a> {
    /// Where a struct is defined: in the bundle, or in the store, which has its size.
    fn defined(&self, d: Definition) -> Defined
        requires { IsSome (name_at (modules_in self.now) d.place d.index) }
        ensures { IsFoundAt (tables_in self.now.store.now) self.now.places.items d result }
    {
        match self.bundled(usize::from(d.place)) {
            Some(k) => Defined::Bundled(k, usize::from(d.index)),
            None => Defined::Published(self.store.size(d)),
        }
    }

    /// Where the structs of a module's handles are defined.
    fn defined_for(&self, alloc: Global, names: &Names) -> Result<Vec<Defined>, AllocError>
        requires { EachAt (λ h d. IsSome (name_at (modules_in self.now) d.place d.index)) names.now.structs.items }
        ensures { IfOk result (λ v. AreFoundFor (tables_in self.now.store.now) self.now.places.items names.now v.items) }
    {
        let mut found = Vec::new(alloc);
        for d in &names.structs {
            found.push(self.defined(*d))?;
        }
        Ok(found)
    }

    /// Where the structs of the handles of each module of the bundle are defined.
    fn all_defined(&self, alloc: Global, names: &[Names]) -> Result<Vec<Vec<Defined>>, AllocError>
        requires { AreNamesOf (modules_in self.now) (offered self.now.new.now) names.now }
        ensures { IfOk result (λ v. AllZip (AreFoundFor (tables_in self.now.store.now) self.now.places.items) names.now (map (λ r. r.items) v.items)) }
    {
        let mut found = Vec::with_capacity(alloc, names.len())?;
        for n in names {
            found.push(self.defined_for(alloc, n)?)?;
        }
        Ok(found)
    }

    /// The sizes of the structs of the bundle's modules; `Phase(13)`, where one is not small. `names` has what the handles of
    /// each module name.
    pub fn sizes(&self, alloc: Global, names: &[Names]) -> Result<Vec<Vec<Size>>, Refusal>
        requires fits { IsFitting self.now }
        requires names { AreNamesOf (modules_in self.now) (offered self.now.new.now) names.now }
        ensures ok { IfOk result (λ v. AreSizes (modules_in self.now) (offered self.now.new.now) (map (λ r. r.items) v.items)) }
        ensures small { OnOk result (AreSmall (modules_in self.now) (offered self.now.new.now)) }
        ensures refused { IfErr result (IsRefusedIn 13 (AreSmall (modules_in self.now) (offered self.now.new.now))) }
    {
        if have_no_structs(self.new) {
            return Ok(no_sizes(alloc, self.new)?);
        }
        let found = self.all_defined(alloc, names)?;
        sizes_of(alloc, self.new, &found)
    }
}
