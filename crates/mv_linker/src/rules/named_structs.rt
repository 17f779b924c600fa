// Rule d of linking: the structs that a module's handles name are there, with the same abilities.
ghost use Rattle.std.specs.Prelude.{◌≡◌, ◌<◌, true, false, slice_get, None, Some, IsTrue, IfOk, IfErr, IfSome, IfNone, OnOk, MatchOption};
ghost use Rattle.mv_move_types.specs.Module.{Module as Tables};
ghost use Rattle.mv_move_types.specs.Names.{ModuleName};
ghost use Rattle.mv_move_types.specs.Refusals.{IsRefusedIn};
ghost use Rattle.mv_linker.specs.Found.{AreTargets};
ghost use Rattle.mv_interface.specs.Handles.{AreStructsAt, IsStructAt};
ghost use Rattle.mv_linker.specs.Matches.{IsOf, IsStructOf, struct_matches};
ghost use Rattle.mv_interface.specs.Outline.{IsOutline};
ghost use Rattle.mv_link_rules.specs.StoreRules.{struct_is_there, structs_are_there};
ghost use Rattle.mv_linker.specs.Targets.{modules_in};

use crate::rules::named_modules::Target;
use crate::rules::pushed::pushed;
use crate::rules::scope::Scope;
use mv_binary_format::Module;
use mv_bound_rules::struct_places;
use mv_interface::{Outline, are_same};
use mv_move_types::{Definition, Refusal, StructHandle};
use std::alloc::Global;

/// The module that a module handle leads to, if it is there.
pub fn target_at<'t, 'm>(targets: &'t [Target<'m>], h: usize) -> Option<&'t Target<'m>>
    ensures there { IfSome result (λ t. slice_get targets.entry.now h ≡ Some t.now) }
    ensures none { IfNone result (slice_get targets.entry.now h ≡ None) }
{
    targets.get(h)
}

/// The index of the struct that a handle names, if the module of an outline has it with the handle's abilities.
fn struct_in(
    m: &Module<'_>,
    handle: StructHandle,
    outline: &Outline,
    likely: Option<usize>,
) -> Option<usize>
    ensures found { (n : Tables) (home : ModuleName) → IsOf m.now handle.module n home → IsOutline n outline.now
        → MatchOption result (struct_matches m.now handle n home ≡ false) (λ k. (struct_matches m.now handle n home ≡ true) × IsStructOf m.now handle n home k) }
    ensures few { IfSome result (λ k. k < 65536) }
{
    let name = m.identifier(handle.name as usize)?;
    let index = outline.struct_named(name, likely)?;
    let abilities = outline.abilities(index)?;
    if are_same(handle.abilities, abilities) {
        Some(index)
    } else {
        None
    }
}

/// A definition by its module's place and its index there.
pub fn definition(place: usize, index: usize) -> Definition
    requires place { place < 65536 }
    requires index { index < 65536 }
    ensures { result ≡ record { place = place; index = index } }
{
    Definition {
        place: place as u16,
        index: index as u16,
    }
}

impl<'a> Scope<'a> {
    /// Where the struct of a handle is defined; `Phase(13)`, where it is not there or has other abilities.
    fn structure(
        &self,
        m: &Module<'_>,
        targets: &[Target<'_>],
        h: usize,
        handle: StructHandle,
        likely: Option<usize>,
    ) -> Result<Definition, Refusal>
        requires named { AreTargets (modules_in self.now) m.now targets.now }
        requires handle { slice_get m.now.struct_handles h ≡ Some handle }
        ensures ok { IfOk result (IsStructAt (modules_in self.now) m.now h) }
        ensures there { OnOk result (IsTrue (struct_is_there (modules_in self.now) m.now h handle)) }
        ensures refused { IfErr result (IsRefusedIn 13 (IsTrue (struct_is_there (modules_in self.now) m.now h handle))) }
    {
        let Some(target) = target_at(targets, handle.module as usize) else {
            return Err(Refusal::Phase(13));
        };
        match struct_in(m, handle, target.module.outline(), likely) {
            Some(index) => Ok(definition(target.place, index)),
            None => Err(Refusal::Phase(13)),
        }
    }

    /// Where the structs of a module's handles are defined; `Phase(13)`, where one is not there or has other abilities.
    pub fn structs(
        &self,
        alloc: Global,
        m: &Module<'_>,
        targets: &[Target<'_>],
    ) -> Result<Vec<Definition>, Refusal>
        requires named { AreTargets (modules_in self.now) m.now targets.now }
        ensures ok { IfOk result (λ v. AreStructsAt (modules_in self.now) m.now v.items) }
        ensures there { OnOk result (IsTrue (structs_are_there (modules_in self.now) m.now 0 m.now.struct_handles)) }
        ensures refused { IfErr result (IsRefusedIn 13 (IsTrue (structs_are_there (modules_in self.now) m.now 0 m.now.struct_handles))) }
    {
        // Where its own structs are likely to stand, so that no search is needed for these.
        let likely = struct_places(alloc, m)?;
        let mut found = Vec::with_capacity(alloc, likely.len())?;
        for h in 0..m.struct_handles().len() {
            let handle = m.struct_handles()[h];
            let definition = self.structure(m, targets, h, handle, likely[h])?;
            pushed(&mut found, definition)?;
        }
        Ok(found)
    }
}
