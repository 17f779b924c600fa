// The modules that a module depends on, by their places.
ghost use Rattle.std.specs.Prelude.{◌≡◌, ◌<◌, All, List, Some, slice_get, IfOk, IsTrue};
ghost use Rattle.mv_move_types.specs.Module.{Module};
ghost use Rattle.mv_move_types.specs.Named.{have_one_name};
ghost use Rattle.mv_bound_rules.specs.Definitions.{all_differ};
ghost use Rattle.mv_linker.specs.DependencyGraph.{AreHandlePlaces, AreNeeds, others};

use mv_bit_sets::BitSet;
use std::alloc::{AllocError, Global};

/// The places other than a module's own.
fn others(alloc: Global, own: usize, places: &[usize]) -> Result<Vec<usize>, AllocError>
    ensures { IfOk result (λ v. v.items ≡ others own places.now) }
{
    places
        .iter()
        .copied()
        .filter(|place| *place != own)
        .collect(alloc)
}

/// What a module depends on: the modules at the places that its module handles name, other than its own.
pub fn needs_of(alloc: Global, own: usize, places: &[usize]) -> Result<BitSet, AllocError>
    requires { All (λ p. p < 65536) (others own places.now) }
    ensures { IfOk result (λ needs. (modules : List Module) (m : Module) → slice_get modules own ≡ Some m → IsTrue (all_differ have_one_name modules)
        → AreHandlePlaces modules m places.now → AreNeeds modules m needs) }
{
    let others = others(alloc, own, places)?;
    BitSet::of(alloc, &others)
}
