// Values that are to be stored all at once.
ghost use Rattle.std.specs.Prelude.{◌≡◌, ◌++◌, ◌∷◌, [], IfOk, OnOk, OnErr};
ghost use Rattle.mv_storage.specs.Filling.{IsFilled, ArePairs, AreFilled};

use crate::places::Places;
use crate::slot::Slot;
use crate::{Storage, Value};
use mv_move_types::Key;
use std::alloc::{AllocError, Global};
use std::collections::BTreeMap;
use std::marker::Model;

/// Values that are to be stored all at once, each under its key, which takes far less time than to put them one by one. A contract
/// sees them as the list of entries in the order in which they came.
#[derive(Drop)]
pub struct Filling {
    // each key with the place of its slot
    pairs: Vec<(Key, usize)>,
    slots: Vec<Slot>,
    alloc: Global,
}

impl Model for Filling {
    ghost use Rattle.mv_storage.specs.FlatStorage.{FlatStorage};

    ghost Value = { FlatStorage };

    ghost use Rattle.mv_storage.specs.Slots.{shown};
    ghost use Rattle.mv_storage.specs.Filling.{ArePairs};
    ghost use Rattle.mv_storage.specs.declared.slot.Layer.TheVariants.{Committed};

    ghost view = { λ f. shown Committed f.slots.items f.pairs.items };

    ghost invariant = { λ f. ArePairs f.pairs.items f.slots.items };
}

// The slots of keys that have these places. Of pairs with the same key the first one stays.
fn placed(
    mut pairs: Vec<(Key, usize)>,
    slots: Vec<Slot>,
    alloc: Global,
) -> Result<Places, AllocError>
    requires { ArePairs pairs.items slots.items }
    ensures { IfOk result (AreFilled pairs.items slots.items) }
{
    // The tree takes the last one.
    pairs.reverse();
    let tree = BTreeMap::from_iter(alloc, pairs)?;
    Ok(Places::of(tree, slots, alloc))
}

impl Filling {
    /// No values.
    pub fn new(alloc: Global) -> Self
        ensures { result ≡ [] }
    {
        Filling {
            pairs: Vec::new(alloc),
            slots: Vec::new(alloc),
            alloc,
        }
    }

    /// Takes room for so many more values.
    ///
    /// # Errors
    ///
    /// If an allocation failed. The values stay in either case.
    pub fn reserve(&mut self, more: usize) -> Result<(), AllocError>
        ensures { self.new ≡ self.old }
    {
        self.pairs.reserve(more)?;
        self.slots.reserve(more)
    }

    /// Adds a value that is to be stored under a key, unless one came before it with the same key.
    ///
    /// # Errors
    ///
    /// If an allocation failed. Nothing is added then.
    pub fn add(&mut self, key: Key, value: Value) -> Result<(), AllocError>
        ensures ok { OnOk result (self.new ≡ self.old ++ record { key = key; words = value } ∷ []) }
        ensures err { OnErr result (self.new ≡ self.old) }
    {
        // For the prover: a module's place has 16 bits.
        let _place = key.place;
        self.pairs.reserve(1)?;
        self.slots.reserve(1)?;
        self.pairs.push_reserved((key, self.slots.len()));
        self.slots.push_reserved(Slot::kept(value));
        Ok(())
    }

    /// The storage that holds these values: under each key the one that came first.
    ///
    /// # Errors
    ///
    /// If an allocation failed.
    pub fn into_storage(self) -> Result<Storage, AllocError>
        ensures committed { IfOk result (λ s. IsFilled self s.committed) }
        ensures current { IfOk result (λ s. s.current ≡ s.committed) }
        ensures marks { IfOk result (λ s. s.marks ≡ []) }
    {
        let Filling {
            pairs,
            slots,
            alloc,
        } = self;
        let places = placed(pairs, slots, alloc)?;
        Ok(Storage::holding(places, alloc))
    }
}
