// Storage: values under keys, and what a run at work has made of them.
ghost use Rattle.std.specs.BTreeMap.Range.{IsLeBy, IsLtBy, range_contains};
ghost use Rattle.std.specs.List.{filter, AllByRecursion};
ghost use Rattle.mv_machine.specs.State.{same_key};
ghost use Rattle.std.specs.Prelude.{◌≡◌, ◌==◌, ◌<◌, ◌^◌, ◌++◌, ◌∷◌, length, [], List, true, false, IfOk, OnOk, OnErr, option_copied};
ghost use Rattle.mv_storage.specs.FlatStorage.{FlatStorage, words_under};
ghost use Rattle.mv_storage.specs.Map.{Ascends};
ghost use Rattle.mv_storage.specs.Slots.{key_cmp, layers, IsSound, AreKept};
ghost use Rattle.mv_storage.specs.Difference.{IsDifference};

use crate::blocks::{Undone, close, take_back};
use crate::changes::{Changes, firsts, newest};
use crate::known::Known;
use crate::places::Places;
use crate::room::{MOST_TALLIED, Room};
use crate::slot::Layer;
use crate::slots::Work;
use crate::{Entries, Overlay};
use mv_machine::StructTally;
use mv_move_types::{Address, Key};
use mv_undo::Marks;
use std::alloc::{AllocError, Global};
use std::marker::Model;
use std::ops::RangeBounds;

/// Values, each under its key. A contract sees those that are committed, what the run at work has made of them by now, and those
/// that were committed when each open block was begun, the oldest first: each is the list of entries by ascending key, every value
/// as its words.
#[derive(Drop)]
pub struct Storage {
    pub(crate) work: Work,
    // memory for the words of the next run, and for its tally
    pub(crate) room: Room,
    // what was committed since the oldest open block was begun, and how much of it when each open block was
    pub(crate) undo: Vec<Undone>,
    pub(crate) marks: Marks,
    pub(crate) alloc: Global,
}

impl Model for Storage {
    ghost use Rattle.mv_storage.specs.Map.{Layers};

    ghost Value = { Layers };

    ghost use Rattle.std.specs.Prelude.{◌≡◌, [], length};
    ghost use Rattle.mv_storage.specs.Work.{IsAtWork};
    ghost use Rattle.mv_undo.specs.Undo.{AreMarks};
    ghost use Rattle.mv_storage.specs.Blocks.{contents, IsUndoable};

    ghost view = { λ s. contents s.work.places s.undo.items s.marks };

    ghost invariant = { λ s. IsAtWork s.work × IsUndoable s.work.places s.undo.items × AreMarks s.marks (length s.undo.items) × (s.marks ≡ [] → s.undo.items ≡ []) };
}

// The first of all keys at an address.
fn first_at(address: Address) -> Key
    ensures { result ≡ record { address = address; place = 0; index = 0 } }
{
    Key {
        address,
        place: 0,
        index: 0,
    }
}

// For the prover: an address has 128 bits.
fn has_128_bits(address: Address)
    ensures { address < 2 ^ 128 }
{
    let _address = address;
}

impl Storage {
    /// Storage with nothing in it.
    pub fn new(alloc: Global) -> Self
        ensures committed { result.committed ≡ [] }
        ensures current { result.current ≡ [] }
        ensures marks { result.marks ≡ [] }
    {
        Storage {
            work: Work {
                places: Places::new(alloc),
                touched: Vec::new(alloc),
                known: Known::new(),
            },
            room: Room::new(alloc),
            undo: Vec::new(alloc),
            marks: Marks::new(alloc),
            alloc,
        }
    }

    // The storage of committed values in these places.
    pub(crate) fn holding(places: Places, alloc: Global) -> Self
        requires sound { IsSound places }
        requires kept { AreKept places }
        ensures committed { result.committed ≡ (layers places).committed }
        ensures current { result.current ≡ result.committed }
        ensures marks { result.marks ≡ [] }
    {
        Storage {
            work: Work {
                places,
                touched: Vec::new(alloc),
                known: Known::new(),
            },
            room: Room::new(alloc),
            undo: Vec::new(alloc),
            marks: Marks::new(alloc),
            alloc,
        }
    }

    /// The committed words under a key.
    pub fn get(&self, key: &Key) -> Option<&[u128]>
        ensures { option_copied result ≡ words_under self.now.committed key.now }
    {
        match self.work.places.find(key) {
            Some(slot) => slot.committed(),
            None => None,
        }
    }

    // The committed values under keys of a range.
    #[inline]
    pub(crate) fn entries<R: RangeBounds<Key> + Drop>(&self, keys: R) -> Entries<'_>
        requires known { R.has_bounds keys }
        requires forward { R.is_forward keys (IsLeBy key_cmp) (IsLtBy key_cmp) }
        ensures value { result ≡ filter (λ e. range_contains key_cmp (R.start_bound keys) (R.end_bound keys) e.key) self.entry.now.committed }
        ensures few { length result < 2 ^ 63 }
    {
        Entries {
            places: self.work.places.tree.range(keys),
            slots: self.work.places.slots.as_slice(),
        }
    }

    /// The committed values by ascending key.
    pub fn iter(&self) -> Entries<'_>
        ensures value { result ≡ self.entry.now.committed }
        ensures few { length self.entry.now.committed < 2 ^ 63 }
    {
        self.entries(..)
    }

    /// The committed values at an address, by ascending key.
    pub fn values_at(&self, address: Address) -> Entries<'_>
        ensures value { result ≡ filter (λ e. e.key.address == address) self.entry.now.committed }
        ensures few { length result < 2 ^ 63 }
    {
        let first = first_at(address);
        match address.checked_add(1) {
            Some(next) => self.entries(first..first_at(next)),
            None => {
                // For the prover: no address is above this one.
                self.has_addresses();
                self.entries(first..)
            }
        }
    }

    // For the prover: each key has an address.
    pub(crate) fn has_addresses(&self)
        ensures { AllByRecursion (λ e. e.key.address < 2 ^ 128) self.now.committed }
    {
        if let Some((last, _)) = self.work.places.tree.last_key_value() {
            has_128_bits(last.address);
        }
    }

    /// The committed value under a key, if there is one.
    pub fn value_at(&self, key: Key) -> Entries<'_>
        ensures value { result ≡ filter (λ e. same_key e.key key) self.entry.now.committed }
        ensures few { length result < 2 ^ 63 }
    {
        self.entries(key..=key)
    }

    // For the prover: the keys of the committed values ascend.
    pub(crate) fn is_ascending(&self)
        ensures { Ascends self.now.committed }
    {
        let _work = &self.work;
    }

    /// Keeps a list for the tally of the next run, unless it has room for more than 4,096 structs. What it holds means nothing.
    /// Nothing else changes.
    pub fn keep_tally(&mut self, tally: Vec<StructTally>)
        ensures same { self.new ≡ self.old }
    {
        if tally.capacity() <= MOST_TALLIED {
            self.room.tally = tally;
        }
    }

    /// The storage for a run to change. It is lent to the overlay, and holds what was committed by then once that is gone.
    pub fn overlay(&mut self) -> Overlay<'_>
        ensures loan { result.storage.ghost_name ≡ self.entry.ghost_name }
        ensures committed { result.storage.now.committed ≡ self.old.committed }
        ensures current { result.storage.now.current ≡ self.old.committed }
        ensures marks { result.storage.now.marks ≡ self.old.marks }
    {
        let storage = self;
        storage.give_up();
        Overlay { storage }
    }

    // Gives up what the run has made. It takes no memory.
    pub(crate) fn give_up(&mut self)
        ensures committed { self.new.committed ≡ self.old.committed }
        ensures current { self.new.current ≡ self.old.committed }
        ensures marks { self.new.marks ≡ self.old.marks }
    {
        self.work.resolve(Layer::Committed);
    }

    /// Opens a block, which can be taken back. What a run has made and not committed is given up.
    ///
    /// # Errors
    ///
    /// If an allocation failed. No block is opened then.
    pub fn begin(&mut self) -> Result<(), AllocError>
        ensures committed { self.new.committed ≡ self.old.committed }
        ensures marks { OnOk result (self.new.marks ≡ self.old.marks ++ self.old.committed ∷ []) }
        ensures err { OnErr result ((self.new.committed ≡ self.old.committed) × (self.new.marks ≡ self.old.marks)) }
    {
        self.give_up();
        self.marks.begin(self.undo.len())
    }

    /// Takes back what was committed since the newest open block was begun, closes that block, and says whether there was one. It
    /// takes no memory, and as long as what the block committed.
    pub fn rollback(&mut self) -> bool
        ensures back { result ≡ true → self.old.marks ≡ self.new.marks ++ self.new.committed ∷ [] }
        ensures none { result ≡ false → (self.old.marks ≡ []) × (self.new.committed ≡ self.old.committed) × (self.new.marks ≡ []) }
    {
        self.work.resolve(Layer::Committed);
        match self.marks.end() {
            Some(mark) => {
                self.work.known.forget();
                take_back(&mut self.work.places, &mut self.undo, mark);
                close(
                    &mut self.work.places,
                    &mut self.undo,
                    &self.marks,
                    self.alloc,
                );
                true
            }
            None => false,
        }
    }

    /// Closes the newest open block, keeps what was committed in it, and says whether there was one. It takes no memory. What a
    /// block that stands in another one committed can still be taken back with that one.
    pub fn keep(&mut self) -> bool
        ensures committed { self.new.committed ≡ self.old.committed }
        ensures closed { result ≡ true → (h : FlatStorage) × (self.old.marks ≡ self.new.marks ++ h ∷ []) }
        ensures none { result ≡ false → (self.old.marks ≡ []) × (self.new.marks ≡ []) }
    {
        self.work.resolve(Layer::Committed);
        match self.marks.end() {
            Some(_mark) => {
                self.work.known.forget();
                close(
                    &mut self.work.places,
                    &mut self.undo,
                    &self.marks,
                    self.alloc,
                );
                true
            }
            None => false,
        }
    }

    /// What was committed since the newest open block was begun, by ascending key: each key with the value that it had and the one
    /// that it has, where these differ; nothing where no block is open. It takes as long, and memory, as what was committed.
    ///
    /// # Errors
    ///
    /// If an allocation failed.
    pub fn changes(&self) -> Result<Changes<'_>, AllocError>
        ensures { IfOk result (λ told. (older : List FlatStorage) (old : FlatStorage) → self.entry.now.marks ≡ older ++ old ∷ [] → IsDifference old self.entry.now.committed told) }
    {
        let mark = newest(&self.marks, self.undo.len());
        let undo = self.undo.as_slice();
        let firsts = firsts(self.alloc, undo, mark)?;
        Ok(Changes {
            firsts: firsts.into_iter(),
            undo,
            places: &self.work.places,
        })
    }
}
