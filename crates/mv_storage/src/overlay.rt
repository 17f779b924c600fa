// What a run sees of the storage, and what it does to it.
ghost use Rattle.std.specs.Prelude.{◌≡◌, ◌≤◌, ◌+◌, length, [], cond, take, drop, None, is_some, IfOk, IfSome, IsOk, OnOk, OnErr, MatchOption, option_copied, option_and_then, option_map, slice_get};
ghost use Rattle.mv_move_types.specs.declared.tables.Key.{Key};
ghost use Rattle.mv_storage.specs.WordLists.{piece};
ghost use Rattle.mv_storage.specs.FlatStorage.{words_under, with_words, without_words};
ghost use Rattle.mv_storage.specs.Map.{Ascends};
ghost use Rattle.std.specs.Prelude.{true, false, Some, Ok, Err};
ghost use Rattle.std.specs.Borrow.{sem};
ghost use Rattle.mv_storage.specs.Lending.{LendsLent, LendsWords, lent_words};

use crate::blocks::note_all;
use crate::slot::Layer;
use crate::slots::{own_place, part};
use crate::{Room, Storage, Value};
use mv_move_types::Key;
use std::alloc::{AllocError, Global};
use std::mem::replace;

/// Storage that is lent to a run, which changes it. A contract sees `storage.now.committed`, which the storage holds once the
/// overlay is gone, and `storage.now.current`, what the run has made of it so far. The cost of a call grows with the storage
/// only as a search does, and the key that was looked up last needs no search.
pub struct Overlay<'a> {
    pub(crate) storage: &'a mut Storage,
}

impl Drop for Overlay<'_> {
    fn drop(self)
        ensures committed { self.exit.0.now.committed ≡ self.entry.storage.now.committed }
        ensures marks { self.exit.0.now.marks ≡ self.entry.storage.now.marks }
    {
        let Self { storage } = self;
        storage.give_up();
    }
}

// The answer where words are lent.
#[inline(always)]
fn lent(words: &mut [u128]) -> Result<Option<&mut [u128]>, AllocError>
    ensures { result ≡ Ok (Some words.entry) }
{
    Ok(Some(words))
}

// The answer where none are lent: too few are there, or memory ran out.
#[inline(always)]
fn refused<'a>(there: bool) -> Result<Option<&'a mut [u128]>, AllocError>
    ensures { result ≡ cond there (Err (record {})) (Ok None) }
{
    if there {
        return Err(AllocError);
    }
    Ok(None)
}

impl Overlay<'_> {
    /// The allocator that it takes memory from.
    pub fn allocator(&self) -> Global {
        let storage = &*self.storage;
        storage.alloc
    }

    /// Takes out the memory that is kept for the words of a run, and for its tally. Nothing else changes.
    pub fn take_room(&mut self) -> Room
        ensures same { self.new ≡ self.old }
    {
        let storage = &mut *self.storage;
        replace(&mut storage.room, Room::new(storage.alloc))
    }

    /// Keeps memory for the words of the next run, 64 MiB for locals and 1 MiB for operands at most, and for its tally. Nothing else
    /// changes.
    pub fn keep_room(&mut self, room: Room)
        ensures same { self.new ≡ self.old }
    {
        let storage = &mut *self.storage;
        storage.room = room.kept(storage.alloc);
    }

    /// Whether the run sees a value under a key. The overlay remembers where it is, so that the next call with this key needs no
    /// search. Nothing else changes.
    #[inline(always)]
    pub fn recall(&mut self, key: &Key) -> bool
        ensures found { result ≡ is_some (words_under self.old.storage.now.current key.now) }
        ensures same { self.new ≡ self.old }
    {
        let storage = &mut *self.storage;
        match storage.work.places.recall(&mut storage.work.known, key) {
            Some(place) => storage.work.places.slots[place].is_seen(),
            None => false,
        }
    }

    /// Whether the run sees a value under a key. Where it sees none, the key has its place from then on, so that a `put` under it
    /// takes no search. Nothing else changes. It fails only where memory runs out, and nothing changes then.
    #[inline(always)]
    pub fn claim(&mut self, key: &Key) -> Result<bool, AllocError>
        ensures found { IfOk result (λ found. found ≡ is_some (words_under self.old.storage.now.current key.now)) }
        ensures same { self.new ≡ self.old }
    {
        let storage = &mut *self.storage;
        let place = storage.work.place_for(key)?;
        Ok(storage.work.places.slots[place].is_seen())
    }

    /// The word at a place among those that the run sees under a key, if there is one. The overlay remembers where the value is,
    /// so that the next call with this key needs no search. Nothing else changes.
    #[inline(always)]
    pub fn word(&mut self, key: &Key, at: usize) -> Option<u128>
        ensures word { result ≡ option_and_then (λ words. slice_get words at) (words_under self.old.storage.now.current key.now) }
        ensures same { self.new ≡ self.old }
    {
        let storage = &mut *self.storage;
        match storage.work.places.recall(&mut storage.work.known, key) {
            Some(place) => storage.work.places.slots[place].word(at),
            None => None,
        }
    }

    /// The word at a place among those that the run sees under a key, where that is known with no search: such a key was looked up
    /// lately. Where it isn't known, nothing is said.
    #[inline(always)]
    pub fn known_word(&self, key: &Key, at: usize) -> Option<u128>
        ensures { MatchOption result (Unit {0}) (λ word. option_and_then (λ words. slice_get words at) (words_under self.now.storage.now.current key.now) ≡ Some word) }
    {
        let storage = &*self.storage;
        storage.work.places.known_word(&storage.work.known, key, at)
    }

    // The words that the run sees under a key.
    #[inline]
    fn find(&self, key: &Key) -> Option<&[u128]>
        ensures { option_copied result ≡ words_under self.now.storage.now.current key.now }
    {
        let storage = &*self.storage;
        match storage.work.places.find_known(&storage.work.known, key) {
            Some(slot) => slot.current(),
            None => None,
        }
    }

    /// Whether the run sees a value under a key.
    #[inline]
    pub fn exists(&self, key: &Key) -> bool
        ensures { result ≡ is_some (words_under self.now.storage.now.current key.now) }
    {
        self.find(key).is_some()
    }

    /// How many words the run sees under a key; None where nothing is stored there.
    #[inline]
    pub fn len(&self, key: &Key) -> Option<usize>
        ensures { result ≡ option_map length (words_under self.now.storage.now.current key.now) }
    {
        match self.find(key) {
            Some(words) => Some(words.len()),
            None => None,
        }
    }

    /// The key of an address, a module's place and a definition's index, if it can be the key of a stored value.
    #[inline(always)]
    pub fn key_at(&self, address: u128, place: u128, index: u16) -> Option<Key>
        ensures { MatchOption result
            (words_under self.now.storage.now.current (record { address = address; place = place; index = index }) ≡ None)
            (λ k. k ≡ record { address = address; place = place; index = index }) }
    {
        let storage = &*self.storage;
        // For the prover: what the storage has under a key is as it was committed.
        let _work = &storage.work;
        if place > u16::MAX as u128 {
            return None;
        }
        Some(Key {
            address,
            place: place as u16,
            index,
        })
    }

    /// So many words from a place on, of those that the run sees under a key; None where nothing is stored there.
    #[inline]
    pub fn view(&self, key: &Key, offset: usize, width: usize) -> Option<&[u128]>
        requires fits { IfSome (words_under self.now.storage.now.current key.now) (λ words. offset + width ≤ length words) }
        ensures { option_copied result ≡ option_map (λ words. take width (drop offset words)) (words_under self.now.storage.now.current key.now) }
    {
        match self.find(key) {
            Some(words) => Some(part(words, offset, width)),
            None => None,
        }
    }

    // So many words from a place on, lent; and whether so many are there, and whether they are lent. No words are lent where fewer
    // are there, or where memory runs out; nothing changes then.
    #[inline(always)]
    fn open(
        &mut self,
        key: &Key,
        from: usize,
        width: usize,
        there: &mut bool,
        lent: &mut bool,
    ) -> &mut [u128]
        ensures* loan { sem 𝓛 (LendsLent self.entry key.now from width lent.new result) }
        ensures words { lent.new ≡ true → Some result.now ≡ option_and_then (piece from width) (words_under self.old.storage.now.current key.now) }
        ensures there { there.new ≡ false → option_and_then (piece from width) (words_under self.old.storage.now.current key.now) ≡ None }
        ensures ascends { Ascends self.old.storage.now.current }
    {
        let storage = &mut *self.storage;
        match storage.work.ready(key, from, width) {
            Some(place) => {
                *there = true;
                *lent = true;
                storage.work.places.words_at(Some(place), from, width)
            }
            None => {
                let found = storage.work.own(
                    key.address,
                    key.place,
                    key.index,
                    from,
                    width,
                    storage.alloc,
                );
                let place = own_place(found, width, there, lent);
                storage.work.places.words_at(place, from, width)
            }
        }
    }

    /// Lends `width` words from `offset` on, of those that the run sees under a key, to be read and written in place; None if
    /// nothing is stored there, or fewer. Once the loan is over, the run sees the value with the lent words as they are then. The
    /// first edit of a committed value copies it.
    ///
    /// # Errors
    ///
    /// If an allocation failed. Nothing has changed then.
    #[inline(always)]
    pub fn edit(
        &mut self,
        key: &Key,
        offset: usize,
        width: usize,
    ) -> Result<Option<&mut [u128]>, AllocError>
        ensures* loan { sem 𝓛 (LendsWords self.entry key.now offset width result) }
        ensures words { IfOk result (λ found. lent_words found ≡ option_and_then (piece offset width) (words_under self.old.storage.now.current key.now)) }
    {
        let mut there = false;
        let mut found = false;
        let words = self.open(key, offset, width, &mut there, &mut found);
        if found {
            return lent(words);
        }
        refused(there)
    }

    /// Takes the value under a key out of what the run sees. It fails only where memory runs out, and nothing changes then.
    pub fn take(&mut self, key: &Key) -> Result<Option<Value>, AllocError>
        ensures value { IfOk result (λ v. v ≡ words_under self.old.storage.now.current key.now) }
        ensures current { OnOk result (self.new.storage.now.current ≡ without_words self.old.storage.now.current key.now) }
        ensures committed { self.new.storage.now.committed ≡ self.old.storage.now.committed }
        ensures marks { self.new.storage.now.marks ≡ self.old.storage.now.marks }
        ensures loan { self.new.storage.ghost_name ≡ self.old.storage.ghost_name }
        ensures err { OnErr result (self.new.storage.now ≡ self.old.storage.now) }
    {
        let storage = &mut *self.storage;
        storage.work.take(key, storage.alloc)
    }

    /// Puts a value under a key where the run sees none. It fails only where memory runs out, and nothing changes then.
    pub fn put(&mut self, key: Key, value: Value) -> Result<(), AllocError>
        requires absent { words_under self.old.storage.now.current key ≡ None }
        ensures current { OnOk result (self.new.storage.now.current ≡ with_words self.old.storage.now.current key value) }
        ensures committed { self.new.storage.now.committed ≡ self.old.storage.now.committed }
        ensures marks { self.new.storage.now.marks ≡ self.old.storage.now.marks }
        ensures loan { self.new.storage.ghost_name ≡ self.old.storage.ghost_name }
        ensures err { OnErr result (self.new.storage.now ≡ self.old.storage.now) }
    {
        let storage = &mut *self.storage;
        storage.work.put(key, value, storage.alloc)
    }

    /// Commits what the run has made so far; the run goes on from there.
    ///
    /// # Errors
    ///
    /// Where no block is open it takes no memory and never fails. In a block it may fail for want of memory; overlay and storage are
    /// then as they were.
    pub fn commit(&mut self) -> Result<(), AllocError>
        ensures done { self.old.storage.now.marks ≡ [] → IsOk result }
        ensures committed { OnOk result (self.new.storage.now.committed ≡ self.old.storage.now.current) }
        ensures current { self.new.storage.now.current ≡ self.old.storage.now.current }
        ensures marks { self.new.storage.now.marks ≡ self.old.storage.now.marks }
        ensures loan { self.new.storage.ghost_name ≡ self.old.storage.ghost_name }
        ensures err { OnErr result (self.new.storage.now ≡ self.old.storage.now) }
    {
        let storage = &mut *self.storage;
        if storage.marks.is_empty() {
            storage.work.resolve(Layer::Current);
            return Ok(());
        }
        let work = &mut storage.work;
        work.known.forget();
        storage.undo.reserve(work.touched.len())?;
        note_all(&mut work.places, &mut work.touched, &mut storage.undo);
        Ok(())
    }

    /// Gives up what the run has made since the last commit. It takes no memory.
    pub fn discard(self)
        ensures committed { self.exit.0.now.committed ≡ self.entry.storage.now.committed }
        ensures marks { self.exit.0.now.marks ≡ self.entry.storage.now.marks }
    {
        drop(self);
    }
}
