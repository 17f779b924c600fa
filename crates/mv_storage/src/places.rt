// Slots in a list, and the place that each key's slot has there. A place that is free holds the next free one, so that
// taking a key out takes no memory.
ghost use Rattle.std.specs.Prelude.{◌≡◌, ◌<◌, ◌↔◌, ◌∷◌, ◌++◌, [], IsTrue, length, None, Some, Ok, IfOk, OnErr, cond, is_some, unwrap_or, option_copied, slice_set};
ghost use Rattle.std.specs.BTreeMap.{get, IsOrdered};
ghost use Rattle.mv_move_types.specs.declared.tables.Key.{Key};
ghost use Rattle.mv_machine.specs.State.{same_key};
ghost use Rattle.std.specs.Prelude.{◌≤◌, ◌+◌, IfSome, MatchOption, take, drop, option_map, option_and_then, slice_get};
ghost use Rattle.std.specs.Borrow.{sem};
ghost use Rattle.mv_storage.specs.Slots.{key_cmp, slot_at, free_after, IsSound, IsVacantAt, IsRemembered, IsOwn, of_layer, value_at};
ghost use Rattle.mv_storage.specs.Lending.{LendsAt};
ghost use Rattle.mv_storage.specs.declared.slot.Slot.{Slot};
ghost use Rattle.mv_storage.specs.declared.slot.Layer.TheVariants.{Current};

use crate::known::Known;
use crate::slot::Slot;
use mv_move_types::Key;
use std::alloc::{AllocError, Global};
use std::collections::BTreeMap;
use std::collections::btree_map::Entry;
use std::mem::replace;

// The slots of keys: a search for a key finds a place in the list.
#[derive(Drop)]
pub(crate) struct Places {
    pub(crate) tree: BTreeMap<Key, usize>,
    pub(crate) slots: Vec<Slot>,
    // no words, which are lent where there are none
    pub(crate) nothing: Vec<u128>,
    // a free place, if there is one
    free: usize,
}

impl Places {
    // No slots.
    pub(crate) fn new(alloc: Global) -> Self
        ensures empty { result.tree.entries ≡ [] }
        ensures sound { IsSound result }
    {
        Places {
            tree: BTreeMap::new(alloc),
            slots: Vec::new(alloc),
            nothing: Vec::new(alloc),
            free: usize::MAX,
        }
    }

    // The slots of keys that have these places.
    pub(crate) fn of(tree: BTreeMap<Key, usize>, slots: Vec<Slot>, alloc: Global) -> Self
        ensures tree { result.tree ≡ tree }
        ensures slots { result.slots ≡ slots }
    {
        Places {
            tree,
            slots,
            nothing: Vec::new(alloc),
            free: usize::MAX,
        }
    }

    // The place of a key's slot.
    #[inline]
    pub(crate) fn place(&self, key: &Key) -> Option<usize>
        ensures { result ≡ get key_cmp self.now.tree key.now }
    {
        match self.tree.get(key) {
            Some(place) => Some(*place),
            None => None,
        }
    }

    // The slot under a key.
    #[inline]
    pub(crate) fn find(&self, key: &Key) -> Option<&Slot>
        ensures { option_copied result ≡ slot_at self.now key.now }
    {
        match self.place(key) {
            Some(place) => self.slots.get(place),
            None => None,
        }
    }

    // The slot under a key, of which the place may be remembered.
    #[inline]
    pub(crate) fn find_known(&self, known: &Known, key: &Key) -> Option<&Slot>
        requires { IsRemembered self.now.tree known.now.lines }
        ensures { option_copied result ≡ slot_at self.now key.now }
    {
        match known.recalled(&self.tree, key) {
            Some(place) => self.slots.get(place),
            None => self.find(key),
        }
    }

    // The place of a key's slot, which is remembered from then on.
    #[inline(always)]
    pub(crate) fn recall(&self, known: &mut Known, key: &Key) -> Option<usize>
        requires { IsRemembered self.now.tree known.old.lines }
        ensures remembered { IsRemembered self.now.tree known.new.lines }
        ensures place { result ≡ get key_cmp self.now.tree key.now }
    {
        match known.recalled(&self.tree, key) {
            Some(place) => Some(place),
            None => self.search(known, key.address, key.place, key.index),
        }
    }

    // The same by a search. The key is passed in its parts, since a whole one would be spilled to memory on the common path.
    #[cold]
    #[inline(never)]
    fn search(&self, known: &mut Known, address: u128, place: u16, index: u16) -> Option<usize>
        requires { IsRemembered self.now.tree known.old.lines }
        ensures remembered { IsRemembered self.now.tree known.new.lines }
        ensures place { result ≡ get key_cmp self.now.tree (record { address = address; place = place; index = index }) }
    {
        let key = Key {
            address,
            place,
            index,
        };
        let found = self.place(&key)?;
        known.note(key, found);
        Some(found)
    }

    // The word at a place among those that the run sees under a key, if the key's place is remembered.
    #[inline(always)]
    pub(crate) fn known_word(&self, known: &Known, key: &Key, at: usize) -> Option<u128>
        requires { IsRemembered self.now.tree known.now.lines }
        ensures { MatchOption result (Unit {0}) (λ word. option_and_then (λ words. slice_get words at) (value_at Current self.now key.now) ≡ Some word) }
    {
        let place = known.recalled(&self.tree, key)?;
        self.slots.get(place)?.word(at)
    }

    // Whether a place is free.
    #[inline]
    fn is_vacant(&self, place: usize) -> bool
        ensures { IsTrue result ↔ IsVacantAt self.now.slots.items place }
    {
        match self.slots.get(place) {
            Some(slot) => slot.is_vacant(),
            None => false,
        }
    }

    // A free place: one that was left, which takes no memory, or a new one. It fails only where memory runs out, and nothing
    // changes then.
    #[inline]
    pub(crate) fn vacancy(&mut self) -> Result<usize, AllocError>
        requires { IsSound self.old }
        ensures sound { IsSound self.new }
        ensures same { (q : Key) → slot_at self.new q ≡ slot_at self.old q }
        ensures tree { self.new.tree ≡ self.old.tree }
        ensures vacant { IfOk result (λ place. IsVacantAt self.new.slots.items place) }
        ensures free { IfOk result (λ place. self.new.free ≡ place) }
        ensures left { IsVacantAt self.old.slots.items self.old.free → (result ≡ Ok self.old.free) × (self.new ≡ self.old) }
    {
        if self.is_vacant(self.free) {
            return Ok(self.free);
        }
        let place = self.slots.len();
        self.slots.push(Slot::Vacant(self.free))?;
        self.free = place;
        Ok(self.free)
    }

    // Puts a slot at a free place. The one that was left before it is the next to be used.
    #[inline]
    pub(crate) fn fill(&mut self, place: usize, slot: Slot)
        requires { place < length self.old.slots.items }
        ensures tree { self.new.tree ≡ self.old.tree }
        ensures slots { self.new.slots.items ≡ slice_set self.old.slots.items place slot }
        ensures free { self.new.free ≡ free_after self.old place }
    {
        if let Slot::Vacant(next) = replace(&mut self.slots[place], slot) {
            self.free = next;
        }
    }

    // So many words from a place on, one at least, of those that a run has to itself at a place, lent; none where no place is
    // given.
    #[inline(always)]
    pub(crate) fn words_at(
        &mut self,
        place: Option<usize>,
        from: usize,
        width: usize,
    ) -> &mut [u128]
        requires { IfSome place (λ p. (1 ≤ width) × (p < length self.old.slots.items)
            × ((s : Slot) → slice_get self.old.slots.items p ≡ Some s
            → IsOwn s × IfSome (of_layer Current s) (λ words. from + width ≤ length words))) }
        ensures* loan { sem 𝓛 (LendsAt self.entry place from result) }
        ensures words { IfSome place (λ p. Some result.now
            ≡ option_map (λ words. take width (drop from words)) (option_and_then (of_layer Current) (slice_get self.old.slots.items p))) }
        ensures none { place ≡ None → result.now ≡ [] }
    {
        match place {
            Some(place) => self.slots[place].part(from, width),
            None => self.nothing.slice_mut(0..0),
        }
    }

    // Takes a key out, with its slot. Its place is free, and the next to be used.
    pub(crate) fn remove(&mut self, key: &Key, place: usize)
        requires { place < length self.old.slots.items }
        ensures ordered { IsOrdered key_cmp self.new.tree }
        ensures tree { (q : Key) → get key_cmp self.new.tree q ≡ cond (same_key key.now q) None (get key_cmp self.old.tree q) }
        ensures slots { self.new.slots.items ≡ slice_set self.old.slots.items place (Slot.Vacant self.old.free) }
        ensures free { self.new.free ≡ place }
    {
        self.tree.remove(key);
        self.slots[place] = Slot::Vacant(self.free);
        self.free = place;
    }
}

// Gives a key a place if it has none, and tells the one that it had. It fails only where memory runs out, and nothing
// changes then.
#[inline]
fn enter(
    tree: &mut BTreeMap<Key, usize>,
    key: Key,
    place: usize,
) -> Result<Option<usize>, AllocError>
    ensures ordered { IsOrdered key_cmp tree.new }
    ensures had { IfOk result (λ had. had ≡ get key_cmp tree.old key) }
    ensures has { IfOk result (λ had. (q : Key) → get key_cmp tree.new q ≡ cond (same_key key q) (Some (unwrap_or had place)) (get key_cmp tree.old q)) }
    ensures err { OnErr result (tree.new.entries ≡ tree.old.entries) }
{
    match tree.entry(key)? {
        Entry::Occupied(entry) => Ok(Some(*entry.get())),
        Entry::Vacant(entry) => {
            entry.insert(place);
            Ok(None)
        }
    }
}

// Gives a key a place and notes it, if it has none, and tells the one that it had. It fails only where memory runs out, and
// nothing changes then.
#[inline]
pub(crate) fn enter_noted(
    tree: &mut BTreeMap<Key, usize>,
    touched: &mut Vec<(Key, usize)>,
    key: Key,
    place: usize,
) -> Result<Option<usize>, AllocError>
    requires { IsOrdered key_cmp tree.old }
    ensures ordered { IsOrdered key_cmp tree.new }
    ensures had { IfOk result (λ had. had ≡ get key_cmp tree.old key) }
    ensures has { IfOk result (λ had. (q : Key) → get key_cmp tree.new q ≡ cond (same_key key q) (Some (unwrap_or had place)) (get key_cmp tree.old q)) }
    ensures noted { IfOk result (λ had. touched.new.items ≡ cond (is_some had) touched.old.items (touched.old.items ++ (key, place) ∷ [])) }
    ensures err { OnErr result ((tree.new.entries ≡ tree.old.entries) × (touched.new.items ≡ touched.old.items)) }
{
    touched.push((key, place))?;
    match enter(tree, key, place) {
        Ok(None) => Ok(None),
        had => {
            touched.pop();
            had
        }
    }
}
