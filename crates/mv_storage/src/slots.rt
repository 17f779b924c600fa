// What a run does to the slots of keys, and the keys of those that it has changed, each with its place. The keys that were
// looked up last are remembered with their places, so that no search is needed as long as few of them take turns.
ghost use Rattle.std.specs.Prelude.{◌≡◌, ◌≤◌, ◌+◌, ℕ, nat_lt, length, take, drop, None, Some, Ok, MatchOption, IfOk, IfSome, OnOk, OnErr, false, true, is_some, option_and_then};
ghost use Rattle.std.specs.List.{list_any};
ghost use Rattle.std.specs.BTreeMap.{BTreeMap, get};
ghost use Rattle.mv_move_types.specs.declared.tables.Key.{Key};
ghost use Rattle.mv_machine.specs.State.{same_key};
ghost use Rattle.mv_storage.specs.WordLists.{piece};
ghost use Rattle.mv_storage.specs.Slots.{key_cmp, value_at, ShowsSame, ShowsAt, is_change, KeepsPinned, IsRemembered, IsSound, ArePlaced, IsResolving, IsResolvedAt, IsTracked, IsResolved, IsOwnAt};
ghost use Rattle.mv_storage.specs.Work.{IsAtWork};
ghost use Rattle.mv_storage.specs.declared.slot.Layer.{Layer};
ghost use Rattle.mv_storage.specs.declared.slot.Layer.TheVariants.{Committed, Current};

use crate::Value;
use crate::known::Known;
use crate::places::{Places, enter_noted};
use crate::slot::{Layer, Slot};
use mv_move_types::Key;
use std::alloc::{AllocError, Global};

// What a run changes: the slots of keys, and the keys of those that it has changed. The keys that were looked up last are
// remembered.
#[derive(Drop)]
pub(crate) struct Work {
    pub(crate) places: Places,
    pub(crate) touched: Vec<(Key, usize)>,
    pub(crate) known: Known,
}

// Makes sure that the key of a slot that is about to be changed is among the keys touched.
#[inline]
fn note(
    slot: &Slot,
    touched: &mut Vec<(Key, usize)>,
    key: Key,
    place: usize,
) -> Result<(), AllocError>
    ensures noted { OnOk result (is_change slot.now ≡ false → list_any (λ t. same_key key t.0) touched.new.items ≡ true) }
    ensures kept { (q : Key) → list_any (λ t. same_key q t.0) touched.old.items ≡ true → list_any (λ t. same_key q t.0) touched.new.items ≡ true }
    ensures placed { (tree : BTreeMap Key ℕ) → get key_cmp tree key ≡ Some place → ArePlaced tree touched.old.items → ArePlaced tree touched.new.items }
{
    if slot.is_kept() {
        touched.push((key, place))?;
    }
    Ok(())
}

// The words so far after a place, so many.
#[inline]
pub(crate) fn part(words: &[u128], from: usize, width: usize) -> &[u128]
    requires { from + width ≤ length words.now }
    ensures { result.now ≡ take width (drop from words.now) }
{
    &words[from..from + width]
}

// The place of words that the run has to itself, if any are wanted; and whether so many are there, and whether the run has them.
#[inline(always)]
pub(crate) fn own_place(
    own: Result<Option<usize>, AllocError>,
    width: usize,
    there: &mut bool,
    lent: &mut bool,
) -> Option<usize>
    ensures there { IfOk own (λ found. there.new ≡ is_some found) }
    ensures refused { OnErr own (there.new ≡ true) }
    ensures lent { lent.new ≡ true → (p : ℕ) × (own ≡ Ok (Some p)) }
    ensures place { MatchOption result (nat_lt 0 width ≡ true → lent.new ≡ false) (λ p. (own ≡ Ok (Some p)) × (1 ≤ width) × (lent.new ≡ true)) }
{
    let found = match own {
        Ok(found) => {
            *there = found.is_some();
            found
        }
        Err(_) => {
            *there = true;
            None
        }
    };
    *lent = found.is_some();
    if width == 0 {
        return None;
    }
    found
}

impl Work {
    // Takes out what the run sees under a key.
    pub(crate) fn take(&mut self, key: &Key, alloc: Global) -> Result<Option<Value>, AllocError>
        requires { IsAtWork self.old }
        ensures at_work { IsAtWork self.new }
        ensures pinned { KeepsPinned self.old.places self.new.places }
        ensures value { IfOk result (λ v. v ≡ value_at Current self.old.places key.now) }
        ensures current { OnOk result (ShowsAt Current key.now None self.old.places self.new.places) }
        ensures committed { ShowsSame Committed self.old.places self.new.places }
        ensures err { OnErr result (ShowsSame Current self.old.places self.new.places) }
    {
        let Some(place) = self.places.recall(&mut self.known, key) else {
            return Ok(None);
        };
        note(&self.places.slots[place], &mut self.touched, *key, place)?;
        self.places.slots[place].take(alloc)
    }

    // The place of a key that is remembered, where the run has a value to itself already, and so many words are there from a
    // place on, one at least.
    #[inline(always)]
    pub(crate) fn ready(&self, key: &Key, from: usize, width: usize) -> Option<usize>
        requires { IsAtWork self.now }
        ensures own { IfSome result (IsOwnAt self.now.places key.now) }
        ensures there { is_some result ≡ true → is_some (option_and_then (piece from width) (value_at Current self.now.places key.now)) ≡ true }
        ensures some { is_some result ≡ true → 1 ≤ width }
    {
        let place = self.known.recalled(&self.places.tree, key)?;
        if width > 0 && self.places.slots[place].is_ready(from, width) {
            return Some(place);
        }
        None
    }

    // Makes sure that the run has what it sees under a key to itself, and gives its place, if so many words are there from a place
    // on. The key is passed in its parts, since a whole one would be spilled to memory where the run has the value already.
    #[cold]
    #[inline(never)]
    pub(crate) fn own(
        &mut self,
        address: u128,
        place: u16,
        index: u16,
        from: usize,
        width: usize,
        alloc: Global,
    ) -> Result<Option<usize>, AllocError>
        requires { IsAtWork self.old }
        ensures at_work { IsAtWork self.new }
        ensures pinned { KeepsPinned self.old.places self.new.places }
        ensures same { (layer : Layer) → ShowsSame layer self.old.places self.new.places }
        ensures none { IfOk result (λ found. is_some found ≡ is_some (option_and_then (piece from width)
            (value_at Current self.old.places (record { address = address; place = place; index = index })))) }
        ensures own { IfOk result (λ found. IfSome found (IsOwnAt self.new.places (record { address = address; place = place; index = index }))) }
    {
        let key = Key {
            address,
            place,
            index,
        };
        let Some(at) = self.places.recall(&mut self.known, &key) else {
            return Ok(None);
        };
        note(&self.places.slots[at], &mut self.touched, key, at)?;
        self.places.slots[at].own_place(at, from, width, alloc)
    }

    // The place of a key, which it has from then on.
    #[inline(always)]
    pub(crate) fn place_for(&mut self, key: &Key) -> Result<usize, AllocError>
        requires { IsAtWork self.old }
        ensures at_work { IsAtWork self.new }
        ensures pinned { KeepsPinned self.old.places self.new.places }
        ensures same { (layer : Layer) → ShowsSame layer self.old.places self.new.places }
        ensures at { IfOk result (λ place. get key_cmp self.new.places.tree key.now ≡ Some place) }
    {
        match self.known.recalled(&self.places.tree, key) {
            Some(place) => Ok(place),
            None => self.place_found(*key),
        }
    }

    // The same for a key that isn't remembered. Where it has no place, all that may fail is done first.
    #[inline]
    fn place_found(&mut self, key: Key) -> Result<usize, AllocError>
        requires { IsAtWork self.old }
        ensures at_work { IsAtWork self.new }
        ensures pinned { KeepsPinned self.old.places self.new.places }
        ensures same { (layer : Layer) → ShowsSame layer self.old.places self.new.places }
        ensures at { IfOk result (λ place. get key_cmp self.new.places.tree key ≡ Some place) }
    {
        // For the prover: a module's place has 16 bits.
        let _place = key.place;
        let fresh = self.places.vacancy()?;
        let had = enter_noted(&mut self.places.tree, &mut self.touched, key, fresh)?;
        match had {
            None => {
                self.places.fill(fresh, Slot::Empty);
                self.known.note(key, fresh);
                Ok(fresh)
            }
            Some(place) => {
                self.known.note(key, place);
                Ok(place)
            }
        }
    }

    // Puts a value under a key where the run sees none.
    #[inline]
    pub(crate) fn put(&mut self, key: Key, value: Value, alloc: Global) -> Result<(), AllocError>
        requires at_work { IsAtWork self.old }
        requires absent { value_at Current self.old.places key ≡ None }
        ensures at_work { IsAtWork self.new }
        ensures pinned { KeepsPinned self.old.places self.new.places }
        ensures current { OnOk result (ShowsAt Current key (Some value) self.old.places self.new.places) }
        ensures committed { ShowsSame Committed self.old.places self.new.places }
        ensures err { OnErr result (ShowsSame Current self.old.places self.new.places) }
    {
        let place = self.place_for(&key)?;
        note(&self.places.slots[place], &mut self.touched, key, place)?;
        self.places.slots[place].put(value, alloc)
    }

    // Makes one layer of the touched slots the committed one, and takes out those that are then empty, unless an open block needs
    // their places. Where none is touched it costs nothing; where none is taken out, the keys that were looked up are remembered
    // still.
    #[inline(always)]
    pub(crate) fn resolve(&mut self, layer: Layer)
        requires { IsAtWork self.old }
        ensures resolved { IsResolved self.new.places self.new.touched.items }
        ensures remembered { IsRemembered self.new.places.tree self.new.known.lines }
        ensures same { ShowsSame layer self.old.places self.new.places }
        ensures pinned { layer ≡ Committed → KeepsPinned self.old.places self.new.places }
    {
        if !self.touched.is_empty() {
            resolve_all(&mut self.places, &mut self.touched, &mut self.known, layer);
        }
    }
}

// The same where some are touched.
fn resolve_all(
    places: &mut Places,
    touched: &mut Vec<(Key, usize)>,
    known: &mut Known,
    layer: Layer,
)
    requires tracked { IsTracked places.old touched.old.items }
    requires remembered { IsRemembered places.old.tree known.old.lines }
    ensures resolved { IsResolved places.new touched.new.items }
    ensures remembered { IsRemembered places.new.tree known.new.lines }
    ensures same { ShowsSame layer places.old places.new }
    ensures pinned { layer ≡ Committed → KeepsPinned places.old places.new }
{
    while let Some((key, place)) = touched.pop() {
        resolve_one(places, known, &key, place, layer);
    }
}

// Makes one layer of a slot the committed one, and takes the slot out if it is then empty: no key is remembered then.
#[inline]
fn resolve_one(places: &mut Places, known: &mut Known, key: &Key, place: usize, layer: Layer)
    requires sound { IsSound places.old }
    requires resolving { IsResolving places.old key.now place }
    requires remembered { IsRemembered places.old.tree known.old.lines }
    ensures at { IsResolvedAt layer key.now places.old places.new }
    ensures remembered { IsRemembered places.new.tree known.new.lines }
{
    let slot = &mut places.slots[place];
    if slot.is_vacant() {
        return;
    }
    if slot.resolve(layer) {
        return;
    }
    places.remove(key, place);
    known.forget();
}
