// What a block has changed.
ghost use Rattle.std.specs.Prelude.{◌≡◌, ◌≤◌, ◌++◌, ◌∷◌, [], ℕ, List, length, drop, cond, Some, IfOk, OnOk, MatchOption, option_copied};
ghost use Rattle.std.specs.BTreeMap.{get, IsOrdered};
ghost use Rattle.mv_move_types.specs.declared.tables.Key.{Key};
ghost use Rattle.mv_machine.specs.State.{same_key};
ghost use Rattle.mv_undo.specs.Undo.{AreMarks};
ghost use Rattle.mv_storage.specs.Slots.{key_cmp, value_at};
ghost use Rattle.mv_storage.specs.Difference.{same_list, same_words, before_at, first_at};
ghost use Rattle.mv_storage.specs.declared.slot.Layer.TheVariants.{Committed};

use crate::blocks::{Before, Undone};
use crate::places::Places;
use mv_move_types::Key;
use mv_undo::Marks;
use std::alloc::{AllocError, Global};
use std::collections::BTreeMap;
use std::collections::btree_map::IntoIter;
use std::marker::Model;

/// What a block has changed so far, by ascending key: each key with the value that it had when the block was begun and the one that
/// it has. A key with the same value is left out. Its model is the list of those that are left to tell.
#[derive(Drop)]
pub struct Changes<'a> {
    // each key that was changed, with the place of its oldest change
    pub(crate) firsts: IntoIter<Key, usize, Global>,
    pub(crate) undo: &'a [Undone],
    pub(crate) places: &'a Places,
}

impl<'a> Model for Changes<'a> {
    ghost use Rattle.std.specs.Prelude.{List};
    ghost use Rattle.mv_storage.specs.Difference.{Change, told};

    ghost Value = { List Change };

    ghost view = { λ c. told c.undo.now c.places.now c.firsts };
}

impl<'a> Changes<'a> {
    /// The next key with the words that it had and those that it has; None at the end.
    pub fn next(&mut self) -> Option<(Key, Option<&'a [u128]>, Option<&'a [u128]>)>
        ensures { MatchOption result ((self.old ≡ []) × (self.new ≡ [])) (λ e. self.old ≡ record { key = e.0; before = option_copied e.1; now = option_copied e.2 } ∷ self.new) }
    {
        while let Some((key, place)) = self.firsts.next() {
            let had = before(self.undo, place);
            let has = committed(self.places, &key);
            if !is_same(had, has) {
                return Some((key, had, has));
            }
        }
        None
    }
}

// The words that a key had before the change at a place.
fn before(undo: &[Undone], place: usize) -> Option<&[u128]>
    ensures { option_copied result ≡ before_at undo.now place }
{
    match undo.get(place) {
        Some(change) => match &change.before {
            Before::Held(value) => Some(value.as_slice()),
            Before::Absent | Before::Nothing => None,
        },
        None => None,
    }
}

// The committed words under a key.
fn committed<'a>(places: &'a Places, key: &Key) -> Option<&'a [u128]>
    ensures { option_copied result ≡ value_at Committed places.now key.now }
{
    match places.find(key) {
        Some(slot) => slot.committed(),
        None => None,
    }
}

// Whether two values are the same, each of which may be absent.
fn is_same(had: Option<&[u128]>, has: Option<&[u128]>) -> bool
    ensures { result ≡ same_words (option_copied had.entry) (option_copied has.entry) }
{
    match had {
        Some(old_words) => match has {
            Some(new_words) => is_same_list(old_words, new_words),
            None => false,
        },
        None => has.is_none(),
    }
}

// Whether two lists of words are the same.
fn is_same_list(old: &[u128], new: &[u128]) -> bool
    ensures { result ≡ same_list old.now new.now }
{
    old == new
}

// The place of each key's oldest change from a mark on.
pub(crate) fn firsts(
    alloc: Global,
    undo: &[Undone],
    mark: usize,
) -> Result<BTreeMap<Key, usize>, AllocError>
    requires { mark ≤ length undo.now }
    ensures has { IfOk result (λ m. (q : Key) → get key_cmp m q ≡ first_at mark (drop mark undo.now) q) }
    ensures ordered { IfOk result (IsOrdered key_cmp) }
{
    let mut firsts = BTreeMap::new(alloc);
    let mut i = undo.len();
    while i > mark {
        i -= 1;
        note_first(&mut firsts, undo[i].key, i)?;
    }
    Ok(firsts)
}

// Puts the place of a change of a key in place of that of a later one.
fn note_first(firsts: &mut BTreeMap<Key, usize>, key: Key, place: usize) -> Result<(), AllocError>
    ensures ordered { IsOrdered key_cmp firsts.new }
    ensures has { OnOk result ((q : Key) → get key_cmp firsts.new q ≡ cond (same_key key q) (Some place) (get key_cmp firsts.old q)) }
{
    match firsts.insert(key, place) {
        Ok(_) => Ok(()),
        Err(_) => Err(AllocError),
    }
}

// The newest mark, or so many where no block is open.
pub(crate) fn newest(marks: &Marks, count: usize) -> usize
    ensures is { (older : List ℕ) (mark : ℕ) → marks.now ≡ older ++ mark ∷ [] → result ≡ mark }
    ensures within { AreMarks marks.now count → result ≤ count }
{
    match marks.newest() {
        Some(mark) => mark,
        None => count,
    }
}
