// Blocks of storage that can be taken back: each committed change is noted with what its key had before. The key keeps its place
// until the outermost block is closed, so that taking a change back takes no memory.
ghost use Rattle.std.specs.Prelude.{◌≡◌, ◌≤◌, ◌<◌, ◌+◌, [], ℕ, length, drop, false};
ghost use Rattle.std.specs.Vec.{vec_len, vec_capacity};
ghost use Rattle.mv_move_types.specs.declared.tables.Key.{Key};
ghost use Rattle.mv_machine.specs.State.{same_key};
ghost use Rattle.mv_undo.specs.Undo.{undone, marks_of, AreMarks};
ghost use Rattle.mv_storage.specs.Slots.{layers, IsSound, IsPinned, AreKept, IsResolving, IsResolvedAt, IsTracked, IsResolved, ShowsSame, ShowsAt};
ghost use Rattle.mv_storage.specs.Blocks.{back, value_before, is_absent, IsUndoable, IsNoted};
ghost use Rattle.mv_storage.specs.declared.slot.Layer.TheVariants.{Committed, Current};

use crate::Value;
use crate::places::Places;
use crate::slot::Slot;
use mv_move_types::Key;
use mv_undo::Marks;
use std::alloc::Global;

// Room for so many changes is kept for the next block at most (384 KiB).
const MOST_KEPT: usize = 4096;

// What a key had before a committed change: no place, a place without a value, or a value.
#[derive(Drop)]
pub(crate) enum Before {
    Absent,
    Nothing,
    Held(Value),
}

// A committed change that can be taken back.
#[derive(Drop)]
pub(crate) struct Undone {
    pub(crate) key: Key,
    pub(crate) place: usize,
    pub(crate) before: Before,
}

// Makes what the run sees the committed storage, and notes what it changes. There is room for that.
pub(crate) fn note_all(places: &mut Places, touched: &mut Vec<(Key, usize)>, undo: &mut Vec<Undone>)
    requires tracked { IsTracked places.old touched.old.items }
    requires undoable { IsUndoable places.old undo.old.items }
    requires room { vec_len undo.old + vec_len touched.old ≤ vec_capacity undo.old }
    ensures resolved { IsResolved places.new touched.new.items }
    ensures same { ShowsSame Current places.old places.new }
    ensures noted { IsNoted places.old places.new undo.old.items undo.new.items }
{
    while let Some((key, place)) = touched.pop() {
        note_one(places, undo, key, place);
    }
}

// Makes what the run sees under a key the committed value, and notes what was committed if the run has changed it.
fn note_one(places: &mut Places, undo: &mut Vec<Undone>, key: Key, place: usize)
    requires sound { IsSound places.old }
    requires resolving { IsResolving places.old key place }
    requires undoable { IsUndoable places.old undo.old.items }
    requires room { vec_len undo.old < vec_capacity undo.old }
    ensures resolved { IsResolvedAt Current key places.old places.new }
    ensures noted { IsNoted places.old places.new undo.old.items undo.new.items }
    ensures more { vec_len undo.new ≤ vec_len undo.old + 1 }
    ensures capacity { vec_capacity undo.new ≡ vec_capacity undo.old }
{
    let slot = &mut places.slots[place];
    if slot.is_vacant() {
        return;
    }
    if slot.is_empty() {
        places.remove(&key, place);
        return;
    }
    if let Some(before) = slot.note() {
        undo.push_reserved(Undone { key, place, before });
    }
}

// Takes one change back. It takes no memory, since the key has its place.
fn restore(places: &mut Places, change: Undone)
    requires sound { IsSound places.old }
    requires kept { AreKept places.old }
    requires pinned { IsPinned places.old change.key change.place }
    ensures sound { IsSound places.new }
    ensures kept { AreKept places.new }
    ensures committed { ShowsAt Committed change.key (value_before change.before) places.old places.new }
    ensures others { (q : Key) (place : ℕ) → same_key change.key q ≡ false → IsPinned places.old q place → IsPinned places.new q place }
    ensures here { is_absent change.before ≡ false → IsPinned places.new change.key change.place }
{
    let Undone { key, place, before } = change;
    match before {
        Before::Absent => places.remove(&key, place),
        Before::Nothing => places.slots[place] = Slot::Gone,
        Before::Held(value) => places.slots[place] = Slot::kept(value),
    }
}

// Takes the changes after a mark back. It takes no memory.
pub(crate) fn take_back(places: &mut Places, undo: &mut Vec<Undone>, mark: usize)
    requires sound { IsSound places.old }
    requires kept { AreKept places.old }
    requires undoable { IsUndoable places.old undo.old.items }
    requires mark { mark ≤ length undo.old.items }
    ensures sound { IsSound places.new }
    ensures kept { AreKept places.new }
    ensures undoable { IsUndoable places.new undo.new.items }
    ensures left { length undo.new.items ≡ mark }
    ensures same { (m : ℕ) → m ≤ mark → undone back (drop m undo.new.items) (layers places.new).committed ≡ undone back (drop m undo.old.items) (layers places.old).committed }
{
    while undo.len() > mark {
        if let Some(change) = undo.pop() {
            restore(places, change);
        }
    }
}

// Forgets all changes, and takes the keys out that have kept their places without a value.
pub(crate) fn forget(places: &mut Places, undo: &mut Vec<Undone>)
    requires sound { IsSound places.old }
    requires kept { AreKept places.old }
    requires undoable { IsUndoable places.old undo.old.items }
    ensures sound { IsSound places.new }
    ensures kept { AreKept places.new }
    ensures none { undo.new.items ≡ [] }
    ensures same { ShowsSame Committed places.old places.new }
{
    while let Some(change) = undo.pop() {
        clear(places, &change.key, change.place);
    }
}

// Forgets all changes once no block is open, and keeps the memory for them if it is little.
pub(crate) fn close(places: &mut Places, undo: &mut Vec<Undone>, marks: &Marks, alloc: Global)
    requires sound { IsSound places.old }
    requires kept { AreKept places.old }
    requires undoable { IsUndoable places.old undo.old.items }
    ensures sound { IsSound places.new }
    ensures kept { AreKept places.new }
    ensures undoable { IsUndoable places.new undo.new.items }
    ensures none { marks.now ≡ [] → undo.new.items ≡ [] }
    ensures same { ShowsSame Committed places.old places.new }
    ensures fits { AreMarks marks.now (length undo.old.items) → AreMarks marks.now (length undo.new.items) }
    ensures marks { marks_of back undo.new.items marks.now (layers places.new).committed ≡ marks_of back undo.old.items marks.now (layers places.old).committed }
{
    if marks.is_empty() {
        forget(places, undo);
        give_back(undo, alloc);
    }
}

// Gives the memory of an empty list back if it is much.
fn give_back(undo: &mut Vec<Undone>, alloc: Global)
    requires { undo.old.items ≡ [] }
    ensures { undo.new.items ≡ [] }
{
    if undo.capacity() > MOST_KEPT {
        *undo = Vec::new(alloc);
    }
}

// Takes a key out if it has kept its place without a value.
fn clear(places: &mut Places, key: &Key, place: usize)
    requires sound { IsSound places.old }
    requires kept { AreKept places.old }
    requires resolving { IsResolving places.old key.now place }
    ensures { IsResolvedAt Current key.now places.old places.new }
{
    if places.slots[place].is_gone() {
        places.remove(key, place);
    }
}
