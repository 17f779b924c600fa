// Tallies of the structs with neither copy nor drop.
ghost use Rattle.std.specs.Prelude.{◌≡◌, ℕ, ◌+◌, ◌-◌, ◌^◌, ◌<◌, ◌≤◌, List, [], ◌∷◌, ◌++◌, All, true, length, map, drop, slice_get, slice_set, unwrap_or, Some, IfNone, IfOk, IfSome};
ghost use Rattle.std.specs.Vec.{vec_len, vec_capacity};
ghost use Rattle.mv_move_types.specs.Published.{PublishedModule};
ghost use Rattle.mv_undo.specs.Undo.{undone};
ghost use Rattle.mv_linker.specs.Stored.{with_at};
ghost use Rattle.mv_frames.specs.Counters.{AtMost, is_tally_at};
ghost use Rattle.mv_ledger_state.specs.Blocks.{held_in, tally_back, Ascend, CanNote};
ghost use Rattle.mv_ledger_state.specs.Joining.{with_placed, AreWithin};
ghost use Rattle.mv_ledger_state.specs.Tallying.{fresh_tally, tally_after, AreInOrder, HasRoomFor, HasRoomLeft, IsRoomFor};
ghost use Rattle.mv_ledger_state.specs.View.{ArePlaced, scarce_indices};
ghost use Rattle.mv_machine.specs.Tallies.{all_of, lists_of};
ghost use Rattle.mv_machine.specs.declared.Tally.{Tally as Counts};

use crate::blocks::{Blocks, TallyBefore};
use mv_binary_format::Module;
use mv_frames::StructTally;
use mv_linker::is_scarce;
use mv_machine::Tally;
use std::alloc::{AllocError, Global};
use std::marker::Model;
use std::mem::replace;

/// The indices of a module's structs with neither copy nor drop.
pub fn scarce_structs(alloc: Global, m: &Module<'_>) -> Result<Vec<u16>, AllocError>
    ensures { IfOk result (λ v. v.items ≡ scarce_indices m.now) }
{
    let mut indices = Vec::new(alloc);
    for (i, d) in m.structs().iter().enumerate() {
        if is_scarce(m, d) {
            indices.push(i as u16)?;
        }
    }
    Ok(indices)
}

/// A tally of a struct whose values were neither made nor taken apart.
fn untouched(place: u16, index: u16) -> Tally
    ensures { result ≡ fresh_tally place index }
{
    Tally {
        place,
        index,
        packs: 0,
        unpacks: 0,
    }
}

/// The tallies of a module that is to stand at a place.
#[derive(Drop)]
pub struct Placed {
    pub place: usize,
    pub tallies: Vec<Tally>,
}

/// Adds what a run did with values of a struct to that struct's tally.
fn add_to(tally: &mut Tally, entry: &StructTally)
    requires own { is_tally_at tally.old.place tally.old.index entry.now ≡ true }
    requires room { HasRoomFor entry.now tally.old }
    ensures { tally.new ≡ tally_after (entry.now ∷ []) tally.old }
{
    tally.packs += u128::from(entry.packs);
    tally.unpacks += u128::from(entry.unpacks);
}

/// Adds what a run did with values of one struct to that struct's tally, which is searched for among those of its module; and tells
/// its index and what it was, if it has one.
fn add_entry(tallies: &mut [Tally], entry: &StructTally) -> Option<(usize, Tally)>
    requires placed { All (λ t. t.place ≡ entry.now.place) tallies.old }
    requires ordered { AreInOrder tallies.old }
    requires room { All (IsRoomFor entry.now) tallies.old }
    ensures after { tallies.new ≡ map (tally_after (entry.now ∷ [])) tallies.old }
    ensures back { IfSome result (λ b. slice_set tallies.new b.0 b.1 ≡ tallies.old) }
    ensures none { IfNone result (tallies.new ≡ tallies.old) }
{
    match tallies.binary_search_by_key(&entry.index, |tally| tally.index) {
        Ok(found) => {
            let was = tallies[found];
            add_to(&mut tallies[found], entry);
            Some((found, was))
        }
        Err(_) => None,
    }
}

/// Adds what a run did with values of one struct to that struct's tally among those of its module, and notes what it was.
fn add_noted(tallies: &mut [Tally], entry: &StructTally, blocks: &mut Blocks)
    requires placed { All (λ t. t.place ≡ entry.now.place) tallies.old }
    requires ordered { AreInOrder tallies.old }
    requires room { All (IsRoomFor entry.now) tallies.old }
    requires notes { CanNote 1 blocks.old }
    ensures after { tallies.new ≡ map (tally_after (entry.now ∷ [])) tallies.old }
    ensures held { Ascend blocks.old → (modules : List PublishedModule) (old : List (List Counts)) → slice_get old entry.now.place ≡ Some tallies.old
        → held_in blocks.new modules (slice_set old entry.now.place tallies.new) ≡ held_in blocks.old modules old }
    ensures ascend { Ascend blocks.old → Ascend blocks.new }
    ensures len { vec_len blocks.new.noted ≤ vec_len blocks.old.noted + 1 }
    ensures capacity { vec_capacity blocks.new.noted ≡ vec_capacity blocks.old.noted }
    ensures marks { blocks.new.marks ≡ blocks.old.marks }
{
    if let Some((index, was)) = add_entry(tallies, entry) {
        blocks.note(TallyBefore::Counted(entry.place as usize, index, was));
    }
}

/// Puts the tallies of the module at a place, or of the next one, and tells how that is taken back.
fn put(modules: &mut Vec<Vec<Tally>>, one: Placed) -> TallyBefore
    requires { vec_len modules.old < vec_capacity modules.old }
    ensures lists { map (λ v. v.items) modules.new.items ≡ with_at one.place one.tallies.items (map (λ v. v.items) modules.old.items) }
    ensures len { vec_len modules.new ≤ vec_len modules.old + 1 }
    ensures capacity { vec_capacity modules.new ≡ vec_capacity modules.old }
    ensures back { tally_back result (lists_of modules.new.items) ≡ lists_of modules.old.items }
{
    match modules.get_mut(one.place) {
        Some(tallies) => TallyBefore::Replaced(one.place, replace(tallies, one.tallies)),
        None => {
            modules.push_reserved(one.tallies);
            TallyBefore::Added
        }
    }
}

/// Puts the tallies of each module of a bundle at its place, and notes what was there.
pub fn put_all(modules: &mut Vec<Vec<Tally>>, blocks: &mut Blocks, placed: Vec<Placed>)
    requires within { AreWithin (length (lists_of modules.old.items)) placed.items }
    requires placed { ArePlaced 0 (lists_of modules.old.items) }
    requires fits { vec_len modules.old + length placed.items ≤ vec_capacity modules.old }
    requires notes { CanNote (length placed.items) blocks.old }
    requires ascend { Ascend blocks.old }
    ensures lists { lists_of modules.new.items ≡ with_placed (lists_of modules.old.items) placed.items }
    ensures placed { ArePlaced 0 (lists_of modules.new.items) }
    ensures held { (published : List PublishedModule) → held_in blocks.new published (lists_of modules.new.items) ≡ held_in blocks.old published (lists_of modules.old.items) }
    ensures ascend { Ascend blocks.new }
{
    for one in placed {
        let before = put(modules, one);
        blocks.note(before);
    }
}

/// Puts the tally at an index back.
fn set_back(tallies: &mut Vec<Tally>, index: usize, was: Tally)
    ensures { tallies.new.items ≡ slice_set tallies.old.items index was }
{
    if let Some(tally) = tallies.get_mut(index) {
        *tally = was;
    }
}

/// Takes one change back.
fn restore(modules: &mut Vec<Vec<Tally>>, before: TallyBefore)
    ensures { lists_of modules.new.items ≡ tally_back before (lists_of modules.old.items) }
{
    match before {
        TallyBefore::Added => match modules.pop() {
            Some(_tallies) => {}
            None => {}
        },
        TallyBefore::Replaced(place, was) => {
            if let Some(tallies) = modules.get_mut(place) {
                *tallies = was;
            }
        }
        TallyBefore::Counted(place, index, was) => {
            if let Some(tallies) = modules.get_mut(place) {
                set_back(tallies, index, was);
            }
        }
    }
}

/// Takes the changes after the first so many back. It takes no memory.
pub fn take_back(modules: &mut Vec<Vec<Tally>>, noted: &mut Vec<TallyBefore>, mark: usize)
    requires { mark ≤ length noted.old.items }
    ensures left { length noted.new.items ≡ mark }
    ensures same { (m : ℕ) → m ≤ mark
        → undone tally_back (drop m noted.new.items) (lists_of modules.new.items) ≡ undone tally_back (drop m noted.old.items) (lists_of modules.old.items) }
{
    while noted.len() > mark {
        if let Some(before) = noted.pop() {
            restore(modules, before);
        }
    }
}

/// The tallies of each module's structs with neither copy nor drop, module by module in the order of publication. Its
/// model is the list of each module's list. To add a run only the tallies of those structs are looked up whose values it made
/// or took apart, however many there are.
#[derive(Drop)]
pub struct Tallies {
    pub modules: Vec<Vec<Tally>>,
}

impl Model for Tallies {
    ghost use Rattle.std.specs.Prelude.{List, map};
    ghost use Rattle.mv_machine.specs.declared.Tally.{Tally};
    ghost use Rattle.mv_ledger_state.specs.View.{ArePlaced};

    ghost Value = { List (List Tally) };

    ghost view = { λ t. map (λ v. v.items) t.modules.items };

    ghost invariant = { λ t. ArePlaced 0 (map (λ v. v.items) t.modules.items) };
}

impl Tallies {
    /// The tallies of no module.
    pub(crate) fn new(alloc: Global) -> Self
        ensures { result ≡ [] }
    {
        Tallies {
            modules: Vec::new(alloc),
        }
    }

    /// How many modules there are.
    pub fn len(&self) -> usize
        ensures count { result ≡ length self.now }
        ensures placed { ArePlaced 0 self.now }
    {
        self.modules.len()
    }

    /// Each module's tallies.
    pub fn lists(&self) -> &[Vec<Tally>]
        ensures { lists_of result.now ≡ self.now }
    {
        &self.modules
    }

    /// The tallies of the module at a place; none, if no module is there.
    pub fn at(&self, place: usize) -> &[Tally]
        ensures { result.now ≡ unwrap_or (slice_get self.now place) [] }
    {
        match self.modules.get(place) {
            Some(tallies) => tallies,
            None => &[],
        }
    }

    /// The tallies of the module at a place, and after them empty ones for those of these structs, by their indices, that it
    /// doesn't have yet.
    pub(crate) fn extended(
        &self,
        alloc: Global,
        place: usize,
        structs: &[u16],
    ) -> Result<Vec<Tally>, AllocError>
        requires { place < 65536 }
        ensures { IfOk result (λ v. v.items ≡ unwrap_or (slice_get self.now place) []
            ++ map (fresh_tally place) (drop (length (unwrap_or (slice_get self.now place) [])) structs.now)) }
    {
        let mut tallies = Vec::new(alloc);
        tallies.extend_from_slice(self.at(place))?;
        for index in structs.iter().skip(tallies.len()) {
            tallies.push(untouched(place as u16, *index))?;
        }
        Ok(tallies)
    }

    /// Adds what a run did to each tally, and notes what those were that changed.
    pub(crate) fn add_run(&mut self, run: &[StructTally], blocks: &mut Blocks)
        requires room { All HasRoomLeft (all_of self.old) }
        requires ordered { All AreInOrder self.old }
        requires few { AtMost (2 ^ 64 - 1) run.now }
        requires notes { CanNote (length run.now) blocks.old }
        requires ascend { Ascend blocks.old }
        ensures after { self.new ≡ map (map (tally_after run.now)) self.old }
        ensures held { (modules : List PublishedModule) → held_in blocks.new modules self.new ≡ held_in blocks.old modules self.old }
        ensures ascend { Ascend blocks.new }
    {
        for entry in run {
            if let Some(tallies) = self.modules.get_mut(entry.place as usize) {
                add_noted(tallies, entry, blocks);
            }
        }
    }
}
