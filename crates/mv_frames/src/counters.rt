// What a run counts.
ghost use Rattle.std.specs.Prelude.{◌≡◌, ℕ, ◌^◌, ◌-◌, ◌<◌, [], false, map, Some, IsOk, OnOk, OnErr, IfErr, MatchOption};
ghost use Rattle.mv_frames.specs.declared.halt.Halt.TheVariants.{Memory};
ghost use Rattle.mv_frames.specs.Counters.{is_none_yet, is_tally_at, IsCounted, IsBelow, AreBelow, AreTallied};
ghost use Rattle.mv_frames.specs.Counters.{count_in, one_more, one_more_in, tally_of, no_count, struct_of, first_few, IsAt, IsNowhere, key_of, placed_in, IsPlaced, HasPlaces};
ghost use Rattle.mv_frames.specs.Counters.{counts_in, IsIndexed};

use crate::Halt;
use mv_machine::StructTally;
use mv_move_types::Definition;
use std::alloc::{AllocError, Global};
use std::collections::BTreeMap;
use std::marker::Model;

// The first value of a struct.
fn first(is_pack: bool, d: Definition) -> StructTally
    ensures { result ≡ tally_of d (one_more is_pack no_count) }
{
    StructTally {
        place: d.place,
        index: d.index,
        packs: u64::from(is_pack),
        unpacks: u64::from(!is_pack),
    }
}

// Whether a tally is a struct's.
#[inline(always)]
fn is_of(tally: &StructTally, d: Definition) -> bool
    ensures { result ≡ is_tally_at d.place d.index tally.now }
{
    tally.place == d.place && tally.index == d.index
}

// Counts one value more.
#[inline(always)]
fn add(tally: &mut StructTally, is_pack: bool)
    requires { IsBelow (2 ^ 64 - 1) (count_in tally.old) }
    ensures { tally.new ≡ one_more_in is_pack tally.old }
{
    if is_pack {
        tally.packs += 1;
    } else {
        tally.unpacks += 1;
    }
}

// A struct, in the order by which it is searched for.
#[derive(Clone, Copy, PartialEq, Eq, PartialOrd, Ord)]
struct StructKey {
    place: u16,
    index: u16,
}

impl StructKey {
    fn of(d: Definition) -> Self
        ensures { result ≡ key_of d }
    {
        StructKey {
            place: d.place,
            index: d.index,
        }
    }
}

// How many tallies are looked through, before the others are searched for.
const FIRST_FEW: usize = 8;

// Looks through the first few tallies for a struct's.
#[inline(always)]
fn find_first(tallies: &[StructTally], d: Definition) -> Option<usize>
    ensures { MatchOption result ((i : ℕ) → i < first_few → IsAt (map struct_of tallies.now) d i → ⊥) (IsAt (map struct_of tallies.now) d) }
{
    for place in 0..tallies.len().min(FIRST_FEW) {
        if is_of(&tallies[place], d) {
            return Some(place);
        }
    }
    None
}

// Searches for the place of a struct's tally that isn't one of the first few.
#[inline(never)]
fn search(places: &BTreeMap<StructKey, usize>, d: Definition) -> Option<usize>
    ensures { result ≡ placed_in places.now.entries d }
{
    places.get(&StructKey::of(d)).copied()
}

// The place of a struct's tally.
#[inline(always)]
fn find(
    tallies: &[StructTally],
    places: &BTreeMap<StructKey, usize>,
    d: Definition,
) -> Option<usize>
    requires { HasPlaces (map struct_of tallies.now) (placed_in places.now.entries) }
    ensures { MatchOption result (IsNowhere (map struct_of tallies.now) d) (IsAt (map struct_of tallies.now) d) }
{
    match find_first(tallies, d) {
        Some(place) => Some(place),
        None if tallies.len() <= FIRST_FEW => None,
        None => search(places, d),
    }
}

// Notes the place of a struct's tally, unless it is one of the first few. Nothing changes where memory runs out.
fn note_place(
    places: &mut BTreeMap<StructKey, usize>,
    d: Definition,
    place: usize,
) -> Result<(), Halt>
    ensures placed { OnOk result (IsPlaced d place (placed_in places.old.entries) (placed_in places.new.entries)) }
    ensures err { OnErr result (places.new.entries ≡ places.old.entries) }
    ensures memory { IfErr result (λ e. e ≡ Memory) }
{
    if place < FIRST_FEW {
        return Ok(());
    }
    match places.insert(StructKey::of(d), place) {
        Ok(_) => Ok(()),
        Err(_) => Err(Halt::Memory),
    }
}

// Counts a value of a struct of which nothing is counted yet. All that may fail is done first.
#[inline(never)]
fn count_first(
    tallies: &mut Vec<StructTally>,
    places: &mut BTreeMap<StructKey, usize>,
    is_pack: bool,
    d: Definition,
) -> Result<(), Halt>
    requires indexed { IsIndexed tallies.old.items (placed_in places.old.entries) }
    requires new { IsNowhere (map struct_of tallies.old.items) d }
    ensures indexed { IsIndexed tallies.new.items (placed_in places.new.entries) }
    ensures counted { IsCounted (counts_in tallies.old.items) is_pack d result (counts_in tallies.new.items) }
{
    let place = tallies.len();
    tallies.reserve(1)?;
    note_place(places, d, place)?;
    tallies.push_reserved(first(is_pack, d));
    Ok(())
}

/// The counters of a run. They begin empty, and take memory where the first value of a struct is counted.
#[derive(Drop)]
pub struct Counters {
    // A tally of each struct of which something is counted, in the order of their first values.
    tallies: Vec<StructTally>,
    // The places there of all but the first few.
    places: BTreeMap<StructKey, usize>,
}

impl Model for Counters {
    ghost use Rattle.std.specs.Prelude.{List};
    ghost use Rattle.mv_machine.specs.declared.StructTally.{StructTally};
    ghost use Rattle.mv_frames.specs.Counters.{placed_in, IsIndexed};

    ghost Value = { List StructTally };

    ghost view = { λ c. c.tallies.items };

    ghost invariant = { λ c. IsIndexed c.tallies.items (placed_in c.places.entries) };
}

impl Counters {
    /// Nothing is counted.
    pub fn new(alloc: Global) -> Self
        ensures { result ≡ [] }
    {
        Counters {
            tallies: Vec::new(alloc),
            places: BTreeMap::new(alloc),
        }
    }

    /// Nothing is counted, in the memory of a list. What the list holds means nothing.
    pub fn with_list(alloc: Global, mut list: Vec<StructTally>) -> Self
        ensures { result ≡ [] }
    {
        list.clear();
        Counters {
            tallies: list,
            places: BTreeMap::new(alloc),
        }
    }

    /// Counts one more value of a struct, made or taken apart. It takes memory only for the first value of a struct.
    ///
    /// # Errors
    ///
    /// `Memory` if an allocation failed.
    #[inline]
    pub fn count(&mut self, is_pack: bool, d: Definition) -> Result<(), Halt>
        requires { AreBelow (2 ^ 64 - 1) (counts_in self.old) }
        ensures counted { IsCounted (counts_in self.old) is_pack d result (counts_in self.new) }
        ensures again { is_none_yet (counts_in self.old d) ≡ false → IsOk result }
    {
        match find(&self.tallies, &self.places, d) {
            Some(place) => {
                add(&mut self.tallies[place], is_pack);
                Ok(())
            }
            None => count_first(&mut self.tallies, &mut self.places, is_pack, d),
        }
    }

    /// What was counted: a tally for each struct of which something was.
    pub fn into_tally(self) -> Vec<StructTally>
        ensures same { result.items ≡ self }
        ensures tallied { AreTallied result.items (counts_in self) }
    {
        self.tallies
    }
}
