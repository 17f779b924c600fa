// The tallies of a saved ledger against what it stores.
ghost use Rattle.std.specs.Prelude.{◌≡◌, ◌*◌, ◌+◌, ◌↔◌, ◌≤◌, All, IsTrue, IfOk, map};
ghost use Rattle.std.specs.List.{AllByRecursion};
ghost use Rattle.mv_move_types.specs.Limits.{most_steps};
ghost use Rattle.mv_link_rules.specs.Link.{tables_in};
ghost use Rattle.mv_machine.specs.Flat.{storage_of};
ghost use Rattle.mv_saved_text.specs.Parts.CountRows.{Adds, AreAll, IsTallied};
ghost use Rattle.mv_saved_text.specs.Inside.{structs_in_part, structs_in_parts, structs_under};
ghost use Rattle.mv_saved_text.specs.Parts.LoadedParts.{AreCounted};
ghost use Rattle.mv_ledger_state.specs.View.{IsTalliedStore, IsFineWords};
ghost use Rattle.mv_machine.specs.Tallies.{all_of, tallied};

use crate::counts::{Counts, stored_counts};
use crate::layouts::Layouts;
use mv_ledger_state::Tallies;
use mv_linker::{Part, Store};
use mv_machine::Tally;
use mv_move_types::Definition;
use mv_move_types::limits::{MOST_NESTING, MOST_STEPS};
use mv_storage::Storage;
use std::alloc::{AllocError, Global};

/// Whether a tally is that of a struct of which so many values are stored, after so many runs.
fn is_counted(tally: &Tally, stored: u128, runs: u64) -> bool
    ensures { IsTrue result ↔ ((tally.now.packs ≤ most_steps * runs) × (stored + tally.now.unpacks ≡ tally.now.packs)) }
{
    tally.packs <= u128::from(runs) * MOST_STEPS as u128
        && tally.unpacks <= tally.packs
        && tally.packs - tally.unpacks == stored
}

/// Adds so many values of a struct, and so many of each struct inside it, to a depth of nesting.
#[cycle(inside)]
fn add_struct(layouts: &Layouts<'_>, depth: usize, d: Definition, n: u128, counts: &mut Counts)
    ensures { Adds layouts.now n (λ s. structs_under depth layouts.now s d) counts.old counts.new }
{
    if depth == 0 {
        return;
    }
    // For the prover: the modules are a store's.
    let _modules = layouts.len();
    if let Some(parts) = layouts.fields(d) {
        counts.add(d, n);
        add_parts(layouts, depth - 1, parts, n, counts);
    }
}

/// Adds so many values of what fields are made of.
#[cycle(inside)]
fn add_parts(layouts: &Layouts<'_>, depth: usize, parts: &[Part], n: u128, counts: &mut Counts)
    ensures { Adds layouts.now n (λ s. structs_in_parts depth layouts.now s parts.now) counts.old counts.new }
{
    'each: for part in parts {
        add_part(layouts, depth, *part, n, counts);
    }
}

/// The same of a field.
#[cycle(inside)]
fn add_part(layouts: &Layouts<'_>, depth: usize, part: Part, n: u128, counts: &mut Counts)
    ensures { Adds layouts.now n (λ s. structs_in_part depth layouts.now s part) counts.old counts.new }
{
    if let Part::Struct(d) = part {
        add_struct(layouts, depth, d, n, counts);
    }
}

/// How many values of each struct are stored, at any depth: the fields of a struct are gone over once, however many values are
/// stored of it.
fn all_counts(alloc: Global, layouts: &Layouts<'_>, storage: &Storage) -> Result<Counts, AllocError>
    requires { All (IsFineWords layouts.now) storage.now.committed }
    ensures { IfOk result (AreAll layouts.now storage.now.committed) }
{
    // For the prover: the modules are a store's.
    let _modules = layouts.len();
    let stored = stored_counts(alloc, layouts, storage)?;
    let mut counts = Counts::new(alloc, layouts)?;
    'each: for d in layouts.keyed() {
        let n = stored.at(*d);
        if n > 0 {
            add_struct(layouts, MOST_NESTING as usize, *d, n, &mut counts);
        }
    }
    Ok(counts)
}

/// Whether each of these tallies is that of a struct of which so many values are stored, after so many runs.
fn are_counted(tallies: &[Tally], counts: &Counts, runs: u64) -> bool
    ensures { IsTrue result ↔ AllByRecursion (IsTallied counts.now runs) tallies.now }
{
    'each: for tally in tallies {
        let stored = counts.at(Definition {
            place: tally.place,
            index: tally.index,
        });
        if !is_counted(tally, stored, runs) {
            return false;
        }
    }
    true
}

/// Whether each module's tallies are such.
fn are_all_counted(tallies: &Tallies, counts: &Counts, runs: u64) -> bool
    ensures { IsTrue result ↔ AllByRecursion (IsTallied counts.now runs) (all_of tallies.now) }
{
    'each: for place in 0..tallies.len() {
        if !are_counted(tallies.at(place), counts, runs) {
            return false;
        }
    }
    true
}

/// Whether the tallies agree with what is stored after `runs` runs: of each struct, no more values were made than the runs can
/// have made, and as many are stored, at any depth, as were made and not taken apart.
pub fn are_tallied(
    alloc: Global,
    store: &Store,
    storage: &Storage,
    tallies: &Tallies,
    runs: u64,
) -> Result<bool, AllocError>
    requires held { IsTalliedStore store.now tallies.now }
    requires stored { All (IsFineWords (tables_in store.now)) storage.now.committed }
    ensures { IfOk result (λ b. IsTrue b ↔ AreCounted runs (storage_of (tables_in store.now) storage.now.committed) (map (tallied (tables_in store.now)) (all_of tallies.now))) }
{
    let layouts = Layouts::new(alloc, store)?;
    let counts = all_counts(alloc, &layouts, storage)?;
    Ok(are_all_counted(tallies, &counts, runs))
}
