// Definitions by their names: in ascending order of the names, so that one is found by a search by halves.
ghost use Rattle.std.specs.Prelude.{◌≡◌, ◌<◌, ◌≤◌, ℕ, List, length, map, slice_get, Some, IfOk, IfSome, MatchOption};
ghost use Rattle.mv_interface.specs.ByName.{ArePairs, IsByName, entry_by, names_at};

use crate::lists::Lists;
use crate::outline::identifier_at;
use std::alloc::{AllocError, Global};
use std::cmp::Ordering;

/// A definition: the index of its name in a table of identifiers, and its own.
#[derive(Clone, Copy)]
pub struct ByName {
    identifier: u16,
    index: u16,
}

/// Each name with its index, where the names are those at some indices of a table.
fn pairs_of<'i>(
    alloc: Global,
    identifiers: &'i Lists<u8>,
    names: &[u16],
) -> Result<Vec<(&'i [u8], u16)>, AllocError>
    requires { length names.now ≤ 65536 }
    ensures { IfOk result (λ v. ArePairs (names_at identifiers.entry.now names.now) v.items) }
{
    let mut pairs = Vec::with_capacity(alloc, names.len())?;
    for i in 0..names.len() {
        pairs.push((identifier_at(identifiers, names[i]), i as u16))?;
    }
    Ok(pairs)
}

/// The definition at an index.
fn entry_of(names: &[u16], index: u16) -> ByName
    ensures { result ≡ entry_by names.now index }
{
    ByName {
        identifier: names.get(usize::from(index)).copied().unwrap_or(0),
        index,
    }
}

/// The definitions of pairs, in order.
fn entries_of(
    alloc: Global,
    names: &[u16],
    pairs: &[(&[u8], u16)],
) -> Result<Vec<ByName>, AllocError>
    ensures { IfOk result (λ v. v.items ≡ map (λ p. entry_by names.now p.1) pairs.now) }
{
    pairs.iter().map(|p| entry_of(names, p.1)).collect(alloc)
}

/// Definitions by their names, which are those at some indices of a table of identifiers.
pub fn by_name(
    alloc: Global,
    identifiers: &Lists<u8>,
    names: &[u16],
) -> Result<Vec<ByName>, AllocError>
    requires { length names.now ≤ 65536 }
    ensures { IfOk result (λ v. IsByName identifiers.now (names_at identifiers.now names.now) v.items) }
{
    if names.is_empty() {
        return Ok(Vec::new(alloc));
    }
    let mut pairs = pairs_of(alloc, identifiers, names)?;
    pairs.sort()?;
    entries_of(alloc, names, &pairs)
}

/// The definition at a place of the order.
fn entry_at(entries: &[ByName], k: usize) -> ByName
    requires { k < length entries.now }
    ensures { slice_get entries.now k ≡ Some result }
{
    entries[k]
}

/// The index of a definition of this name, if there is one.
pub fn find(identifiers: &Lists<u8>, entries: &[ByName], name: &[u8]) -> Option<usize>
    ensures found { (names : List (List ℕ)) → IsByName identifiers.now names entries.now
        → MatchOption result ((k : ℕ) → slice_get names k ≡ Some name.now → ⊥) (λ k. slice_get names k ≡ Some name.now) }
    ensures few { IfSome result (λ k. k < 65536) }
{
    let mut low = 0;
    let mut high = entries.len();
    'search: while low < high {
        let middle = low + (high - low) / 2;
        let entry = entry_at(entries, middle);
        match name.cmp(identifier_at(identifiers, entry.identifier)) {
            Ordering::Less => high = middle,
            Ordering::Greater => low = middle + 1,
            Ordering::Equal => return Some(usize::from(entry.index)),
        }
    }
    None
}
