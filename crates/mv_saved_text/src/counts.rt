// How many values of each struct are stored.
ghost use Rattle.std.specs.Prelude.{◌≡◌, IfOk, slice_set};
ghost use Rattle.mv_saved_text.specs.Parts.CountRows.{no_counts, count_at, with_count, AreStored};

use crate::layouts::Layouts;
use mv_move_types::Definition;
use mv_storage::Storage;
use std::alloc::{AllocError, Global};
use std::marker::Model;

/// Puts a count in place of that at an index, if there is one.
fn put_count(row: &mut Vec<u128>, index: usize, count: u128)
    ensures { row.new.items ≡ slice_set row.old.items index count }
{
    if let Some(entry) = row.get_mut(index) {
        *entry = count;
    }
}

/// How many values of each struct there are, by the place of its module and its index. Its model is the counts, module by
/// module.
#[derive(Drop)]
pub struct Counts {
    rows: Vec<Vec<u128>>,
}

impl Model for Counts {
    ghost use Rattle.std.specs.Prelude.{ℕ, List, map};

    ghost Value = { List (List ℕ) };

    ghost view = { λ c. map (λ r. r.items) c.rows.items };
}

impl Counts {
    /// None of any struct.
    pub fn new(alloc: Global, layouts: &Layouts<'_>) -> Result<Self, AllocError>
        ensures { IfOk result (λ c. c ≡ no_counts layouts.now) }
    {
        let mut rows = Vec::new(alloc);
        'each: for place in 0..layouts.len() {
            rows.push(vec![in alloc; 0; layouts.structs(place)]?)?;
        }
        Ok(Counts { rows })
    }

    /// How many there are of the struct at a place and an index.
    pub fn at(&self, d: Definition) -> u128
        ensures { result ≡ count_at self.now d }
    {
        let Some(row) = self.rows.get(usize::from(d.place)) else {
            return 0;
        };
        row.get(usize::from(d.index)).copied().unwrap_or(0)
    }

    /// Those of the structs of the module at a place, by their index; none, if no module is there.
    pub fn of_module(&self, place: usize) -> &[u128] {
        match self.rows.get(place) {
            Some(row) => row,
            None => &[],
        }
    }

    /// Counts so many more of it.
    pub fn add(&mut self, d: Definition, n: u128)
        ensures { self.new ≡ with_count self.old d n }
    {
        let count = self.at(d).saturating_add(n);
        if let Some(row) = self.rows.get_mut(usize::from(d.place)) {
            put_count(row, usize::from(d.index), count);
        }
    }
}

/// How many values are stored under the keys of each struct.
pub fn stored_counts(
    alloc: Global,
    layouts: &Layouts<'_>,
    storage: &Storage,
) -> Result<Counts, AllocError>
    ensures { IfOk result (AreStored layouts.now storage.now.committed) }
{
    let mut counts = Counts::new(alloc, layouts)?;
    let mut entries = storage.iter();
    'each: while let Some((key, _)) = entries.next() {
        let d = Definition {
            place: key.place,
            index: key.index,
        };
        counts.add(d, 1);
    }
    Ok(counts)
}
