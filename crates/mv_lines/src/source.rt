// Where the stored values and the tallies that a report tells come from.
ghost use Rattle.std.specs.Prelude.{◌≡◌, ◌∷◌, [], MatchOption};

use crate::audit::Tallies;
use crate::changed::{Side, next_had, next_has};
use mv_machine::Tally;
use mv_move_types::Key;
use mv_storage::{Changes, Entries, Page};

/// Stored values by ascending key: a range of them, a page of those of one struct, or those that changed keys had before or have now.
#[derive(Drop)]
pub enum Source<'a> {
    Range(Entries<'a>),
    Page(Page<'a>),
    Had(Changes<'a>),
    Has(Changes<'a>),
}

impl<'a> Source<'a> {
    ghost use Rattle.mv_lines.specs.Changed.{values_of};
    ghost use Rattle.mv_lines.specs.Sources.{values_in};

    /// The values of changed keys that are of a side.
    pub fn of_changes(changes: Changes<'a>, side: Side) -> Self
        ensures { values_in result ≡ values_of side changes.entry }
    {
        match side {
            Side::Before => Source::Had(changes),
            Side::Now => Source::Has(changes),
        }
    }

    /// The next value's key and words; None at the end.
    pub fn next(&mut self) -> Option<(Key, &'a [u128])>
        ensures { MatchOption result ((values_in self.old ≡ []) × (values_in self.new ≡ []))
            (λ e. values_in self.old ≡ record { key = e.0; words = e.1.now } ∷ values_in self.new) }
    {
        match self {
            Source::Range(entries) => entries.next(),
            Source::Page(page) => page.next(),
            Source::Had(changes) => next_had(changes),
            Source::Has(changes) => next_has(changes),
        }
    }
}

/// What a report tells in one entry: a stored value by its key and words, or a struct's tally.
#[derive(Clone, Copy)]
pub enum Entry<'a> {
    Value(Key, &'a [u128]),
    Count(&'a Tally),
}

/// The stored values or the tallies that a report tells.
#[derive(Drop)]
pub enum Told<'a> {
    Values(Source<'a>),
    Counts(Tallies<'a>),
}

impl<'a> Told<'a> {
    ghost use Rattle.mv_lines.specs.Sources.{item_of, items_in};

    /// The next one; None at the end.
    pub fn next(&mut self) -> Option<Entry<'a>>
        ensures { MatchOption result ((items_in self.old ≡ []) × (items_in self.new ≡ [])) (λ e. items_in self.old ≡ item_of e ∷ items_in self.new) }
    {
        match self {
            Told::Values(source) => {
                let (key, words) = source.next()?;
                Some(Entry::Value(key, words))
            }
            Told::Counts(tallies) => Some(Entry::Count(tallies.next()?)),
        }
    }
}
