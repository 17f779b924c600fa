// What the tests do to a storage.
ghost use Rattle.std.specs.Prelude.{◌≡◌, cond, OnErr, IfOk};
ghost use Rattle.mv_storage.specs.FlatStorage.{with_words};

use super::acts::{Act, perform, put_claimed, value_of};
use mv_move_types::Key;
use mv_storage::{Changes, Overlay, Storage, Value};
use std::alloc::{AllocError, Global};

/// What is done to a storage, and what has to come of it.
pub(crate) enum Step {
    /// A run does this, and what it has not committed is given up.
    Runs(&'static [Act]),
    /// A run puts a value, unless there is one, and is kept.
    Puts(Key, &'static [u128], bool),
    /// A run puts a value of one leaf in place of the one there, or takes that out, and is kept.
    Sets(Key, Option<u128>),
    /// A run takes a value out and is given up.
    GivesUp(Key),
    /// A block is begun.
    Begins,
    /// The newest block is taken back, if one is open.
    TakesBack(bool),
    /// The newest block is kept, if one is open.
    Keeps(bool),
    /// What is stored under a key.
    Stores(Key, Option<&'static [u128]>),
    /// How many values are stored.
    Counts(usize),
    /// The keys that the newest block has changed, and the first leaf of each before and now.
    Tells(&'static [(Key, Option<u128>, Option<u128>)]),
}

impl Step {
    // Does it, and says whether what has to come of it does.
    fn is_done(&self, alloc: Global, storage: &mut Storage) -> Result<bool, AllocError> {
        match self {
            Step::Runs(acts) => perform(alloc, &mut storage.overlay(), acts),
            Step::Puts(key, words, wanted) => {
                Ok(run(storage, *key, value_of(alloc, words)?)? == *wanted)
            }
            Step::Sets(key, leaf) => {
                set(storage, *key, *leaf)?;
                Ok(true)
            }
            Step::GivesUp(key) => {
                try_out(storage, key);
                Ok(true)
            }
            Step::Begins => {
                storage.begin()?;
                Ok(true)
            }
            Step::TakesBack(wanted) => Ok(storage.rollback() == *wanted),
            Step::Keeps(wanted) => Ok(storage.keep() == *wanted),
            Step::Stores(key, words) => Ok(is_stored(storage, key, *words)),
            Step::Counts(count) => Ok(has_count(storage, *count)),
            Step::Tells(changes) => Ok(are_told(storage.changes()?, changes)),
        }
    }
}

// How many of the steps come out as wanted, from the first one on.
fn done(alloc: Global, storage: &mut Storage, steps: &[Step]) -> Result<usize, AllocError> {
    for (index, step) in steps.iter().enumerate() {
        if !step.is_done(alloc, storage)? {
            return Ok(index);
        }
    }
    Ok(steps.len())
}

/// How many of the steps come out as wanted on a new storage, from the first one on.
pub(crate) fn done_anew(alloc: Global, steps: &[Step]) -> Result<usize, AllocError> {
    done(alloc, &mut Storage::new(alloc), steps)
}

// What a ledger does: it lends its storage to a run, and keeps what the run has made, or has it back as it was.
fn run(storage: &mut Storage, key: Key, value: Value) -> Result<bool, AllocError>
    ensures ok { IfOk result (λ done. storage.new.committed ≡ cond done (with_words storage.old.committed key value) storage.old.committed) }
    ensures err { OnErr result (storage.new.committed ≡ storage.old.committed) }
{
    let mut overlay = storage.overlay();
    if overlay.exists(&key) {
        return Ok(false);
    }
    overlay.put(key, value)?;
    overlay.commit()?;
    Ok(true)
}

// A run that takes a value and is given up leaves the storage as it was.
fn try_out(storage: &mut Storage, key: &Key)
    ensures { storage.new.committed ≡ storage.old.committed }
{
    let mut overlay = storage.overlay();
    let _ = overlay.take(key);
    overlay.discard();
}

// Puts a value of one leaf in place of the one there, or takes that out, and keeps all that was done.
fn replace(overlay: &mut Overlay<'_>, key: Key, leaf: Option<u128>) -> Result<(), AllocError> {
    overlay.take(&key)?;
    if let Some(leaf) = leaf {
        put_claimed(overlay, key, Value::leaf(leaf))?;
    }
    overlay.commit()
}

/// A run that puts a value of one leaf in place of the one there, or takes that out, and is kept.
pub(crate) fn set(storage: &mut Storage, key: Key, leaf: Option<u128>) -> Result<(), AllocError> {
    replace(&mut storage.overlay(), key, leaf)
}

// Whether these words are stored under a key, or none.
fn is_stored(storage: &Storage, key: &Key, wanted: Option<&[u128]>) -> bool {
    storage.get(key) == wanted
}

/// The first leaf that is stored under a key.
pub(crate) fn stored(storage: &Storage, key: &Key) -> Option<u128> {
    leaf(storage.get(key))
}

/// Whether so many values are stored.
pub(crate) fn has_count(storage: &Storage, count: usize) -> bool {
    let mut entries = storage.iter();
    for _ in 0..count {
        if entries.next().is_none() {
            return false;
        }
    }
    entries.next().is_none()
}

// The first leaf of a value, if there is one.
fn leaf(words: Option<&[u128]>) -> Option<u128> {
    words?.first().copied()
}

// Whether the next change is of this key, and has these leaves before and after.
fn is_next(changes: &mut Changes<'_>, wanted: &(Key, Option<u128>, Option<u128>)) -> bool {
    match changes.next() {
        Some((key, had, has)) => key == wanted.0 && leaf(had) == wanted.1 && leaf(has) == wanted.2,
        None => false,
    }
}

// Whether these are the changes.
fn are_told(mut changes: Changes<'_>, wanted: &[(Key, Option<u128>, Option<u128>)]) -> bool {
    for change in wanted {
        if !is_next(&mut changes, change) {
            return false;
        }
    }
    changes.next().is_none()
}
