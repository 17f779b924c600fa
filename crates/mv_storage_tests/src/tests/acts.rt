// What the tests do to an overlay.

use mv_move_types::Key;
use mv_storage::{Overlay, Value};
use std::alloc::{AllocError, Global};

/// What is done to an overlay, and what has to come of it.
pub(crate) enum Act {
    /// A value is put, unless there is one.
    Puts(Key, &'static [u128], bool),
    /// The same by one search.
    PutsClaimed(Key, &'static [u128], bool),
    /// A key gets its place, and whether there is a value.
    Claims(Key, bool),
    /// A value is taken out, if there is one.
    Takes(Key, Option<&'static [u128]>),
    /// A value is taken out, whichever it is, if there is one.
    Clears(Key),
    /// Words are written over those of a value from one on, if there are as many.
    Writes(Key, usize, &'static [u128], bool),
    /// What a value of one word reads.
    Reads(Key, Option<u128>),
    /// The words of a value from one on, so many.
    Shows(Key, usize, usize, Option<&'static [u128]>),
    /// Whether there is a value.
    Has(Key, bool),
    /// The key of an address, a place and an index, if it can be one.
    HasKey(u128, u128, u16, Option<Key>),
    /// A value of one word is put as by a claim: it is there then, unless memory ran out.
    PutsOrRunsOut(Key, u128),
    /// All that was done is kept.
    Commits,
}

impl Act {
    // Does it, and says whether what has to come of it does.
    fn is_done(&self, alloc: Global, overlay: &mut Overlay<'_>) -> Result<bool, AllocError> {
        match self {
            Act::Puts(key, words, wanted) => {
                Ok(put(overlay, *key, value_of(alloc, words)?)? == *wanted)
            }
            Act::PutsClaimed(key, words, wanted) => {
                Ok(put_claimed(overlay, *key, value_of(alloc, words)?)? == *wanted)
            }
            Act::Claims(key, wanted) => Ok(overlay.claim(key)? == *wanted),
            Act::Takes(key, wanted) => is_taken(overlay, key, *wanted),
            Act::Clears(key) => {
                overlay.take(key)?;
                Ok(true)
            }
            Act::Writes(key, from, words, wanted) => {
                Ok(write(overlay, key, *from, words)? == *wanted)
            }
            Act::Reads(key, wanted) => Ok(word(overlay, key) == *wanted),
            Act::Shows(key, from, width, wanted) => {
                Ok(view(overlay, key, *from, *width) == *wanted)
            }
            Act::Has(key, wanted) => Ok(overlay.exists(key) == *wanted),
            Act::HasKey(address, place, index, wanted) => {
                Ok(overlay.key_at(*address, *place, *index) == *wanted)
            }
            Act::PutsOrRunsOut(key, word) => Ok(puts_or_runs_out(overlay, *key, *word)),
            Act::Commits => {
                overlay.commit()?;
                Ok(true)
            }
        }
    }
}

/// Does all of this, one after the other, and says whether what has to come of each does.
pub(crate) fn perform(
    alloc: Global,
    overlay: &mut Overlay<'_>,
    acts: &[Act],
) -> Result<bool, AllocError> {
    for act in acts {
        if !act.is_done(alloc, overlay)? {
            return Ok(false);
        }
    }
    Ok(true)
}

/// The value of these words.
pub(crate) fn value_of(alloc: Global, words: &[u128]) -> Result<Value, AllocError> {
    match words {
        [word] => Ok(Value::leaf(*word)),
        _ => Ok(Value::words(Vec::from_slice(alloc, words)?)),
    }
}

// Puts a value where none is, and says whether it did.
fn put(overlay: &mut Overlay<'_>, key: Key, value: Value) -> Result<bool, AllocError> {
    if overlay.exists(&key) {
        return Ok(false);
    }
    overlay.put(key, value)?;
    Ok(true)
}

/// Puts a value under a key that it claims first, where none is, and says whether it did.
pub(crate) fn put_claimed(
    overlay: &mut Overlay<'_>,
    key: Key,
    value: Value,
) -> Result<bool, AllocError> {
    if overlay.claim(&key)? {
        return Ok(false);
    }
    overlay.put(key, value)?;
    Ok(true)
}

// Whether a value is there once it was put, and only if no memory was missing.
fn puts_or_runs_out(overlay: &mut Overlay<'_>, key: Key, word: u128) -> bool {
    let was_put = put_claimed(overlay, key, Value::leaf(word));
    overlay.exists(&key) == (was_put == Ok(true))
}

// Whether a value with these words is taken out, or whether there is none.
fn is_taken(
    overlay: &mut Overlay<'_>,
    key: &Key,
    wanted: Option<&[u128]>,
) -> Result<bool, AllocError> {
    match overlay.take(key)? {
        Some(value) => Ok(Some(value.as_slice()) == wanted),
        None => Ok(wanted.is_none()),
    }
}

/// Writes words over those of a value from one on, if there are as many, and says whether it did.
pub(crate) fn write(
    overlay: &mut Overlay<'_>,
    key: &Key,
    from: usize,
    new: &[u128],
) -> Result<bool, AllocError> {
    match overlay.edit(key, from, new.len())? {
        Some(words) => {
            words.copy_from_slice(new);
            Ok(true)
        }
        None => Ok(false),
    }
}

/// What a run reads of a value of one leaf.
pub(crate) fn word(overlay: &mut Overlay<'_>, key: &Key) -> Option<u128> {
    if !overlay.recall(key) || overlay.len(key)? != 1 || overlay.word(key, 1).is_some() {
        return None;
    }
    overlay.word(key, 0)
}

// The leaves of a value from a place on, so many, if they are there.
fn view<'a>(overlay: &'a Overlay<'_>, key: &Key, from: usize, width: usize) -> Option<&'a [u128]> {
    let len = overlay.len(key)?;
    if from > len || width > len - from {
        return None;
    }
    overlay.view(key, from, width)
}
