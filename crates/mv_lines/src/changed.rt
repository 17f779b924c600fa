// The values of keys that were changed: those that they had before, and those that they have now.
ghost use Rattle.std.specs.Prelude.{◌≡◌, ◌∷◌, [], MatchOption};
ghost use Rattle.mv_lines.specs.Changed.{values_had, values_has};

use mv_move_types::Key;
use mv_storage::Changes;

/// Which values of changed keys are meant.
#[derive(Clone, Copy)]
pub enum Side {
    /// Those that the keys had before the changes. Keys that had none are left out.
    Before,
    /// Those that they have now. Keys that have none are left out.
    Now,
}

/// The next changed key that had a value before, and the value's words; None at the end.
pub fn next_had<'a>(changes: &mut Changes<'a>) -> Option<(Key, &'a [u128])>
    ensures { MatchOption result ((values_had changes.old ≡ []) × (values_had changes.new ≡ []))
        (λ e. values_had changes.old ≡ record { key = e.0; words = e.1.now } ∷ values_had changes.new) }
{
    'each: while let Some((key, before, _now)) = changes.next() {
        if let Some(words) = before {
            return Some((key, words));
        }
    }
    None
}

/// The next changed key that has a value now, and the value's words; None at the end.
pub fn next_has<'a>(changes: &mut Changes<'a>) -> Option<(Key, &'a [u128])>
    ensures { MatchOption result ((values_has changes.old ≡ []) × (values_has changes.new ≡ []))
        (λ e. values_has changes.old ≡ record { key = e.0; words = e.1.now } ∷ values_has changes.new) }
{
    'each: while let Some((key, _before, now)) = changes.next() {
        if let Some(words) = now {
            return Some((key, words));
        }
    }
    None
}
