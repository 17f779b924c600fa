// Going over what is stored.
ghost use Rattle.std.specs.Prelude.{◌≡◌, ◌∷◌, [], MatchOption, option_copied, slice_get};
ghost use Rattle.mv_storage.specs.Slots.{layer_at};
ghost use Rattle.mv_storage.specs.declared.slot.Layer.TheVariants.{Committed};

use crate::slot::Slot;
use mv_move_types::Key;
use std::collections::btree_map::Range;
use std::marker::Model;

/// Committed values by ascending key, each with its key. Its model is the list of those that are left.
#[derive(Drop)]
pub struct Entries<'a> {
    pub(crate) places: Range<'a, Key, usize>,
    pub(crate) slots: &'a [Slot],
}

impl<'a> Model for Entries<'a> {
    ghost use Rattle.std.specs.Prelude.{List};
    ghost use Rattle.mv_machine.specs.Flat.{FlatEntry};

    ghost Value = { List FlatEntry };

    ghost use Rattle.mv_storage.specs.Slots.{shown};
    ghost use Rattle.mv_storage.specs.declared.slot.Layer.TheVariants.{Committed};

    ghost view = { λ e. shown Committed e.slots.now e.places };
}

impl<'a> Entries<'a> {
    /// The next value's key and words; None at the end.
    pub fn next(&mut self) -> Option<(Key, &'a [u128])>
        ensures { MatchOption result ((self.old ≡ []) × (self.new ≡ [])) (λ e. self.old ≡ record { key = e.0; words = e.1.now } ∷ self.new) }
    {
        while let Some((key, place)) = self.places.next() {
            if let Some(words) = committed_at(self.slots, *place) {
                return Some((*key, words));
            }
        }
        None
    }

    // The same values once more.
    pub(crate) fn copied(&self) -> Self
        ensures { result ≡ self.now }
    {
        match self.places.clone() {
            Ok(places) => Entries {
                places,
                slots: self.slots,
            },
            Err(_) => unreachable!(),
        }
    }
}

// The committed words of the slot at a place.
fn committed_at(slots: &[Slot], place: usize) -> Option<&[u128]>
    ensures { option_copied result ≡ layer_at Committed (slice_get slots.now place) }
{
    match slots.get(place) {
        Some(slot) => slot.committed(),
        None => None,
    }
}
