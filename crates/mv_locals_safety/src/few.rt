// A few availabilities, which lie in the value itself.
ghost use Rattle.std.specs.Prelude.{◌≡◌, ◌<◌, ◌≤◌, ◌++◌, ◌∷◌, [], length, slice_set};

use mv_move_types::Availability;
use std::marker::Model;

/// How many availabilities lie in a state itself.
pub(crate) const FEW: usize = 16;

/// At most 16 availabilities, which lie in the value itself.
#[derive(Drop, Debug)]
pub(crate) struct Few {
    all: [Availability; 16],
    count: usize,
}

impl Model for Few {
    ghost use Rattle.std.specs.Prelude.{◌≡◌, ◌≤◌, List, length, take};
    ghost use Rattle.mv_move_types.specs.declared.borrow.Availability.{Availability};

    ghost Value = { List Availability };

    ghost view = { λ v. take v.count v.all };

    ghost invariant = { λ v. (v.count ≤ 16) × (length v.all ≡ 16) };
}

impl Few {
    /// No availability.
    pub(crate) fn new() -> Self
        ensures { result ≡ [] }
    {
        Few {
            all: [Availability::Unavailable; 16],
            count: 0,
        }
    }

    /// How many availabilities there are.
    pub(crate) fn len(&self) -> usize
        ensures value { result ≡ length self.now }
        ensures few { result ≤ 16 }
    {
        self.count
    }

    /// The availabilities.
    pub(crate) fn as_slice(&self) -> &[Availability]
        ensures { result.now ≡ self.now }
    {
        &self.all[..self.count]
    }

    /// The same availabilities, all of them copied at once.
    pub(crate) fn copy(&self) -> Self
        ensures { result ≡ self.now }
    {
        Few {
            all: self.all,
            count: self.count,
        }
    }

    /// Adds an availability at the end.
    pub(crate) fn push(&mut self, a: Availability)
        requires { length self.old < 16 }
        ensures { self.new ≡ self.old ++ a ∷ [] }
    {
        self.all[self.count] = a;
        self.count += 1;
    }

    /// Puts an availability in place of the one at a place.
    #[tactic(auto, using(crate::proofs::Places::set_taken))]
    pub(crate) fn set(&mut self, place: usize, a: Availability)
        requires { place < length self.old }
        ensures { self.new ≡ slice_set self.old place a }
    {
        self.all[place] = a;
    }

    /// These availabilities.
    pub(crate) fn of_slice(all: &[Availability]) -> Self
        requires { length all.now ≤ 16 }
        ensures { result ≡ all.now }
    {
        let mut few = Few::new();
        for a in all {
            few.push(*a);
        }
        few
    }
}
