// The values of one struct, in pages.
ghost use Rattle.std.specs.Prelude.{◌≡◌, ◌∷◌, [], MatchOption};
ghost use Rattle.mv_storage.specs.Pages.{address_after, is_own, IsPage};

use crate::{Entries, Storage};
use mv_move_types::{Address, Definition, Key};
use std::marker::Model;

/// Committed values of one struct, of those under so many keys. Its model has the list of those that are left, and the address from
/// which the next page goes on.
#[derive(Drop)]
pub struct Page<'a> {
    definition: Definition,
    // the values from the next key on
    entries: Entries<'a>,
    // how many more keys are looked at
    most: usize,
}

impl<'a> Model for Page<'a> {
    ghost use Rattle.mv_storage.specs.Pages.{PageView, page_of};

    ghost Value = { PageView };

    ghost view = { λ p. page_of p.definition p.most p.entries };
}

// Whether a key is one of a struct.
fn is_own(d: Definition, key: Key) -> bool
    ensures { result ≡ is_own d key }
{
    key.place == d.place && key.index == d.index
}

// The address from which values of a struct stand at a key or behind it, if there is one.
fn address_after(d: Definition, key: Key) -> Option<Address>
    ensures { result ≡ address_after d key }
{
    if key.place < d.place || key.place == d.place && key.index <= d.index {
        return Some(key.address);
    }
    key.address.checked_add(1)
}

impl<'a> Page<'a> {
    /// The next value's key and words; None at the end of the page.
    pub fn next(&mut self) -> Option<(Key, &'a [u128])>
        ensures values { MatchOption result ((self.old.values ≡ []) × (self.new.values ≡ [])) (λ e. self.old.values ≡ record { key = e.0; words = e.1.now } ∷ self.new.values) }
        ensures next { self.new.next ≡ self.old.next }
    {
        while self.most > 0 {
            let (key, words) = self.entries.next()?;
            self.most -= 1;
            if is_own(self.definition, key) {
                return Some((key, words));
            }
        }
        None
    }

    /// The address from which the next page goes on; None where no value of the struct is left. At the end of the page this takes no
    /// search, and before it passes over what is left.
    pub fn next_address(&self) -> Option<Address>
        ensures { result ≡ self.now.next }
    {
        let mut ahead = self.entries.copied();
        let mut left = self.most;
        while left > 0 {
            ahead.next()?;
            left -= 1;
        }
        let (key, _) = ahead.next()?;
        address_after(self.definition, key)
    }
}

impl Storage {
    /// The committed values of the struct of a definition, by ascending address from one on. At most so many keys are looked at, of
    /// whichever structs they are.
    pub fn page(&self, definition: Definition, from: Address, most: usize) -> Page<'_>
        ensures { IsPage self.entry.now.committed definition from most result }
    {
        // For the prover: keys ascend, and each has an address.
        self.is_ascending();
        self.has_addresses();
        let first = Key {
            address: from,
            place: definition.place,
            index: definition.index,
        };
        Page {
            definition,
            entries: self.entries(first..),
            most,
        }
    }
}
