// The search for a chain of dependencies that leads back to its module.
ghost use Rattle.std.specs.Prelude.{◌≡◌, ◌↔◌, ◌<◌, [], length, slice_get, ℕ, Some, IsTrue, IfOk, MatchBool, MatchOption};
ghost use Rattle.mv_link_rules.specs.Link.{IsStore};
ghost use Rattle.mv_linker.specs.DependencyGraph.{IsOrdered};
ghost use Rattle.mv_bit_sets.specs.BitSets.{IsWithin};
ghost use Rattle.mv_linker.specs.ScopeDependencies.{AreNeedsAt};
ghost use Rattle.mv_linker.specs.Relinked.{IsFitting};
ghost use Rattle.mv_linker.specs.Finished.{AreFinished, IsNext, IsSearched, IsFinished, LeadsToFinished};
ghost use Rattle.mv_linker.specs.Targets.{modules_in};

use crate::rules::acyclic::Dependencies;
use mv_bit_sets::BitSet;
use std::alloc::{AllocError, Global};

/// Whether a place is one of the first, or one that the search is done with.
fn is_finished(base: usize, done: &BitSet, place: usize) -> bool
    ensures { IsTrue result ↔ IsFinished base done.now place }
{
    place < base || done.contains(place)
}

impl<'s, 'a, 'n> Dependencies<'s, 'a, 'n> {
    /// The places that the module at a place depends on. Nothing is decoded.
    fn needs_at(&self, place: usize) -> &BitSet
        requires store { IsStore self.now.scope.now.store.now }
        requires place { place < length (modules_in self.now.scope.now) }
        ensures { AreNeedsAt (modules_in self.entry.now.scope.now) place result.now }
    {
        match self.scope.bundled(place) {
            Some(k) => &self.needed[k],
            None => self.scope.store.needs_at(place),
        }
    }

    /// A place that the module at one depends on, from `base` on, with which the search isn't done.
    fn next_after(&self, base: usize, done: &BitSet, place: usize) -> Option<usize>
        requires store { IsStore self.now.scope.now.store.now }
        requires place { place < length (modules_in self.now.scope.now) }
        ensures { MatchOption result (LeadsToFinished (modules_in self.now.scope.now) base done.now place) (IsNext (modules_in self.now.scope.now) base done.now place) }
    {
        self.needs_at(place).outside(base, done)
    }

    /// Whether each module of the bundle depends on modules before `base` alone.
    fn need_first_alone(&self, alloc: Global, base: usize) -> bool
        requires { IsFitting self.now.scope.now }
        ensures { IsTrue result ↔ ((k p : ℕ) → slice_get self.now.scope.now.places.items k ≡ Some p → LeadsToFinished (modules_in self.now.scope.now) base [] p) }
    {
        let none = BitSet::new(alloc);
        for k in 0..self.scope.places.len() {
            if self.next_after(base, &none, self.scope.places[k]).is_some() {
                return false;
            }
        }
        true
    }

    /// Whether a chain of dependencies that begins at a place leads back to one of its modules. `met` has the places that the
    /// search came to, `done` those from which no chain does. Each place is come to once, and left once.
    fn leads_back(
        &self,
        alloc: Global,
        base: usize,
        start: usize,
        met: &mut BitSet,
        done: &mut BitSet,
    ) -> Result<bool, AllocError>
        requires store { IsStore self.now.scope.now.store.now }
        requires start { start < length (modules_in self.now.scope.now) }
        requires fresh { IsFinished base done.old start → ⊥ }
        requires met { IsWithin 0 met.old done.old }
        requires finished { AreFinished (modules_in self.now.scope.now) base done.old }
        ensures { IfOk result (λ b. MatchBool b (IsOrdered (modules_in self.now.scope.now) → ⊥) (IsSearched (modules_in self.now.scope.now) base start done.old met.new done.new)) }
    {
        let mut chain = Vec::new(alloc);
        met.insert(start)?;
        chain.push(start)?;
        'search: while let Some(last) = chain.last() {
            let place = *last;
            let Some(next) = self.next_after(base, done, place) else {
                done.insert(place)?;
                chain.pop();
                continue;
            };
            if met.contains(next) {
                return Ok(true);
            }
            met.insert(next)?;
            chain.push(next)?;
        }
        Ok(false)
    }

    /// Whether no chain leads back to its module, by a search from each module of the bundle with which the others weren't done.
    fn none_leads_back(
        &self,
        alloc: Global,
        base: usize,
        met: &mut BitSet,
        done: &mut BitSet,
    ) -> Result<bool, AllocError>
        requires fits { IsFitting self.now.scope.now }
        requires finished { AreFinished (modules_in self.now.scope.now) base [] }
        requires met { met.old ≡ [] }
        requires done { done.old ≡ [] }
        ensures { IfOk result (λ b. IsTrue b ↔ IsOrdered (modules_in self.now.scope.now)) }
    {
        for k in 0..self.scope.places.len() {
            let place = self.scope.places[k];
            if is_finished(base, done, place) {
                continue;
            }
            if self.leads_back(alloc, base, place, met, done)? {
                return Ok(false);
            }
        }
        Ok(true)
    }

    /// Whether no module depends on itself by a chain, where the modules before `base` are in order by themselves. One search
    /// serves all the modules of the bundle, since a chain that leads back is of one of them, or of those before `base`.
    pub fn is_ordered_from(&self, alloc: Global, base: usize) -> Result<bool, AllocError>
        requires fits { IsFitting self.now.scope.now }
        requires finished { AreFinished (modules_in self.now.scope.now) base [] }
        ensures { IfOk result (λ b. IsTrue b ↔ IsOrdered (modules_in self.now.scope.now)) }
    {
        if self.need_first_alone(alloc, base) {
            return Ok(true);
        }
        let mut met = BitSet::new(alloc);
        let mut done = BitSet::new(alloc);
        self.none_leads_back(alloc, base, &mut met, &mut done)
    }
}
