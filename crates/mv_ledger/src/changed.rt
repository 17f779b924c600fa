// What the newest block has changed: the stored values as JSON, and the modules.
ghost use Rattle.std.specs.Prelude.{◌≡◌, ◌++◌, ◌∷◌, ◌<◌, [], List, Some, length, slice_get, IfOk, IfSome, MatchOption};
ghost use Rattle.mv_move_types.specs.Module.{own_name};
ghost use Rattle.mv_ledger_state.specs.View.{HeldView};
ghost use Rattle.mv_ledger.specs.Changed.{ModuleChange, ShowsChanges, module_changes, replaced, same_texts};

use crate::{Ledger, Lines, Side};
use mv_ledger_state::Store;
use mv_move_types::Address;
use std::alloc::AllocError;
use std::marker::Model;

/// Whether the modules at a place came in the same texts.
fn has_same_texts(before: &Store, now: &Store, place: usize) -> bool
    requires before { place < length before.now }
    requires now { place < length now.now }
    ensures { IfSome (slice_get before.now place) (λ p. IfSome (slice_get now.now place) (λ n. result ≡ same_texts p n)) }
{
    let (old_text, old_certificate) = before.texts(place);
    let (text, certificate) = now.texts(place);
    old_text == text && old_certificate == certificate
}

/// Whether the module at a place took that of another one; None where the one that was there came in the same texts.
fn replaced(before: &Store, now: &Store, place: usize) -> Option<bool>
    requires { place < length now.now }
    ensures { IfSome (slice_get now.now place) (λ n. result ≡ replaced (slice_get before.now place) n) }
{
    if place >= before.len() {
        return Some(false);
    }
    if has_same_texts(before, now, place) {
        None
    } else {
        Some(true)
    }
}

/// The modules that the newest block has published, or put in the places of others, in order of publication. A module that came in
/// the texts of the one that was in its place is left out. Its model is the list of what is left to tell.
#[derive(Drop)]
pub struct ChangedModules<'a> {
    before: &'a Store,
    now: &'a Store,
    // the place of the next module to look at
    place: usize,
}

impl<'a> Model for ChangedModules<'a> {
    ghost use Rattle.std.specs.Prelude.{List, drop};
    ghost use Rattle.mv_ledger.specs.Changed.{ModuleChange, module_changes};

    ghost Value = { List ModuleChange };

    ghost view = { λ c. module_changes (drop c.place c.before.now) (drop c.place c.now.now) };
}

impl<'a> ChangedModules<'a> {
    /// The address and the identifier of the next module, and whether it took the place of another one; None at the end.
    pub fn next(&mut self) -> Option<(Address, &'a [u8], bool)>
        ensures { MatchOption result ((self.old ≡ []) × (self.new ≡ []))
            (λ e. (c : ModuleChange) × (self.old ≡ c ∷ self.new) × (own_name c.published.tables ≡ Some (record { address = e.0; name = e.1.now })) × (c.is_replaced ≡ e.2)) }
    {
        // For the prover: what it goes over is a store.
        let _len = self.now.len();
        'each: while let Some((address, name)) = self.now.module_name(self.place) {
            let change = replaced(self.before, self.now, self.place);
            self.place += 1;
            if let Some(is_replaced) = change {
                return Some((address, name, is_replaced));
            }
        }
        None
    }
}

impl Ledger {
    /// A show, as JSON, of what `changes` tells, as if nothing else were stored: the values that changed keys had where the newest
    /// block was opened, or those that they have now. It comes piece by piece. The modules of now tell of both. No values where no
    /// block is open.
    ///
    /// # Errors
    ///
    /// If an allocation failed.
    pub fn show_changes(&self, side: Side) -> Result<Lines<'_>, AllocError>
        ensures { IfOk result (λ lines. ShowsChanges self.entry.now side lines) }
    {
        let changes = self.changes()?;
        let published = &self.published;
        Ok(Lines::json_of_changes(self.alloc, &published.store, changes, side))
    }

    /// The modules that the newest block has published or replaced so far, in order of publication. None of them where no block is
    /// open. It takes no memory, and as long as there are modules, if one was published in the block.
    pub fn changed_modules(&self) -> ChangedModules<'_>
        ensures told { (older : List HeldView) (old : HeldView) → self.entry.now.marks ≡ older ++ old ∷ [] → result ≡ module_changes old.published self.entry.now.published }
        ensures none { self.entry.now.marks ≡ [] → result ≡ [] }
    {
        let published = &self.published;
        let now = &published.store;
        match published.store_before() {
            Some(before) => ChangedModules {
                before,
                now,
                place: 0,
            },
            None => ChangedModules {
                before: now,
                now,
                place: now.len(),
            },
        }
    }
}
