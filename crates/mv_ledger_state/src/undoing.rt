// Blocks of what is published and tallied: begun, taken back and kept.
ghost use Rattle.std.specs.Prelude.{◌≡◌, ◌++◌, ◌∷◌, [], List, None, true, false, length, option_copied, unwrap_or, OnOk, OnErr};
ghost use Rattle.mv_ledger_state.specs.View.{held_now, CanCount, HeldModules};

use crate::blocks::{Mark, give_back};
use crate::published::Published;
use crate::tallies::take_back;
use mv_frames::StructTally;
use mv_linker::Store;
use std::alloc::AllocError;

/// Puts a store back, if there is one to put back.
fn put_back(store: &mut Store, was: Option<Store>)
    ensures { store.new ≡ unwrap_or was store.old }
{
    match was {
        Some(was) => *store = was,
        None => {}
    }
}

impl Published {
    /// Begins a block: what is held now can be gone back to. It takes no copy.
    ///
    /// # Errors
    ///
    /// If an allocation failed. Nothing changes then.
    pub fn begin(&mut self) -> Result<(), AllocError>
        ensures ok { OnOk result (self.new ≡ record self.old { marks = self.old.marks ++ held_now self.old ∷ [] }) }
        ensures err { OnErr result (self.new ≡ self.old) }
    {
        let blocks = &mut self.blocks;
        blocks.marks.reserve(1)?;
        blocks.marks.push_reserved(Mark {
            noted: blocks.noted.len(),
            store: None,
        });
        Ok(())
    }

    /// Takes back what was published and tallied since the newest block was begun, and closes it. It takes no memory.
    pub fn rollback(&mut self) -> bool
        ensures back { result ≡ true → self.old.marks ≡ self.new.marks ++ held_now self.new ∷ [] }
        ensures none { result ≡ false → (self.old.marks ≡ []) × (self.new ≡ self.old) }
    {
        let blocks = &mut self.blocks;
        let tallies = &mut self.tallies;
        match blocks.marks.pop() {
            Some(mark) => {
                let count = mark.noted;
                take_back(&mut tallies.modules, &mut blocks.noted, count);
                give_back(&mut blocks.noted);
                put_back(&mut self.store, mark.store);
                blocks.room = 0;
                true
            }
            None => false,
        }
    }

    /// Closes the newest block, and keeps what was published and tallied since. It takes no memory.
    pub fn keep(&mut self) -> bool
        ensures modules { self.new.modules ≡ self.old.modules }
        ensures tallies { self.new.tallies ≡ self.old.tallies }
        ensures closed { result ≡ true → (held : HeldModules) × (self.old.marks ≡ self.new.marks ++ held ∷ []) }
        ensures none { result ≡ false → (self.old.marks ≡ []) × (self.new ≡ self.old) }
    {
        match self.blocks.marks.pop() {
            Some(mark) => {
                self.blocks.hand(mark.store);
                true
            }
            None => false,
        }
    }

    /// The modules where the newest block was begun; None where they are those of now, or no block is open.
    pub fn store_before(&self) -> Option<&Store>
        ensures held { (older : List HeldModules) (old : HeldModules) → self.now.marks ≡ older ++ old ∷ [] → old.modules ≡ unwrap_or (option_copied result) self.now.modules }
        ensures none { self.now.marks ≡ [] → result ≡ None }
    {
        match self.blocks.marks.last() {
            Some(mark) => mark.store.as_ref(),
            None => None,
        }
    }

    /// Takes room for noting what a run did, so that adding it can't fail. Where no block is open there is nothing to do.
    ///
    /// # Errors
    ///
    /// If an allocation failed. Nothing changes then.
    pub fn make_room(&mut self, run: &[StructTally]) -> Result<(), AllocError>
        ensures modules { self.new.modules ≡ self.old.modules }
        ensures tallies { self.new.tallies ≡ self.old.tallies }
        ensures marks { self.new.marks ≡ self.old.marks }
        ensures room { OnOk result (CanCount (length run.now) self.new) }
        ensures err { OnErr result (self.new ≡ self.old) }
    {
        let blocks = &mut self.blocks;
        if blocks.marks.is_empty() {
            return Ok(());
        }
        blocks.noted.reserve(run.len())?;
        blocks.room = run.len();
        Ok(())
    }
}
