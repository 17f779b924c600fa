// A save piece by piece.
ghost use Rattle.std.specs.Prelude.{◌≡◌, ◌+◌, ◌<◌, ◌≤◌, ◌++◌, [], false, true, All, length, IfOk, OnOk, OnErr};
ghost use Rattle.mv_machine.specs.Tallies.{all_of};
ghost use Rattle.mv_link_rules.specs.Link.{tables_in};
ghost use Rattle.mv_saved_text.specs.Flowing.{left_in, new_save, GivesNext};
ghost use Rattle.mv_ledger_state.specs.View.{state_of, view_of, IsFineWords};
ghost use Rattle.mv_saved_text.specs.Parts.Saving.{IsWritable};
ghost use Rattle.mv_saved_text.specs.Parts.Steps.{is_end, rank};

use crate::position::Position;
use crate::steps::{Step, step_at};
use mv_ledger_state::Tallies;
use mv_linker::Store;
use mv_storage::Storage;
use std::alloc::{AllocError, Global};
use std::marker::Model;
use std::mem;

// So many bytes are given at once at most.
const PIECE_BYTES: usize = 65_536;

/// How far a save is. It borrows nothing of the ledger that is saved. Its model is the bytes that were made and not yet given, and from
/// where on others are to be made.
#[derive(Drop)]
pub struct Saving {
    position: Position,
    // bytes that were made, and how many of them were given
    made: Vec<u8>,
    given: usize,
}

impl Model for Saving {
    ghost use Rattle.std.specs.Prelude.{drop};
    ghost use Rattle.mv_saved_text.specs.Flowing.{SavingView};

    ghost Value = { SavingView };

    ghost view = { λ s. record { ready = drop s.given s.made.items; position = s.position } };
}

impl Saving {
    /// A save at its beginning. It takes no memory.
    pub fn new(alloc: Global) -> Self
        ensures { result ≡ new_save }
    {
        Saving {
            position: Position::Head,
            made: Vec::new(alloc),
            given: 0,
        }
    }

    // Whether bytes were made that are not yet given.
    fn is_ready(&self) -> bool
        ensures ready { result ≡ true → 1 ≤ length self.now.ready }
        ensures empty { result ≡ false → self.now.ready ≡ [] }
    {
        self.given < self.made.len()
    }

    // Whether no bytes are left to be made.
    fn is_made(&self) -> bool
        ensures { result ≡ is_end self.now.position }
    {
        self.position.is_end()
    }

    // Makes the next bytes.
    #[tactic(auto, using(crate::proofs::Saves::Steps::step_left, crate::proofs::Saves::Steps::step_nearer))]
    fn go_on(
        &mut self,
        alloc: Global,
        store: &Store,
        storage: &Storage,
        tallies: &Tallies,
        runs: u64,
    ) -> Result<(), AllocError>
        requires few { length store.now ≤ 65536 }
        requires fine { All (IsFineWords (tables_in store.now)) storage.now.committed }
        requires writable { All IsWritable (all_of tallies.now) }
        requires on { is_end self.old.position ≡ false }
        requires given { self.old.ready ≡ [] }
        ensures left { let s = state_of (view_of store.now storage.now.committed (all_of tallies.now) runs) in OnOk result (left_in self.new s ≡ left_in self.old s) }
        ensures nearer { let s = state_of (view_of store.now storage.now.committed (all_of tallies.now) runs) in OnOk result (rank s self.new.position < rank s self.old.position) }
        ensures kept { OnErr result (self.new ≡ self.old) }
    {
        let Step { text, next } = step_at(alloc, self.position, store, storage, tallies, runs)?;
        self.position = next;
        self.made = text;
        self.given = 0;
        Ok(())
    }

    // Makes the next bytes, unless some are ready; and says whether some are.
    #[tactic(auto, using(crate::proofs::Saves::Steps::nothing_left))]
    fn prepare(
        &mut self,
        alloc: Global,
        store: &Store,
        storage: &Storage,
        tallies: &Tallies,
        runs: u64,
    ) -> Result<bool, AllocError>
        requires few { length store.now ≤ 65536 }
        requires fine { All (IsFineWords (tables_in store.now)) storage.now.committed }
        requires writable { All IsWritable (all_of tallies.now) }
        ensures left { let s = state_of (view_of store.now storage.now.committed (all_of tallies.now) runs) in left_in self.new s ≡ left_in self.old s }
        ensures ready { IfOk result (λ ready. ready ≡ true → 1 ≤ length self.new.ready) }
        ensures none { let s = state_of (view_of store.now storage.now.committed (all_of tallies.now) runs) in IfOk result (λ ready. ready ≡ false → left_in self.new s ≡ []) }
    {
        'each: while !self.is_ready() {
            if self.is_made() {
                return Ok(false);
            }
            self.go_on(alloc, store, storage, tallies, runs)?;
        }
        Ok(true)
    }

    // Gives bytes that were made.
    fn give(&mut self, alloc: Global) -> Result<Vec<u8>, AllocError>
        requires { 1 ≤ length self.old.ready }
        ensures ready { IfOk result (λ piece. self.old.ready ≡ piece.items ++ self.new.ready) }
        ensures some { IfOk result (λ piece. 1 ≤ length piece.items) }
        ensures few { IfOk result (λ piece. length piece.items ≤ 65536) }
        ensures position { self.new.position ≡ self.old.position }
        ensures kept { OnErr result (self.new ≡ self.old) }
    {
        if self.given == 0 && self.made.len() <= PIECE_BYTES {
            return Ok(mem::replace(&mut self.made, Vec::new(alloc)));
        }
        let end = self.made.len().min(self.given.saturating_add(PIECE_BYTES));
        let piece = Vec::from_slice(alloc, &self.made[self.given..end])?;
        self.given = end;
        Ok(piece)
    }

    /// The next bytes of the text, in the second form, of a ledger with these parts: at most 65,536; None at the end of the text. What
    /// is left is of the ledger with these parts, whatever they were before. It takes memory for a few pieces, for the modules' structs
    /// (at most some 110 bytes for each), and for one value.
    ///
    /// # Errors
    ///
    /// If an allocation failed. The same is left then.
    #[tactic(auto, using(crate::proofs::Saves::Steps::given_left))]
    pub fn next(
        &mut self,
        alloc: Global,
        store: &Store,
        storage: &Storage,
        tallies: &Tallies,
        runs: u64,
    ) -> Result<Option<Vec<u8>>, AllocError>
        requires few { length store.now ≤ 65536 }
        requires fine { All (IsFineWords (tables_in store.now)) storage.now.committed }
        requires writable { All IsWritable (all_of tallies.now) }
        ensures piece { let s = state_of (view_of store.now storage.now.committed (all_of tallies.now) runs) in IfOk result (λ piece. GivesNext s self.old piece self.new) }
        ensures kept { let s = state_of (view_of store.now storage.now.committed (all_of tallies.now) runs) in OnErr result (left_in self.new s ≡ left_in self.old s) }
    {
        let ready = self.prepare(alloc, store, storage, tallies, runs)?;
        if !ready {
            return Ok(None);
        }
        let piece = self.give(alloc)?;
        Ok(Some(piece))
    }
}
