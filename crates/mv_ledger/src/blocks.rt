// Blocks: what is answered in one can be taken back.
ghost use Rattle.std.specs.Prelude.{◌≡◌, ◌++◌, ◌∷◌, [], List, true, false, length, IfOk, OnOk, OnErr};
ghost use Rattle.mv_ledger_state.specs.View.{HeldView, held_of};
ghost use Rattle.mv_ledger.specs.Marks.{marked};
ghost use Rattle.mv_storage.specs.Difference.{IsDifference};

use crate::Ledger;
use mv_storage::Changes;
use std::alloc::AllocError;

impl Ledger {
    /// How many blocks are open.
    pub fn blocks(&self) -> usize
        ensures { result ≡ length self.now.marks }
    {
        self.run_marks.len()
    }

    /// Opens a block. Records are answered in it as ever, and `rollback` takes back what they changed. A block may be opened within
    /// another.
    ///
    /// # Errors
    ///
    /// If an allocation failed. No block is opened then, and the ledger is as it was.
    pub fn begin(&mut self) -> Result<(), AllocError>
        ensures ok { OnOk result (self.new ≡ marked self.old (self.old.marks ++ held_of self.old ∷ [])) }
        ensures err { OnErr result (self.new ≡ self.old) }
    {
        self.run_marks.reserve(1)?;
        self.published.begin()?;
        match self.storage.begin() {
            Ok(()) => {
                self.run_marks.push_reserved(self.runs);
                Ok(())
            }
            Err(error) => {
                self.published.keep();
                Err(error)
            }
        }
    }

    /// Closes the newest block, and takes back what was changed since it was opened: the ledger is as it was then. It takes no memory.
    /// Answers false where no block is open, and does nothing then.
    pub fn rollback(&mut self) -> bool
        ensures back { result ≡ true → self.old.marks ≡ self.new.marks ++ held_of self.new ∷ [] }
        ensures none { result ≡ false → (self.old.marks ≡ []) × (self.new ≡ self.old) }
    {
        match self.run_marks.pop() {
            Some(runs) => {
                self.published.rollback();
                self.storage.rollback();
                self.runs = runs;
                true
            }
            None => false,
        }
    }

    /// Closes the newest block, and keeps what was changed since it was opened, as a part of the block around it, if there is one. It
    /// takes no memory. Answers false where no block is open, and does nothing then.
    pub fn commit(&mut self) -> bool
        ensures done { result ≡ true → (h : HeldView) × (self.old ≡ marked self.new (self.new.marks ++ h ∷ [])) }
        ensures none { result ≡ false → (self.old.marks ≡ []) × (self.new ≡ self.old) }
    {
        match self.run_marks.pop() {
            Some(_runs) => {
                self.published.keep();
                self.storage.keep();
                true
            }
            None => false,
        }
    }

    /// What is stored otherwise than where the newest block was opened, by ascending key: each key with the leaves of the value that it
    /// had and of the one that it has. Nothing where no block is open. It takes as long, and memory, as what runs changed in the block.
    ///
    /// # Errors
    ///
    /// If an allocation failed.
    pub fn changes(&self) -> Result<Changes<'_>, AllocError>
        ensures { IfOk result (λ told. (older : List HeldView) (old : HeldView) → self.entry.now.marks ≡ older ++ old ∷ [] → IsDifference old.stored self.entry.now.stored told) }
    {
        self.storage.changes()
    }
}
