// A ledger's text piece by piece.
ghost use Rattle.std.specs.Prelude.{◌≡◌, IfOk, OnErr};
ghost use Rattle.mv_saved_text.specs.Flowing.{left_in, GivesNext};
ghost use Rattle.mv_ledger_state.specs.View.{state_of};

use crate::Ledger;
use mv_saved_text::Saving;
use std::alloc::AllocError;

impl Ledger {
    /// The next bytes of the ledger's text, in the second form, at most 65,536; None at its end. It takes memory for a few
    /// pieces, for the modules' structs (at most some 110 bytes for each), and for one value. What is left is of the ledger as it is now: if
    /// it was changed since the last piece, the pieces are no text of it.
    ///
    /// # Errors
    ///
    /// If an allocation failed. The same is left then.
    pub fn next_piece(&self, saving: &mut Saving) -> Result<Option<Vec<u8>>, AllocError>
        ensures piece { IfOk result (λ piece. GivesNext (state_of self.now) saving.old piece saving.new) }
        ensures kept { OnErr result (left_in saving.new (state_of self.now) ≡ left_in saving.old (state_of self.now)) }
    {
        // For the prover: the modules are no more than a ledger has.
        let published = &self.published;
        saving.next(
            self.alloc,
            &published.store,
            &self.storage,
            &published.tallies,
            self.runs,
        )
    }
}
