// Loading a saved ledger, and giving it the second form.
ghost use Rattle.std.specs.Prelude.{◌≡◌, [], ℕ, List, IfOk, IfErr};
ghost use Rattle.mv_machine.specs.Ledger.{LedgerState};
ghost use Rattle.mv_saved_text.specs.Loading.{IsLoaded, IsLoadRefusal};
ghost use Rattle.mv_saved_text.specs.SavedText.{IsSavedText, Second};
ghost use Rattle.mv_ledger_state.specs.View.{state_of};

use crate::{Ledger, Scratch};
use mv_saved_text::LoadError;
use std::alloc::Global;

impl Ledger {
    /// Loads a ledger from its text, in either form.
    ///
    /// # Errors
    ///
    /// The first reason against the bytes, `Head` to `Tally`; `Memory` if an allocation failed.
    pub fn load(alloc: Global, bytes: &[u8]) -> Result<Ledger, LoadError>
        ensures loaded { IfOk result (λ l. IsLoaded bytes.now (state_of l)) }
        ensures closed { IfOk result (λ l. l.marks ≡ []) }
        ensures refused { IfErr result (IsLoadRefusal bytes.now) }
    {
        let loaded = mv_saved_text::load(alloc, bytes)?;
        Ok(Ledger {
            alloc,
            published: loaded.published,
            storage: loaded.storage,
            runs: loaded.runs,
            run_marks: Vec::new(alloc),
            scratch: Scratch::new(alloc),
            arguments: Vec::new(alloc),
        })
    }
}

/// The text of a ledger, in the second form.
fn second_form(ledger: &Ledger) -> Result<Vec<u8>, LoadError>
    ensures new { (old : List ℕ) → IsLoaded old (state_of ledger.now) → IfOk result (λ v. (s : LedgerState) × (IsLoaded old s × IsSavedText Second v.items s)) }
    ensures refused { (old : List ℕ) → IfErr result (IsLoadRefusal old) }
{
    Ok(ledger.save()?)
}

/// Converts the text of a ledger, in either form, to the second form.
///
/// # Errors
///
/// The first reason against the bytes, `Head` to `Tally`; `Memory` if an allocation failed.
pub fn migrate(alloc: Global, old: &[u8]) -> Result<Vec<u8>, LoadError>
    ensures new { IfOk result (λ v. (s : LedgerState) × (IsLoaded old.now s × IsSavedText Second v.items s)) }
    ensures refused { IfErr result (IsLoadRefusal old.now) }
{
    let ledger = Ledger::load(alloc, old)?;
    second_form(&ledger)
}
