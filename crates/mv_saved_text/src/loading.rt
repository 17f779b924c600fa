// Loading a saved ledger.
ghost use Rattle.std.specs.Prelude.{◌≡◌, ℕ, List, [], IfOk, IfErr};
ghost use Rattle.mv_ledger_state.specs.Asking.{offers_of};
ghost use Rattle.mv_saved_text.specs.Loading.{IsLoaded, load_number, IsLoadRefusal};
ghost use Rattle.mv_saved_text.specs.Parts.LoadedParts.{head_of, reason_of, unread_as, BeginsWith};
ghost use Rattle.mv_ledger_state.specs.Publishing.{AllPass};
ghost use Rattle.mv_ledger_state.specs.View.{state_of, view_of, IsLedger};
ghost use Rattle.mv_machine.specs.Tallies.{all_of};

mod balance;
mod body;
mod head;
pub(crate) mod longer;
mod modules;
mod order;
mod singly;
mod stubs;
mod tallies;
mod values;

use balance::are_tallied;
use body::read_body;
use head::{Head, read_head};
use modules::of_offers;
use mv_ledger_state::Published;
use mv_ledger_state::unread::Unread;
use mv_module_text::Reader;
use mv_move_types::Refusal;
use mv_storage::Storage;
use std::alloc::{AllocError, Global};
use thiserror::Error;

/// Why bytes are not loaded.
#[derive(Clone, Copy, Debug, Error)]
pub enum LoadError {
    /// They don't begin with a head and a list of modules.
    #[error("load refused 1")]
    Head,
    /// A module or its certificate fails one of phases 2 to 12.
    #[error("load refused 2")]
    Module,
    /// The modules are not linked.
    #[error("load refused 3")]
    Link,
    /// What follows the modules isn't the rest of a text of a ledger with them.
    #[error("load refused 4")]
    Body,
    /// The tallies don't agree with what is stored.
    #[error("load refused 5")]
    Tally,
    /// An allocation failed.
    #[error("memory")]
    Memory,
}

impl From<AllocError> for LoadError {
    ghost use Rattle.std.specs.Prelude.{◌≡◌};
    ghost use Rattle.mv_saved_text.specs.declared.loading.LoadError.TheVariants.{Memory};

    ghost from_gives = { λ _ e. e ≡ Memory };

    fn from(_: AllocError) -> Self {
        LoadError::Memory
    }
}

impl LoadError {
    /// The number of the refusal, from 1 to 5; none where memory ran out.
    pub fn number(&self) -> Option<u8>
        ensures { result ≡ load_number self.now }
    {
        match self {
            LoadError::Head => Some(1),
            LoadError::Module => Some(2),
            LoadError::Link => Some(3),
            LoadError::Body => Some(4),
            LoadError::Tally => Some(5),
            LoadError::Memory => None,
        }
    }
}

/// Why bytes are not loaded where a part of them is refused: for this reason, or for want of memory.
fn because(refusal: Refusal, reason: LoadError) -> LoadError
    ensures { result ≡ reason_of reason refusal }
{
    match refusal {
        Refusal::Phase(_) => reason,
        Refusal::Memory => LoadError::Memory,
    }
}

/// Why bytes are not loaded where a part of them was not read: for this reason, or for want of memory.
fn unread(error: Unread, reason: LoadError) -> LoadError
    ensures { result ≡ unread_as reason error }
{
    match error {
        Unread::Cut | Unread::Malformed => reason,
        Unread::Memory => LoadError::Memory,
    }
}

/// Reads what follows the modules of a saved ledger that begins so, tries the tallies against it, and gives what is stored.
fn read_stored(
    alloc: Global,
    reader: &mut Reader<'_>,
    head: &Head<'_>,
    joined: &mut Published,
) -> Result<Storage, LoadError>
    requires begun { (bytes : List ℕ) × BeginsWith bytes (head_of head.now) reader.old }
    requires passed { AllPass (offers_of head.now.offers.items) joined.old.modules }
    requires marks { joined.old.marks ≡ [] }
    ensures marks { joined.new.marks ≡ [] }
    ensures whole { IfOk result (λ s. IsLedger joined.new.modules s.committed (all_of joined.new.tallies) head.now.runs) }
    ensures loaded { (bytes : List ℕ) → BeginsWith bytes (head_of head.now) reader.old
        → IfOk result (λ s. IsLoaded bytes (state_of (view_of joined.new.modules s.committed (all_of joined.new.tallies) head.now.runs))) }
    ensures refused { (bytes : List ℕ) → BeginsWith bytes (head_of head.now) reader.old → IfErr result (IsLoadRefusal bytes) }
    ensures closed { IfOk result (λ s. s.marks ≡ []) }
{
    let storage = match read_body(alloc, reader, head.form, &joined.store, &mut joined.tallies) {
        Ok(storage) => storage,
        Err(error) => return Err(unread(error, LoadError::Body)),
    };
    if !are_tallied(alloc, &joined.store, &storage, &joined.tallies, head.runs)? {
        return Err(LoadError::Tally);
    }
    Ok(storage)
}

/// What a ledger holds that was loaded: its modules with their tallies, the stored values, and the number of runs had.
#[derive(Drop)]
pub struct Loaded {
    pub published: Published,
    pub storage: Storage,
    pub runs: u64,
}

/// What the ledger of a text holds that begins with this head; the reader has what follows.
fn load_after(alloc: Global, reader: &mut Reader<'_>, head: &Head<'_>) -> Result<Loaded, LoadError>
    requires { (bytes : List ℕ) × BeginsWith bytes (head_of head.now) reader.old }
    ensures marks { IfOk result (λ l. l.published.marks ≡ []) }
    ensures whole { IfOk result (λ l. IsLedger l.published.modules l.storage.committed (all_of l.published.tallies) l.runs) }
    ensures loaded { (bytes : List ℕ) → BeginsWith bytes (head_of head.now) reader.old
        → IfOk result (λ l. IsLoaded bytes (state_of (view_of l.published.modules l.storage.committed (all_of l.published.tallies) l.runs))) }
    ensures refused { (bytes : List ℕ) → BeginsWith bytes (head_of head.now) reader.old → IfErr result (IsLoadRefusal bytes) }
    ensures closed { IfOk result (λ l. l.storage.marks ≡ []) }
{
    let mut published = of_offers(alloc, &head.offers)?;
    let storage = read_stored(alloc, reader, head, &mut published)?;
    Ok(Loaded {
        published,
        storage,
        runs: head.runs,
    })
}

/// Loads what a ledger holds from its text, in either form.
///
/// # Errors
///
/// The first reason against the bytes, `Head` to `Tally`; `Memory` if an allocation failed.
pub fn load(alloc: Global, bytes: &[u8]) -> Result<Loaded, LoadError>
    ensures marks { IfOk result (λ l. l.published.marks ≡ []) }
    ensures whole { IfOk result (λ l. IsLedger l.published.modules l.storage.committed (all_of l.published.tallies) l.runs) }
    ensures loaded { IfOk result (λ l. IsLoaded bytes.now (state_of (view_of l.published.modules l.storage.committed (all_of l.published.tallies) l.runs))) }
    ensures refused { IfErr result (IsLoadRefusal bytes.now) }
    ensures closed { IfOk result (λ l. l.storage.marks ≡ []) }
{
    let mut reader = Reader::new(bytes);
    match read_head(alloc, &mut reader) {
        Ok(head) => load_after(alloc, &mut reader, &head),
        Err(error) => Err(unread(error, LoadError::Head)),
    }
}
