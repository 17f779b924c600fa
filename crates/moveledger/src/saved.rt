// The commands over saved ledgers, over what their files give and what they print.
ghost use Rattle.std.specs.Prelude.{◌≡◌, ◌≢◌, ◌⊎◌, List, ℕ, Result, IfErr, IfOk, IfSome, OnOk};
ghost use Rattle.std.specs.Fn.{FnOnceReturnsAt};
ghost use Rattle.mv_saved_text.specs.Loading.{FailsLoad, IsLoadRefusal, IsLoaded};
ghost use Rattle.mv_saved_text.specs.SavedText.{IsSavedText, Second};
ghost use Rattle.mv_ledger_state.specs.View.{state_of};
ghost use Rattle.moveledger.specs.Saved.{IsMigrated, IsNotLoaded};
ghost use Rattle.moveledger.specs.Status.{end_after_keeping};
ghost use Rattle.mv_commands.specs.declared.error.KeepError.{KeepError};

use crate::authoring::printed;
use crate::ending::{End, end_of_keeping};
use crate::inputs::{Bytes, ledger_bytes};
use crate::printing::load_refused_line;
use mv_commands::KeepError;
use mv_ledger::{Ledger, LoadError};
use std::alloc::{AllocError, Global};
use std::io::{Read, Write};

/// Loads the ledger whose text a reader gives. `expected` is the expected number of bytes. If the first bytes tell that it isn't
/// loaded, no more are read.
///
/// # Errors
///
/// `Read` if a read failed; `LoadRefused` if the bytes aren't loaded, after the reason is printed; `Write` if it couldn't be
/// printed; `Memory` if an allocation failed.
pub fn loaded<R: Read + Drop, W: Write>(
    alloc: Global,
    text: R,
    expected: usize,
    writer: &mut W,
) -> Result<Ledger, End>
    ensures loaded { IfOk result (λ l. IfSome (R.remaining text) (λ bytes. IsLoaded bytes (state_of l))) }
    ensures silent { OnOk result (W.contents writer.new ≡ W.contents writer.old) }
    ensures refused { IfErr result (λ end. IfSome (R.remaining text) (λ bytes.
        IsNotLoaded bytes (W.contents writer.old) (W.contents writer.new) end)) }
{
    let bytes = match ledger_bytes(alloc, text, expected)? {
        Bytes::Whole(bytes) => bytes,
        Bytes::Fails(number) => return Err(refused(alloc, writer, number)),
    };
    match Ledger::load(alloc, &bytes) {
        Ok(ledger) => Ok(ledger),
        Err(error) => Err(not_loaded(alloc, writer, error)),
    }
}

/// The text that is to be kept of a ledger, given how its records ended.
///
/// # Errors
///
/// That end, if it isn't `Done`: nothing is kept then. `Memory` if an allocation failed.
pub fn text_to_keep(end: End, ledger: &Ledger) -> Result<Vec<u8>, End>
    ensures kept { IfOk result (λ text. (end ≡ End.Done) × IsSavedText Second text.items (state_of ledger.now)) }
    ensures fault { IfErr result (λ e. ((end ≢ End.Done) × (e ≡ end)) ⊎ ((end ≡ End.Done) × (e ≡ End.Memory))) }
{
    match end {
        End::Done => match ledger.save() {
            Ok(text) => Ok(text),
            Err(_) => Err(End::Memory),
        },
        fault => Err(fault),
    }
}

/// How the program ends after a text was to be kept. `keep` is called with the text, and its end counts. If there is no text, that
/// end counts.
pub fn end_of_text<F: FnOnce(&[u8]) -> Result<(), KeepError>>(
    text: Result<Vec<u8>, End>,
    keep: F,
) -> End
    requires { F.IsAlwaysCallable keep }
    ensures kept { IfOk text (λ t. (kept : Result (Unit {0}) KeepError) × FnOnceReturnsAt F.FnOnce keep t.items kept
        × (result ≡ end_after_keeping kept)) }
    ensures fault { IfErr text (λ end. result ≡ end) }
{
    match text {
        Ok(text) => end_of_keeping(keep(&text)),
        Err(end) => end,
    }
}

/// Converts the ledger whose text a reader gives to the current form. `expected` is the expected number of bytes.
///
/// # Errors
///
/// As `loaded`.
pub fn migrated<R: Read + Drop, W: Write>(
    alloc: Global,
    old: R,
    expected: usize,
    writer: &mut W,
) -> Result<Vec<u8>, End>
    ensures migrated { IfOk result (λ new. IfSome (R.remaining old) (λ bytes. IsMigrated bytes new.items)) }
    ensures silent { OnOk result (W.contents writer.new ≡ W.contents writer.old) }
    ensures refused { IfErr result (λ end. IfSome (R.remaining old) (λ bytes.
        IsNotLoaded bytes (W.contents writer.old) (W.contents writer.new) end)) }
{
    let bytes = match ledger_bytes(alloc, old, expected)? {
        Bytes::Whole(bytes) => bytes,
        Bytes::Fails(number) => return Err(refused(alloc, writer, number)),
    };
    match mv_ledger::migrate(alloc, &bytes) {
        Ok(new) => Ok(new),
        Err(error) => Err(not_loaded(alloc, writer, error)),
    }
}

/// Prints why a ledger isn't loaded, and says how that ended.
fn not_loaded<W: Write>(alloc: Global, writer: &mut W, error: LoadError) -> End
    ensures refused { (bytes : List ℕ) → IsLoadRefusal bytes error
        → IsNotLoaded bytes (W.contents writer.old) (W.contents writer.new) result }
    ensures memory { error ≡ LoadError.Memory → (result ≡ End.Memory) × (W.contents writer.new ≡ W.contents writer.old) }
{
    match error.number() {
        None => End::Memory,
        Some(number) => refused(alloc, writer, number),
    }
}

/// Prints that a ledger isn't loaded for the reason of this number, and says how that ended.
fn refused<W: Write>(alloc: Global, writer: &mut W, number: u8) -> End
    ensures { (bytes : List ℕ) → FailsLoad bytes number
        → IsNotLoaded bytes (W.contents writer.old) (W.contents writer.new) result }
{
    let line = load_refused_line(alloc, number);
    printed(writer, End::LoadRefused(number), line)
}
