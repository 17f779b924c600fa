// The calls without a ledger.
ghost use Rattle.std.specs.Prelude.{◌≡◌, ◌≢◌, []};
ghost use Rattle.moveledger.specs.Proving.{IsProvableText};
ghost use Rattle.moveledger_c.specs.Calls.{answer_of, phase_of, IsChecked, IsMigratedAs, IsProved, IsProvedWithin};
ghost use Rattle.moveledger_c.specs.Statuses.{refused};

use crate::bytes::Bytes;
use crate::status::{DONE, LOAD_REFUSED, MEMORY, REFUSED, TOO_COMPLEX, TOO_LONG};
use crate::texts::give;
use moveledger::{check_text, prove_text, prove_text_within};
use mv_analyser::{LimitError, ProveError};
use mv_ledger::migrate;
use mv_move_types::Refusal;
use std::alloc::Global;

/// The phase that refuses a module; 0 where none does.
fn phase_of(error: ProveError) -> u8
    ensures { result ≡ phase_of error }
{
    match error {
        ProveError::Refused(phase) => phase,
        ProveError::TooComplex | ProveError::Memory => 0,
    }
}

/// What is answered where no certificate is made.
fn unproved(error: ProveError) -> i32
    ensures { result ≡ answer_of error }
{
    match error {
        ProveError::Refused(_) => REFUSED,
        ProveError::TooComplex => TOO_COMPLEX,
        ProveError::Memory => MEMORY,
    }
}

/// The text of a certificate for a module, or why there is none.
#[unsafe(no_mangle)]
pub extern "C" fn moveledger_prove(
    alloc: Global,
    module: &[u8],
    certificate: &mut Bytes,
    why: &mut u8,
) -> i32
    ensures proved { IsProved «module».now result why.new certificate.new.items }
    ensures principal { IsProvableText «module».now → result ≢ refused }
{
    *certificate = Bytes::none();
    *why = 0;
    match prove_text(alloc, module) {
        Ok(text) => give(alloc, certificate, Ok(text.into_bytes())),
        Err(error) => {
            *why = phase_of(error);
            unproved(error)
        }
    }
}

/// The same, by a search of at most so many steps.
#[unsafe(no_mangle)]
pub extern "C" fn moveledger_prove_within(
    alloc: Global,
    module: &[u8],
    steps: u64,
    certificate: &mut Bytes,
    why: &mut u8,
) -> i32
    ensures proved { IsProvedWithin «module».now result why.new certificate.new.items }
    ensures principal { IsProvableText «module».now → result ≢ refused }
{
    *certificate = Bytes::none();
    *why = 0;
    match prove_text_within(alloc, module, steps) {
        Ok(text) => give(alloc, certificate, Ok(text.into_bytes())),
        Err(LimitError::TooLong) => TOO_LONG,
        Err(LimitError::Unproved(error)) => {
            *why = phase_of(error);
            unproved(error)
        }
    }
}

/// Whether a module passes with the certificate of this text, or in which phase it is refused.
#[unsafe(no_mangle)]
pub extern "C" fn moveledger_check(
    alloc: Global,
    module: &[u8],
    certificate: &[u8],
    why: &mut u8,
) -> i32
    ensures { IsChecked «module».now certificate.now result why.new }
{
    *why = 0;
    match check_text(alloc, module, certificate) {
        Ok(()) => DONE,
        Err(Refusal::Phase(phase)) => {
            *why = phase;
            REFUSED
        }
        Err(Refusal::Memory) => MEMORY,
    }
}

/// Converts a saved ledger to the current form, or gives the reason why the bytes aren't one.
#[unsafe(no_mangle)]
pub extern "C" fn moveledger_migrate(
    alloc: Global,
    saved: &[u8],
    migrated: &mut Bytes,
    why: &mut u8,
) -> i32
    ensures { IsMigratedAs saved.now result why.new migrated.new.items }
{
    *migrated = Bytes::none();
    *why = 0;
    match migrate(alloc, saved) {
        Ok(text) => give(alloc, migrated, Ok(text)),
        Err(error) => match error.number() {
            None => MEMORY,
            Some(number) => {
                *why = number;
                LOAD_REFUSED
            }
        },
    }
}

/// Frees bytes.
#[unsafe(no_mangle)]
pub extern "C" fn moveledger_bytes_free(alloc: Global, bytes: &mut Bytes)
    ensures { bytes.new.items ≡ [] }
{
    drop(bytes.take(alloc));
}
