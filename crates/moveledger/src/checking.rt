// A module is checked with the text of a certificate.
ghost use Rattle.std.specs.Prelude.{◌≡◌, ℕ, ◌⊎◌, List, Err, IfOk, IfErr, OnOk};
ghost use Rattle.mv_move_types.specs.Refusals.{IsRefusedBy};
ghost use Rattle.moveledger.specs.Hexadecimal.{IsHexadecimal};
ghost use Rattle.moveledger.specs.Checking.{before_line_end, refusal_of, PassesWith, FailsWith, IsAccepted, FailsCheck};

use crate::modules::sound;
use hex::FromHexError;
use mv_ledger_state::are_bytes;
use mv_move_types::Refusal;
use mv_move_types::limits::{MOST_CERTIFICATE_BYTES, MOST_MODULE_BYTES};
use std::alloc::Global;

/// The most digits of a certificate: two for each of its bytes.
const MOST_DIGITS: usize = 2 * MOST_CERTIFICATE_BYTES as usize;

/// The text without a line end after it.
fn before_line_end(text: &[u8]) -> &[u8]
    ensures { result.now ≡ before_line_end text.now }
{
    match text {
        [digits @ .., b'\n'] => digits,
        _ => text,
    }
}

/// The refusal of digits that spell no bytes.
fn refusal_of(e: FromHexError) -> Refusal
    ensures { result ≡ refusal_of e }
{
    match e {
        FromHexError::OutOfMemory => Refusal::Memory,
        _ => Refusal::Phase(9),
    }
}

/// The bytes that digits spell, in either case.
fn bytes_of(alloc: Global, digits: &[u8]) -> Result<Vec<u8>, Refusal>
    ensures ok { IfOk result (λ v. IsHexadecimal digits.now v.items) }
    ensures none { result ≡ Err (Refusal.Phase 9) → (bytes : List ℕ) → ¬ IsHexadecimal digits.now bytes }
    ensures errors { IfErr result (λ e. (e ≡ Refusal.Phase 9) ⊎ (e ≡ Refusal.Memory)) }
{
    match hex::decode(alloc, digits) {
        Ok(bytes) => Ok(bytes),
        Err(e) => Err(refusal_of(e)),
    }
}

/// Tries phases 2 to 12 on a module with the digits of a certificate.
fn check_digits(alloc: Global, module: &[u8], digits: &[u8]) -> Result<(), Refusal>
    ensures ok { OnOk result (PassesWith «module».now digits.now) }
    ensures refused { IfErr result (IsRefusedBy (FailsWith «module».now digits.now)) }
{
    // For the prover: bytes spell one module alone.
    mv_binary_format::modules_are_read_by_text();
    are_bytes(module);
    let typed = sound(alloc, module)?;
    let bytes = bytes_of(alloc, digits)?;
    let stated = mv_certificate::decode(alloc, &typed, &bytes)?;
    let verified = mv_certificate::check(alloc, typed, &stated)?;
    // For the prover: its acquires lists are right.
    let _acquires = verified.module();
    Ok(())
}

/// Tries phases 1 to 12, each where those before it hold.
fn check_phases(alloc: Global, module: &[u8], certificate: &[u8]) -> Result<(), Refusal>
    ensures ok { OnOk result (IsAccepted «module».now certificate.now) }
    ensures refused { IfErr result (IsRefusedBy (FailsCheck «module».now certificate.now)) }
{
    let digits = before_line_end(certificate);
    if module.len() > MOST_MODULE_BYTES || digits.len() > MOST_DIGITS {
        return Err(Refusal::Phase(1));
    }
    check_digits(alloc, module, digits)
}

/// Checks a module with the text of a certificate: hexadecimal in either case, and at most one line end after it.
///
/// # Errors
///
/// `Phase` with the first of phases 1 to 12 that fails: 1, where the module has more than 65,536 bytes or the text more than
/// 2,097,152 before its line end; 9 also where the text is no hexadecimal. `Memory`, where an allocation failed.
pub fn check_text(alloc: Global, module: &[u8], certificate: &[u8]) -> Result<(), Refusal>
    ensures ok { OnOk result (IsAccepted «module».now certificate.now) }
    ensures refused { IfErr result (IsRefusedBy (FailsCheck «module».now certificate.now)) }
    // Nothing but a failed allocation keeps it from what is to be accepted.
    ensures accepts { IsAccepted «module».now certificate.now → IfErr result (λ e. e ≡ Refusal.Memory) }
{
    check_phases(alloc, module, certificate)
}
