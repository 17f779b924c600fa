// A certificate is made for a module, and written in hexadecimal.
ghost use Rattle.std.specs.Prelude.{◌≡◌, IfOk, IfErr, IsErrOf, IsSome, Some, string_bytes};
ghost use Rattle.mv_analyser.specs.Principal.{IsOfLimits, IsOfLimitsWithin, IsProvable, IsUnprovedWithin, PassesCheck};
ghost use Rattle.mv_certificate_rules.specs.Shape.{AllStatedFit};
ghost use Rattle.moveledger.specs.Hexadecimal.{hexadecimal, IsHexadecimal};
ghost use Rattle.moveledger.specs.Proving.{IsProvedBy, IsAcceptedBack, HasNoProof, HasNoProofWithin, IsProvableText, error_of};

use crate::modules::sound;
use mv_analyser::{LimitError, ProveError, prove, prove_within};
use mv_certificate::{Cert, encode};
use mv_move_types::Refusal;
use mv_move_types::limits::MOST_MODULE_BYTES;
use mv_type_rules::Typed;
use std::alloc::{AllocError, Global};

/// The error of a module that is refused before a certificate is sought.
fn unproved(e: Refusal) -> ProveError
    ensures { result ≡ error_of e }
{
    match e {
        Refusal::Phase(phase) => ProveError::Refused(phase),
        Refusal::Memory => ProveError::Memory,
    }
}

/// Bytes in hexadecimal of lower case.
fn digits_of(alloc: Global, bytes: &[u8]) -> Result<String, AllocError>
    ensures written { IfOk result (λ text. string_bytes text ≡ hexadecimal bytes.now) }
    ensures spelled { IfOk result (λ text. IsHexadecimal (string_bytes text) bytes.now) }
{
    hex::encode(alloc, bytes)
}

/// A certificate of the module, by at most so many steps if their number is limited.
fn certificate_of(alloc: Global, m: &Typed<'_>, steps: Option<u64>) -> Result<Cert, LimitError>
    ensures shape { IfOk result (λ c. AllStatedFit m.now m.now.functions c) }
    ensures passes { IfOk result (PassesCheck m.now) }
    ensures refused { IfErr result (IsUnprovedWithin m.now) }
    ensures principal { IsProvable m.now → IfErr result IsOfLimitsWithin }
    ensures limited { IsErrOf result LimitError.TooLong → IsSome steps }
{
    match steps {
        Some(steps) => prove_within(alloc, m, steps),
        None => match prove(alloc, m) {
            Ok(certificate) => Ok(certificate),
            Err(e) => Err(LimitError::Unproved(e)),
        },
    }
}

/// The text of `prove_text_within` if the number of steps is limited, and that of `prove_text` otherwise.
fn prove_text_limited(
    alloc: Global,
    module: &[u8],
    steps: Option<u64>,
) -> Result<String, LimitError>
    ensures proved { IfOk result (λ text. IsProvedBy «module».now (string_bytes text)) }
    ensures accepted { IfOk result (λ text. IsAcceptedBack «module».now (string_bytes text)) }
    ensures refused { IfErr result (HasNoProofWithin steps «module».now) }
    ensures principal { IsProvableText «module».now → IfErr result IsOfLimitsWithin }
{
    // For the prover: bytes spell one module alone.
    mv_binary_format::modules_are_read_by_text();
    if module.len() > MOST_MODULE_BYTES {
        return Err(LimitError::Unproved(ProveError::Refused(1)));
    }
    let typed = match sound(alloc, module) {
        Ok(typed) => typed,
        Err(e) => return Err(LimitError::Unproved(unproved(e))),
    };
    let certificate = certificate_of(alloc, &typed, steps)?;
    let bytes = encode(alloc, &certificate)?;
    Ok(digits_of(alloc, &bytes)?)
}

/// The text of a certificate with which a module passes, in hexadecimal of lower case. It is there for each module that some
/// certificate passes with, unless the search reaches its limits or an allocation fails.
///
/// # Errors
///
/// `Refused` with the first phase that fails: 1, where the module has more than 65,536 bytes; one of 2 to 8; or one of 10 to 12
/// that no certificate passes. `TooComplex`, where the search for some function's edges reaches its limits, which it never does in
/// a module without a local of reference type, parameters included. `Memory`, where an allocation failed.
pub fn prove_text(alloc: Global, module: &[u8]) -> Result<String, ProveError>
    ensures proved { IfOk result (λ text. IsProvedBy «module».now (string_bytes text)) }
    ensures accepted { IfOk result (λ text. IsAcceptedBack «module».now (string_bytes text)) }
    ensures refused { IfErr result (HasNoProof «module».now) }
    ensures principal { IsProvableText «module».now → IfErr result IsOfLimits }
{
    match prove_text_limited(alloc, module, None) {
        Ok(text) => Ok(text),
        Err(e) => Err(e.unlimited()),
    }
}

/// The text of `prove_text`, if the search for the certificate takes at most so many steps. A step is one instruction of one visit
/// of a block; those for availabilities and for edges count together, over all functions of the module.
///
/// # Errors
///
/// `Unproved` as `prove_text` says; `TooLong`, where one step more would be taken.
pub fn prove_text_within(alloc: Global, module: &[u8], steps: u64) -> Result<String, LimitError>
    ensures proved { IfOk result (λ text. IsProvedBy «module».now (string_bytes text)) }
    ensures accepted { IfOk result (λ text. IsAcceptedBack «module».now (string_bytes text)) }
    ensures refused { IfErr result (HasNoProofWithin (Some steps) «module».now) }
    ensures principal { IsProvableText «module».now → IfErr result IsOfLimitsWithin }
{
    prove_text_limited(alloc, module, Some(steps))
}
