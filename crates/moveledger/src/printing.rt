// What the commands of an author print.
ghost use Rattle.std.specs.Prelude.{◌≡◌, ◌++◌, Some, IfOk, MatchResult, decimal, string_bytes};
ghost use Rattle.moveledger.specs.Printing.{line, load_refused_text, refused_text, no_proof_line, checked_line};

use mv_analyser::{LimitError, ProveError};
use mv_move_types::Refusal;
use std::alloc::{AllocError, Global};

/// A line with a number in the end.
fn numbered_line(alloc: Global, words: &str, number: u8) -> Result<String, AllocError>
    ensures { IfOk result (λ text. string_bytes text ≡ line (words.now ++ decimal number)) }
{
    let mut text = String::from_str(alloc, words)?;
    write!(text, "{number}")?;
    text.push_str("\n")?;
    Ok(text)
}

/// The line of a phase that refuses.
fn refused_line(alloc: Global, phase: u8) -> Result<String, AllocError>
    ensures { IfOk result (λ text. string_bytes text ≡ line (refused_text phase)) }
{
    numbered_line(alloc, "refused ", phase)
}

/// What is printed where a saved ledger isn't loaded, for the reason of this number.
///
/// # Errors
///
/// An allocation failed.
pub fn load_refused_line(alloc: Global, number: u8) -> Result<String, AllocError>
    ensures { IfOk result (λ text. string_bytes text ≡ line (load_refused_text number)) }
{
    numbered_line(alloc, "load refused ", number)
}

/// What is printed where no certificate is made.
fn no_proof_line(alloc: Global, e: LimitError) -> Result<String, AllocError>
    ensures { IfOk result (λ text. Some (string_bytes text) ≡ no_proof_line e) }
{
    match e {
        LimitError::Unproved(ProveError::Refused(phase)) => refused_line(alloc, phase),
        LimitError::Unproved(ProveError::TooComplex) => String::from_str(alloc, "too complex\n"),
        LimitError::Unproved(ProveError::Memory) => Err(AllocError),
        LimitError::TooLong => String::from_str(alloc, "too long\n"),
    }
}

/// What is printed of a module that a certificate was to be made for: the certificate's text, or why there is none.
///
/// # Errors
///
/// An allocation failed, here or before.
pub fn proved_line(alloc: Global, proved: Result<String, LimitError>) -> Result<String, AllocError>
    ensures { IfOk result (λ text. MatchResult proved
        (λ digits. string_bytes text ≡ line (string_bytes digits))
        (λ e. Some (string_bytes text) ≡ no_proof_line e)) }
{
    match proved {
        Ok(mut text) => {
            text.push_str("\n")?;
            Ok(text)
        }
        Err(e) => no_proof_line(alloc, e),
    }
}

/// What is printed of a module that was checked with a certificate.
///
/// # Errors
///
/// An allocation failed, here or before.
pub fn checked_line(alloc: Global, checked: Result<(), Refusal>) -> Result<String, AllocError>
    ensures { IfOk result (λ text. Some (string_bytes text) ≡ checked_line checked) }
{
    match checked {
        Ok(()) => String::from_str(alloc, "accepted\n"),
        Err(Refusal::Phase(phase)) => refused_line(alloc, phase),
        Err(Refusal::Memory) => Err(AllocError),
    }
}
