// How the program ends: its fault's line, and its exit status.
ghost use Rattle.std.specs.Prelude.{◌≡◌, IfErr, OnOk, option_map};
ghost use Rattle.std.specs.Io.KnownBytes.{Appends};
ghost use Rattle.moveledger.specs.Writing.{BreaksOff};
ghost use Rattle.moveledger.specs.Status.{EndsSo, end_after, end_after_check, end_after_keeping, end_after_proof, end_after_words, fault_line, fault_said, status_of};

use crate::answering::write_text;
use crate::streaming::EngineError;
use mv_analyser::{LimitError, ProveError};
use mv_commands::{KeepError, LineError};
use mv_move_types::Refusal;
use std::io::Write;

/// How the program ends.
#[derive(Clone, Copy, Debug, PartialEq, Eq)]
pub enum End {
    /// It did what it was asked for, also where the input ended in a cut record.
    Done,
    /// A read failed, or a file couldn't be opened.
    Read,
    /// A write failed.
    Write,
    /// An allocation failed.
    Memory,
    /// The command line isn't understood, or asks for help.
    Words,
    /// A module is refused in this phase.
    Refused(u8),
    /// A saved ledger isn't loaded, for the reason of this number.
    LoadRefused(u8),
    /// No certificate is made for a module, since the search reaches its limits.
    TooComplex,
    /// No certificate is made for a module, since the search would take more steps than it may.
    TooLong,
}

/// How the program ends after the engine. If the report couldn't be flushed, the end is `Write`, whatever the engine returned.
pub fn end_of(answered: Result<(), EngineError>, is_flushed: bool) -> End
    ensures { result ≡ end_after answered is_flushed }
{
    if !is_flushed {
        return End::Write;
    }
    match answered {
        Ok(()) => End::Done,
        Err(EngineError::Read) => End::Read,
        Err(EngineError::Write) => End::Write,
        Err(EngineError::Memory) => End::Memory,
    }
}

/// The end after a certificate was to be made.
pub fn end_of_proof(proved: &Result<String, LimitError>) -> End
    ensures { result ≡ end_after_proof proved.now }
{
    match proved {
        Ok(_) => End::Done,
        Err(LimitError::Unproved(ProveError::Refused(phase))) => End::Refused(*phase),
        Err(LimitError::Unproved(ProveError::TooComplex)) => End::TooComplex,
        Err(LimitError::Unproved(ProveError::Memory)) => End::Memory,
        Err(LimitError::TooLong) => End::TooLong,
    }
}

/// The end after a module was checked.
pub fn end_of_check(checked: Result<(), Refusal>) -> End
    ensures { result ≡ end_after_check checked }
{
    match checked {
        Ok(()) => End::Done,
        Err(Refusal::Phase(phase)) => End::Refused(phase),
        Err(Refusal::Memory) => End::Memory,
    }
}

/// The end after a text was to be kept.
pub fn end_of_keeping(kept: Result<(), KeepError>) -> End
    ensures { result ≡ end_after_keeping kept }
{
    match kept {
        Ok(()) => End::Done,
        Err(KeepError::Memory) => End::Memory,
        Err(
            KeepError::Write(_)
            | KeepError::NoLedger
            | KeepError::InUse
            | KeepError::NoLock(_)
            | KeepError::Name,
        ) => End::Write,
    }
}

/// The end where a command line asks for nothing that can be done.
pub fn end_of_words(error: &LineError) -> End
    ensures { result ≡ end_after_words error.now }
{
    match error {
        LineError::Words(_) => End::Words,
        LineError::Memory => End::Memory,
    }
}

/// The line of a fault. None where there is none: a command line that isn't understood has clap's text.
pub fn fault_text(end: &End) -> Option<&'static str>
    ensures { option_map (λ s. s.now) result ≡ fault_line end.now }
{
    match end {
        End::Done
        | End::Words
        | End::Refused(_)
        | End::LoadRefused(_)
        | End::TooComplex
        | End::TooLong => None,
        End::Read => Some("fault: read\n"),
        End::Write => Some("fault: write\n"),
        End::Memory => Some("fault: memory\n"),
    }
}

/// The exit status: 0 done, 1 a fault, 2 a refused command line, 3 a module that is refused or too complex, a search that is too
/// long, or a saved ledger that is refused.
pub fn status(end: &End) -> u8
    ensures { result ≡ status_of end.now }
{
    match end {
        End::Done => 0,
        End::Read | End::Write | End::Memory => 1,
        End::Words => 2,
        End::Refused(_) | End::LoadRefused(_) | End::TooComplex | End::TooLong => 3,
    }
}

/// Writes the line of a fault to standard error; nothing where there is none.
fn say_fault<W: Write>(errors: &mut W, end: &End) -> Result<(), EngineError>
    ensures ok { OnOk result (Appends (W.contents errors.old) (W.contents errors.new) (fault_said end.now)) }
    ensures err { IfErr result (λ e. (e ≡ EngineError.Write) × BreaksOff (fault_said end.now) (W.contents errors.old) (W.contents errors.new)) }
{
    match fault_text(end) {
        Some(line) => write_text(errors, line.as_bytes()),
        None => Ok(()),
    }
}

/// Writes the line of a fault to standard error, and returns the exit status. If standard error takes no line, only the status
/// shows the fault.
pub fn ended<W: Write>(errors: &mut W, end: &End) -> u8
    ensures { EndsSo end.now (W.contents errors.old) (W.contents errors.new) result }
{
    let _ = say_fault(errors, end);
    status(end)
}
