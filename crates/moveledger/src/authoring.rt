// The commands of an author, over what their files give and what they print.
ghost use Rattle.std.specs.Prelude.{IfErr, IfOk, IfSome, string_bytes};
ghost use Rattle.moveledger.specs.Authoring.{ChecksTo, Prints, ProvesTo};
ghost use Rattle.moveledger.specs.Proving.{HasNoProofWithin, IsProvedBy};

use crate::answering::write_text;
use crate::checking::check_text;
use crate::ending::{End, end_of_check, end_of_proof};
use crate::inputs::first_bytes;
use crate::printing::{checked_line, proved_line};
use crate::proving::{prove_text, prove_text_within};
use mv_analyser::LimitError;
use mv_move_types::limits::{MOST_CERTIFICATE_BYTES, MOST_MODULE_BYTES};
use std::alloc::{AllocError, Global};
use std::io::{Read, Write};

/// The most bytes that are read of a module's file: one more than a module may have.
const MODULE_READ: u64 = MOST_MODULE_BYTES as u64 + 1;

/// The most bytes that are read of the file of a certificate's text: one more than its digits and a line end.
const TEXT_READ: u64 = 2 * MOST_CERTIFICATE_BYTES + 2;

/// Writes a line. The end is then this one, unless that failed.
pub fn printed<W: Write>(writer: &mut W, end: End, made: Result<String, AllocError>) -> End
    ensures { Prints string_bytes made end (W.contents writer.old) (W.contents writer.new) result }
{
    let Ok(line) = made else {
        return End::Memory;
    };
    match write_text(writer, line.as_bytes()) {
        Ok(()) => end,
        Err(_) => End::Write,
    }
}

/// The text of a certificate for a module, by at most so many steps if their number is limited.
fn proved_text(alloc: Global, module: &[u8], steps: Option<u64>) -> Result<String, LimitError>
    ensures proved { IfOk result (λ text. IsProvedBy «module».now (string_bytes text)) }
    ensures refused { IfErr result (HasNoProofWithin steps «module».now) }
{
    match steps {
        Some(steps) => prove_text_within(alloc, module, steps),
        None => match prove_text(alloc, module) {
            Ok(text) => Ok(text),
            Err(e) => Err(LimitError::Unproved(e)),
        },
    }
}

/// Prints a certificate for the module that a reader gives, or why there is none: also that the search for it would take more
/// steps than these, if their number is limited. It says how that ended.
pub fn prove_module<R: Read + Drop, W: Write>(
    alloc: Global,
    module: R,
    steps: Option<u64>,
    writer: &mut W,
) -> End
    ensures { IfSome (R.remaining «module») (λ m. ProvesTo steps m (W.contents writer.old) (W.contents writer.new) result) }
{
    let bytes = match first_bytes(alloc, module, MODULE_READ) {
        Ok(bytes) => bytes,
        Err(end) => return end,
    };
    let proved = proved_text(alloc, &bytes, steps);
    let end = end_of_proof(&proved);
    printed(writer, end, proved_line(alloc, proved))
}

/// Checks the module that one reader gives with the text of a certificate that another gives, and prints what comes of it. It
/// says how that ended.
pub fn check_module<R: Read + Drop, S: Read + Drop, W: Write>(
    alloc: Global,
    module: R,
    certificate: S,
    writer: &mut W,
) -> End
    ensures { IfSome (R.remaining «module») (λ m. IfSome (S.remaining certificate) (λ t.
        ChecksTo m t (W.contents writer.old) (W.contents writer.new) result)) }
{
    let bytes = match first_bytes(alloc, module, MODULE_READ) {
        Ok(bytes) => bytes,
        Err(end) => return end,
    };
    let text = match first_bytes(alloc, certificate, TEXT_READ) {
        Ok(text) => text,
        Err(end) => return end,
    };
    let checked = check_text(alloc, &bytes, &text);
    let end = end_of_check(checked);
    printed(writer, end, checked_line(alloc, checked))
}
