// The engine: records in, lines out.
ghost use Rattle.std.specs.Prelude.{◌≡◌, ◌≢◌, ℕ, List, [], IfOk, IfErr, OnOk, Err};
ghost use Rattle.std.specs.Io.KnownBytes.{Consumes};
ghost use Rattle.moveledger.specs.Next.{IsNext};
ghost use Rattle.moveledger.specs.Reading.{IsUnfinished};
ghost use Rattle.moveledger.specs.Records.{Record, AreRecords};
ghost use Rattle.mv_ledger_state.specs.View.{state_of};
ghost use Rattle.moveledger.specs.Headline.{IsAccounted};
ghost use Rattle.moveledger.specs.OneReport.{OneReport};
ghost use Rattle.moveledger.specs.Outcome.{left_of, AnswersInput, AnswersOn, BreaksOff};
ghost use Rattle.moveledger.specs.Pacing.{IsDoneForAll, IsDoneUntil, IsFailed};

use crate::answering::{answer, write_reply};
use crate::pacing::{AfterRecord, Gathering, MOST_LINE_BYTES};
use crate::reading::{Next, read_byte, rest_of_record};
use mv_ledger::{Ledger, Reply, Scratch};
use std::alloc::{AllocError, Global};
use std::io::{Read, Write};
use thiserror::Error;

/// What ends the engine before the input does.
#[derive(Clone, Copy, Debug, PartialEq, Eq, Error)]
pub enum EngineError {
    /// A read failed, for whatever reason.
    #[error("fault: read")]
    Read,
    /// A write failed, or took nothing before a line was whole.
    #[error("fault: write")]
    Write,
    /// An allocation failed.
    #[error("fault: memory")]
    Memory,
}

impl From<AllocError> for EngineError {
    ghost use Rattle.std.specs.Prelude.{◌≡◌};
    ghost use Rattle.moveledger.specs.declared.streaming.EngineError.TheVariants.{Memory};

    ghost from_gives = { λ _ e. e ≡ Memory };

    fn from(_: AllocError) -> Self {
        EngineError::Memory
    }
}

/// Answers the records of an input, each before the next is read, and returns their number. A record's lines, too, are handed to
/// the writer before the next record is read. A writer that buffers them has to be flushed afterwards.
///
/// # Errors
///
/// `Read` if a read failed; `Write` if a write failed or took nothing; `Memory` if an allocation failed. The clauses say how
/// reader, writer and ledger stand then. No read or write is tried again.
pub fn engine<R: Read, W: Write>(
    reader: &mut R,
    writer: &mut W,
    ledger: &mut Ledger,
) -> Result<u64, EngineError>
    // What stands where it ends: the headline, or how far it came by what failed.
    ensures ends { AnswersInput (R.remaining reader.old) (R.remaining reader.new)
        (W.contents writer.old) (W.contents writer.new) ledger.old ledger.new result }
    // Whatever the end: what is stored is accounted for, before as after.
    ensures began { IsAccounted (state_of ledger.old) }
    ensures accounted { IsAccounted (state_of ledger.new) }
{
    // For the prover: the ledger is sound, before as after.
    ledger.is_sound();
    let mut answered = 0;
    let end = answer_from(reader, writer, ledger, &mut answered, &mut Gathering);
    ledger.is_sound();
    match end {
        Ok(()) => Ok(answered),
        Err(error) => Err(error),
    }
}

/// Makes room for the line of a record, where it is made and where it is written to.
fn make_room<R, W: Write, A: AfterRecord<R, W>>(
    writer: &mut W,
    line: &mut Vec<u8>,
    after: &A,
) -> Result<(), AllocError>
    ensures { W.contents writer.new ≡ W.contents writer.old }
{
    line.clear();
    line.reserve(MOST_LINE_BYTES)?;
    after.make_room(writer)
}

/// Reads the next record, its payload into a list, and makes room for its line once it begins: what is then done for a
/// publish or a run record needs no memory to be told.
fn next_with_room<R: Read, W: Write, A: AfterRecord<R, W>>(
    alloc: Global,
    reader: &mut R,
    writer: &mut W,
    payload: &mut Vec<u8>,
    line: &mut Vec<u8>,
    after: &A,
) -> Result<Next, EngineError>
    ensures ok { IfOk result (λ next. (took : List ℕ)
        × Consumes (R.remaining reader.old) (R.remaining reader.new) took
        × IsNext took (left_of (R.remaining reader.new)) payload.new.items next) }
    ensures err { IfErr result (λ e. (e ≢ EngineError.Write) × (took : List ℕ)
        × Consumes (R.remaining reader.old) (R.remaining reader.new) took × IsUnfinished took) }
    ensures kept { W.contents writer.new ≡ W.contents writer.old }
{
    let Some(kind) = read_byte(reader)? else {
        return Ok(Next::End);
    };
    make_room(writer, line, after)?;
    rest_of_record(alloc, reader, kind, payload)
}

/// Answers the records of an input, each before the next is read, and numbers the first one `answered + 1`: the one loop of
/// `engine`, `report` and `answer_on`. A record's lines are handed to the writer, and then `after` is called, before the next
/// record is read. A whole record counts in `answered` once `after` went well, and a cut one at the end once its line is written.
///
/// # Errors
///
/// As `engine`; and `Write` if `after` fails.
pub fn answer_from<R: Read, W: Write, A: AfterRecord<R, W>>(
    reader: &mut R,
    writer: &mut W,
    ledger: &mut Ledger,
    answered: &mut u64,
    after: &mut A,
) -> Result<(), EngineError>
    // As `engine`, by numbers that go on.
    ensures ends { AnswersOn answered.old (R.remaining reader.old) (R.remaining reader.new)
        (W.contents writer.old) (W.contents writer.new) ledger.old ledger.new answered.new result }
    // A failed write: a prefix of a record's lines, and not all of them; or all were written, and what is wanted after them failed.
    ensures write { result ≡ Err EngineError.Write → BreaksOff
        (IsFailed R.remaining W.contents A.does answered.old (R.remaining reader.old) (W.contents writer.old) ledger.old EngineError.Write after.new)
        answered.old (R.remaining reader.old) (R.remaining reader.new)
        (W.contents writer.old) (W.contents writer.new) ledger.old ledger.new answered.new }
    // What is wanted was done after each whole record, before anything behind it was read, and with all lines up to its own written.
    ensures done { OnOk result (IsDoneForAll R.remaining W.contents A.does answered.old (R.remaining reader.old) (W.contents writer.old)
        ledger.old (R.remaining reader.new) answered.new after.old after.new) }
    // Whatever the error: it was done after each record before it.
    ensures until { IfErr result (λ e. IsDoneUntil R.remaining W.contents A.does answered.old (R.remaining reader.old) (W.contents writer.old)
        ledger.old (R.remaining reader.new) e after.old after.new) }
{
    let alloc = ledger.allocator();
    // Each payload is read into the memory of the one before it, and the line of each reply is made in that of the one before it.
    let Scratch {
        mut payload,
        mut line,
    } = ledger.take_scratch();
    for n in *answered..u64::MAX {
        match next_with_room(alloc, reader, writer, &mut payload, &mut line, after)? {
            Next::End => {
                ledger.keep_scratch(Scratch { payload, line });
                return Ok(());
            }
            Next::Cut => {
                write_reply(writer, n + 1, Reply::Refused(1), &mut line)?;
                *answered = n + 1;
                return Ok(());
            }
            Next::Record(kind) => {
                answer(alloc, writer, ledger, n + 1, kind, &payload, &mut line)?;
                after.answered(n + 1, reader, writer)?;
                *answered = n + 1;
            }
        }
    }
    Ok(())
}

/// An input is one list of records.
pub fn one_reading()
    ensures { (input : List ℕ) (a b : List Record) → AreRecords input a [] → AreRecords input b [] → a ≡ b }
{}

/// Of one input and one ledger the headline allows one report and one ledger after it.
pub fn one_report()
    ensures { OneReport }
{
    // For the prover: bytes are read as a module exactly where they are a text of it.
    mv_binary_format::modules_are_read_by_text();
}
