// What is done between two records.
ghost use Rattle.std.specs.Prelude.{◌≡◌, ℕ, [], Result, Ok, IfErr, OnOk, ⊤};
ghost use Rattle.std.specs.Io.Buffered.{reader_buffer, writer_buffer, writer_contents};
ghost use Rattle.std.specs.Io.KnownBytes.{Keeps};
ghost use Rattle.moveledger.specs.Records.{NoWhole};
ghost use Rattle.moveledger.specs.declared.streaming.EngineError.{EngineError};

use crate::records::first_record;
use crate::streaming::EngineError;
use std::alloc::AllocError;
use std::io::{BufReader, BufWriter, Read, Write};

/// The most bytes of the line of a publish or a run record: its number, `aborted code`, the code, and the steps.
pub const MOST_LINE_BYTES: usize = 64;

/// What is to be done before each record is read, and after it is answered, before the next one is read.
pub trait AfterRecord<R, W: Write> {
    /// What is done, as a relation between the record's number, the reader, `self` and the writer before, the result, and `self`
    /// and the writer after.
    ghost does: { ℕ → R → Self → W → Result (Unit {0}) EngineError → Self → W → Type 0 } = { λ _ _ _ _ _ _ _. ⊤ };

    /// Is called when a record begins, before the rest of it is read. It may take room for a line of `MOST_LINE_BYTES` bytes, and writes nothing.
    ///
    /// # Errors
    ///
    /// If an allocation failed. Nothing more is read then.
    fn make_room(&self, writer: &mut W) -> Result<(), AllocError>
        ensures kept { W.contents writer.new ≡ W.contents writer.old };

    /// Is called when the record of this number has been answered and its lines are with the writer. It adds nothing to them.
    ///
    /// # Errors
    ///
    /// `Write` if what the writer held couldn't be written out.
    fn answered(&mut self, number: u64, reader: &R, writer: &mut W) -> Result<(), EngineError>
        ensures kept { Keeps (W.contents writer.old) (W.contents writer.new) }
        ensures err { IfErr result (λ e. e ≡ EngineError.Write) }
        ensures done { does number reader.now self.old writer.old result self.new writer.new };
}

/// Nothing: a writer may gather the lines of many records.
#[derive(Clone, Copy, Debug)]
pub struct Gathering;

impl<R, W: Write> AfterRecord<R, W> for Gathering {
    // It never fails.
    ghost does = { λ number reader old before end new after. end ≡ Ok tt };

    fn make_room(&self, _writer: &mut W) -> Result<(), AllocError> {
        Ok(())
    }

    fn answered(&mut self, _number: u64, _reader: &R, _writer: &mut W) -> Result<(), EngineError> {
        Ok(())
    }
}

/// Nothing after a record; and before each, room for its line is taken at the end of the list that the lines are appended to. So the
/// line of a publish or a run record is written without taking memory: what was done is also told.
#[derive(Clone, Copy, Debug)]
pub struct Reserving;

impl<R> AfterRecord<R, Vec<u8>> for Reserving {
    // It never fails.
    ghost does = { λ number reader old before end new after. end ≡ Ok tt };

    fn make_room(&self, writer: &mut Vec<u8>) -> Result<(), AllocError> {
        writer.reserve(MOST_LINE_BYTES)
    }

    fn answered(
        &mut self,
        _number: u64,
        _reader: &R,
        _writer: &mut Vec<u8>,
    ) -> Result<(), EngineError> {
        Ok(())
    }
}

/// The lines are written out before the next record is waited for, by whoever sends it once it has them. While the next record stands
/// whole in the reader's memory, nothing waits, and the lines of many records are gathered.
#[derive(Clone, Copy, Debug)]
pub struct Prompt;

impl<R: Read + Drop, W: Write + Drop> AfterRecord<BufReader<R>, BufWriter<W>> for Prompt {
    // Nothing waits to be written then, unless the next record is at hand.
    ghost does = { λ number reader old before end new after. OnOk end (NoWhole (reader_buffer reader) → writer_buffer after ≡ []) };

    fn make_room(&self, _writer: &mut BufWriter<W>) -> Result<(), AllocError> {
        Ok(())
    }

    fn answered(
        &mut self,
        _number: u64,
        reader: &BufReader<R>,
        writer: &mut BufWriter<W>,
    ) -> Result<(), EngineError>
        ensures kept { Keeps (writer_contents W.contents writer.old) (writer_contents W.contents writer.new) }
        ensures err { IfErr result (λ e. e ≡ EngineError.Write) }
        ensures done { OnOk result (NoWhole (reader_buffer reader.now) → writer_buffer writer.new ≡ []) }
    {
        if let Some(_next) = first_record(reader.buffer()) {
            return Ok(());
        }
        match writer.flush() {
            Ok(()) => Ok(()),
            Err(_) => Err(EngineError::Write),
        }
    }
}
