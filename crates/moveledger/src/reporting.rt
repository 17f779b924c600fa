// An input is answered, and its whole report written out.
ghost use Rattle.std.specs.Prelude.{◌≡◌, ◌≢◌, []};
ghost use Rattle.std.specs.Io.Buffered.{writer_buffer, writer_contents};
ghost use Rattle.moveledger.specs.Outcome.{Ends};
ghost use Rattle.moveledger.specs.Pacing.{EndsBy, IsDoneForAll, IsDoneUntil};

use crate::ending::{End, end_of};
use crate::pacing::AfterRecord;
use crate::streaming::{answer_from, engine};
use mv_ledger::Ledger;
use std::io::{BufWriter, Read, Write};

/// Answers the records of an input, and writes their lines out to the last one. It says how that ended.
pub fn report<R: Read, W: Write + Drop, A: AfterRecord<R, BufWriter<W>>>(
    reader: &mut R,
    writer: &mut BufWriter<W>,
    ledger: &mut Ledger,
    after: &mut A,
) -> End
    // What the end says of the records, the report and the ledger.
    ensures ends { Ends result (R.remaining reader.old) (R.remaining reader.new)
        (writer_contents W.contents writer.old) (writer_contents W.contents writer.new) ledger.old ledger.new }
    // What is wanted was done after each whole record that was answered, before anything behind it was read.
    ensures done { EndsBy
        (λ n. IsDoneForAll R.remaining (writer_contents W.contents) A.does 0 (R.remaining reader.old) (writer_contents W.contents writer.old)
        ledger.old (R.remaining reader.new) n after.old after.new)
        (λ e. IsDoneUntil R.remaining (writer_contents W.contents) A.does 0 (R.remaining reader.old) (writer_contents W.contents writer.old)
        ledger.old (R.remaining reader.new) e after.old after.new)
        result }
    // Unless a write failed, nothing waits to be written.
    ensures flushed { result ≢ End.Write → writer_buffer writer.new ≡ [] }
{
    let mut count = 0;
    let answered = answer_from(reader, writer, ledger, &mut count, after);
    let is_flushed = writer.flush().is_ok();
    end_of(answered, is_flushed)
}

/// Answers the records of a file by `engine`, and writes their lines out at the end, or earlier where the writer's memory is full. It
/// says how that ended.
pub fn report_file<R: Read, W: Write + Drop>(
    reader: &mut R,
    writer: &mut BufWriter<W>,
    ledger: &mut Ledger,
) -> End
    // What the end says of the records, the report and the ledger: where it is done, the headline.
    ensures ends { Ends result (R.remaining reader.old) (R.remaining reader.new)
        (writer_contents W.contents writer.old) (writer_contents W.contents writer.new) ledger.old ledger.new }
    // Unless a write failed, nothing waits to be written.
    ensures flushed { result ≢ End.Write → writer_buffer writer.new ≡ [] }
{
    let answered = engine(reader, writer, ledger).map(|_| ());
    end_of(answered, writer.flush().is_ok())
}
