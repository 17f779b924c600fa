// An input whose records are numbered on from those of the inputs before it.
ghost use Rattle.std.specs.Prelude.{◌≡◌, Some, Err};
ghost use Rattle.moveledger.specs.Outcome.{AnswersOn, BrokenOff, StopsAfter};

use crate::pacing::Reserving;
use crate::streaming::{EngineError, answer_from};
use mv_ledger::Ledger;
use std::io::Read;

/// Answers the records of an input as `engine` does, and appends their lines to a list. It numbers the first one `answered + 1`, and counts
/// each there as it is answered. A cut record at the end is the last one, as at the end of a stream.
///
/// # Errors
///
/// As `engine`. The count is then that of the records whose lines were all written. Proved is that the ledger is as these left it, or the
/// next one; since room for a record's line is taken before anything is done for it, it is as these left it.
pub fn answer_on<R: Read>(
    reader: &mut R,
    report: &mut Vec<u8>,
    ledger: &mut Ledger,
    answered: &mut u64,
) -> Result<(), EngineError>
    ensures ends { AnswersOn answered.old (R.remaining reader.old) (R.remaining reader.new)
        (Some report.old.items) (Some report.new.items) ledger.old ledger.new answered.new result }
    // A failed write: a prefix of the lines of the record that was being answered, and not all of them, and nothing read behind it.
    ensures write { result ≡ Err EngineError.Write → StopsAfter BrokenOff answered.old (R.remaining reader.old)
        (R.remaining reader.new) (Some report.old.items) (Some report.new.items) ledger.old ledger.new answered.new }
{
    answer_from(reader, report, ledger, answered, &mut Reserving)
}
