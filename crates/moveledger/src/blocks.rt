// What a ledger's blocks promise of the records that are answered in them.
ghost use Rattle.moveledger.specs.Blocks.{EachBlockComesBack, EachReportKeepsMarks, EachStopKeepsMarks};

/// What was held where open blocks were begun stays, whatever records are answered.
pub fn each_report_keeps_marks()
    ensures { EachReportKeepsMarks }
{}

/// It stays also where the answering stops, since reading, writing or an allocation failed.
pub fn each_stop_keeps_marks()
    ensures { EachStopKeepsMarks }
{}

/// Records are answered in a block: whatever they are, taking it back gives the ledger as it was.
pub fn each_block_comes_back()
    ensures { EachBlockComesBack }
{}
