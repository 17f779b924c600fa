// What holds of each record that is answered, of each run, of what is stored, and of what is saved and loaded.

ghost use Rattle.mv_ledger_state.specs.Counting.Headline.{EveryCountIsTallied};
ghost use Rattle.mv_ledger_state.specs.Counting.Conservation.{EveryRunIsOwnWork, EveryRunConserves};
ghost use Rattle.mv_ledger_state.specs.Accepted.Records.{EachRecordIsWell};
ghost use Rattle.mv_lines.specs.Plain.{NoTextIsEscaped};
ghost use Rattle.mv_saved_text.specs.Flowing.{EachSaveFlows};
ghost use Rattle.mv_ledger_state.specs.View.{EachTallyIsScarce, state_of};
ghost use Rattle.mv_saved_text.specs.SavedLaws.{EachLedgerHasOneText, EachTextHasOneLedger, EachSaveIsLoaded, EachLoadIsSound, EachLoadIsOne, EachLoadIsSaved, EachSecondFormComesBack, NoLoadFails, NoSaveIsRefused};

use crate::Ledger;

/// Whatever a record asks of a sound ledger, its run ends as it should, and the ledger that its answer leaves is balanced and
/// sound.
pub fn each_record_is_well()
    ensures { EachRecordIsWell }
{
    // For the prover: bytes are read as a module exactly where they are a text of it.
    mv_binary_format::modules_are_read_by_text();
}

/// In a run that returns, only code of a struct's own module made or took apart its values.
pub fn every_run_is_own_work()
    ensures { EveryRunIsOwnWork }
{}

/// A run that returns conserves the values of each struct with neither copy nor drop: those stored before and those packed are as
/// many as those stored after and those unpacked.
pub fn every_run_conserves()
    ensures { EveryRunConserves }
{}

/// The count that an audit answers is what was packed less what was unpacked.
pub fn every_count_is_tallied()
    ensures { EveryCountIsTallied }
{}

/// Each tally that a ledger keeps is of a struct with neither copy nor drop.
pub fn each_tally_is_scarce()
    ensures { EachTallyIsScarce }
{}

/// In the JSON of a show and of an audit no text has a byte that JSON would escape.
pub fn no_text_is_escaped()
    ensures { NoTextIsEscaped }
{}

/// A ledger has one text of each form.
pub fn each_ledger_has_one_text()
    ensures { EachLedgerHasOneText }
{}

/// A text is of one ledger.
pub fn each_text_has_one_ledger()
    ensures { EachTextHasOneLedger }
{
    // For the prover: bytes are read as a module exactly where they are a text of it.
    mv_binary_format::modules_are_read_by_text();
}

/// What is saved of a sound ledger within its limits, in either form, is loaded as that ledger.
pub fn each_save_is_loaded()
    ensures { EachSaveIsLoaded }
{}

/// A ledger that is loaded is sound and within its limits.
pub fn each_load_is_sound()
    ensures { EachLoadIsSound }
{
    // For the prover: bytes are read as a module exactly where they are a text of it.
    mv_binary_format::modules_are_read_by_text();
}

/// Bytes are loaded as one ledger at most.
pub fn each_load_is_one()
    ensures { EachLoadIsOne }
{
    // For the prover: bytes are read as a module exactly where they are a text of it.
    mv_binary_format::modules_are_read_by_text();
}

/// A loaded ledger, saved and loaded again, is the same ledger.
pub fn each_load_is_saved()
    ensures { EachLoadIsSaved }
{}

/// What is loaded from a text of the second form is saved as that text.
pub fn each_second_form_comes_back()
    ensures { EachSecondFormComesBack }
{
    // For the prover: bytes are read as a module exactly where they are a text of it.
    mv_binary_format::modules_are_read_by_text();
}

/// No bytes that are loaded have a reason against them.
pub fn no_load_fails()
    ensures { NoLoadFails }
{
    // For the prover: bytes are read as a module exactly where they are a text of it.
    mv_binary_format::modules_are_read_by_text();
}

/// The saved text of a ledger is never refused: loading it gives that ledger, unless an allocation fails.
pub fn no_save_is_refused(ledger: &Ledger)
    ensures { NoSaveIsRefused (state_of ledger.now) }
{
    // For the prover: what it stands for is sound, and within the limits of a saved ledger; and bytes are read as a module exactly
    // where they are a text of it.
    ledger.is_sound();
    ledger.is_savable();
    mv_binary_format::modules_are_read_by_text();
}

/// The pieces that a save gives of a ledger from the beginning to the end are, one after the other, its saved text.
pub fn each_save_flows(ledger: &Ledger)
    ensures { EachSaveFlows (state_of ledger.now) }
{
    // For the prover: what it stands for is sound, and within the limits of a saved ledger.
    ledger.is_sound();
    ledger.is_savable();
}
