// Reading the tallies of a saved ledger.
ghost use Rattle.std.specs.Prelude.{◌≡◌, Some, length, map, IfErr, IfOk, OnOk};
ghost use Rattle.mv_module_text.specs.Parsing.{entries_from};
ghost use Rattle.mv_saved_text.specs.Parts.BodyParts.{form_of, counts_of, struct_of, count_from, tally_from};
ghost use Rattle.mv_machine.specs.Tallies.{all_of};
ghost use Rattle.mv_ledger_state.specs.Unread.{IsUnread};

use crate::loading::head::SavedForm;
use mv_ledger_state::Tallies;
use mv_ledger_state::unread::{Unread, number};
use mv_machine::Tally;
use mv_module_text::Reader;
use mv_move_types::Width;
use mv_move_types::limits::{MOST_RUNS, MOST_STEPS};

// The most values of a struct that 2^32 runs of 10,000,000 steps each make.
const MOST_COUNT: u64 = MOST_RUNS * MOST_STEPS;

/// Reads a count of a tally.
fn count(reader: &mut Reader<'_>, form: SavedForm) -> Result<u128, Unread>
    ensures ok { IfOk result (λ n. count_from (form_of form) reader.old ≡ Some (n, reader.new)) }
    ensures refused { IfErr result (IsUnread (count_from (form_of form)) reader.old) }
{
    match form {
        SavedForm::First => {
            let count = reader.number_of(Width::U128)?;
            Ok(count)
        }
        SavedForm::Second => {
            let count = number(reader, MOST_COUNT)?;
            Ok(u128::from(count))
        }
    }
}

/// Reads the counts of a tally in place of those that it has.
fn read_tally(reader: &mut Reader<'_>, form: SavedForm, tally: &mut Tally) -> Result<(), Unread>
    ensures ok { OnOk result (tally_from (form_of form) reader.old ≡ Some (counts_of tally.new, reader.new)) }
    ensures refused { IfErr result (IsUnread (tally_from (form_of form)) reader.old) }
    ensures kept { struct_of tally.new ≡ struct_of tally.old }
{
    let packs = count(reader, form)?;
    let unpacks = count(reader, form)?;
    tally.packs = packs;
    tally.unpacks = unpacks;
    Ok(())
}

/// Reads the counts of these tallies, one after the other, in place of those that they have.
fn read_tallies(
    reader: &mut Reader<'_>,
    form: SavedForm,
    tallies: &mut [Tally],
) -> Result<(), Unread>
    ensures ok { OnOk result (entries_from (tally_from (form_of form)) (length tallies.old) reader.old ≡ Some (map counts_of tallies.new, reader.new)) }
    ensures refused { IfErr result (IsUnread (entries_from (tally_from (form_of form)) (length tallies.old)) reader.old) }
    ensures kept { map struct_of tallies.new ≡ map struct_of tallies.old }
{
    'each: for tally in tallies.iter_mut() {
        read_tally(reader, form, tally)?;
    }
    Ok(())
}

/// Reads the counts of all tallies, module by module, in place of those that they have.
pub fn read_all(reader: &mut Reader<'_>, form: SavedForm, all: &mut Tallies) -> Result<(), Unread>
    ensures ok { OnOk result (entries_from (tally_from (form_of form)) (length (all_of all.old)) reader.old ≡ Some (map counts_of (all_of all.new), reader.new)) }
    ensures refused { IfErr result (IsUnread (entries_from (tally_from (form_of form)) (length (all_of all.old))) reader.old) }
    ensures kept { map (map struct_of) all.new ≡ map (map struct_of) all.old }
{
    'each: for tallies in all.modules.iter_mut() {
        read_tallies(reader, form, tallies)?;
    }
    Ok(())
}
