// What follows the modules of a saved ledger: its tallies and its stored values.
ghost use Rattle.std.specs.Prelude.{◌≡◌, ◌^◌, ◌<◌, ◌≤◌, [], Some, IfOk, IfErr, map, length};
ghost use Rattle.mv_link_rules.specs.Link.{tables_in};
ghost use Rattle.mv_saved_text.specs.Parts.BodyParts.{form_of, counts_of, struct_of};
ghost use Rattle.mv_saved_text.specs.Parts.LoadedParts.{body_from, IsUnreadBody};
ghost use Rattle.mv_machine.specs.Tallies.{all_of};

use crate::layouts::Layouts;
use crate::loading::head::SavedForm;
use crate::loading::tallies::read_all;
use crate::loading::values::read_storage;
use mv_ledger_state::Tallies;
use mv_ledger_state::unread::Unread;
use mv_linker::Store;
use mv_module_text::Reader;
use mv_storage::Storage;
use std::alloc::Global;

/// Reads the counts of the tallies in place of those that they have, and the stored values, after which no byte is left.
///
/// # Errors
///
/// `Cut` or `Malformed` if they are no such thing; `Memory` if an allocation failed.
pub fn read_body(
    alloc: Global,
    reader: &mut Reader<'_>,
    form: SavedForm,
    store: &Store,
    tallies: &mut Tallies,
) -> Result<Storage, Unread>
    requires few { length store.now ≤ 65536 }
    ensures ok { IfOk result (λ s. body_from (form_of form) (tables_in store.now) (length (all_of tallies.old)) reader.old
        ≡ Some ((map counts_of (all_of tallies.new), s.committed), [])) }
    ensures refused { IfErr result (IsUnreadBody (form_of form) (tables_in store.now) (length (all_of tallies.old)) reader.old) }
    ensures kept { map (map struct_of) tallies.new ≡ map (map struct_of) tallies.old }
    ensures few { IfOk result (λ s. length s.committed < 2 ^ 64) }
    ensures closed { IfOk result (λ s. s.marks ≡ []) }
{
    read_all(reader, form, tallies)?;
    let layouts = Layouts::new(alloc, store)?;
    let storage = read_storage(alloc, &layouts, reader, form)?;
    if !reader.is_empty() {
        return Err(Unread::Malformed);
    }
    // For the prover: they are few.
    let _entries = storage.iter();
    Ok(storage)
}
