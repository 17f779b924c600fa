// How the text of a saved ledger begins.
ghost use Rattle.std.specs.Prelude.{◌≡◌, Some, IfOk, IfErr, OnOk};
ghost use Rattle.mv_saved_text.specs.Parts.BodyParts.{form_of};
ghost use Rattle.mv_saved_text.specs.Parts.LoadedParts.{form_from, head_from, head_of, marks_from};
ghost use Rattle.mv_ledger_state.specs.Unread.{IsUnread};

use mv_ledger_state::unread::{Unread, mark, number};
use mv_ledger_state::{Offered, offers};
use mv_module_text::Reader;
use mv_move_types::limits::{MOST_MODULES, MOST_RUNS};
use std::alloc::Global;

/// The form of a saved ledger's text.
#[derive(Clone, Copy)]
pub enum SavedForm {
    /// The tallies' counts have 16 bytes each, and each value names its struct.
    First,
    /// The tallies' counts are as short as they can be, and the values stand struct by struct.
    Second,
}

/// How a saved ledger's text begins: its form, the runs had, and the modules with their certificates.
#[derive(Drop)]
pub struct Head<'a> {
    pub form: SavedForm,
    pub runs: u64,
    pub offers: Vec<Offered<'a>>,
}

/// Reads the three bytes that each text begins with.
fn marks(reader: &mut Reader<'_>) -> Result<(), Unread>
    ensures ok { OnOk result (marks_from reader.old ≡ Some reader.new) }
    ensures refused { IfErr result (IsUnread marks_from reader.old) }
{
    mark(reader, b'M')?;
    mark(reader, b'V')?;
    mark(reader, b'L')
}

/// Reads the byte of a form.
fn form(reader: &mut Reader<'_>) -> Result<SavedForm, Unread>
    ensures ok { IfOk result (λ f. form_from reader.old ≡ Some (form_of f, reader.new)) }
    ensures refused { IfErr result (IsUnread form_from reader.old) }
{
    match reader.byte()? {
        b'1' => Ok(SavedForm::First),
        b'2' => Ok(SavedForm::Second),
        _ => Err(Unread::Malformed),
    }
}

/// Reads how a saved ledger's text begins.
///
/// # Errors
///
/// `Cut` or `Malformed` if no such beginning stands at the front; `Memory` if an allocation failed.
pub fn read_head<'a>(alloc: Global, reader: &mut Reader<'a>) -> Result<Head<'a>, Unread>
    ensures ok { IfOk result (λ h. head_from reader.old ≡ Some (head_of h, reader.new)) }
    ensures refused { IfErr result (IsUnread head_from reader.old) }
{
    marks(reader)?;
    let form = form(reader)?;
    let runs = number(reader, MOST_RUNS)?;
    let offers = offers(alloc, reader, MOST_MODULES as u64)?;
    Ok(Head { form, runs, offers })
}
