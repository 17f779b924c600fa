//! Why bytes are not read, told apart by whether more bytes may help; and numbers that are read so.
ghost use Rattle.std.specs.Prelude.{◌≡◌, ◌≤◌, Some, IfErr, IfOk, OnOk};
ghost use Rattle.mv_uleb.specs.Parsing.{number_from};
ghost use Rattle.mv_module_text.specs.Parsing.{mark_from};
ghost use Rattle.mv_ledger_state.specs.Unread.{IsUnread, refusal_by};

use crate::payload::MALFORMED;
use mv_module_text::Reader;
use mv_move_types::Refusal;
use std::alloc::AllocError;

/// Why bytes are not read.
#[derive(Clone, Copy)]
pub enum Unread {
    /// What was to be read isn't there. With more bytes behind them it may be.
    Cut,
    /// It isn't there, whatever follows.
    Malformed,
    /// An allocation failed.
    Memory,
}

impl From<AllocError> for Unread {
    ghost use Rattle.std.specs.Prelude.{◌≡◌};
    ghost use Rattle.mv_ledger_state.specs.declared.unread.Unread.TheVariants.{Memory};

    ghost from_gives = { λ _ e. e ≡ Memory };

    fn from(_: AllocError) -> Self {
        Unread::Memory
    }
}

impl From<Refusal> for Unread {
    ghost use Rattle.std.specs.Prelude.{◌≡◌};
    ghost use Rattle.mv_ledger_state.specs.Unread.{unread_by};

    ghost from_gives = { λ refusal e. e ≡ unread_by refusal };

    fn from(refusal: Refusal) -> Self {
        match refusal {
            Refusal::Phase(_) => Unread::Cut,
            Refusal::Memory => Unread::Memory,
        }
    }
}

/// The refusal of bytes of which a part was not read.
pub(crate) fn refusal(unread: Unread) -> Refusal
    ensures { result ≡ refusal_by unread }
{
    match unread {
        Unread::Cut | Unread::Malformed => MALFORMED,
        Unread::Memory => Refusal::Memory,
    }
}

/// Reads a byte that has to be this one.
///
/// # Errors
///
/// `Cut` if there is no byte; `Malformed` if there is another one.
pub fn mark(reader: &mut Reader<'_>, byte: u8) -> Result<(), Unread>
    ensures ok { OnOk result (mark_from byte reader.old ≡ Some reader.new) }
    ensures refused { IfErr result (IsUnread (mark_from byte) reader.old) }
{
    let next = reader.byte()?;
    if next == byte {
        Ok(())
    } else {
        Err(Unread::Malformed)
    }
}

/// Reads a ULEB128 number that is at most `most`.
///
/// # Errors
///
/// `Cut` if the bytes end before the number does; `Malformed` if no such number stands at the front, whatever follows.
pub fn number(reader: &mut Reader<'_>, most: u64) -> Result<u64, Unread>
    ensures reads { IfOk result (λ n. number_from most reader.old ≡ Some (n, reader.new)) }
    ensures small { IfOk result (λ n. n ≤ most) }
    ensures refused { IfErr result (IsUnread (number_from most) reader.old) }
{
    let low = u64::from(reader.byte()?);
    if low < 128 {
        return if low <= most {
            Ok(low)
        } else {
            Err(Unread::Malformed)
        };
    }
    if most < 128 {
        return Err(Unread::Malformed);
    }
    let high = number(reader, most / 128)?;
    if high == 0 {
        return Err(Unread::Malformed);
    }
    let all = low - 128 + 128 * high;
    if all > most {
        return Err(Unread::Malformed);
    }
    Ok(all)
}
