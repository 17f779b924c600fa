// The calls that save a ledger piece by piece. None changes the ledger.
ghost use Rattle.std.specs.Prelude.{◌≡◌, Some, None};
ghost use Rattle.mv_ledger_state.specs.View.{state_of};
ghost use Rattle.moveledger_c.specs.Saving.{IsNext, IsNextOf, IsSaveBegun};

use crate::bytes::Bytes;
use crate::holder::Holder;
use crate::saving_holder::SavingHolder;
use crate::status::{ABSENT, ARGUMENTS, DONE, MEMORY};
use mv_ledger::{Ledger, Saving};
use std::alloc::Global;

/// A save at its beginning.
#[unsafe(no_mangle)]
pub extern "C" fn moveledger_save_begin(alloc: Global, saving: &mut SavingHolder) -> i32
    ensures { IsSaveBegun result saving.new.held }
{
    *saving = SavingHolder::none();
    match Box::new(alloc, Saving::new(alloc)) {
        Ok(held) => {
            *saving = SavingHolder::of(held);
            DONE
        }
        Err(_) => MEMORY,
    }
}

/// The next bytes of a ledger's text, at most 65,536, or that nothing is left.
#[unsafe(no_mangle)]
pub extern "C" fn moveledger_save_next(
    alloc: Global,
    ledger: &mut Holder,
    saving: &mut SavingHolder,
    piece: &mut Bytes,
) -> i32
    ensures given { IsNextOf result ledger.old.held saving.old.held saving.new.held piece.new.items }
    ensures kept { ledger.new.held ≡ ledger.old.held }
{
    let Some(held) = ledger.take(alloc) else {
        *piece = Bytes::none();
        return ARGUMENTS;
    };
    let status = next_of(alloc, &held, saving, piece);
    *ledger = Holder::of(held);
    status
}

/// The same of this ledger.
fn next_of(alloc: Global, ledger: &Ledger, saving: &mut SavingHolder, piece: &mut Bytes) -> i32
    ensures { IsNextOf result (Some ledger.now) saving.old.held saving.new.held piece.new.items }
{
    let Some(mut held) = saving.take(alloc) else {
        *piece = Bytes::none();
        return ARGUMENTS;
    };
    let status = give_next(alloc, ledger, &mut held, piece);
    *saving = SavingHolder::of(held);
    status
}

/// The same with this save. The list for the bytes is made first, so that none are lost.
fn give_next(alloc: Global, ledger: &Ledger, saving: &mut Saving, piece: &mut Bytes) -> i32
    ensures { IsNext (state_of ledger.now) result saving.old saving.new piece.new.items }
{
    let Ok(mut list) = piece.take(alloc) else {
        return MEMORY;
    };
    match ledger.next_piece(saving) {
        Ok(Some(next)) => {
            *list = next;
            *piece = Bytes::of(list);
            DONE
        }
        Ok(None) => ABSENT,
        Err(_) => MEMORY,
    }
}

/// Frees a save, where one is held.
#[unsafe(no_mangle)]
pub extern "C" fn moveledger_save_end(alloc: Global, saving: &mut SavingHolder)
    ensures { saving.new.held ≡ None }
{
    drop(saving.take(alloc));
}
