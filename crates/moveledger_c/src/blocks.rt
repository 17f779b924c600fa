// The calls on a ledger's blocks.
ghost use Rattle.moveledger_c.specs.Blocks.{IsBegun, IsCommitted, IsTakenBack};

use crate::holder::Holder;
use crate::status::{ARGUMENTS, DONE, MEMORY, NO_BLOCK};
use std::alloc::Global;

/// Opens a block, in which what records change can be taken back.
#[unsafe(no_mangle)]
pub extern "C" fn moveledger_begin(alloc: Global, ledger: &mut Holder) -> i32
    ensures { IsBegun result ledger.old.held ledger.new.held }
{
    let Some(mut held) = ledger.take(alloc) else {
        return ARGUMENTS;
    };
    let status = match held.begin() {
        Ok(()) => DONE,
        Err(_) => MEMORY,
    };
    *ledger = Holder::of(held);
    status
}

/// Takes back what was changed since the newest block was opened, and closes it.
#[unsafe(no_mangle)]
pub extern "C" fn moveledger_rollback(alloc: Global, ledger: &mut Holder) -> i32
    ensures { IsTakenBack result ledger.old.held ledger.new.held }
{
    let Some(mut held) = ledger.take(alloc) else {
        return ARGUMENTS;
    };
    let status = if held.rollback() { DONE } else { NO_BLOCK };
    *ledger = Holder::of(held);
    status
}

/// Keeps what was changed since the newest block was opened, and closes it.
#[unsafe(no_mangle)]
pub extern "C" fn moveledger_commit(alloc: Global, ledger: &mut Holder) -> i32
    ensures { IsCommitted result ledger.old.held ledger.new.held }
{
    let Some(mut held) = ledger.take(alloc) else {
        return ARGUMENTS;
    };
    let status = if held.commit() { DONE } else { NO_BLOCK };
    *ledger = Holder::of(held);
    status
}
