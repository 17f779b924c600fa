// The call that tells what the record at the front of bytes is, without answering it.
ghost use Rattle.std.specs.Prelude.{◌≡◌, IfOk};
ghost use Rattle.mv_move_types.specs.Numbers.{big_endian};
ghost use Rattle.moveledger_c.specs.Records.{IsAsked, IsReadAs, IsTold};

use crate::status::{ABSENT, DONE, MEMORY};
use moveledger::first_record;
use mv_ledger_state::{read_bundle, read_run};
use mv_move_types::Refusal;
use std::alloc::{AllocError, Global};

/// The kind of a publish record.
const PUBLISH: u8 = 1;

/// The kind of a run record.
const RUN: u8 = 2;

/// The sender of a bundle, with no budget; None where the payload isn't that of a publish record.
fn asked_of_bundle(alloc: Global, payload: &[u8]) -> Result<Option<(u128, u64)>, AllocError>
    ensures { IfOk result (IsAsked 1 payload.now) }
{
    match read_bundle(alloc, payload) {
        Ok(bundle) => Ok(Some((bundle.sender, 0))),
        Err(Refusal::Phase(_)) => Ok(None),
        Err(Refusal::Memory) => Err(AllocError),
    }
}

/// The sender and the budget of a run; None where the payload isn't that of a run record.
fn asked_of_run(alloc: Global, payload: &[u8]) -> Result<Option<(u128, u64)>, AllocError>
    ensures { IfOk result (IsAsked 2 payload.now) }
{
    match read_run(Vec::new(alloc), payload) {
        Ok(asked) => Ok(Some((asked.sender, asked.budget))),
        Err(Refusal::Phase(_)) => Ok(None),
        Err(Refusal::Memory) => Err(AllocError),
    }
}

/// Who asks in a record, and with which budget.
fn asked(alloc: Global, kind: u8, payload: &[u8]) -> Result<Option<(u128, u64)>, AllocError>
    ensures { IfOk result (IsAsked kind payload.now) }
{
    if kind == PUBLISH {
        return asked_of_bundle(alloc, payload);
    }
    if kind == RUN {
        return asked_of_run(alloc, payload);
    }
    Ok(None)
}

/// Writes an address with its highest byte first.
fn put_sender(address: u128, sender: &mut [u8; 16])
    ensures { big_endian sender.new ≡ address }
{
    *sender = address.to_be_bytes();
}

/// Tells who asks, and with which budget; zeros where nothing is asked.
fn tell(asked: Option<(u128, u64)>, is_shaped: &mut u8, sender: &mut [u8; 16], budget: &mut u64)
    ensures { IsTold asked is_shaped.new (big_endian sender.new) budget.new }
{
    match asked {
        Some((who, most)) => {
            *is_shaped = 1;
            put_sender(who, sender);
            *budget = most;
        }
        None => {
            *is_shaped = 0;
            put_sender(0, sender);
            *budget = 0;
        }
    }
}

/// How many bytes the record at the front of bytes takes, and its kind; and if its payload is that of a publish or a run record, its sender
/// and the budget of a run.
#[unsafe(no_mangle)]
pub extern "C" fn moveledger_read_record(
    alloc: Global,
    records: &[u8],
    size: &mut usize,
    kind: &mut u8,
    is_shaped: &mut u8,
    sender: &mut [u8; 16],
    budget: &mut u64,
) -> i32
    ensures { IsReadAs records.now result size.new kind.new is_shaped.new (big_endian sender.new) budget.new }
{
    *size = 0;
    *kind = 0;
    tell(None, is_shaped, sender, budget);
    let Some(front) = first_record(records) else {
        return ABSENT;
    };
    let Ok(asked) = asked(alloc, front.kind, front.payload) else {
        return MEMORY;
    };
    *size = front.length;
    *kind = front.kind;
    tell(asked, is_shaped, sender, budget);
    DONE
}
