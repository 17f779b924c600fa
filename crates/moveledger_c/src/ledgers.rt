// The calls on a ledger.
ghost use Rattle.std.specs.Prelude.{◌≡◌, ◌⊎◌, Some, None, Ok, MatchOption, IfOk, OnOk, OnErr, String, string_bytes};
ghost use Rattle.std.specs.Global.{Global};
ghost use Rattle.mv_saved_text.specs.SavedText.{IsSavedText, Second};
ghost use Rattle.mv_ledger_state.specs.View.{state_of};
ghost use Rattle.moveledger.specs.Outcome.{Begun, GoesOn, StopsAfter, StopsAt};
ghost use Rattle.moveledger_c.specs.Calls.{IsNew, IsLoadedAs, IsApplied, IsOfHeld, IsReported, payload_of};
ghost use Rattle.moveledger_c.specs.Statuses.{done, memory};

use crate::bytes::Bytes;
use crate::holder::Holder;
use crate::status::{ARGUMENTS, DONE, LOAD_REFUSED, MEMORY};
use crate::texts::give;
use moveledger::{EngineError, answer_on};
use mv_ledger::Ledger;
use mv_move_types::Refusal;
use std::alloc::{AllocError, Global};

/// Holds a ledger, which is put on the heap.
fn keep(alloc: Global, holder: &mut Holder, ledger: Ledger) -> i32
    requires { holder.old.held ≡ None }
    ensures { ((result ≡ done) × (holder.new.held ≡ Some ledger)) ⊎ ((result ≡ memory) × (holder.new.held ≡ None)) }
{
    match Box::new(alloc, ledger) {
        Ok(held) => {
            *holder = Holder::of(held);
            DONE
        }
        Err(_) => MEMORY,
    }
}

/// An empty ledger.
#[unsafe(no_mangle)]
pub extern "C" fn moveledger_new(alloc: Global, ledger: &mut Holder) -> i32
    ensures { IsNew result ledger.new.held }
{
    *ledger = Holder::none();
    keep(alloc, ledger, Ledger::new(alloc))
}

/// The ledger that these bytes save, or why they are none.
#[unsafe(no_mangle)]
pub extern "C" fn moveledger_load(
    alloc: Global,
    saved: &[u8],
    ledger: &mut Holder,
    why: &mut u8,
) -> i32
    ensures { IsLoadedAs saved.now result why.new ledger.new.held }
{
    *ledger = Holder::none();
    *why = 0;
    match Ledger::load(alloc, saved) {
        Ok(loaded) => keep(alloc, ledger, loaded),
        Err(error) => match error.number() {
            None => MEMORY,
            Some(number) => {
                *why = number;
                LOAD_REFUSED
            }
        },
    }
}

/// Frees a ledger, where one is held.
#[unsafe(no_mangle)]
pub extern "C" fn moveledger_free(alloc: Global, ledger: &mut Holder)
    ensures { ledger.new.held ≡ None }
{
    drop(ledger.take(alloc));
}

/// Answers records, and appends their lines to the report.
#[unsafe(no_mangle)]
pub extern "C" fn moveledger_apply(
    alloc: Global,
    ledger: &mut Holder,
    records: &[u8],
    answered: &mut u64,
    report: &mut Bytes,
) -> i32
    ensures { IsApplied records.now result answered.old answered.new ledger.old.held ledger.new.held report.old.items report.new.items }
{
    let Some(mut held) = ledger.take(alloc) else {
        return ARGUMENTS;
    };
    let status = apply(alloc, &mut held, records, answered, report);
    *ledger = Holder::of(held);
    status
}

/// Answers records with a ledger.
fn apply(
    alloc: Global,
    ledger: &mut Ledger,
    records: &[u8],
    answered: &mut u64,
    report: &mut Bytes,
) -> i32
    ensures { IsApplied records.now result answered.old answered.new (Some ledger.old) (Some ledger.new) report.old.items report.new.items }
{
    let Ok(mut text) = report.take(alloc) else {
        return MEMORY;
    };
    let mut left = records;
    let end = answer_into(&mut left, &mut text, ledger, answered);
    *report = Bytes::of(text);
    match end {
        Ok(()) => DONE,
        Err(_) => MEMORY,
    }
}

/// Answers records out of a slice, and appends their lines to a list.
fn answer_into(
    left: &mut &[u8],
    text: &mut Vec<u8>,
    ledger: &mut Ledger,
    answered: &mut u64,
) -> Result<(), EngineError>
    ensures ok { OnOk result (GoesOn answered.old (Some left.old.now) (Some text.old.items) (Some text.new.items)
        ledger.old ledger.new answered.new) }
    ensures err { OnErr result (StopsAfter (StopsAt Begun) answered.old (Some left.old.now) (Some left.new.now)
        (Some text.old.items) (Some text.new.items) ledger.old ledger.new answered.new) }
{
    answer_on(left, text, ledger, answered)
}

/// The ledger's text.
#[unsafe(no_mangle)]
pub extern "C" fn moveledger_save(alloc: Global, ledger: &mut Holder, saved: &mut Bytes) -> i32
    ensures given { IsOfHeld (λ l text. IsSavedText Second text (state_of l)) ledger.old.held result saved.new.items }
    ensures kept { ledger.new.held ≡ ledger.old.held }
{
    *saved = Bytes::none();
    let Some(held) = ledger.take(alloc) else {
        return ARGUMENTS;
    };
    let status = give(alloc, saved, held.save());
    *ledger = Holder::of(held);
    status
}

/// The lines of a report one by one.
pub(crate) const TEXT: u32 = 0;

/// A report as one line of JSON.
pub(crate) const JSON: u32 = 1;

/// The payload of a show or an audit record in this form.
fn payload_of(form: u32) -> Option<&'static [u8]>
    ensures { MatchOption result (payload_of form ≡ None) (λ s. payload_of form ≡ Some s.now) }
{
    if form == TEXT {
        return Some(b"");
    }
    if form == JSON {
        return Some(b"\x01");
    }
    None
}

/// The bytes of a report.
fn bytes_of(report: Result<String, Refusal>) -> Result<Vec<u8>, AllocError>
    ensures { IfOk result (λ v. (text : String Global) × ((report ≡ Ok text) × (v.items ≡ string_bytes text))) }
{
    match report {
        Ok(text) => Ok(text.into_bytes()),
        Err(_) => Err(AllocError),
    }
}

/// The lines of a show.
#[unsafe(no_mangle)]
pub extern "C" fn moveledger_show(
    alloc: Global,
    ledger: &mut Holder,
    form: u32,
    lines: &mut Bytes,
) -> i32
    ensures given { IsReported 3 (payload_of form) ledger.old.held result lines.new.items }
    ensures kept { ledger.new.held ≡ ledger.old.held }
{
    *lines = Bytes::none();
    let Some(payload) = payload_of(form) else {
        return ARGUMENTS;
    };
    let Some(held) = ledger.take(alloc) else {
        return ARGUMENTS;
    };
    let status = give(alloc, lines, bytes_of(held.show(payload)));
    *ledger = Holder::of(held);
    status
}

/// The lines of an audit.
#[unsafe(no_mangle)]
pub extern "C" fn moveledger_audit(
    alloc: Global,
    ledger: &mut Holder,
    form: u32,
    lines: &mut Bytes,
) -> i32
    ensures given { IsReported 4 (payload_of form) ledger.old.held result lines.new.items }
    ensures kept { ledger.new.held ≡ ledger.old.held }
{
    *lines = Bytes::none();
    let Some(payload) = payload_of(form) else {
        return ARGUMENTS;
    };
    let Some(held) = ledger.take(alloc) else {
        return ARGUMENTS;
    };
    let status = give(alloc, lines, bytes_of(held.audit(payload)));
    *ledger = Holder::of(held);
    status
}
