// The calls that tell what the newest block has changed. None changes the ledger.
ghost use Rattle.std.specs.Prelude.{◌≡◌, ◌++◌, IfOk, OnOk};
ghost use Rattle.moveledger_c.specs.Changes.{change_word, AreChanges, AreChangesOf, IsChangedModules, IsChangedModulesOf, IsChangedText, IsChangesText};

use crate::bytes::Bytes;
use crate::holder::Holder;
use crate::questions::put_name;
use crate::shows::bytes_of;
use crate::status::{ARGUMENTS, NO_BLOCK};
use crate::texts::{give, give_two};
use mv_ledger::{Ledger, Side};
use std::alloc::{AllocError, Global};

/// The values that the newest block has changed, as a show of them alone in JSON: those that changed keys had where it was opened, and
/// those that they have now.
#[unsafe(no_mangle)]
pub extern "C" fn moveledger_changes(
    alloc: Global,
    ledger: &mut Holder,
    before: &mut Bytes,
    now: &mut Bytes,
) -> i32
    ensures given { AreChangesOf ledger.old.held result before.new.items now.new.items }
    ensures kept { ledger.new.held ≡ ledger.old.held }
{
    *before = Bytes::none();
    *now = Bytes::none();
    let Some(held) = ledger.take(alloc) else {
        return ARGUMENTS;
    };
    let status = give_changes(alloc, &held, before, now);
    *ledger = Holder::of(held);
    status
}

/// Gives the values of both sides, if a block is open.
fn give_changes(alloc: Global, held: &Ledger, before: &mut Bytes, now: &mut Bytes) -> i32
    ensures { AreChanges held.now result before.new.items now.new.items }
{
    if held.blocks() == 0 {
        *before = Bytes::none();
        *now = Bytes::none();
        return NO_BLOCK;
    }
    let had = side_of(alloc, held, Side::Before);
    let has = side_of(alloc, held, Side::Now);
    give_two(alloc, before, now, had, has)
}

/// The values of changed keys on a side.
fn side_of(alloc: Global, held: &Ledger, side: Side) -> Result<Vec<u8>, AllocError>
    ensures { IfOk result (λ text. IsChangesText held.now side text.items) }
{
    bytes_of(alloc, held.show_changes(side)?)
}

/// The modules that the newest block has published or replaced, each in a line, in order of publication.
#[unsafe(no_mangle)]
pub extern "C" fn moveledger_changed_modules(
    alloc: Global,
    ledger: &mut Holder,
    names: &mut Bytes,
) -> i32
    ensures given { IsChangedModulesOf ledger.old.held result names.new.items }
    ensures kept { ledger.new.held ≡ ledger.old.held }
{
    *names = Bytes::none();
    let Some(held) = ledger.take(alloc) else {
        return ARGUMENTS;
    };
    let status = give_changed(alloc, &held, names);
    *ledger = Holder::of(held);
    status
}

/// Gives the lines of changed modules, if a block is open.
fn give_changed(alloc: Global, held: &Ledger, names: &mut Bytes) -> i32
    ensures { IsChangedModules held.now result names.new.items }
{
    if held.blocks() == 0 {
        *names = Bytes::none();
        return NO_BLOCK;
    }
    give(alloc, names, changed_of(alloc, held))
}

/// The lines of the modules that the newest block has changed.
fn changed_of(alloc: Global, held: &Ledger) -> Result<Vec<u8>, AllocError>
    ensures { IfOk result (λ text. IsChangedText held.now text.items) }
{
    let mut text = Vec::new(alloc);
    let mut modules = held.changed_modules();
    'each: while let Some((address, name, is_replaced)) = modules.next() {
        put_word(&mut text, is_replaced)?;
        put_name(&mut text, address, name)?;
    }
    Ok(text)
}

/// Appends what was done to a module to a text.
fn put_word(text: &mut Vec<u8>, is_replaced: bool) -> Result<(), AllocError>
    ensures { OnOk result (text.new.items ≡ text.old.items ++ change_word is_replaced) }
{
    if is_replaced {
        text.extend_from_slice(b"replaced ")
    } else {
        text.extend_from_slice(b"published ")
    }
}
