// The calls that ask for modules and counts. None changes the ledger.
ghost use Rattle.std.specs.Prelude.{◌≡◌, ◌++◌, ◌∷◌, [], Some, IfOk, OnOk};
ghost use Rattle.mv_move_types.specs.Numbers.{big_endian};
ghost use Rattle.moveledger_c.specs.Questions.{name_line, names_text, struct_in, AreTexts, AreTextsOf, IsCounted, IsTallyOf, IsToldOf, IsWord};

use crate::bytes::Bytes;
use crate::holder::Holder;
use crate::status::{ABSENT, ARGUMENTS, DONE};
use crate::texts::{give, give_two};
use mv_ledger::{Ledger, StructName};
use mv_lines::put_address;
use std::alloc::{AllocError, Global};

/// How many runs the ledger had.
#[unsafe(no_mangle)]
pub extern "C" fn moveledger_runs(alloc: Global, ledger: &mut Holder, runs: &mut u64) -> i32
    ensures given { IsCounted ledger.old.held result runs.new }
    ensures kept { ledger.new.held ≡ ledger.old.held }
{
    *runs = 0;
    let Some(held) = ledger.take(alloc) else {
        return ARGUMENTS;
    };
    *runs = held.runs();
    *ledger = Holder::of(held);
    DONE
}

/// The names of the published modules in order of publication, each in a line.
#[unsafe(no_mangle)]
pub extern "C" fn moveledger_modules(alloc: Global, ledger: &mut Holder, names: &mut Bytes) -> i32
    ensures given { IsToldOf (λ l. Some (names_text l.published)) ledger.old.held result names.new.items }
    ensures kept { ledger.new.held ≡ ledger.old.held }
{
    *names = Bytes::none();
    let Some(held) = ledger.take(alloc) else {
        return ARGUMENTS;
    };
    let status = give(alloc, names, names_of(alloc, &held));
    *ledger = Holder::of(held);
    status
}

/// The lines of modules' names.
fn names_of(alloc: Global, ledger: &Ledger) -> Result<Vec<u8>, AllocError>
    ensures { IfOk result (λ text. text.items ≡ names_text ledger.now.published) }
{
    let mut text = Vec::new(alloc);
    let mut modules = ledger.modules();
    'each: while let Some((address, name)) = modules.next() {
        put_name(&mut text, address, name)?;
    }
    Ok(text)
}

/// Appends the line of a module's name to a text.
pub(crate) fn put_name(text: &mut Vec<u8>, address: u128, name: &[u8]) -> Result<(), AllocError>
    ensures { OnOk result (text.new.items ≡ text.old.items ++ (name_line (record { address = address; name = name.now }) ++ 10 ∷ [])) }
{
    put_address(text, address)?;
    text.extend_from_slice(b"::")?;
    text.extend_from_slice(name)?;
    text.push(b'\n')?;
    Ok(())
}

/// The bytes of the module of a name, and those of its certificate.
#[unsafe(no_mangle)]
pub extern "C" fn moveledger_module(
    alloc: Global,
    ledger: &mut Holder,
    address: &[u8; 16],
    name: &[u8],
    module: &mut Bytes,
    certificate: &mut Bytes,
) -> i32
    ensures given { AreTextsOf (record { address = big_endian address.now; name = name.now }) ledger.old.held result «module».new.items certificate.new.items }
    ensures kept { ledger.new.held ≡ ledger.old.held }
{
    *module = Bytes::none();
    *certificate = Bytes::none();
    let Some(held) = ledger.take(alloc) else {
        return ARGUMENTS;
    };
    let status = match held.module(u128::from_be_bytes(*address), name) {
        Some((text, proof)) => give_both(alloc, module, certificate, text, proof),
        None => ABSENT,
    };
    *ledger = Holder::of(held);
    status
}

/// Gives two texts, or neither.
fn give_both(alloc: Global, out: &mut Bytes, other: &mut Bytes, text: &[u8], more: &[u8]) -> i32
    ensures { AreTexts (Some (text.now, more.now)) result out.new.items other.new.items }
{
    let text = Vec::from_slice(alloc, text);
    let more = Vec::from_slice(alloc, more);
    give_two(alloc, out, other, text, more)
}

/// The number, or the greatest one where 64 bits don't hold it.
fn word_of(n: u128) -> u64
    ensures { IsWord n result }
{
    u64::try_from(n).unwrap_or(u64::MAX)
}

/// How many values of a struct were packed, and how many unpacked, in the runs that returned.
#[unsafe(no_mangle)]
pub extern "C" fn moveledger_tally(
    alloc: Global,
    ledger: &mut Holder,
    home: &[u8; 16],
    module: &[u8],
    name: &[u8],
    packed: &mut u64,
    unpacked: &mut u64,
) -> i32
    ensures given { IsTallyOf (struct_in home.now «module».now name.now) ledger.old.held result packed.new unpacked.new }
    ensures kept { ledger.new.held ≡ ledger.old.held }
{
    *packed = 0;
    *unpacked = 0;
    let Some(held) = ledger.take(alloc) else {
        return ARGUMENTS;
    };
    let name = StructName::new(u128::from_be_bytes(*home), module, name);
    let status = match held.tally(&name) {
        Some(tally) => {
            *packed = word_of(tally.packs);
            *unpacked = word_of(tally.unpacks);
            DONE
        }
        None => ABSENT,
    };
    *ledger = Holder::of(held);
    status
}
