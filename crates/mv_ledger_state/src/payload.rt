// The payloads of publish and run records.
ghost use Rattle.std.specs.Prelude.{◌≡◌, ◌⊎◌, None, Some, Err, IfOk, IfErr, IsTrue};
ghost use Rattle.std.specs.List.{list_all};
ghost use Rattle.mv_machine.specs.declared.Arg.{Arg as Argument};
ghost use Rattle.mv_machine.specs.Arguments.{number_fits};
ghost use Rattle.mv_machine.specs.Ledger.{Publish, Run};
ghost use Rattle.mv_module_text.specs.Parsing.{counted_from};
ghost use Rattle.mv_ledger_state.specs.Asking.{offer_of, offers_of, request_of};
ghost use Rattle.mv_ledger_state.specs.RecordText.{IsShaped, IsShapeless};
ghost use Rattle.mv_ledger_state.specs.Payloads.{sized_from, offer_from, bundle_from, leaf_from, argument_from, run_from};
ghost use Rattle.mv_ledger_state.specs.Unread.{IsUnread};

use crate::unread::{Unread, number, refusal};
use mv_machine::Arg;
use mv_module_text::Reader;
use mv_move_types::limits::{
    MOST_ARGUMENTS, MOST_CERTIFICATE_BYTES, MOST_MODULE_BYTES, MOST_OFFERS,
};
use mv_move_types::{LeafKind, Refusal, Version};
use std::alloc::{AllocError, Global};

// What the reader refuses malformed bytes with. So do the functions here.
pub(crate) const MALFORMED: Refusal = Refusal::Phase(2);

/// A module that is offered, with its certificate.
#[derive(Clone, Copy)]
pub struct Offered<'a> {
    pub text: &'a [u8],
    pub certificate: &'a [u8],
}

/// A bundle of modules that is to be published, and its sender.
#[derive(Drop)]
pub struct Bundle<'a> {
    pub sender: u128,
    pub offers: Vec<Offered<'a>>,
}

/// A run that is asked for.
#[derive(Drop)]
pub struct RunRecord<'a> {
    pub sender: u128,
    pub home: u128,
    pub module: &'a [u8],
    pub function: &'a [u8],
    pub budget: u64,
    pub arguments: Vec<Arg>,
}

/// Bytes after their number.
fn sized<'a>(reader: &mut Reader<'a>, most: u64) -> Result<&'a [u8], Unread>
    ensures ok { IfOk result (λ v. sized_from most reader.old ≡ Some (v.now, reader.new)) }
    ensures refused { IfErr result (IsUnread (sized_from most) reader.old) }
{
    let count = number(reader, most)?;
    let bytes = reader.bytes(count as usize)?;
    Ok(bytes)
}

/// Reads a module and its certificate.
fn offer<'a>(reader: &mut Reader<'a>) -> Result<Offered<'a>, Unread>
    ensures ok { IfOk result (λ o. offer_from reader.old ≡ Some (offer_of o, reader.new)) }
    ensures refused { IfErr result (IsUnread offer_from reader.old) }
{
    let text = sized(reader, MOST_MODULE_BYTES as u64)?;
    let certificate = sized(reader, MOST_CERTIFICATE_BYTES)?;
    Ok(Offered { text, certificate })
}

/// Reads modules with their certificates, of which there are at most so many, after their number.
///
/// # Errors
///
/// `Cut` or `Malformed` if no such modules stand at the front; `Memory` if an allocation failed.
#[inline(always)]
pub fn offers<'a>(
    alloc: Global,
    reader: &mut Reader<'a>,
    most: u64,
) -> Result<Vec<Offered<'a>>, Unread>
    ensures ok { IfOk result (λ v. counted_from most offer_from reader.old ≡ Some (offers_of v.items, reader.new)) }
    ensures refused { IfErr result (IsUnread (counted_from most offer_from) reader.old) }
{
    let count = number(reader, most)?;
    let mut all = Vec::with_capacity(alloc, count as usize)?;
    'each: for _ in 0..count {
        let next = offer(reader)?;
        all.push(next).map_err(AllocError::from)?;
    }
    Ok(all)
}

/// Reads a sender and a bundle.
fn next_bundle<'a>(alloc: Global, reader: &mut Reader<'a>) -> Result<Bundle<'a>, Refusal>
    ensures ok { IfOk result (λ b. bundle_from reader.old ≡ Some ((b.sender, offers_of b.offers.items), reader.new)) }
    ensures refused { result ≡ Err (Refusal.Phase 2) → bundle_from reader.old ≡ None }
    ensures errors { IfErr result (λ e. (e ≡ Refusal.Phase 2) ⊎ (e ≡ Refusal.Memory)) }
{
    let sender = reader.address()?;
    let offers = match offers(alloc, reader, MOST_OFFERS) {
        Ok(offers) => offers,
        Err(unread) => return Err(refusal(unread)),
    };
    if offers.is_empty() {
        return Err(MALFORMED);
    }
    Ok(Bundle { sender, offers })
}

/// Reads the payload of a publish record: a sender and 1 to 16 modules with their certificates, and nothing after them.
///
/// # Errors
///
/// The phase of malformed bytes, where the payload is no such record's; `Memory`, where a growth was refused.
pub fn read_bundle<'a>(alloc: Global, payload: &'a [u8]) -> Result<Bundle<'a>, Refusal>
    ensures ok { IfOk result (λ b. IsShaped 1 payload.entry.now (Publish b.sender (offers_of b.offers.items))) }
    ensures refused { result ≡ Err (Refusal.Phase 2) → IsShapeless 1 payload.entry.now }
    ensures errors { IfErr result (λ e. (e ≡ Refusal.Phase 2) ⊎ (e ≡ Refusal.Memory)) }
{
    let mut reader = Reader::new(payload);
    let offered = next_bundle(alloc, &mut reader)?;
    if reader.is_empty() {
        Ok(offered)
    } else {
        Err(MALFORMED)
    }
}

/// Reads a leaf of a kind.
///
/// # Errors
///
/// `Phase(2)`, that of malformed bytes, if none stands at the front.
pub fn leaf(reader: &mut Reader<'_>, kind: LeafKind) -> Result<u128, Refusal>
    ensures ok { IfOk result (λ n. leaf_from kind reader.old ≡ Some (n, reader.new)) }
    ensures range { IfOk result (λ n. IsTrue (number_fits kind n)) }
    ensures refused { result ≡ Err (Refusal.Phase 2) → leaf_from kind reader.old ≡ None }
    ensures errors { IfErr result (λ e. e ≡ Refusal.Phase 2) }
{
    match kind {
        LeafKind::Boolean => {
            let byte = reader.byte()?;
            if byte < 2 {
                Ok(u128::from(byte))
            } else {
                Err(MALFORMED)
            }
        }
        LeafKind::Number(width) => reader.number_of(width),
        LeafKind::Address => reader.address(),
        LeafKind::Signer => Err(MALFORMED),
    }
}

/// Reads an argument: its token and its value.
fn argument(reader: &mut Reader<'_>) -> Result<Arg, Refusal>
    ensures ok { IfOk result (λ a. argument_from reader.old ≡ Some (a, reader.new)) }
    ensures range { IfOk result (λ a. IsTrue (number_fits a.kind a.number)) }
    ensures refused { result ≡ Err (Refusal.Phase 2) → argument_from reader.old ≡ None }
    ensures errors { IfErr result (λ e. e ≡ Refusal.Phase 2) }
{
    let code = reader.byte()?;
    match Reader::leaf(Version::Six, code) {
        None => Err(MALFORMED),
        Some(kind) => {
            let number = leaf(reader, kind)?;
            Ok(Arg { kind, number })
        }
    }
}

/// Reads arguments, of which there are at most 16, after their number, into the memory of a list. It has room for one more then.
#[inline(always)]
fn arguments(mut list: Vec<Arg>, reader: &mut Reader<'_>) -> Result<Vec<Arg>, Refusal>
    ensures ok { IfOk result (λ v. counted_from 16 argument_from reader.old ≡ Some (v.items, reader.new)) }
    ensures range { IfOk result (λ v. IsTrue (list_all (λ (a : Argument). number_fits a.kind a.number) v.items)) }
    ensures refused { result ≡ Err (Refusal.Phase 2) → counted_from 16 argument_from reader.old ≡ None }
    ensures errors { IfErr result (λ e. (e ≡ Refusal.Phase 2) ⊎ (e ≡ Refusal.Memory)) }
{
    let count = reader.number(MOST_ARGUMENTS)?;
    list.clear();
    list.reserve(count as usize + 1)?;
    'each: for _ in 0..count {
        let next = argument(reader)?;
        list.push_reserved(next);
    }
    Ok(list)
}

/// Reads a run that is asked for, with its arguments in the memory of a list.
fn next_run<'a>(list: Vec<Arg>, reader: &mut Reader<'a>) -> Result<RunRecord<'a>, Refusal>
    ensures ok { IfOk result (λ r. run_from reader.old ≡ Some (request_of r, reader.new)) }
    ensures range { IfOk result (λ r. IsTrue (list_all (λ (a : Argument). number_fits a.kind a.number) r.arguments.items)) }
    ensures refused { result ≡ Err (Refusal.Phase 2) → run_from reader.old ≡ None }
    ensures errors { IfErr result (λ e. (e ≡ Refusal.Phase 2) ⊎ (e ≡ Refusal.Memory)) }
{
    let sender = reader.address()?;
    let home = reader.address()?;
    let module = reader.identifier()?;
    let function = reader.identifier()?;
    let budget = reader.number(u64::MAX)?;
    let arguments = arguments(list, reader)?;
    Ok(RunRecord {
        sender,
        home,
        module,
        function,
        budget,
        arguments,
    })
}

/// Reads the payload of a run record: the run that it asks for, and nothing after it. Its arguments stand in the memory of a list;
/// what the list holds means nothing.
///
/// # Errors
///
/// `Phase(2)`, that of malformed bytes, if the payload isn't that of a run record; `Memory` if an allocation failed.
pub fn read_run<'a>(list: Vec<Arg>, payload: &'a [u8]) -> Result<RunRecord<'a>, Refusal>
    ensures ok { IfOk result (λ r. IsShaped 2 payload.entry.now (Run (request_of r))) }
    ensures refused { result ≡ Err (Refusal.Phase 2) → IsShapeless 2 payload.entry.now }
    ensures errors { IfErr result (λ e. (e ≡ Refusal.Phase 2) ⊎ (e ≡ Refusal.Memory)) }
    ensures range { IfOk result (λ r. IsTrue (list_all (λ (a : Argument). number_fits a.kind a.number) r.arguments.items)) }
{
    let mut reader = Reader::new(payload);
    let asked = next_run(list, &mut reader)?;
    if reader.is_empty() {
        Ok(asked)
    } else {
        Err(MALFORMED)
    }
}
