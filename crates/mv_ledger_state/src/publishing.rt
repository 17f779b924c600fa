// Publishing a bundle: its phases in order.
ghost use Rattle.std.specs.Prelude.{◌≡◌, ℕ, List, Some, IfOk, IfErr, OnOk, OnErr};
ghost use Rattle.mv_move_types.specs.Published.{PublishedModule};
ghost use Rattle.mv_move_types.specs.Refusals.{IsRefusedBy};
ghost use Rattle.mv_binary_format.specs.Parsing.{module_of};
ghost use Rattle.mv_module_text.specs.Laws.{AreBytes};
ghost use Rattle.mv_certificate_rules.specs.Certificate.{Certificate};
ghost use Rattle.mv_certificate_rules.specs.Verified.{IsCertifiedBy};
ghost use Rattle.mv_machine.specs.Ledger.{Publish};
ghost use Rattle.mv_link_rules.specs.Link.{IsStore};
ghost use Rattle.mv_linker.specs.News.{AreTexts, HasItsTexts, published_of};
ghost use Rattle.mv_ledger_state.specs.Asking.{offer_of, offers_of};
ghost use Rattle.mv_ledger_state.specs.RecordText.{IsShaped};
ghost use Rattle.mv_ledger_state.specs.Publishing.{Spells, Passes, AllPass, FailsAt, FailsAmong};
ghost use Rattle.mv_ledger_state.specs.Judging.{IsAcceptedBy, IsRefusedOver};
ghost use Rattle.mv_ledger_state.specs.Tallying.{AddsTallies};
ghost use Rattle.mv_machine.specs.Tallies.{all_of};

use crate::payload::{Bundle, Offered, read_bundle};
use crate::published::Published;
use mv_certificate::Verified;
use mv_linker::New;
use mv_move_types::Refusal;
use mv_type_rules::Typed;
use std::alloc::{AllocError, Global};

/// Bytes are bytes.
pub fn are_bytes(bytes: &[u8])
    ensures { AreBytes bytes.now }
{}

/// The module that bytes are the text of, which passed phases 2 to 8.
fn typed<'a>(alloc: Global, text: &'a [u8]) -> Result<Typed<'a>, Refusal>
    ensures read { IfOk result (λ m. module_of text.entry.now ≡ Some m) }
    ensures text { IfOk result (λ m. Spells text.entry.now m) }
    ensures refused { (certificate : List ℕ) → IfErr result (IsRefusedBy (FailsAt (record { text = text.entry.now; certificate = certificate }))) }
{
    // For the prover: bytes spell one module alone.
    mv_binary_format::modules_are_read_by_text();
    are_bytes(text);
    let module = mv_binary_format::decode(alloc, text)?;
    let bounded = mv_bounds::check(alloc, module)?;
    // For the prover: the module is in bounds, and its definitions are its own.
    let _defined = bounded.module();
    mv_type_states::check(alloc, bounded)
}

/// A module with the certificate that bytes are the text of, which passed phases 9 to 12.
fn certified<'a>(
    alloc: Global,
    typed: Typed<'a>,
    certificate: &[u8],
) -> Result<Verified<'a>, Refusal>
    ensures same { IfOk result (λ m. m ≡ typed.entry) }
    ensures certified { IfOk result (λ m. IsCertifiedBy m certificate.now) }
    ensures passes { (text : List ℕ) → Spells text typed.entry → IfOk result (λ m. (c : Certificate) × Passes (record { text = text; certificate = certificate.now }) m c) }
    ensures refused { (text : List ℕ) → AreBytes text → Spells text typed.entry → IfErr result (IsRefusedBy (FailsAt (record { text = text; certificate = certificate.now }))) }
{
    // For the prover: bytes spell one module alone.
    mv_binary_format::modules_are_read_by_text();
    // For the prover: the module is well typed.
    let _sound = typed.module();
    let stated = mv_certificate::decode(alloc, &typed, certificate)?;
    let module = mv_certificate::check(alloc, typed, &stated)?;
    // For the prover: its acquires lists are right.
    let _acquires = module.module();
    Ok(module)
}

/// An offered module with what it passed: phases 2 to 12 in order.
///
/// # Errors
///
/// The first phase that it fails; `Memory`, where a growth was refused.
pub fn verified<'a>(alloc: Global, offer: &Offered<'a>) -> Result<New<'a>, Refusal>
    ensures text { IfOk result (λ n. n.text.now ≡ offer.now.text.now) }
    ensures certificate { IfOk result (λ n. n.certificate.now ≡ offer.now.certificate.now) }
    ensures passes { IfOk result (λ n. (c : Certificate) × Passes (offer_of offer.now) n.module c) }
    ensures texts { IfOk result HasItsTexts }
    ensures refused { IfErr result (IsRefusedBy (FailsAt (offer_of offer.now))) }
{
    // For the prover: what is offered is bytes.
    are_bytes(offer.text);
    let typed = typed(alloc, offer.text)?;
    let module = certified(alloc, typed, offer.certificate)?;
    Ok(New {
        module,
        text: offer.text,
        certificate: offer.certificate,
    })
}

/// The offered modules with what they passed, tried one after the other.
///
/// # Errors
///
/// The first phase that the first of them fails that fails one; `Memory`, where a growth was refused.
pub fn all_verified<'a>(alloc: Global, offers: &[Offered<'a>]) -> Result<Vec<New<'a>>, Refusal>
    ensures passed { IfOk result (λ v. AllPass (offers_of offers.now) (published_of v.items)) }
    ensures texts { IfOk result (λ v. AreTexts v.items) }
    ensures refused { IfErr result (IsRefusedBy (FailsAmong (offers_of offers.now))) }
{
    let mut all = Vec::with_capacity(alloc, offers.len())?;
    'each: for offer in offers {
        all.push(verified(alloc, offer)?).map_err(AllocError::from)?;
    }
    Ok(all)
}

/// The bundle that the payload of a publish record has.
///
/// # Errors
///
/// `Phase(1)`, where the payload is none of a publish record; `Memory`, where a growth was refused.
fn asked_bundle<'a>(alloc: Global, payload: &'a [u8]) -> Result<Bundle<'a>, Refusal>
    ensures asked { IfOk result (λ b. IsShaped 1 payload.entry.now (Publish b.sender (offers_of b.offers.items))) }
    ensures refused { (modules : List PublishedModule) → IfErr result (IsRefusedOver modules payload.entry.now) }
{
    match read_bundle(alloc, payload) {
        Ok(bundle) => Ok(bundle),
        Err(Refusal::Memory) => Err(Refusal::Memory),
        Err(Refusal::Phase(_)) => Err(Refusal::Phase(1)),
    }
}

impl Published {
    /// Publishes the bundle in a payload, and returns how many modules it has. They join the published ones. Each of their structs
    /// with neither copy nor drop keeps the tally that it had, or gets an empty one.
    ///
    /// # Errors
    ///
    /// `Phase(1)` if the payload isn't that of a publish record; otherwise the first phase that fails; `Memory` if an allocation
    /// failed. Nothing has changed in any of these cases.
    pub fn publish(&mut self, alloc: Global, payload: &[u8]) -> Result<u64, Refusal>
        ensures accepted { IfOk result (λ n. IsAcceptedBy n self.old.modules payload.now self.new.modules) }
        ensures tallied { OnOk result (AddsTallies self.old.modules self.new.modules (all_of self.old.tallies) (all_of self.new.tallies)) }
        ensures whole { OnOk result (IsStore self.new.modules) }
        ensures marks { self.new.marks ≡ self.old.marks }
        ensures kept { OnErr result (self.new ≡ self.old) }
        ensures refused { IfErr result (IsRefusedOver self.old.modules payload.now) }
    {
        let bundle = asked_bundle(alloc, payload)?;
        let news = all_verified(alloc, &bundle.offers)?;
        let count = news.len();
        self.join(alloc, Some(bundle.sender), news)?;
        Ok(count as u64)
    }
}
