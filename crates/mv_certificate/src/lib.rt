//! Phases 9 to 12 of publishing: certificates, their bytes, and whether they hold of a module.
//!
//! ```
//! use mv_move_types::Refusal;
//! use std::alloc::Global;
//!
//! /// Whether a module passes phases 2 to 12 with a certificate; else the number of the first that it fails.
//! fn example(alloc: Global, module: &[u8], certificate: &[u8]) -> Result<(), Refusal> {
//!     let module = mv_binary_format::decode(alloc, module)?;
//!     let typed = mv_type_states::check(alloc, mv_bounds::check(alloc, module)?)?;
//!     let certificate = mv_certificate::decode(alloc, &typed, certificate)?;
//!     mv_certificate::check(alloc, typed, &certificate)?;
//!     Ok(())
//! }
//! ```
#![tactic(auto)]

mod certificate;
mod checking;
mod laws;
mod reading;
mod shape;
mod writing;

ghost use Rattle.std.specs.Prelude.{◌≡◌, Err, IfOk, IfErr, OnOk, IsTrue, ◌⊎◌};
ghost use Rattle.mv_move_types.specs.Refusals.{IsRefusedBy};
ghost use Rattle.mv_acquires.specs.Acquires.{AcquiresHold};
ghost use Rattle.mv_certificate_rules.specs.Shape.{AllStatedFit};
ghost use Rattle.mv_certificate_rules.specs.Certificate.{Certificate, certificate_holds};
ghost use Rattle.mv_certificate_rules.specs.CertificateText.{certificate_text, IsCertificateText};
ghost use Rattle.mv_certificate.specs.Answers.{FailsCertificate};
ghost use Rattle.mv_certificate.specs.Laws.{IsReadBackAs};

pub use certificate::{Cert, Known};
pub use laws::texts_are_of_one_certificate;
pub use mv_certificate_rules::Verified;
use mv_move_types::Refusal;
use mv_type_rules::Typed;
pub use shape::{function_at, function_count, graph_of, has_start};
use std::alloc::{AllocError, Global};

/// Reads a certificate of the module. Bytes are refused in phase 9 exactly where they are no text of one.
pub fn decode(alloc: Global, m: &Typed<'_>, bytes: &[u8]) -> Result<Cert, Refusal>
    ensures ok { IfOk result (λ c. IsCertificateText m.now bytes.now c) }
    ensures none { result ≡ Err (Refusal.Phase 9) → (c : Certificate) → IsCertificateText m.now bytes.now c → ⊥ }
    ensures errors { IfErr result (λ e. (e ≡ Refusal.Phase 9) ⊎ (e ≡ Refusal.Memory)) }
{
    match reading::read_certificate(alloc, m, bytes) {
        Ok(c) => Ok(c),
        Err(Refusal::Memory) => Err(Refusal::Memory),
        Err(Refusal::Phase(_)) => Err(Refusal::Phase(9)),
    }
}

/// The text of a certificate. `decode` reads it back as that certificate: for a module of the certificate's shape, the bytes
/// are a text of this certificate and of no other.
pub fn encode(alloc: Global, c: &Cert) -> Result<Vec<u8>, AllocError>
    ensures text { IfOk result (λ text. text.items ≡ certificate_text c.now) }
    ensures back { IfOk result (λ text. IsReadBackAs text.items c.now) }
{
    texts_are_of_one_certificate();
    let mut out = Vec::new(alloc);
    for stated in &c.functions {
        writing::write_stated(stated, &mut out)?;
    }
    Ok(out)
}

/// Tries phases 10, 11 and 12 in turn.
fn try_phases(alloc: Global, m: &Typed<'_>, c: &Cert) -> Result<(), Refusal>
    requires { AllStatedFit m.now m.now.functions c.now }
    ensures holds { OnOk result (IsTrue (certificate_holds m.now c.now)) }
    ensures acquires { OnOk result (AcquiresHold m.now) }
    ensures refused { IfErr result (IsRefusedBy (FailsCertificate m.now c.now)) }
{
    checking::check_locals(alloc, m, c)?;
    checking::check_edges(alloc, m, c)?;
    checking::check_acquires(alloc, m)
}

/// Tries phases 10, 11 and 12 with a certificate of the module's shape: returns the module if they hold, otherwise the first
/// phase that fails.
pub fn check<'a>(alloc: Global, m: Typed<'a>, c: &Cert) -> Result<Verified<'a>, Refusal>
    requires shape { AllStatedFit m m.functions c.now }
    ensures ok { IfOk result (λ v. v ≡ m.entry) }
    ensures holds { OnOk result (IsTrue (certificate_holds m.entry c.now)) }
    ensures refused { IfErr result (IsRefusedBy (FailsCertificate m.entry c.now)) }
{
    try_phases(alloc, &m, c)?;
    Ok(Verified::new(m.into_tops(alloc)?))
}
