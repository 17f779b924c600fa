//! Finds certificates: for a module that passes with some certificate, one with which it passes.
//!
//! ```
//! use mv_analyser::ProveError;
//! use mv_type_rules::Typed;
//! use std::alloc::Global;
//!
//! /// The bytes of the least certificate of a module.
//! fn example(alloc: Global, m: &Typed<'_>) -> Result<Vec<u8>, ProveError> {
//!     let certificate = mv_analyser::prove(alloc, m)?;
//!     Ok(mv_certificate::encode(alloc, &certificate)?)
//! }
//! ```
#![tactic(auto)]

mod borrows;
mod locals;
mod watched;

ghost use Rattle.std.specs.Prelude.{◌≡◌, IfOk, IfErr, OnOk, IsErrOf, IsSome, IsTrue};
ghost use Rattle.mv_acquires.specs.Acquires.{AcquiresHold};
ghost use Rattle.mv_certificate_rules.specs.Certificate.{certificate_holds};
ghost use Rattle.mv_certificate_rules.specs.Shape.{AllStatedFit};
ghost use Rattle.mv_analyser.specs.Least.{IsLeastCertificate, LeastIsOne};
ghost use Rattle.mv_analyser.specs.Principal.{IsUnproved, IsUnprovedWithin, IsOfLimits, IsOfLimitsWithin, IsProvable, PassesCheck};
ghost use Rattle.mv_analyser.specs.States.{error_of};

use mv_certificate::Cert;
use mv_lattice::SolveError;
use mv_move_types::Refusal;
use mv_type_rules::Typed;
use std::alloc::{AllocError, Global};
use thiserror::Error;
use watched::Steps;

/// Why no certificate is made.
#[derive(Drop, Clone, Copy, PartialEq, Eq, Debug, Error)]
pub enum ProveError {
    /// No certificate passes this phase: 10, 11 or 12.
    #[error("refused {0}")]
    Refused(u8),
    /// A block would be visited a 257th time, or a state would have more than 1,024 edges or a label of more than 8 positions.
    #[error("too complex")]
    TooComplex,
    /// An allocation failed.
    #[error("out of memory")]
    Memory,
}

impl From<AllocError> for ProveError {
    ghost use Rattle.mv_analyser.specs.declared.ProveError.TheVariants.{Memory};

    ghost from_gives = { λ _ e. e ≡ Memory };

    fn from(_: AllocError) -> Self {
        ProveError::Memory
    }
}

/// Why no certificate is made within a number of steps.
#[derive(Drop, Clone, Copy, PartialEq, Eq, Debug, Error)]
pub enum LimitError {
    /// As `prove` says.
    #[error("{0}")]
    Unproved(ProveError),
    /// The steps are used up.
    #[error("too long")]
    TooLong,
}

impl LimitError {
    /// The error of a search whose steps aren't limited, which are never used up.
    pub fn unlimited(self) -> ProveError
        requires { ¬ self ≡ LimitError.TooLong }
        ensures { self ≡ LimitError.Unproved result }
    {
        match self {
            LimitError::Unproved(e) => e,
            LimitError::TooLong => unreachable!(),
        }
    }
}

impl From<ProveError> for LimitError {
    ghost use Rattle.mv_analyser.specs.declared.LimitError.TheVariants.{Unproved};

    ghost from_gives = { λ e why. why ≡ Unproved e };

    fn from(e: ProveError) -> Self {
        LimitError::Unproved(e)
    }
}

impl From<AllocError> for LimitError {
    ghost use Rattle.mv_analyser.specs.declared.ProveError.TheVariants.{Memory};
    ghost use Rattle.mv_analyser.specs.declared.LimitError.TheVariants.{Unproved};

    ghost from_gives = { λ _ why. why ≡ Unproved Memory };

    fn from(_: AllocError) -> Self {
        LimitError::Unproved(ProveError::Memory)
    }
}

/// What the error of a search says in a phase.
fn error_in(phase: u8, e: SolveError) -> ProveError
    ensures { result ≡ error_of phase e }
{
    match e {
        SolveError::Need => ProveError::Refused(phase),
        SolveError::TooComplex => ProveError::TooComplex,
        SolveError::Memory => ProveError::Memory,
    }
}

/// Phase 12: the acquires list of each function is right.
fn check_acquires(alloc: Global, m: &Typed<'_>, c: &Cert) -> Result<(), ProveError>
    requires shape { AllStatedFit m.now m.now.functions c.now }
    requires holds { IsTrue (certificate_holds m.now c.now) }
    ensures ok { OnOk result (AcquiresHold m.now) }
    ensures refused { IfErr result (IsUnproved m.now) }
{
    match mv_acquires::check(alloc, m.bounded()) {
        Ok(()) => Ok(()),
        Err(Refusal::Phase(phase)) => Err(ProveError::Refused(phase)),
        Err(Refusal::Memory) => Err(ProveError::Memory),
    }
}

/// The least states that hold in each function, where the acquires lists are right. It says that memory ran out also where a step
/// was refused.
fn find(alloc: Global, m: &Typed<'_>, steps: &Steps) -> Result<Cert, ProveError>
    ensures shape { IfOk result (λ c. AllStatedFit m.now m.now.functions c) }
    ensures holds { IfOk result (λ c. IsTrue (certificate_holds m.now c)) }
    ensures least { IfOk result (IsLeastCertificate m.now) }
    ensures acquires { OnOk result (AcquiresHold m.now) }
    ensures refused { IfErr result (IsUnproved m.now) }
{
    let locals = locals::least_locals(alloc, m, steps)?;
    let c = borrows::with_least_edges(alloc, m, &locals, steps)?;
    check_acquires(alloc, m, &c)?;
    Ok(c)
}

/// The certificate of `prove_within` if a number of steps is given, and of `prove` otherwise.
fn prove_limited(alloc: Global, m: &Typed<'_>, limit: Option<u64>) -> Result<Cert, LimitError>
    ensures shape { IfOk result (λ c. AllStatedFit m.now m.now.functions c) }
    ensures passes { IfOk result (PassesCheck m.now) }
    ensures least { IfOk result (IsLeastCertificate m.now) }
    ensures refused { IfErr result (IsUnprovedWithin m.now) }
    ensures principal { IsProvable m.now → IfErr result IsOfLimitsWithin }
    ensures limited { IsErrOf result LimitError.TooLong → IsSome limit }
{
    let steps = Steps::new(limit);
    match find(alloc, m, &steps) {
        Ok(c) => Ok(c),
        Err(e) => Err(steps.told(e)),
    }
}

/// A certificate of the module that passes `check`, made of the least states that hold in each function. It is principal: where
/// some certificate passes, this one is returned, unless the search reaches its limits or an allocation fails. It is the least
/// one: in each function its states are below those of everything that fits the function and holds.
///
/// # Errors
/// `Refused` with the first of phases 10, 11 and 12 that no certificate passes. `TooComplex` if the search for some function's
/// edges reaches its limits: it would visit a block for the 257th time, or would state for a block more than 1,024 edges or a
/// label of more than 8 positions. In a module without a local of reference type, parameters included, it never does. The
/// availabilities of all functions come first, then the edges, then the acquires lists; of the functions in order, the first
/// whose edges are too complex or fail decides the error. `Memory` if an allocation failed.
pub fn prove(alloc: Global, m: &Typed<'_>) -> Result<Cert, ProveError>
    ensures shape { IfOk result (λ c. AllStatedFit m.now m.now.functions c) }
    ensures passes { IfOk result (PassesCheck m.now) }
    ensures least { IfOk result (IsLeastCertificate m.now) }
    ensures refused { IfErr result (IsUnproved m.now) }
    ensures principal { IsProvable m.now → IfErr result IsOfLimits }
{
    match prove_limited(alloc, m, None) {
        Ok(c) => Ok(c),
        Err(e) => Err(e.unlimited()),
    }
}

/// The certificate of `prove`, if the search for it takes at most so many steps. A step is one instruction of one visit of a block;
/// the steps for availabilities and for edges count together, over all functions.
///
/// # Errors
/// `Unproved` as `prove` says. `TooLong` if one step more would be taken.
pub fn prove_within(alloc: Global, m: &Typed<'_>, steps: u64) -> Result<Cert, LimitError>
    ensures shape { IfOk result (λ c. AllStatedFit m.now m.now.functions c) }
    ensures passes { IfOk result (PassesCheck m.now) }
    ensures least { IfOk result (IsLeastCertificate m.now) }
    ensures refused { IfErr result (IsUnprovedWithin m.now) }
    ensures principal { IsProvable m.now → IfErr result IsOfLimitsWithin }
{
    prove_limited(alloc, m, Some(steps))
}

/// Two least certificates of a module state the same availabilities, and edges that are below each other.
pub fn least_is_one()
    ensures { LeastIsOne }
{}
