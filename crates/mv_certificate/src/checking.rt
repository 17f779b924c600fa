// Whether what a certificate states of a module's functions holds.

ghost use Rattle.std.specs.Prelude.{◌≡◌, ◌<◌, ◌⊎◌, length, option_map, slice_get, Some, IfOk, IfErr, OnOk, IsTrue};
ghost use Rattle.mv_move_types.specs.Refusals.{IsRefusedBy, IsRefusedIn};
ghost use Rattle.mv_acquires.specs.Acquires.{AcquiresHold};
ghost use Rattle.mv_lattice.specs.Flow.{states_of};
ghost use Rattle.mv_certificate.specs.Answers.{FailsCertificate};
ghost use Rattle.mv_certificate_rules.specs.Certificate.{Certificate, all_locals_hold, all_edges_hold, certificate_holds};
ghost use Rattle.mv_certificate.specs.Functions.{LocalsHoldAt, EdgesHoldAt};
ghost use Rattle.mv_certificate_rules.specs.Shape.{AllStatedFit};
ghost use Rattle.mv_certificate.specs.Reads.{FitsAt};

use super::certificate::{Cert, Known};
use super::shape;
use mv_borrow_graph::BorrowDomain;
use mv_lattice::{StepError, check_flow};
use mv_locals_safety::{Availabilities, LocalsDomain};
use mv_move_types::Refusal;
use mv_type_rules::Typed;
use mv_ways::Borrows;
use std::alloc::{AllocError, Global};

/// A flow that is not accepted is refused in the phase.
fn refusal_in(phase: u8, e: StepError) -> Refusal
    ensures { ((result ≡ Refusal.Phase phase) × (e ≡ StepError.Need)) ⊎ (result ≡ Refusal.Memory) }
{
    match e {
        StepError::Need => Refusal::Phase(phase),
        StepError::Memory => Refusal::Memory,
    }
}

/// The availabilities that are stated for a block, copied.
fn locals_of(alloc: Global, stated: &Option<Known>) -> Result<Option<Availabilities>, AllocError>
    ensures { IfOk result (λ s. s ≡ option_map (λ k. k.locals) stated.now) }
{
    match stated {
        Some(known) => Ok(Some(known.locals.copy(alloc)?)),
        None => Ok(None),
    }
}

/// The availabilities that are stated for each block, copied.
fn all_locals(
    alloc: Global,
    stated: &[Option<Known>],
) -> Result<Vec<Option<Availabilities>>, AllocError>
    ensures { IfOk result (λ v. v.items ≡ states_of (λ k. k.locals) stated.now) }
{
    let mut states = Vec::with_capacity(alloc, stated.len())?;
    for block in stated {
        states.push(locals_of(alloc, block)?)?;
    }
    Ok(states)
}

/// Phase 10 for function `f`: the stated availabilities are a flow of its locals.
fn check_locals_of(
    alloc: Global,
    m: &Typed<'_>,
    f: usize,
    stated: &[Option<Known>],
) -> Result<(), Refusal>
    requires inside { f < length m.now.functions }
    requires fits { FitsAt m.now f stated.now }
    ensures holds { OnOk result (LocalsHoldAt m.now f stated.now) }
    ensures refused { IfErr result (IsRefusedIn 10 (LocalsHoldAt m.now f stated.now)) }
{
    let domain = LocalsDomain::of_function(alloc, m, f)?;
    let start = domain.start(alloc)?;
    let function = shape::function_at(m, f);
    let graph = shape::graph_of(m, f, function);
    let states = all_locals(alloc, stated)?;
    match check_flow(alloc, &domain, graph, &start, &states) {
        Ok(()) => Ok(()),
        Err(e) => Err(refusal_in(10, e)),
    }
}

/// The edges that are stated for a block, as a state of the domain. They stay where they are.
fn edges_of(stated: &Option<Known>) -> Option<Borrows<'_>>
    ensures { result ≡ option_map (λ k. k.edges) stated.entry.now }
{
    match stated {
        Some(known) => Some(Borrows::of_stated(&known.edges)),
        None => None,
    }
}

/// The edges that are stated for each block, as states of the domain.
fn all_edges(
    alloc: Global,
    stated: &[Option<Known>],
) -> Result<Vec<Option<Borrows<'_>>>, AllocError>
    ensures { IfOk result (λ v. v.items ≡ states_of (λ k. k.edges) stated.entry.now) }
{
    let mut states = Vec::with_capacity(alloc, stated.len())?;
    for block in stated {
        states.push(edges_of(block))?;
    }
    Ok(states)
}

/// Phase 11 for function `f`: the stated edges are a flow of its borrow graph.
fn check_edges_of(
    alloc: Global,
    m: &Typed<'_>,
    f: usize,
    stated: &[Option<Known>],
) -> Result<(), Refusal>
    requires inside { f < length m.now.functions }
    requires fits { FitsAt m.now f stated.now }
    ensures holds { OnOk result (EdgesHoldAt m.now f stated.now) }
    ensures refused { IfErr result (IsRefusedIn 11 (EdgesHoldAt m.now f stated.now)) }
{
    let domain = BorrowDomain::of_function(m, f);
    let empty = domain.start();
    let function = shape::function_at(m, f);
    let graph = shape::graph_of(m, f, function);
    shape::has_start(m, f, function);
    let states = all_edges(alloc, stated)?;
    match check_flow(alloc, &domain, graph, &empty, &states) {
        Ok(()) => Ok(()),
        Err(e) => Err(refusal_in(11, e)),
    }
}

/// What is stated of the function at a place.
fn stated_of(c: &Cert, f: usize) -> &[Option<Known>]
    requires { f < length c.now }
    ensures { slice_get c.entry.now f ≡ Some result.now }
{
    &c.functions[f]
}

/// What is stated of function `f`, which fits it.
fn stated_at<'t>(m: &Typed<'_>, c: &'t Cert, f: usize) -> &'t [Option<Known>]
    requires shape { AllStatedFit m.now m.now.functions c.now }
    requires inside { f < length m.now.functions }
    ensures at { slice_get c.entry.now f ≡ Some result.now }
    ensures fits { FitsAt m.entry.now f result.now }
{
    stated_of(c, f)
}

/// Tries the stated availabilities of each function.
fn try_locals(alloc: Global, m: &Typed<'_>, c: &Cert) -> Result<(), Refusal>
    requires { AllStatedFit m.now m.now.functions c.now }
    ensures holds { OnOk result (IsTrue (all_locals_hold m.now c.now)) }
    ensures refused { IfErr result (IsRefusedIn 10 (IsTrue (all_locals_hold m.now c.now))) }
{
    let count = shape::function_count(m);
    for f in 0..count {
        let stated = stated_at(m, c, f);
        check_locals_of(alloc, m, f, stated)?;
    }
    Ok(())
}

/// Tries the stated edges of each function.
fn try_edges(alloc: Global, m: &Typed<'_>, c: &Cert) -> Result<(), Refusal>
    requires { AllStatedFit m.now m.now.functions c.now }
    ensures holds { OnOk result (IsTrue (all_edges_hold m.now c.now)) }
    ensures refused { IfErr result (IsRefusedIn 11 (IsTrue (all_edges_hold m.now c.now))) }
{
    let count = shape::function_count(m);
    for f in 0..count {
        let stated = stated_at(m, c, f);
        check_edges_of(alloc, m, f, stated)?;
    }
    Ok(())
}

/// Phase 10: the stated availabilities of each function are a flow of its locals.
pub fn check_locals(alloc: Global, m: &Typed<'_>, c: &Cert) -> Result<(), Refusal>
    requires { AllStatedFit m.now m.now.functions c.now }
    ensures holds { OnOk result (IsTrue (all_locals_hold m.now c.now)) }
    ensures refused { IfErr result (IsRefusedBy (FailsCertificate m.now c.now)) }
{
    try_locals(alloc, m, c)
}

/// Phase 11: the stated edges of each function are a flow of its borrow graph.
pub fn check_edges(alloc: Global, m: &Typed<'_>, c: &Cert) -> Result<(), Refusal>
    requires shape { AllStatedFit m.now m.now.functions c.now }
    requires locals { IsTrue (all_locals_hold m.now c.now) }
    ensures holds { OnOk result (IsTrue (certificate_holds m.now c.now)) }
    ensures refused { IfErr result (IsRefusedBy (FailsCertificate m.now c.now)) }
{
    try_edges(alloc, m, c)
}

/// Phase 12: the acquires list of each function is right.
pub fn check_acquires(alloc: Global, m: &Typed<'_>) -> Result<(), Refusal>
    ensures ok { OnOk result (AcquiresHold m.now) }
    ensures refused { IfErr result (λ e. (c : Certificate) → IsTrue (certificate_holds m.now c) → IsRefusedBy (FailsCertificate m.now c) e) }
{
    mv_acquires::check(alloc, m.bounded())
}
