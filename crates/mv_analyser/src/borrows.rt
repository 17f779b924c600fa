// The least edges of each function that hold.
ghost use Rattle.std.specs.Prelude.{◌≡◌, ◌<◌, not, length, Some, slice_get, nat_le, IfOk, IfErr, OnOk, IsTrue};
ghost use Rattle.std.specs.List.{list_all};
ghost use Rattle.mv_certificate_rules.specs.BorrowRules.{is_reference_token};
ghost use Rattle.mv_certificate_rules.specs.Certificate.{all_locals_hold, certificate_holds};
ghost use Rattle.mv_certificate.specs.Functions.{LocalsHoldAt, EdgesHoldAt};
ghost use Rattle.mv_certificate.specs.Reads.{FitsAt};
ghost use Rattle.mv_certificate_rules.specs.Shape.{AllStatedFit};
ghost use Rattle.mv_analyser.specs.Least.{HasLeastLocals, HasLeastEdges, AreLeastLocals, IsLeastCertificate};
ghost use Rattle.mv_analyser.specs.Principal.{AllBefore, FindsEdges, FindsLocals, IsUnproved};
ghost use Rattle.mv_analyser.specs.States.{known_with, with_edges, EndsEdges, IsErrorAt, IsComplexAt};

use crate::watched::{Steps, Watched};
use crate::{ProveError, error_in};
use mv_borrow_graph::BorrowDomain;
use mv_certificate::{Cert, Known, function_at, function_count, graph_of, has_start};
use mv_lattice::{search_is_least, solve};
use mv_type_rules::Typed;
use mv_ways::Borrows;
use std::alloc::{AllocError, Global};

/// What is stated of a block, with these edges.
fn known_and(
    alloc: Global,
    stated: &Option<Known>,
    edges: Option<Borrows<'_>>,
) -> Result<Option<Known>, AllocError>
    ensures { IfOk result (λ k. k ≡ known_with stated.now edges.entry) }
{
    match (stated, edges) {
        (Some(known), Some(edges)) => Ok(Some(Known {
            locals: known.locals.copy(alloc)?,
            edges: edges.into_list(alloc)?,
        })),
        (_, _) => Ok(None),
    }
}

/// What is stated of a function's blocks, with these edges.
fn stated_and(
    alloc: Global,
    stated: &[Option<Known>],
    edges: Vec<Option<Borrows<'_>>>,
) -> Result<Vec<Option<Known>>, AllocError>
    ensures { IfOk result (λ v. v.items ≡ with_edges stated.now edges.entry.items) }
{
    let mut blocks = Vec::with_capacity(alloc, stated.len())?;
    for (known, its) in stated.iter().zip(edges) {
        blocks.push(known_and(alloc, known, its)?)?;
    }
    Ok(blocks)
}

/// For the prover: no struct has more than 32 fields, and no field is a reference.
fn has_plain_fields(m: &Typed<'_>)
    ensures few { IsTrue (list_all (λ d. nat_le (length d.fields) 32) m.now.structs) }
    ensures plain { IsTrue (list_all (λ d. list_all (λ f. not (is_reference_token f.token)) d.fields) m.now.structs) }
{
    let _structs = m.module().structs();
}

/// What is stated of function `f`, with the least edges that hold.
fn state_edges(
    alloc: Global,
    m: &Typed<'_>,
    f: usize,
    stated: &[Option<Known>],
    steps: &Steps,
) -> Result<Vec<Option<Known>>, ProveError>
    requires inside { f < length m.now.functions }
    requires fits { FitsAt m.now f stated.now }
    requires locals { LocalsHoldAt m.now f stated.now }
    requires least { HasLeastLocals m.now f stated.now }
    ensures fits { IfOk result (λ v. FitsAt m.now f v.items) }
    ensures locals { IfOk result (λ v. LocalsHoldAt m.now f v.items) }
    ensures edges { IfOk result (λ v. EdgesHoldAt m.now f v.items) }
    ensures least_locals { IfOk result (λ v. HasLeastLocals m.now f v.items) }
    ensures least_edges { IfOk result (λ v. HasLeastEdges m.now f v.items) }
    ensures found { OnOk result (FindsEdges m.now f) }
    ensures refused { IfErr result (IsErrorAt m.now f 11 (EdgesHoldAt m.now f) (IsComplexAt m.now f)) }
    ensures ends { IfErr result (EndsEdges m.now f) }
{
    let domain = BorrowDomain::of_function(m, f);
    let start = domain.start();
    let function = function_at(m, f);
    let graph = graph_of(m, f, function);
    has_start(m, f, function);
    has_plain_fields(m);
    search_is_least(&domain, graph, &start);
    let watched = Watched {
        inner: &domain,
        steps,
    };
    match solve(alloc, &watched, graph, &start) {
        Ok(least) => Ok(stated_and(alloc, stated, least)?),
        Err(e) => Err(error_in(11, e)),
    }
}

/// What is stated of the function at a place.
fn stated_of(c: &Cert, f: usize) -> &[Option<Known>]
    requires { f < length c.now }
    ensures { slice_get c.entry.now f ≡ Some result.now }
{
    &c.functions[f]
}

/// What is stated of function `f`, which fits it and whose availabilities hold.
fn stated_at<'t>(m: &Typed<'_>, c: &'t Cert, f: usize) -> &'t [Option<Known>]
    requires shape { AllStatedFit m.now m.now.functions c.now }
    requires locals { IsTrue (all_locals_hold m.now c.now) }
    requires least { AreLeastLocals m.now c.now }
    requires inside { f < length m.now.functions }
    ensures at { slice_get c.entry.now f ≡ Some result.now }
    ensures fits { FitsAt m.entry.now f result.now }
    ensures locals { LocalsHoldAt m.entry.now f result.now }
    ensures least { HasLeastLocals m.entry.now f result.now }
{
    stated_of(c, f)
}

/// The certificate with the least edges that hold in each function.
pub fn with_least_edges(
    alloc: Global,
    m: &Typed<'_>,
    c: &Cert,
    steps: &Steps,
) -> Result<Cert, ProveError>
    requires shape { AllStatedFit m.now m.now.functions c.now }
    requires locals { IsTrue (all_locals_hold m.now c.now) }
    requires least { AreLeastLocals m.now c.now }
    requires found { AllBefore (FindsLocals m.now) (length m.now.functions) }
    ensures shape { IfOk result (λ v. AllStatedFit m.now m.now.functions v) }
    ensures holds { IfOk result (λ v. IsTrue (certificate_holds m.now v)) }
    ensures least { IfOk result (IsLeastCertificate m.now) }
    ensures refused { IfErr result (IsUnproved m.now) }
{
    let count = function_count(m);
    let mut functions = Vec::new(alloc);
    for f in 0..count {
        let stated = stated_at(m, c, f);
        let with_edges = state_edges(alloc, m, f, stated, steps)?;
        functions.push(with_edges).map_err(|_| ProveError::Memory)?;
    }
    Ok(Cert { functions })
}
