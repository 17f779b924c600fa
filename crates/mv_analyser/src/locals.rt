// The least availabilities of each function that hold.
ghost use Rattle.std.specs.Prelude.{◌≡◌, ◌<◌, length, option_map, IfOk, IfErr, OnOk, IsTrue};
ghost use Rattle.mv_certificate_rules.specs.Certificate.{all_locals_hold};
ghost use Rattle.mv_certificate.specs.Functions.{LocalsHoldAt};
ghost use Rattle.mv_certificate.specs.Reads.{FitsAt};
ghost use Rattle.mv_certificate_rules.specs.Shape.{AllStatedFit};
ghost use Rattle.mv_analyser.specs.Least.{HasLeastLocals, AreLeastLocals};
ghost use Rattle.mv_analyser.specs.Principal.{AllBefore, FindsLocals, IsUnproved};
ghost use Rattle.mv_analyser.specs.States.{locals_alone, without_edges, EndsLocals, IsErrorAt};

use crate::watched::{Steps, Watched};
use crate::{ProveError, error_in};
use mv_certificate::{Cert, Known, function_at, function_count, graph_of};
use mv_edges::Edges;
use mv_lattice::{search_is_least, solve};
use mv_locals_safety::{Availabilities, LocalsDomain};
use mv_type_rules::Typed;
use std::alloc::{AllocError, Global};

/// The availabilities of a block, with no edges.
fn without_edges(alloc: Global, locals: Option<Availabilities>) -> Option<Known>
    ensures { result ≡ option_map without_edges locals }
{
    match locals {
        Some(locals) => Some(Known {
            locals,
            edges: Edges::new(alloc),
        }),
        None => None,
    }
}

/// The availabilities, with no edges.
fn alone(alloc: Global, all: Vec<Option<Availabilities>>) -> Result<Vec<Option<Known>>, AllocError>
    ensures { IfOk result (λ v. v.items ≡ locals_alone all.items) }
{
    let mut blocks = Vec::with_capacity(alloc, all.len())?;
    for locals in all {
        blocks.push(without_edges(alloc, locals))?;
    }
    Ok(blocks)
}

/// The least availabilities of function `f` that hold, with no edges.
fn state_locals(
    alloc: Global,
    m: &Typed<'_>,
    f: usize,
    steps: &Steps,
) -> Result<Vec<Option<Known>>, ProveError>
    requires { f < length m.now.functions }
    ensures fits { IfOk result (λ v. FitsAt m.now f v.items) }
    ensures holds { IfOk result (λ v. LocalsHoldAt m.now f v.items) }
    ensures least { IfOk result (λ v. HasLeastLocals m.now f v.items) }
    ensures found { OnOk result (FindsLocals m.now f) }
    ensures refused { IfErr result (IsErrorAt m.now f 10 (LocalsHoldAt m.now f) ⊥) }
    ensures ends { IfErr result (EndsLocals m.now f) }
{
    let domain = LocalsDomain::of_function(alloc, m, f)?;
    let start = domain.start(alloc)?;
    let function = function_at(m, f);
    let graph = graph_of(m, f, function);
    search_is_least(&domain, graph, &start);
    let watched = Watched {
        inner: &domain,
        steps,
    };
    match solve(alloc, &watched, graph, &start) {
        Ok(least) => Ok(alone(alloc, least)?),
        Err(e) => Err(error_in(10, e)),
    }
}

/// The least availabilities of each function that hold, with no edges.
pub fn least_locals(alloc: Global, m: &Typed<'_>, steps: &Steps) -> Result<Cert, ProveError>
    ensures shape { IfOk result (λ c. AllStatedFit m.now m.now.functions c) }
    ensures holds { IfOk result (λ c. IsTrue (all_locals_hold m.now c)) }
    ensures least { IfOk result (AreLeastLocals m.now) }
    ensures found { OnOk result (AllBefore (FindsLocals m.now) (length m.now.functions)) }
    ensures refused { IfErr result (IsUnproved m.now) }
{
    let count = function_count(m);
    let mut functions = Vec::new(alloc);
    for f in 0..count {
        let stated = state_locals(alloc, m, f, steps)?;
        functions.push(stated).map_err(|_| ProveError::Memory)?;
    }
    Ok(Cert { functions })
}
