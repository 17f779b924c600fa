// Which structs of a module hold which, and that none holds itself.
ghost use Rattle.std.specs.Prelude.{◌≡◌, ◌↔◌, ℕ, map, IsTrue, IfOk};
ghost use Rattle.mv_bound_rules.specs.Bounds.{InBounds};
ghost use Rattle.mv_bound_rules.specs.Definitions.{Holds};
ghost use Rattle.mv_bounds.specs.Containment.{place_of, places_of, containment};

use super::cycles::is_acyclic;
use mv_binary_format::Module;
use mv_bound_rules::{place_at, struct_places};
use mv_move_types::{Field, Token, ValueType};
use std::alloc::{AllocError, Global};

/// The definition of a type, if it is a struct of the module's own.
fn place_of(places: &[Option<usize>], token: Token) -> Option<usize>
    ensures { result ≡ place_of places.now token }
{
    match token {
        Token::Plain(ValueType::OfStruct(handle)) => place_at(places, handle),
        _ => None,
    }
}

/// The struct definitions that fields hold.
fn held(alloc: Global, places: &[Option<usize>], fields: &[Field]) -> Result<Vec<usize>, AllocError>
    ensures { IfOk result (λ v. v.items ≡ places_of places.now fields.now) }
{
    fields
        .iter()
        .filter_map(|f| place_of(places, f.token))
        .collect(alloc)
}

/// The struct definitions that each holds.
fn containment(alloc: Global, m: &Module) -> Result<Vec<Vec<usize>>, AllocError>
    requires { InBounds m.now }
    ensures { IfOk result (λ g. map (λ v. v.items) g.items ≡ containment m.now) }
{
    let places = struct_places(alloc, m)?;
    let mut graph = Vec::new(alloc);
    for d in m.structs() {
        graph.push(held(alloc, &places, d.fields())?)?;
    }
    Ok(graph)
}

/// Whether no struct holds itself by a chain of fields.
#[tactic(auto, using(crate::proofs::ContainmentLemmas::nothing_held))]
pub fn are_finite(alloc: Global, m: &Module) -> Result<bool, AllocError>
    requires { InBounds m.now }
    ensures { IfOk result (λ b. IsTrue b ↔ ((i : ℕ) → Holds m.now i i → ⊥)) }
{
    if m.structs().is_empty() {
        return Ok(true);
    }
    let graph = containment(alloc, m)?;
    is_acyclic(alloc, &graph)
}
