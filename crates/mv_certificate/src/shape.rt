// What a certificate's edges may lead from and to.

ghost use Rattle.std.specs.Prelude.{◌≡◌, [], ◌++◌, length, ◌<◌, ◌≤◌, Some, slice_get, option_map, nat_lt, IsSome, IsTrue};
ghost use Rattle.std.specs.List.{list_all};
ghost use Rattle.mv_move_types.specs.Limits.{most_locals};
ghost use Rattle.mv_bound_rules.specs.Bounds.{local_count as function_locals};
ghost use Rattle.mv_cfg.specs.FlowGraph.{IsFlowGraph};
ghost use Rattle.mv_move_types.specs.Module.{local_tokens, local_type as type_of_local};
ghost use Rattle.mv_type_rules.specs.TypesHold.{function_is_typed, point_at};
ghost use Rattle.mv_certificate_rules.specs.BorrowRules.{is_mutable_token, is_reference_token};
ghost use Rattle.mv_certificate_rules.specs.Certificate.{known_at_start};
ghost use Rattle.mv_certificate_rules.specs.Nodes.{leads_in, leads_out};
ghost use Rattle.mv_certificate_rules.specs.Shape.{edge_fits};

use mv_binary_format::{FunctionDefinition, Module};
use mv_cfg::Cfg;
use mv_edges::Edge;
use mv_move_types::limits::{MOST_FIELDS, MOST_POSITIONS};
use mv_move_types::{Node, Token};
use mv_type_rules::Typed;

/// How many functions the module has.
pub fn function_count(m: &Typed<'_>) -> usize
    ensures { result ≡ length m.now.functions }
{
    m.module().functions().len()
}

/// The definition of function `f`, which is well typed and has few locals.
pub fn function_at<'t, 'm>(m: &'t Typed<'m>, f: usize) -> &'t FunctionDefinition<'m>
    requires { f < length m.now.functions }
    ensures at { slice_get m.entry.now.functions f ≡ Some result.now }
    ensures typed { IsTrue (function_is_typed m.entry.now result.now) }
    ensures small { function_locals m.entry.now result.now ≤ most_locals }
{
    &m.module().functions()[f]
}

/// For the prover: the module defines no more structs than an index can name.
pub fn has_few_structs(m: &Typed<'_>)
    ensures { length m.now.structs ≤ 65536 }
{
    let _structs = m.module().structs();
}

/// The flow graph of function `f`, whose definition is given.
pub fn graph_of<'t>(m: &'t Typed<'_>, f: usize, function: &FunctionDefinition) -> &'t Cfg
    requires inside { f < length m.now.functions }
    requires known { slice_get m.now.functions f ≡ Some function.now }
    ensures { IsFlowGraph function.entry.now.code result.now }
{
    m.graph(f)
}

/// For the prover: there is a state with which function `f` begins: its locals have types.
pub fn has_start(m: &Typed<'_>, f: usize, function: &FunctionDefinition)
    requires inside { f < length m.now.functions }
    requires known { slice_get m.now.functions f ≡ Some function.now }
    ensures { IsSome (known_at_start m.entry.now function.entry.now) }
{
    let bounded = m.bounded();
    let _parameters = bounded.parameters(f);
    let _others = bounded.other_locals(f);
}

/// The types of a function's parameters, and of its other locals.
fn signatures_of<'t>(
    m: &'t Module<'_>,
    d: &FunctionDefinition,
) -> Option<(&'t [Token], &'t [Token])>
    ensures { option_map (λ p. p.0.now ++ p.1.now) result ≡ local_tokens m.entry.now d.now }
{
    let handle = m.function_handles().get(usize::from(d.handle()))?;
    let parameters = m.signature(usize::from(handle.parameters))?;
    let others = m.signature(usize::from(d.locals()))?;
    Some((parameters, others))
}

/// The type of a local, parameters first.
pub fn local_type(m: &Module<'_>, d: &FunctionDefinition, local: u16) -> Option<Token>
    ensures { result ≡ type_of_local m.now d.now local }
{
    let (parameters, others) = signatures_of(m, d)?;
    let place = usize::from(local);
    if place < parameters.len() {
        parameters.get(place).copied()
    } else {
        others.get(place - parameters.len()).copied()
    }
}

/// How many locals a function has.
pub fn local_count(m: &Module<'_>, d: &FunctionDefinition) -> Option<usize>
    ensures { result ≡ option_map length (local_tokens m.now d.now) }
{
    let (parameters, others) = signatures_of(m, d)?;
    Some(parameters.len() + others.len())
}

/// Whether a type is a mutable reference.
fn is_mutable(token: Token) -> bool
    ensures { result ≡ is_mutable_token token }
{
    matches!(token, Token::MutableReference(_))
}

/// Whether a type is a reference.
fn is_reference(token: Token) -> bool
    ensures { result ≡ is_reference_token token }
{
    matches!(token, Token::Reference(_) | Token::MutableReference(_))
}

/// Whether an edge may lead out of the node.
fn may_lead_from(m: &Module<'_>, d: &FunctionDefinition, node: Node) -> bool
    ensures { result ≡ leads_out (point_at m.now d.now []) node }
{
    match node {
        Node::Slot(local) => match local_type(m, d, local) {
            Some(token) => is_mutable(token),
            None => false,
        },
        Node::Own(local) => match local_type(m, d, local) {
            Some(token) => !is_reference(token),
            None => false,
        },
        Node::Glob(definition) => usize::from(definition) < m.structs().len(),
        Node::Temp(_) => false,
    }
}

/// Whether an edge may lead to the node.
fn may_lead_to(m: &Module<'_>, d: &FunctionDefinition, node: Node) -> bool
    ensures { result ≡ leads_in (point_at m.now d.now []) node }
{
    match node {
        Node::Slot(local) => match local_type(m, d, local) {
            Some(token) => is_reference(token),
            None => false,
        },
        Node::Own(_) | Node::Glob(_) | Node::Temp(_) => false,
    }
}

/// Whether each field position is below 32.
fn are_small(path: &[u8]) -> bool
    ensures { result ≡ list_all (λ i. nat_lt i 32) path.now }
{
    path.iter()
        .all(|position| u64::from(*position) < MOST_FIELDS)
}

/// Whether an edge leads from and to nodes that it may, but not to its own start, and its positions are few and small.
pub fn fits(m: &Module<'_>, d: &FunctionDefinition, e: &Edge) -> bool
    ensures { result ≡ edge_fits m.now d.now e.now }
{
    may_lead_from(m, d, e.from())
        && may_lead_to(m, d, e.to())
        && !e.starts_at(e.to())
        && are_small(e.label().path())
        && e.label().path().len() <= MOST_POSITIONS
}
