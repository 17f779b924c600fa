// Reading the parts of a certificate.

ghost use Rattle.std.specs.Prelude.{◌≡◌, ◌<◌, ◌++◌, ◌∷◌, [], false, length, ◌⊎◌, map, Some, None, Err, IfOk, IfErr, OnOk, IsTrue};
ghost use Rattle.mv_edges.specs.Ascending.{are_ascending};
ghost use Rattle.mv_module_text.specs.Parsing.{entries_from};
ghost use Rattle.mv_module_text.specs.Reads.{Reads};
ghost use Rattle.mv_certificate_rules.specs.CertificateText.{IsCertificateText};
ghost use Rattle.mv_certificate_rules.specs.Certificate.{Certificate};
ghost use Rattle.mv_certificate.specs.Reads.{IsReadAt, IsUnreadAt};
ghost use Rattle.mv_certificate.specs.Parsing.{availability_from, node_from, openness_from, label_from, edge_from, edges_from, block_from, stated_from};

use super::certificate::{Cert, Known};
use super::shape;
use mv_binary_format::{FunctionDefinition, Module};
use mv_cfg::Block;
use mv_edges::{Edge, Edges, Label};
use mv_locals_safety::Availabilities;
use mv_module_text::Reader;
use mv_move_types::limits::{MOST_EDGES, MOST_FIELDS, MOST_POSITIONS};
use mv_move_types::{Availability, Node, Refusal};
use mv_type_rules::Typed;
use std::alloc::Global;

// What the reader refuses malformed bytes with. So do the functions here.
const MALFORMED: Refusal = Refusal::Phase(2);

// The greatest field position.
const LAST_POSITION: u64 = MOST_FIELDS - 1;

/// Reads an availability.
fn read_availability(reader: &mut Reader<'_>) -> Result<Availability, Refusal>
    ensures { Reads availability_from reader.old result reader.new }
{
    match reader.byte()? {
        0 => Ok(Availability::Unavailable),
        1 => Ok(Availability::Available),
        2 => Ok(Availability::Maybe),
        _ => Err(MALFORMED),
    }
}

/// Reads so many availabilities.
fn read_availabilities(
    alloc: Global,
    reader: &mut Reader<'_>,
    count: usize,
) -> Result<Availabilities, Refusal>
    ensures ok { IfOk result (λ v. entries_from availability_from count reader.old ≡ Some (v, reader.new)) }
    ensures refused { result ≡ Err (Refusal.Phase 2) → entries_from availability_from count reader.old ≡ None }
    ensures errors { IfErr result (λ e. (e ≡ Refusal.Phase 2) ⊎ (e ≡ Refusal.Memory)) }
{
    let mut locals = Availabilities::none();
    'locals: for _ in 0..count {
        let local = read_availability(reader)?;
        locals.push(alloc, local).map_err(|_| Refusal::Memory)?;
    }
    Ok(locals)
}

/// Reads a node: its kind and its index.
fn read_node(reader: &mut Reader<'_>) -> Result<Node, Refusal>
    ensures { Reads node_from reader.old result reader.new }
{
    let kind = reader.byte()?;
    let index = reader.index()?;
    match kind {
        0 => Ok(Node::Slot(index)),
        1 => Ok(Node::Own(index)),
        2 => Ok(Node::Glob(index)),
        _ => Err(MALFORMED),
    }
}

/// Reads whether a label is open.
fn read_openness(reader: &mut Reader<'_>) -> Result<bool, Refusal>
    ensures { Reads openness_from reader.old result reader.new }
{
    match reader.byte()? {
        0 => Ok(false),
        1 => Ok(true),
        _ => Err(MALFORMED),
    }
}

/// Reads a label: its field positions, of which there are at most eight, each below 32, and whether it is open.
fn read_label(alloc: Global, reader: &mut Reader<'_>) -> Result<Label, Refusal>
    ensures ok { IfOk result (λ v. label_from reader.old ≡ Some (v, reader.new)) }
    ensures refused { result ≡ Err (Refusal.Phase 2) → label_from reader.old ≡ None }
    ensures errors { IfErr result (λ e. (e ≡ Refusal.Phase 2) ⊎ (e ≡ Refusal.Memory)) }
{
    let count = reader.number(MOST_POSITIONS as u64)?;
    let mut exact = Label::here(alloc);
    'positions: for _ in 0..count {
        let position = reader.number(LAST_POSITION)?;
        exact = exact.extended(alloc, position as u8)?;
    }
    let is_open = read_openness(reader)?;
    if is_open {
        Ok(exact.opened(alloc)?)
    } else {
        Ok(exact)
    }
}

/// Reads an edge, which has to fit the function.
fn read_edge(
    alloc: Global,
    reader: &mut Reader<'_>,
    m: &Module<'_>,
    d: &FunctionDefinition,
) -> Result<Edge, Refusal>
    ensures ok { IfOk result (λ v. edge_from m.now d.now reader.old ≡ Some (v, reader.new)) }
    ensures refused { result ≡ Err (Refusal.Phase 2) → edge_from m.now d.now reader.old ≡ None }
    ensures errors { IfErr result (λ e. (e ≡ Refusal.Phase 2) ⊎ (e ≡ Refusal.Memory)) }
{
    let from = read_node(reader)?;
    let to = read_node(reader)?;
    let label = read_label(alloc, reader)?;
    let edge = Edge::new(from, label, to);
    if shape::fits(m, d, &edge) {
        Ok(edge)
    } else {
        Err(MALFORMED)
    }
}

/// Adds an edge after the others, which it has to come after in the order of edges.
fn add_last(edges: &mut Edges, edge: Edge) -> Result<(), Refusal>
    ensures edges { OnOk result (edges.new ≡ edges.old ++ edge ∷ []) }
    ensures ascend { OnOk result (IsTrue (are_ascending edges.new)) }
    ensures refused { result ≡ Err (Refusal.Phase 2) → are_ascending (edges.old ++ edge ∷ []) ≡ false }
    ensures errors { IfErr result (λ e. (e ≡ Refusal.Phase 2) ⊎ (e ≡ Refusal.Memory)) }
{
    if edges.push_last(edge)? {
        Ok(())
    } else {
        Err(MALFORMED)
    }
}

/// Reads edges, of which there are at most 1024 and which have to ascend.
fn read_edges(
    alloc: Global,
    reader: &mut Reader<'_>,
    m: &Module<'_>,
    d: &FunctionDefinition,
) -> Result<Edges, Refusal>
    ensures ok { IfOk result (λ v. edges_from m.now d.now reader.old ≡ Some (v, reader.new)) }
    ensures refused { result ≡ Err (Refusal.Phase 2) → edges_from m.now d.now reader.old ≡ None }
    ensures errors { IfErr result (λ e. (e ≡ Refusal.Phase 2) ⊎ (e ≡ Refusal.Memory)) }
{
    let count = reader.number(MOST_EDGES as u64)?;
    let mut edges = Edges::new(alloc);
    'edges: for _ in 0..count {
        let edge = read_edge(alloc, reader, m, d)?;
        add_last(&mut edges, edge)?;
    }
    Ok(edges)
}

/// Reads what is stated of a block: an availability for each local and the edges if it is reached, otherwise nothing.
fn read_block(
    alloc: Global,
    reader: &mut Reader<'_>,
    m: &Module<'_>,
    d: &FunctionDefinition,
    reached: bool,
) -> Result<Option<Known>, Refusal>
    ensures ok { IfOk result (λ v. block_from m.now d.now reached reader.old ≡ Some (v, reader.new)) }
    ensures refused { result ≡ Err (Refusal.Phase 2) → block_from m.now d.now reached reader.old ≡ None }
    ensures errors { IfErr result (λ e. (e ≡ Refusal.Phase 2) ⊎ (e ≡ Refusal.Memory)) }
{
    if !reached {
        reader.mark(0)?;
        return Ok(None);
    }
    reader.mark(1)?;
    let Some(count) = shape::local_count(m, d) else {
        return Err(MALFORMED);
    };
    let locals = read_availabilities(alloc, reader, count)?;
    let edges = read_edges(alloc, reader, m, d)?;
    Ok(Some(Known { locals, edges }))
}

/// Reads what is stated of the blocks of a function.
fn read_stated(
    alloc: Global,
    reader: &mut Reader<'_>,
    m: &Module<'_>,
    d: &FunctionDefinition,
    blocks: &[Block],
) -> Result<Vec<Option<Known>>, Refusal>
    ensures ok { IfOk result (λ v. stated_from m.now d.now (map (λ b. b.reached) blocks.now) reader.old ≡ Some (v.items, reader.new)) }
    ensures refused { result ≡ Err (Refusal.Phase 2) → stated_from m.now d.now (map (λ b. b.reached) blocks.now) reader.old ≡ None }
    ensures errors { IfErr result (λ e. (e ≡ Refusal.Phase 2) ⊎ (e ≡ Refusal.Memory)) }
{
    let mut stated = Vec::with_capacity(alloc, blocks.len())?;
    'each: for block in blocks {
        let one = read_block(alloc, reader, m, d, block.reached)?;
        stated.push(one).map_err(|_| Refusal::Memory)?;
    }
    Ok(stated)
}

/// Reads what is stated of the blocks of function `f`.
fn read_function(
    alloc: Global,
    reader: &mut Reader<'_>,
    m: &Typed<'_>,
    f: usize,
) -> Result<Vec<Option<Known>>, Refusal>
    requires { f < length m.now.functions }
    ensures ok { IfOk result (λ v. IsReadAt m.now f reader.old reader.new v.items) }
    ensures refused { result ≡ Err (Refusal.Phase 2) → IsUnreadAt m.now f reader.old }
    ensures errors { IfErr result (λ e. (e ≡ Refusal.Phase 2) ⊎ (e ≡ Refusal.Memory)) }
{
    shape::has_few_structs(m);
    let module = m.module();
    let function = shape::function_at(m, f);
    let graph = shape::graph_of(m, f, function);
    read_stated(alloc, reader, module, function, &graph.blocks)
}

/// Reads a certificate of the module, which has to end where the bytes do.
pub fn read_certificate(alloc: Global, m: &Typed<'_>, bytes: &[u8]) -> Result<Cert, Refusal>
    ensures ok { IfOk result (λ v. IsCertificateText m.now bytes.now v) }
    ensures none { result ≡ Err (Refusal.Phase 2) → (c : Certificate) → IsCertificateText m.now bytes.now c → ⊥ }
    ensures errors { IfErr result (λ e. (e ≡ Refusal.Phase 2) ⊎ (e ≡ Refusal.Memory)) }
{
    let count = shape::function_count(m);
    let mut reader = Reader::new(bytes);
    let mut functions = Vec::with_capacity(alloc, count)?;
    'functions: for f in 0..count {
        let stated = read_function(alloc, &mut reader, m, f)?;
        functions.push(stated).map_err(|_| Refusal::Memory)?;
    }
    if reader.is_empty() {
        Ok(Cert { functions })
    } else {
        Err(MALFORMED)
    }
}
