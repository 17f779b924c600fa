// A graph of provenances made of a list of edges.
ghost use Rattle.std.specs.Prelude.{◌≡◌, ◌<◌, ◌++◌, IfOk, IfSome, OnOk, IsTrue, length};
ghost use Rattle.mv_edges.specs.Sorted.{sorted};
ghost use Rattle.mv_ways.specs.Made.{IsGroupOf, IsPlaced, are_inside, grouped};
ghost use Rattle.mv_ways.specs.Provenances.{edges_of};

use super::{Origin, Provenance, ProvenanceGraph};
use mv_edges::{Edge, Edges, is_same};
use mv_move_types::Node;
use std::alloc::{AllocError, Global};

/// What leads to a node.
#[derive(Drop)]
struct Group {
    to: Node,
    origins: Vec<Origin>,
}

/// How many slots there are. Nodes that share none are found with one look.
const SLOTS: usize = 64;

/// The most groups for which there is room from the start. They take less than 1,024 bytes: a larger allocation takes longer.
const FEW_GROUPS: usize = 31;

/// How many sources, provenances and references more there is room for from the start: those of the next instructions.
const MORE: usize = 4;

/// The most origins of a node for which there is room from the start.
const FEW_ORIGINS: u8 = 8;

/// The slot of a node. A local and a place on the stack share one only where there are many of them.
fn slot_of(node: Node) -> usize
    ensures { result < 64 }
{
    match node {
        Node::Slot(index) | Node::Own(index) | Node::Glob(index) => usize::from(index) % SLOTS,
        Node::Temp(place) => SLOTS - 1 - usize::from(place) % SLOTS,
    }
}

/// How many edges lead to the nodes of each slot: at most 255 are counted.
fn counts_of(edges: &[Edge]) -> [u8; SLOTS] {
    let mut counts = [0u8; SLOTS];
    for e in edges {
        let slot = slot_of(e.to());
        counts[slot] = counts[slot].saturating_add(1);
    }
    counts
}

/// Whether a group is of a node.
fn is_group_of(groups: &[Group], place: usize, to: Node) -> bool
    requires { place < length groups.now }
    ensures { IsTrue result → IsGroupOf to groups.now place }
{
    is_same(groups[place].to, to)
}

/// The place of a node's group. The last node of its slot had the last group; past the end, there was no such node.
fn place_of(groups: &[Group], last: usize, to: Node) -> Option<usize>
    ensures { IfSome result (IsGroupOf to groups.now) }
{
    if last >= groups.len() {
        return None;
    }
    if is_group_of(groups, last, to) {
        return Some(last);
    }
    for place in 0..groups.len() {
        if is_group_of(groups, place, to) {
            return Some(place);
        }
    }
    None
}

/// The place of a node's group, which is made if there is none, with room for so many origins, or for a few.
fn group_at(
    alloc: Global,
    groups: &mut Vec<Group>,
    last: usize,
    room: u8,
    to: Node,
) -> Result<usize, AllocError>
    ensures { IfOk result (IsPlaced to groups.old.items groups.new.items) }
{
    if let Some(place) = place_of(groups, last, to) {
        return Ok(place);
    }
    let place = groups.len();
    let origins = Vec::with_capacity(alloc, usize::from(room.min(FEW_ORIGINS)))?;
    groups.push(Group { to, origins })?;
    Ok(place)
}

impl ProvenanceGraph {
    /// What leads to each node by some edges.
    fn grouped(&mut self, alloc: Global, edges: &[Edge]) -> Result<Vec<Group>, AllocError>
        ensures edges { IfOk result (λ groups. sorted (grouped self.new.sources groups.items) ≡ sorted edges.now) }
        ensures inside { IfOk result (λ groups. IsTrue (are_inside (length self.new.sources) groups.items)) }
        ensures same { OnOk result (edges_of self.new ≡ edges_of self.old) }
    {
        let mut groups = Vec::with_capacity(alloc, edges.len().min(FEW_GROUPS))?;
        self.sources.reserve(edges.len().min(SLOTS) + MORE)?;
        let counts = counts_of(edges);
        let mut places = [usize::MAX; SLOTS];
        for number in 0..edges.len() {
            let e = &edges[number];
            let source = self.source_behind(e.from())?;
            let slot = slot_of(e.to());
            let place = group_at(alloc, &mut groups, places[slot], counts[slot], e.to())?;
            places[slot] = place;
            let label = e.label().copy(alloc)?;
            groups[place].origins.push(Origin {
                source,
                label,
                number,
            })?;
        }
        Ok(groups)
    }

    /// Adds a reference for each group.
    fn refer_each(&mut self, groups: Vec<Group>) -> Result<(), AllocError>
        requires { IsTrue (are_inside (length self.old.sources) groups.items) }
        ensures { OnOk result (edges_of self.new ≡ edges_of self.old ++ grouped self.old.sources groups.items) }
    {
        let room = groups.len().saturating_add(MORE);
        self.provenances.reserve(room)?;
        self.references.reserve(room)?;
        for group in groups {
            self.refer(group.to, Provenance::Stated(group.origins))?;
        }
        Ok(())
    }

    /// The same edges: to each node that is referred to one provenance leads, of which it is stated what leads to it.
    pub(crate) fn of_edges(alloc: Global, edges: &Edges) -> Result<Self, AllocError>
        ensures { IfOk result (λ g. sorted (edges_of g) ≡ edges.now) }
    {
        let mut graph = ProvenanceGraph::new(alloc);
        if edges.is_empty() {
            return Ok(graph);
        }
        let groups = graph.grouped(alloc, edges.as_slice())?;
        graph.refer_each(groups)?;
        Ok(graph)
    }
}
