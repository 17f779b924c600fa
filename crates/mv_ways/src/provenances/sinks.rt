// What is made of edges, and what is asked of them, while they are told.
ghost use Rattle.std.specs.Prelude.{◌≡◌, ◌<◌, ◌++◌, ◌∷◌, [], false, length, true, IfOk, IsTrue, OnOk};
ghost use Rattle.std.specs.List.{AllWithin, list_any};
ghost use Rattle.mv_edges.specs.Ascending.{are_ascending, edge_before, node_index};
ghost use Rattle.mv_edges.specs.Edges.{an_edge, edge_leq, here};
ghost use Rattle.mv_edges.specs.Numbers.{node_number, nodes_number};
ghost use Rattle.mv_edges.specs.Sorted.{sorted};
ghost use Rattle.mv_ways.specs.Listing.{listed};

use super::sink::Sink;
use super::told::Told;
use mv_edges::{Edge, Edges};
use mv_move_types::Node;
use std::alloc::{AllocError, Global};
use std::mem::replace;

/// A node as a number, by which nodes are ordered.
fn node_number(node: Node) -> u64
    ensures value { result ≡ node_number node }
    ensures index { node_index node < 65536 }
    ensures small { result < 262144 }
{
    match node {
        Node::Slot(local) => u64::from(local),
        Node::Own(local) => 65_536 + u64::from(local),
        Node::Glob(definition) => 131_072 + u64::from(definition),
        Node::Temp(place) => 196_608 + u64::from(place),
    }
}

/// The nodes of an edge as a number, by which edges are ordered.
fn nodes_number(from: Node, to: Node) -> u64
    ensures value { result ≡ nodes_number from to }
    ensures from { node_index from < 65536 }
    ensures to { node_index to < 65536 }
{
    node_number(from) * 262_144 + node_number(to)
}

/// Whether the edge at a place, if there is one, is above another one.
fn is_above_at(others: &[Edge], place: usize, e: &Told<'_>) -> bool
    ensures { IsTrue result → IsTrue (list_any (edge_leq e.now) others.now) }
{
    match others.get(place) {
        Some(other) => e.is_below(&Told::of(other)),
        None => false,
    }
}

/// The place of the first edge that doesn't come before all those from one node to another, whose number is given.
fn first_from(others: &[Edge], from: Node, to: Node, number: u64) -> usize
    requires ascending { IsTrue (are_ascending others.now) }
    requires number { number ≡ nodes_number from to }
    requires from { node_index from < 65536 }
    requires to { node_index to < 65536 }
    ensures before { AllWithin (λ x. edge_before x (an_edge from here to) ≡ true) others.now 0 result }
    ensures behind { AllWithin (λ x. edge_before x (an_edge from here to) ≡ false) others.now result (length others.now) }
{
    let mut low = 0;
    let mut high = others.len();
    while low < high {
        let middle = low + (high - low) / 2;
        let other = &others[middle];
        if nodes_number(other.from(), other.to()) < number {
            low = middle + 1;
        } else {
            high = middle;
        }
    }
    low
}

/// Whether an edge is below one of a list's, which is searched for by its nodes.
fn is_above_from(others: &Edges, e: &Told<'_>) -> bool
    ensures { result ≡ list_any (edge_leq e.now) others.now }
{
    let items = others.as_slice();
    let number = nodes_number(e.from(), e.to());
    let first = first_from(items, e.from(), e.to(), number);
    for place in first..items.len() {
        let other = &items[place];
        if e.is_below(&Told::of(other)) {
            return true;
        }
        if nodes_number(other.from(), other.to()) != number {
            return false;
        }
    }
    false
}

/// Whether an edge is below one of a list's. It is looked for first where it is likely to be, since lists are often much the same.
pub(super) fn has_above(others: &Edges, e: &Told<'_>) -> bool
    ensures { result ≡ list_any (edge_leq e.now) others.now }
{
    is_above_at(others.as_slice(), e.guess(), e) || is_above_from(others, e)
}

/// Whether all that it is told lies below others.
#[derive(Drop)]
pub(super) struct Under<'a> {
    others: &'a Edges,
    holds: bool,
}

impl<'a> Under<'a> {
    /// Nothing has been told.
    pub(super) fn of(others: &'a Edges) -> Self
        ensures others { result.others.now ≡ others.now }
        ensures holds { result.holds ≡ true }
    {
        Under {
            others,
            holds: true,
        }
    }

    /// Whether all of it lies below the others.
    pub(super) fn holds(&self) -> bool
        ensures { result ≡ self.now.holds }
    {
        self.holds
    }
}

impl<'a> Sink for Under<'a> {
    ghost use Rattle.std.specs.Prelude.{◌≡◌, ◌&&◌};
    ghost use Rattle.std.proofs.Common.{◌∙◌, refl, sym};
    ghost use Rattle.std.proofs.Math.Bool.{and-true};
    ghost use Rattle.mv_edges.specs.Edges.{edges_leq};
    ghost use Rattle.mv_ways.specs.Sinks.{under_alike, under_joined};

    ghost after = { λ old es new. (new.others.now ≡ old.others.now) × (new.holds ≡ (old.holds && edges_leq es old.others.now)) };

    ghost none = { λ s. (refl, sym (and-true s.holds)) };

    ghost joined = { λ r s t es fs first second. (second.0 ∙ first.0, under_joined r.holds s.holds t.holds r.others.now s.others.now es fs first.0 first.1 second.1) };

    ghost alike = { λ s t es fs same it. (it.0, it.1 ∙ under_alike s.holds s.others.now es fs same) };

    fn tell(&mut self, e: &Told<'_>) -> bool {
        self.holds = self.holds && has_above(self.others, e);
        self.holds
    }
}

/// The edges in order, each once. They are sorted by their nodes first, since most of them are in order then.
#[tactic(auto, using(crate::proofs::Listed::sorted_permuted))]
fn in_order(mut items: Vec<Edge>) -> Result<Edges, AllocError>
    ensures { IfOk result (λ es. es ≡ sorted items.items) }
{
    items.sort_by_cached_key(|e| nodes_number(e.from(), e.to()))?;
    Edges::of_unordered(items)
}

/// How many edges are told before they are put in order.
const MANY_EDGES: usize = 1_024;

/// A list of all that it is told.
#[derive(Drop)]
pub(super) struct Listing {
    ordered: Edges,
    // Edges that aren't in order yet: never many more than those that are, so that one that is told often takes little room.
    items: Vec<Edge>,
    // Whether an allocation failed. The edges are of no use then.
    has_failed: bool,
}

impl Listing {
    /// Nothing has been told. There is room for so many edges.
    pub(super) fn new(alloc: Global, room: usize) -> Result<Self, AllocError>
        ensures edges { IfOk result (λ l. listed l ≡ []) }
        ensures failed { IfOk result (λ l. l.has_failed ≡ false) }
    {
        Ok(Listing {
            ordered: Edges::new(alloc),
            items: Vec::with_capacity(alloc, room)?,
            has_failed: false,
        })
    }

    /// Puts all edges in order.
    #[tactic(auto, using(crate::proofs::Listed::put_in_order))]
    fn put_in_order(&mut self) -> Result<(), AllocError>
        ensures edges { OnOk result (sorted (listed self.new) ≡ sorted (listed self.old)) }
        ensures failed { self.new.has_failed ≡ self.old.has_failed }
    {
        let alloc = *self.items.allocator();
        let items = replace(&mut self.items, Vec::new(alloc));
        self.ordered.add_all(in_order(items)?)?;
        Ok(())
    }

    /// Adds an edge.
    fn push(&mut self, e: &Told<'_>) -> Result<(), AllocError>
        ensures edges { OnOk result (sorted (listed self.new) ≡ sorted (listed self.old ++ e.now ∷ [])) }
        ensures failed { self.new.has_failed ≡ self.old.has_failed }
    {
        let alloc = *self.items.allocator();
        self.items.push(e.edge(alloc)?)?;
        if self.items.len() < MANY_EDGES || self.items.len() < self.ordered.len() {
            return Ok(());
        }
        self.put_in_order()
    }

    /// The edges in order, each once.
    ///
    /// # Errors
    /// If an allocation failed, now or while edges were told.
    #[tactic(auto, using(crate::proofs::Listed::all_in_order, crate::proofs::Listed::none_in_order))]
    pub(super) fn edges(self) -> Result<Edges, AllocError>
        ensures edges { IfOk result (λ es. es ≡ sorted (listed self)) }
        ensures failed { OnOk result (self.has_failed ≡ false) }
    {
        if self.has_failed {
            return Err(AllocError);
        }
        let mut edges = in_order(self.items)?;
        if self.ordered.is_empty() {
            return Ok(edges);
        }
        edges.add_all(self.ordered)?;
        Ok(edges)
    }
}

impl Sink for Listing {
    ghost use Rattle.std.specs.Prelude.{◌≡◌, ◌++◌, false};
    ghost use Rattle.std.proofs.Common.{◌∙◌};
    ghost use Rattle.mv_edges.specs.Sorted.{sorted};
    ghost use Rattle.mv_edges.proofs.AsSets.{sorted_behind_alike};
    ghost use Rattle.mv_ways.specs.Listing.{listed};
    ghost use Rattle.mv_ways.specs.Sinks.{listed_joined, listed_none};

    ghost after = { λ old es new. new.has_failed ≡ false → (old.has_failed ≡ false) × (sorted (listed new) ≡ sorted (listed old ++ es)) };

    ghost none = { λ s h. (h, listed_none (listed s)) };

    ghost joined = { λ r s t es fs first second h. ((first (second h).0).0, listed_joined (listed r) (listed s) (listed t) es fs (first (second h).0).1 (second h).1) };

    ghost alike = { λ s t es fs same it h. ((it h).0, (it h).1 ∙ sorted_behind_alike (listed s) es fs same) };

    fn tell(&mut self, e: &Told<'_>) -> bool {
        if self.push(e).is_err() {
            self.has_failed = true;
        }
        !self.has_failed
    }
}
