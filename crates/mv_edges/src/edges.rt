// A list of edges in their order.
ghost use Rattle.std.specs.Prelude.{◌≡◌, max, ◌+◌, ◌-◌, ◌<◌, ◌==◌, ◌++◌, ◌∷◌, List, [], length, slice_get, if◌then◌else◌, IsTrue, IfOk, OnOk, OnErr, option_copied};
ghost use Rattle.mv_edges.specs.Edges.{longest};
ghost use Rattle.mv_edges.specs.Ascending.{are_ascending};
ghost use Rattle.mv_edges.specs.Sorted.{inserted, sorted};

use super::Edge;
use super::unordered::{add_in_order, put_in_order};
use std::alloc::{AllocError, Global};
use std::marker::Model;

/// The larger of two numbers.
fn larger(a: usize, b: usize) -> usize
    ensures { result ≡ max a b }
{
    if a < b { b } else { a }
}

/// The length of the longest list among the labels.
fn longest_of(items: &[Edge]) -> usize
    ensures { result ≡ longest items.now }
{
    let mut most = 0;
    for e in items {
        most = larger(most, e.view().depth());
    }
    most
}

/// Edges of the borrow graph, each once, in ascending order.
#[derive(Drop, Debug)]
pub struct Edges {
    items: Vec<Edge>,
    // The length of the longest list among the labels.
    longest: usize,
}

impl Model for Edges {
    ghost use Rattle.std.specs.Prelude.{◌≡◌, List, IsTrue};
    ghost use Rattle.mv_edges.specs.Edges.{Edge as EdgeRecord, longest as longest_path};
    ghost use Rattle.mv_edges.specs.Ascending.{are_ascending};

    ghost Value = { List EdgeRecord };

    ghost view = { λ s. s.items.items };

    ghost invariant = { λ s. IsTrue (are_ascending s.items.items) × (s.longest ≡ longest_path s.items.items) };
}

impl PartialEq for Edges {
    ghost use Rattle.std.specs.Cmp.Lexicographic.{pointwise, lists_per};
    ghost use Rattle.std.specs.Cmp.{partial_equiv_from_equiv};
    ghost use Rattle.mv_edges.specs.Edges.{same_edge};
    ghost use Rattle.mv_edges.specs.Equality.{same_edge_equiv};

    ghost eq = { pointwise same_edge };

    ghost laws = { lists_per (partial_equiv_from_equiv same_edge_equiv) };

    fn eq(&self, other: &Self) -> bool {
        self.items == other.items
    }
}

impl Eq for Edges {
    ghost use Rattle.std.specs.Cmp.Lexicographic.{lists_equiv};
    ghost use Rattle.mv_edges.specs.Equality.{same_edge_equiv};

    ghost laws = { lists_equiv same_edge_equiv };
}

impl Edges {
    /// No edges.
    pub fn new(alloc: Global) -> Self
        ensures { result ≡ [] }
    {
        Edges {
            items: Vec::new(alloc),
            longest: 0,
        }
    }

    /// These edges, which ascend.
    pub(crate) fn of_items(items: Vec<Edge>) -> Self
        requires { IsTrue (are_ascending items.items) }
        ensures { result ≡ items.items }
    {
        let longest = longest_of(&items);
        Edges { items, longest }
    }

    /// Edges in any order, put in theirs, each once.
    ///
    /// # Errors
    /// If an allocation failed; the edges are dropped.
    pub fn of_unordered(mut items: Vec<Edge>) -> Result<Self, AllocError>
        ensures edges { IfOk result (λ s. s ≡ sorted items.items) }
        ensures ascending { IfOk result (λ s. IsTrue (are_ascending s)) }
    {
        put_in_order(&mut items)?;
        Ok(Edges::of_items(items))
    }

    /// The edges as a vector, in ascending order.
    pub(crate) fn into_items(self) -> Vec<Edge>
        ensures value { result.items ≡ self }
        ensures ascending { IsTrue (are_ascending result.items) }
    {
        let Edges { items, .. } = self;
        items
    }

    /// How many edges there are.
    pub fn len(&self) -> usize
        ensures { result ≡ length self.now }
    {
        self.items.len()
    }

    /// Whether there is no edge.
    pub fn is_empty(&self) -> bool
        ensures { result ≡ (length self.now == 0) }
    {
        self.items.is_empty()
    }

    /// The edge at a place.
    pub fn get(&self, place: usize) -> Option<&Edge>
        ensures { option_copied result ≡ slice_get self.now place }
    {
        self.items.get(place)
    }

    /// The edges, in ascending order.
    pub fn as_slice(&self) -> &[Edge]
        ensures value { result.now ≡ self.now }
        ensures ascending { IsTrue (are_ascending self.now) }
    {
        self.items.as_slice()
    }

    /// The length of the longest list among the labels.
    pub fn longest(&self) -> usize
        ensures { result ≡ longest self.now }
    {
        self.longest
    }

    /// Whether the edges still ascend with another at their end.
    fn ascend_with(&self, e: &Edge) -> bool
        ensures { result ≡ are_ascending (self.now ++ e.now ∷ []) }
    {
        match self.items.last() {
            Some(last) => last.is_before(e),
            None => true,
        }
    }

    /// Adds an edge at the end if the edges then still ascend, and returns whether they do.
    #[tactic(auto, using(crate::proofs::Lengths::longest_push))]
    pub fn push_last(&mut self, e: Edge) -> Result<bool, AllocError>
        ensures answer { IfOk result (λ pushed. pushed ≡ are_ascending (self.old ++ e ∷ [])) }
        ensures edges { IfOk result (λ pushed. self.new ≡ (if pushed then self.old ++ e ∷ [] else self.old)) }
        ensures err { OnErr result (self.new ≡ self.old) }
    {
        let ascend = self.ascend_with(&e);
        if ascend {
            let depth = e.view().depth();
            self.items.push(e)?;
            self.longest = larger(self.longest, depth);
        }
        Ok(ascend)
    }

    /// Adds an edge in its place, where it is not there already.
    pub fn insert(&mut self, e: Edge) -> Result<(), AllocError>
        ensures ok { OnOk result (self.new ≡ inserted e self.old) }
        ensures sorted { OnOk result (self.new ≡ sorted (self.old ++ e ∷ [])) }
        ensures err { OnErr result (self.new ≡ self.old) }
    {
        let view = e.view();
        match self.search(&view, &mut 0) {
            Ok(_) => Ok(()),
            Err(place) => {
                self.items.insert(place, e)?;
                self.longest = longest_of(&self.items);
                Ok(())
            }
        }
    }

    /// Adds the edges of another list, in one pass over both, or over the others alone if all of them come after the last one.
    ///
    /// # Errors
    /// If an allocation failed; then the edges are unchanged.
    pub fn add_all(&mut self, others: Edges) -> Result<(), AllocError>
        ensures ok { OnOk result (self.new ≡ sorted (self.old ++ others)) }
        ensures err { OnErr result (self.new ≡ self.old) }
    {
        add_in_order(&mut self.items, others.into_items())?;
        self.longest = longest_of(&self.items);
        Ok(())
    }

    /// Equal edges.
    pub fn copy(&self, alloc: Global) -> Result<Self, AllocError>
        ensures equal { IfOk result (λ s. s ≡ self.now) }
        ensures ascending { IfOk result (λ s. IsTrue (are_ascending s)) }
    {
        let mut items = Vec::with_capacity(alloc, self.len())?;
        for e in &self.items {
            items.push(e.copy(alloc)?)?;
        }
        let longest = self.longest;
        Ok(Edges { items, longest })
    }
}
