// How many edges there are, asked of a graph of provenances: the first edge is told, then each time the first one behind that. It takes no
// memory but tables on the stack, and a walk for each edge that is counted.
ghost use Rattle.std.specs.Prelude.{◌≡◌, ◌&&◌, [], ◌∷◌, filter, length, nat_le, slice_get, None, IsTrue};
ghost use Rattle.std.specs.List.{list_all};
ghost use Rattle.mv_edges.specs.Sorted.{sorted};
ghost use Rattle.mv_ways.specs.Counting.{first_behind, is_before_first, is_behind, is_short};
ghost use Rattle.mv_ways.specs.Provenances.{edges_of};

use super::super::nodes::All;
use super::ProvenanceGraph;
use super::sink::Sink;
use super::told::Told;
use mv_edges::Edge;
use std::alloc::Global;

/// Whether an edge comes behind the last one, if there is one.
fn is_behind(last: &Option<Edge>, e: &Edge) -> bool
    ensures { result ≡ is_behind last.now e.now }
{
    match last {
        Some(last) => last.is_before(e),
        None => true,
    }
}

/// Whether an edge comes before the first one, if there is one.
fn is_before_first(first: &Option<Edge>, e: &Edge) -> bool
    ensures { result ≡ is_before_first first.now e.now }
{
    match first {
        Some(first) => e.is_before(first),
        None => true,
    }
}

/// The first edge behind another one among all that it is told, if their labels are short.
#[derive(Drop)]
struct Next {
    alloc: Global,
    last: Option<Edge>,
    first: Option<Edge>,
}

impl Next {
    /// Whether an edge is behind the last one, and before the first one so far.
    fn comes_first(&self, e: &Edge) -> bool
        ensures { result ≡ (is_behind self.now.last e.now && is_before_first self.now.first e.now) }
    {
        is_behind(&self.last, e) && is_before_first(&self.first, e)
    }

    /// Takes an edge for the first one, if it is.
    #[tactic(auto, using(crate::proofs::ProvenanceGraph::Counting::first_noted, crate::proofs::ProvenanceGraph::Counting::first_kept))]
    fn note(&mut self, e: Edge)
        ensures last { self.new.last ≡ self.old.last }
        ensures first { self.new.first ≡ first_behind self.old.last self.old.first (e ∷ []) }
    {
        if self.comes_first(&e) {
            self.first = Some(e);
        }
    }
}

impl Sink for Next {
    ghost use Rattle.std.specs.Prelude.{◌≡◌, true};
    ghost use Rattle.std.specs.List.{list_all};
    ghost use Rattle.std.proofs.Common.{◌∙◌, refl};
    ghost use Rattle.mv_ways.specs.Counting.{first_behind, is_short, next_alike, next_joined, next_none};

    ghost after = { λ old es new. (new.last ≡ old.last) × (list_all is_short es ≡ true → new.first ≡ first_behind old.last old.first es) };

    ghost none = { λ s. (refl, λ _. next_none s.last s.first) };

    ghost joined = { λ r s t es fs first second. (second.0 ∙ first.0, next_joined r.last s.last r.first s.first t.first es fs first.0 first.1 second.1) };

    ghost alike = { λ s t es fs same it. (it.0, next_alike s.last s.first t.first es fs same it.1) };

    fn tell(&mut self, e: &Told<'_>) -> bool {
        if let Some(e) = e.short_edge(self.alloc) {
            self.note(e);
        }
        true
    }
}

impl ProvenanceGraph {
    /// The first edge behind another one, if there is one.
    fn next(&self, last: Option<Edge>) -> Option<Edge>
        requires { IsTrue (list_all is_short (edges_of self.now)) }
        ensures { result ≡ slice_get (filter (is_behind last) (sorted (edges_of self.now))) 0 }
    {
        let mut next = Next {
            alloc: *self.sources.allocator(),
            last,
            first: None,
        };
        self.tell_each(&All, &mut next);
        next.first
    }

    /// Whether there are at most so many edges, whose labels are short.
    #[tactic(auto, using(crate::proofs::ProvenanceGraph::Counting::no_more, crate::proofs::ProvenanceGraph::Counting::one_more))]
    pub(crate) fn are_at_most(&self, most: usize) -> bool
        requires { IsTrue (list_all is_short (edges_of self.now)) }
        ensures { result ≡ nat_le (length (sorted (edges_of self.now))) most }
    {
        let mut last = None;
        let mut count = 0;
        while count < most {
            let Some(next) = self.next(last) else {
                return true;
            };
            last = Some(next);
            count += 1;
        }
        match self.next(last) {
            Some(_next) => false,
            None => true,
        }
    }
}
