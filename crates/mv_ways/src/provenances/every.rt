// Whether all edges pass a test, asked while they are told.
ghost use Rattle.std.specs.Prelude.{◌≡◌, true};
ghost use Rattle.std.specs.List.{list_all};
ghost use Rattle.mv_ways.specs.Provenances.{edges_of};

use super::super::nodes::All;
use super::ProvenanceGraph;
use super::sink::Sink;
use super::told::Told;

/// A test of edges.
pub(crate) trait EdgeTest {
    ghost use Rattle.std.specs.Prelude.{◌≡◌, Bool};
    ghost use Rattle.mv_edges.specs.Edges.{Edge as EdgeRecord};

    /// Whether an edge passes.
    ghost test: { Self → EdgeRecord → Bool };

    /// Whether an edge passes.
    fn passes(&self, e: &Told<'_>) -> bool
        ensures { result ≡ test self.now e.now };
}

/// Whether all that it is told passes a test.
#[derive(Drop)]
struct Every<'t, T> {
    test: &'t T,
    holds: bool,
}

impl<'t, T> Every<'t, T> {
    /// Nothing has been told.
    fn of(test: &'t T) -> Self
        ensures test { result.test.now ≡ test.now }
        ensures holds { result.holds ≡ true }
    {
        Every { test, holds: true }
    }
}

impl<'t, T: EdgeTest> Sink for Every<'t, T> {
    ghost use Rattle.std.specs.Prelude.{◌≡◌, ◌&&◌};
    ghost use Rattle.std.specs.List.{list_all};
    ghost use Rattle.std.proofs.Common.{◌∙◌, refl, sym};
    ghost use Rattle.std.proofs.Math.Bool.{and-true};
    ghost use Rattle.mv_ways.specs.Sinks.{every_alike, every_joined};

    ghost after = { λ old es new. (new.test.now ≡ old.test.now) × (new.holds ≡ (old.holds && list_all (T.test old.test.now) es)) };

    ghost none = { λ s. (refl, sym (and-true s.holds)) };

    ghost joined = { λ r s t es fs first second. (second.0 ∙ first.0, every_joined T.test r.test.now s.test.now r.holds s.holds t.holds es fs first.0 first.1 second.1) };

    ghost alike = { λ s t es fs same it. (it.0, it.1 ∙ every_alike (T.test s.test.now) s.holds es fs same) };

    fn tell(&mut self, e: &Told<'_>) -> bool {
        self.holds = self.holds && self.test.passes(e);
        self.holds
    }
}

impl ProvenanceGraph {
    /// Whether all edges pass a test. It takes no memory but tables on the stack.
    #[tactic(auto, using(crate::proofs::ProvenanceGraph::Stating::into_all))]
    pub(crate) fn all_pass<T: EdgeTest>(&self, test: &T) -> bool
        ensures { result ≡ list_all (T.test test.now) (edges_of self.now) }
    {
        let mut every = Every::of(test);
        self.tell_each(&All, &mut every);
        every.holds
    }
}
