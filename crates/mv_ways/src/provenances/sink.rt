// What edges are told to, one by one.
use super::told::Told;

/// What edges are told to, in any order, and any of them more than once.
pub(crate) trait Sink {
    ghost use Rattle.std.specs.Prelude.{◌≡◌, ◌++◌, ◌∷◌, [], List};
    ghost use Rattle.mv_edges.specs.Edges.{Edge as EdgeRecord};
    ghost use Rattle.mv_edges.specs.Sorted.{sorted};
    ghost use Rattle.mv_ways.specs.Told.{IsTold};

    /// The second is what the first becomes when it is told these edges.
    ghost after: { Self → List EdgeRecord → Self → Type 0 };

    /// Tells it an edge, and returns whether it is to be told any more.
    fn tell(&mut self, e: &Told<'_>) -> bool
        ensures { IsTold after self.old (e.now ∷ []) result self.new };

    /// No edges change nothing.
    ghost none: { (s : Self) → after s [] s };

    /// Edges are told one after the other.
    ghost joined: { (r s t : Self) (es fs : List EdgeRecord) → after r es s → after s fs t → after r (es ++ fs) t };

    /// The order doesn't matter, nor how often each is told.
    ghost alike: { (s t : Self) (es fs : List EdgeRecord) → sorted es ≡ sorted fs → after s es t → after s fs t };
}
