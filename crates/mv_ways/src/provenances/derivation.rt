// The edges that are derived for a provenance, told one by one. It takes no memory.
ghost use Rattle.std.specs.Prelude.{◌≡◌, ◌<◌, ◌≤◌, ◌+◌, ◌∷◌, [], drop, length};
ghost use Rattle.mv_ways.specs.Behind.{a_tail, begun_edges, edges_with, tail_edges};
ghost use Rattle.mv_ways.specs.Derived.{all_derived, path_before};
ghost use Rattle.mv_ways.specs.Going.{original};
ghost use Rattle.mv_ways.specs.Told.{IsTold};
ghost use Rattle.mv_ways.specs.Provenances.{origins_at};

use super::sink::Sink;
use super::told::Told;
use super::{Origin, Provenance, ProvenanceGraph};
use mv_move_types::Node;

/// The provenance that a copy or a field goes over.
pub(super) fn derived_from(provenance: &Provenance) -> Option<usize>
    ensures { result ≡ original provenance.now }
{
    match provenance {
        Provenance::Lent { over, .. } => *over,
        Provenance::Field { over, .. } => Some(*over),
        Provenance::Stated(_) | Provenance::Returned(_) => None,
    }
}

/// Puts the position of a field before those that stand from a place on, and returns the place where they stand then.
pub(super) fn put_before(provenance: &Provenance, room: &mut [u8], at: usize) -> usize
    requires some { 0 < at }
    requires inside { at ≤ length room.old }
    ensures count { length room.new ≡ length room.old }
    ensures within { result ≤ at }
    ensures one { at ≤ result + 1 }
    ensures path { drop result room.new ≡ path_before provenance.now (drop at room.old) }
{
    match provenance {
        Provenance::Field { position, .. } => {
            room[at - 1] = *position;
            at - 1
        }
        Provenance::Stated(_) | Provenance::Lent { .. } | Provenance::Returned(_) => at,
    }
}

/// The positions from a place on.
pub(super) fn from_on(room: &[u8], at: usize) -> &[u8]
    requires { at ≤ length room.now }
    ensures { result.now ≡ drop at room.now }
{
    &room[at..]
}

impl ProvenanceGraph {
    /// Tells the edge by an origin and positions behind it, if its source is still there.
    fn tell_origin<S: Sink>(
        &self,
        origin: &Origin,
        path: &[u8],
        is_open: bool,
        to: Node,
        sink: &mut S,
    ) -> bool
        ensures { IsTold S.after sink.old (tail_edges self.now.sources to origin.now (a_tail (record { path = path.now; is_open = is_open }))) result sink.new }
    {
        match self.source_at(origin.source()) {
            Some(from) => sink.tell(&Told::new(from, origin, path, is_open, to)),
            None => true,
        }
    }

    /// Tells the edges of each of some origins.
    fn tell_stated<S: Sink>(
        &self,
        origins: &[Origin],
        path: &[u8],
        is_open: bool,
        to: Node,
        sink: &mut S,
    ) -> bool
        ensures { IsTold S.after sink.old (edges_with self.now.sources to origins.now (a_tail (record { path = path.now; is_open = is_open }) ∷ [])) result sink.new }
    {
        for origin in origins {
            if !self.tell_origin(origin, path, is_open, to, sink) {
                return false;
            }
        }
        true
    }

    /// Tells the edges that begin at a provenance.
    pub(super) fn tell_begun<S: Sink>(
        &self,
        provenance: &Provenance,
        path: &[u8],
        is_open: bool,
        to: Node,
        sink: &mut S,
    ) -> bool
        ensures { IsTold S.after sink.old (begun_edges self.now.sources to provenance.now (a_tail (record { path = path.now; is_open = is_open }) ∷ [])) result sink.new }
    {
        match provenance {
            Provenance::Stated(origins) => self.tell_stated(origins, path, is_open, to, sink),
            Provenance::Lent { source, over: _ } => {
                self.tell_origin(&Origin::lent(*source), path, is_open, to, sink)
            }
            Provenance::Field { .. } | Provenance::Returned(_) => true,
        }
    }

    /// Tells the edges by which what is derived for a provenance leads to a node.
    pub(super) fn tell_derived<S: Sink>(
        &self,
        room: &mut [u8],
        end: usize,
        is_open: bool,
        to: Node,
        sink: &mut S,
    ) -> bool
        requires inside { end < length self.now.provenances }
        requires room { end < length room.old }
        ensures { IsTold S.after sink.old (edges_with self.now.sources to (origins_at (all_derived self.now.provenances) end)
            (a_tail (record { path = []; is_open = is_open }) ∷ [])) result sink.new }
    {
        let mut at = room.len();
        let mut next = Some(end);
        while let Some(place) = next {
            let provenance = &self.provenances()[place];
            if !self.tell_begun(provenance, from_on(room, at), is_open, to, sink) {
                return false;
            }
            at = put_before(provenance, room, at);
            next = derived_from(provenance);
        }
        true
    }
}
