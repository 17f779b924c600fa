// Which origins have an open label above them, so that all that begins with them is below the others and need not be asked again.
ghost use Rattle.std.specs.Prelude.{◌≡◌, ◌<◌, [], ◌∷◌, Some, length, slice_get, slice_index_or, IsTrue};
ghost use Rattle.mv_edges.specs.Edges.{edges_leq};
ghost use Rattle.mv_ways.specs.Behind.{begun_edges, edges_with, tail_edges};
ghost use Rattle.mv_ways.specs.Covered.{AreCovered, IsNoted, open_tail, stated};
ghost use Rattle.mv_ways.specs.Derived.{is_passed};
ghost use Rattle.mv_ways.specs.Provenances.{are_earlier};
ghost use Rattle.mv_ways.specs.declared.provenances.Provenance.{Provenance as ProvenanceRecord};
ghost use Rattle.mv_ways.specs.declared.provenances.under.covered.Covered.{Covered as CoveredRecord};

use super::super::derivation::{derived_from, from_on, put_before};
use super::super::sinks::has_above;
use super::super::told::Told;
use super::super::{Origin, Provenance, ProvenanceGraph};
use mv_edges::Edges;
use mv_move_types::Node;

/// How many origins can be noted.
pub(crate) const MOST_COVERED: usize = 1_024;

/// An origin that an open label is above, by its provenance and its place among what is stated of that.
#[derive(Clone, Copy, Debug)]
pub(crate) struct Covered {
    provenance: u16,
    origin: u16,
}

impl Covered {
    /// No origin: there aren't so many provenances.
    pub(crate) const NOTHING: Covered = Covered {
        provenance: u16::MAX,
        origin: 0,
    };
}

/// Notes an origin, by its number, unless there is no room for it.
fn note(covered: &mut [Covered], number: usize, provenance: usize, origin: usize)
    ensures { IsNoted covered.old covered.new provenance origin }
{
    if number < covered.len() && provenance < 65_536 && origin < 65_536 {
        covered[number] = Covered {
            provenance: provenance as u16,
            origin: origin as u16,
        };
    }
}

/// Whether an origin is noted.
fn is_noted(covered: &[Covered], number: usize, provenance: usize, origin: usize) -> bool
    ensures there { IsTrue result → number < length covered.now }
    ensures same_provenance { IsTrue result → (d : CoveredRecord) → (slice_index_or covered.now number d).provenance ≡ provenance }
    ensures same_origin { IsTrue result → (d : CoveredRecord) → (slice_index_or covered.now number d).origin ≡ origin }
{
    number < covered.len()
        && usize::from(covered[number].provenance) == provenance
        && usize::from(covered[number].origin) == origin
}

impl ProvenanceGraph {
    /// Whether what begins with an origin, and has these positions and any more behind it, leads to a node by edges below the others.
    fn is_origin_under(&self, origin: &Origin, path: &[u8], to: Node, others: &Edges) -> bool
        ensures { result ≡ edges_leq (tail_edges self.now.sources to origin.now (open_tail path.now)) others.now }
    {
        match self.source_at(origin.source()) {
            Some(from) => has_above(others, &Told::new(from, origin, path, true, to)),
            None => true,
        }
    }

    /// Whether an open label is above each origin that is stated of a provenance. Those of which it holds are noted.
    pub(super) fn are_origins_covered(
        &self,
        covered: &mut [Covered],
        place: usize,
        origins: &[Origin],
        to: Node,
        others: &Edges,
    ) -> bool
        requires there { (provenance : ProvenanceRecord) → slice_get self.now.provenances place ≡ Some provenance → stated provenance ≡ origins.now }
        requires covered { AreCovered self.now to others.now covered.old }
        ensures value { result ≡ edges_leq (edges_with self.now.sources to origins.now (open_tail [] ∷ [])) others.now }
        ensures covered { AreCovered self.now to others.now covered.new }
    {
        let mut all = true;
        for index in 0..origins.len() {
            let origin = &origins[index];
            if self.is_origin_under(origin, &[], to, others) {
                note(covered, origin.number, place, index);
            } else {
                all = false;
            }
        }
        all
    }

    /// Whether what begins with each origin that is stated of a provenance, with positions and any more behind it, leads to a node by edges
    /// below the others.
    fn are_origins_under(
        &self,
        covered: &[Covered],
        place: usize,
        origins: &[Origin],
        path: &[u8],
        to: Node,
        others: &Edges,
    ) -> bool
        requires there { (provenance : ProvenanceRecord) → slice_get self.now.provenances place ≡ Some provenance → stated provenance ≡ origins.now }
        requires inside { place < length self.now.provenances }
        requires covered { AreCovered self.now to others.now covered.now }
        ensures { result ≡ edges_leq (edges_with self.now.sources to origins.now (open_tail path.now ∷ [])) others.now }
    {
        for index in 0..origins.len() {
            let origin = &origins[index];
            if !is_noted(covered, origin.number, place, index)
                && !self.is_origin_under(origin, path, to, others)
            {
                return false;
            }
        }
        true
    }

    /// The same of what begins at a provenance.
    fn is_provenance_under(
        &self,
        covered: &[Covered],
        place: usize,
        path: &[u8],
        to: Node,
        others: &Edges,
    ) -> bool
        requires inside { place < length self.now.provenances }
        requires covered { AreCovered self.now to others.now covered.now }
        ensures { (provenance : ProvenanceRecord) → slice_get self.now.provenances place ≡ Some provenance
            → result ≡ edges_leq (begun_edges self.now.sources to provenance (open_tail path.now ∷ [])) others.now }
    {
        match &self.provenances()[place] {
            Provenance::Stated(origins) => self.are_origins_under(
                covered, place, origins, path, to, others,
            ),
            Provenance::Lent { source, over: _ } => {
                self.is_origin_under(&Origin::lent(*source), path, to, others)
            }
            Provenance::Field { .. } | Provenance::Returned(_) => true,
        }
    }

    /// Whether what is derived for a provenance, opened, leads to a node by edges below the others.
    pub(super) fn is_chain_passed(
        &self,
        covered: &[Covered],
        room: &mut [u8],
        end: usize,
        to: Node,
        others: &Edges,
    ) -> bool
        requires inside { end < length self.now.provenances }
        requires room { end < length room.old }
        requires earlier { IsTrue (are_earlier 0 self.now.provenances) }
        requires covered { AreCovered self.now to others.now covered.now }
        ensures { result ≡ is_passed self.now to others.now end }
    {
        let mut at = room.len();
        let mut next = Some(end);
        while let Some(place) = next {
            if !self.is_provenance_under(covered, place, from_on(room, at), to, others) {
                return false;
            }
            let provenance = &self.provenances()[place];
            at = put_before(provenance, room, at);
            next = derived_from(provenance);
        }
        true
    }
}
