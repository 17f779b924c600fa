// Whether the edges lie below those of a list: one pass over the provenances for each reference. It takes no memory but tables on the
// stack.
ghost use Rattle.std.specs.Prelude.{◌≡◌, ℕ, ◌<◌, ◌≤◌, ◌↔◌, Some, length, slice_get, slice_index_or, IsTrue};
ghost use Rattle.mv_edges.specs.Edges.{edges_leq};
ghost use Rattle.mv_ways.specs.Covered.{AreCovered};
ghost use Rattle.mv_ways.specs.Derived.{begun_open, derived_edges, is_field, is_passed};
ghost use Rattle.mv_ways.specs.Going.{AreLeading, IsReturned, original, says_passed};
ghost use Rattle.mv_ways.specs.Provenances.{all_origins, are_earlier, edges_of, reference_edges};
ghost use Rattle.mv_ways.specs.declared.provenances.Provenance.{Provenance as ProvenanceRecord};
ghost use Rattle.mv_ways.specs.declared.provenances.under.leading.Mark.{Mark as MarkRecord};

mod covered;
pub(crate) mod leading;

use super::derivation::derived_from;
use super::sinks::Under;
use super::{FEW_PROVENANCES, MOST_PROVENANCES, Provenance, ProvenanceGraph, Reference};
use covered::{Covered, MOST_COVERED};
use leading::Mark;
use mv_edges::Edges;
use mv_move_types::Node;

/// Whether a provenance is that of a field.
fn is_field(provenance: &Provenance) -> bool
    ensures { result ≡ is_field provenance.now }
{
    match provenance {
        Provenance::Field { .. } => true,
        Provenance::Stated(_) | Provenance::Lent { .. } | Provenance::Returned(_) => false,
    }
}

impl ProvenanceGraph {
    /// Whether what is derived for a provenance leads to a node by edges below the others.
    fn is_derived_under(
        &self,
        room: &mut [u8],
        end: usize,
        is_open: bool,
        to: Node,
        others: &Edges,
    ) -> bool
        requires inside { end < length self.now.provenances }
        requires room { end < length room.old }
        ensures { result ≡ edges_leq (derived_edges self.now to is_open end) others.now }
    {
        let mut under = Under::of(others);
        let _more = self.tell_derived(room, end, is_open, to, &mut under);
        under.holds()
    }

    /// Whether what begins at a provenance, opened, leads to a node by edges below the others.
    fn is_begun_under(&self, provenance: &Provenance, to: Node, others: &Edges) -> bool
        ensures { result ≡ edges_leq (begun_open self.now to provenance.now) others.now }
    {
        let mut under = Under::of(others);
        let _more = self.tell_begun(provenance, &[], true, to, &mut under);
        under.holds()
    }

    /// Whether what is derived for a provenance, opened, leads to a node by edges below the others. If that holds of a provenance, it holds
    /// of its fields; and of its copies it holds if it holds of what they begin with.
    fn is_provenance_passed(
        &self,
        covered: &mut [Covered],
        marks: &[Mark],
        room: &mut [u8],
        place: usize,
        to: Node,
        others: &Edges,
    ) -> bool
        requires inside { place < length self.now.provenances }
        requires marks { length marks.now ≡ length self.now.provenances }
        requires room { length room.old ≡ length self.now.provenances }
        requires before { (k : ℕ) (d : MarkRecord) (provenance : ProvenanceRecord) → slice_get self.now.provenances place ≡ Some provenance → original provenance ≡ Some k
            → says_passed (slice_index_or marks.now k d) ≡ is_passed self.now to others.now k }
        requires covered { AreCovered self.now to others.now covered.old }
        ensures value { result ≡ is_passed self.now to others.now place }
        ensures covered { AreCovered self.now to others.now covered.new }
    {
        let provenance = &self.provenances()[place];
        if let Provenance::Stated(origins) = provenance {
            return self.are_origins_covered(covered, place, origins, to, others);
        }
        let Some(over) = derived_from(provenance) else {
            return self.is_begun_under(provenance, to, others);
        };
        if marks[over].is_passed() {
            return self.is_begun_under(provenance, to, others);
        }
        is_field(provenance) && self.is_chain_passed(covered, room, place, to, others)
    }

    /// Whether what is derived for each of the first provenances that was given to a function, opened, is below the others.
    #[inline(never)]
    fn are_first_passed(
        &self,
        marks: &mut [Mark],
        end: usize,
        room: &mut [u8],
        reference: Reference,
        others: &Edges,
    ) -> bool
        requires marks { length marks.old ≡ length self.now.provenances }
        requires room { length room.old ≡ length self.now.provenances }
        requires earlier { IsTrue (are_earlier 0 self.now.provenances) }
        requires leading { AreLeading self.now.provenances reference.provenance marks.old }
        requires within { end ≤ length self.now.provenances }
        requires before { (k : ℕ) → IsReturned self.now.provenances reference.provenance 0 k → k < end }
        ensures { IsTrue result ↔ ((k : ℕ) → IsReturned self.now.provenances reference.provenance 0 k → IsTrue (is_passed self.now reference.node others.now k)) }
    {
        let _provenances = self.provenances();
        let mut covered = [Covered::NOTHING; MOST_COVERED];
        for place in 0..end {
            if marks[place].leads() {
                let it = self.is_provenance_passed(
                    &mut covered,
                    marks,
                    room,
                    place,
                    reference.node(),
                    others,
                );
                if marks[place].was_given() && !it {
                    return false;
                }
                marks[place] = Mark::asked(it);
            }
        }
        true
    }

    /// Whether of each provenance that was given to a function, and leads to the reference's, what is derived for it, opened, is below the
    /// others.
    fn are_given_passed(
        &self,
        marks: &mut [Mark],
        room: &mut [u8],
        reference: Reference,
        others: &Edges,
    ) -> bool
        requires inside { reference.provenance < length self.now.provenances }
        requires marks { length marks.old ≡ length self.now.provenances }
        requires room { length room.old ≡ length self.now.provenances }
        requires earlier { IsTrue (are_earlier 0 self.now.provenances) }
        ensures { IsTrue result ↔ ((k : ℕ) → IsReturned self.now.provenances reference.provenance 0 k → IsTrue (is_passed self.now reference.node others.now k)) }
    {
        let end = self.mark_given_to(marks, reference.provenance());
        if end == 0 {
            return true;
        }
        self.are_first_passed(marks, end, room, reference, others)
    }

    /// Whether each edge of a reference is below one of the others, with room for what is noted of each provenance.
    fn is_reference_under(
        &self,
        marks: &mut [Mark],
        room: &mut [u8],
        reference: Reference,
        others: &Edges,
    ) -> bool
        requires inside { reference.provenance < length self.now.provenances }
        requires marks { length marks.old ≡ length self.now.provenances }
        requires room { length room.old ≡ length self.now.provenances }
        requires earlier { IsTrue (are_earlier 0 self.now.provenances) }
        ensures { result ≡ edges_leq (reference_edges self.now.sources (all_origins self.now.provenances) reference) others.now }
    {
        self.are_given_passed(marks, room, reference, others)
            && self.is_derived_under(
                room,
                reference.provenance(),
                false,
                reference.node(),
                others,
            )
    }

    /// Whether each edge is below one of the others, with room for what is noted of each provenance.
    fn are_under(&self, marks: &mut [Mark], room: &mut [u8], others: &Edges) -> bool
        requires marks { length marks.old ≡ length self.now.provenances }
        requires room { length room.old ≡ length self.now.provenances }
        ensures { result ≡ edges_leq (edges_of self.now) others.now }
    {
        for reference in self.references() {
            if !self.is_reference_under(marks, room, *reference, others) {
                return false;
            }
        }
        true
    }

    /// The same where there are many provenances.
    #[inline(never)]
    fn are_many_under(&self, others: &Edges) -> bool
        ensures { result ≡ edges_leq (edges_of self.now) others.now }
    {
        let count = self.provenances().len();
        let mut marks = [Mark::Nothing; MOST_PROVENANCES];
        let mut room = [0; MOST_PROVENANCES];
        self.are_under(&mut marks[..count], &mut room[..count], others)
    }

    /// Whether each edge is below one of the others. It takes no memory of its own but tables on the stack.
    pub(crate) fn is_under(&self, others: &Edges) -> bool
        ensures { result ≡ edges_leq (edges_of self.now) others.now }
    {
        let count = self.provenances().len();
        if count > FEW_PROVENANCES {
            return self.are_many_under(others);
        }
        let mut marks = [Mark::Nothing; FEW_PROVENANCES];
        let mut room = [0; FEW_PROVENANCES];
        self.are_under(&mut marks[..count], &mut room[..count], others)
    }
}
