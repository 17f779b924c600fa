// What becomes of a graph of provenances where a reference is made one to a field.
ghost use Rattle.std.specs.Prelude.{◌≡◌, ℕ, ◌<◌, ◌++◌, [], length, map, slice_index_or, slice_set, IfOk, IfSome, OnOk, IsTrue};
ghost use Rattle.mv_edges.specs.Edges.{extended, inherited, opened, without};
ghost use Rattle.mv_edges.specs.Sorted.{sorted};
ghost use Rattle.mv_ways.specs.Provenances.{HasMoreProvenances, a_reference, all_origins, changed_origins, edge_lists, edges_of, extended_into, origins_at};
ghost use Rattle.mv_ways.specs.declared.provenances.Provenance.{Provenance as ProvenanceRecord};

use super::super::nodes::One;
use super::{Provenance, ProvenanceGraph, Reference};
use mv_edges::is_same;
use mv_move_types::Node;
use std::alloc::{AllocError, Global};

/// Whether a provenance is that of a field of another one.
fn is_field_of(provenance: &Provenance, over: usize, position: u8) -> bool
    ensures { IsTrue result → provenance.now ≡ ProvenanceRecord.Field over position }
{
    match provenance {
        Provenance::Field {
            over: its_over,
            position: its_position,
        } => *its_over == over && *its_position == position,
        Provenance::Stated(_) | Provenance::Lent { .. } | Provenance::Returned(_) => false,
    }
}

impl ProvenanceGraph {
    /// Whether a function returned what a provenance leads to, so that all that leads there is open.
    pub(super) fn is_returned(&self, place: usize) -> bool
        requires { place < length self.now.provenances }
        ensures fields { IsTrue result → (f : ℕ) → changed_origins (extended f) (origins_at (all_origins self.now.provenances) place)
            ≡ origins_at (all_origins self.now.provenances) place }
        ensures opened { IsTrue result → changed_origins opened (origins_at (all_origins self.now.provenances) place) ≡ origins_at (all_origins self.now.provenances) place }
    {
        match &self.provenances()[place] {
            Provenance::Stated(_) | Provenance::Lent { .. } | Provenance::Field { .. } => false,
            Provenance::Returned(_) => true,
        }
    }

    /// The place of a provenance of the same field, if there is one.
    fn alike_field(&self, over: usize, position: u8) -> Option<usize>
        requires { over < length self.now.provenances }
        ensures below { IfSome result (λ provenance. provenance < length self.now.provenances) }
        ensures origins { IfSome result (λ provenance. origins_at (all_origins self.now.provenances) provenance
            ≡ changed_origins (extended position) (origins_at (all_origins self.now.provenances) over)) }
    {
        let provenances = self.provenances();
        for place in over + 1..provenances.len() {
            if is_field_of(&provenances[place], over, position) {
                return Some(place);
            }
        }
        None
    }

    /// The provenance of a field. All that leads to what a function returned is open, and so leads to its fields.
    fn field(&mut self, over: usize, position: u8) -> Result<usize, AllocError>
        requires { over < length self.old.provenances }
        ensures below { IfOk result (λ provenance. provenance < length self.new.provenances) }
        ensures more { OnOk result (HasMoreProvenances self.old self.new) }
        ensures origins { IfOk result (λ provenance. origins_at (all_origins self.new.provenances) provenance
            ≡ changed_origins (extended position) (origins_at (all_origins self.old.provenances) over)) }
    {
        if self.is_returned(over) {
            return Ok(over);
        }
        if let Some(provenance) = self.alike_field(over, position) {
            return Ok(provenance);
        }
        let provenance = self.push_provenance(Provenance::Field { over, position })?;
        Ok(provenance)
    }

    /// Puts a reference in another one's place.
    fn put_reference(&mut self, place: usize, node: Node, provenance: usize)
        requires inside { place < length self.old.references }
        requires below { provenance < length self.old.provenances }
        ensures { self.new ≡ record {
          sources = self.old.sources;
          provenances = self.old.provenances;
          references = slice_set self.old.references place (a_reference node provenance);
        } }
    {
        self.references[place] = Reference { node, provenance };
    }

    /// Makes a reference one to a field, if it is one of a node.
    fn extend_at(&mut self, place: usize, position: u8, n: Node) -> Result<(), AllocError>
        requires { place < length self.old.references }
        ensures { OnOk result (edge_lists self.new ≡ slice_set (edge_lists self.old) place (map (extended_into position n) (slice_index_or (edge_lists self.old) place []))) }
    {
        let r = self.references()[place];
        if is_same(r.node(), n) {
            let provenance = self.field(r.provenance(), position)?;
            self.put_reference(place, n, provenance);
        }
        Ok(())
    }

    /// Makes the references of a node ones to a field.
    fn extend_each(&mut self, position: u8, n: Node) -> Result<(), AllocError>
        ensures { OnOk result (edges_of self.new ≡ map (extended_into position n) (edges_of self.old)) }
    {
        for place in 0..self.references().len() {
            self.extend_at(place, position, n)?;
        }
        Ok(())
    }

    /// Makes of a reference one to a field: what leads into it leads one position further, and nothing leads out of it.
    pub(crate) fn extend(&mut self, alloc: Global, position: u8, n: Node) -> Result<(), AllocError>
        ensures { OnOk result (sorted (edges_of self.new) ≡ sorted (without n (edges_of self.old) ++ inherited (extended position) n n (edges_of self.old))) }
    {
        if self.any_between(&One(n), None, &One(n)) {
            return self.extend_anew(alloc, position, n);
        }
        self.extend_each(position, n)?;
        self.remove_out_of(n);
        Ok(())
    }
}
