// Sources, provenances and references more.
ghost use Rattle.std.specs.Prelude.{◌≡◌, ◌<◌, ◌++◌, [], flat_map, length, Some, IfOk, IfSome, OnOk, IsTrue};
ghost use Rattle.mv_ways.specs.Provenances.{HasMoreSources, all_origins, are_below, edges_of, goes_below, is_known, origin_edges, origins_of, referred, source_at, with_reference, with_references, with_source, with_provenance};

use super::{MOST_PROVENANCES, Provenance, ProvenanceGraph, Reference};
use mv_edges::is_same;
use mv_move_types::Node;
use std::alloc::{AllocError, Global};

impl ProvenanceGraph {
    /// No edges.
    pub(super) fn new(alloc: Global) -> Self
        ensures { result ≡ record { sources = []; provenances = []; references = [] } }
    {
        ProvenanceGraph {
            sources: Vec::new(alloc),
            provenances: Vec::new(alloc),
            references: Vec::new(alloc),
        }
    }

    /// Whether a source is at a node.
    fn is_source_at(&self, number: usize, node: Node) -> bool
        requires { number < length self.now.sources }
        ensures { IsTrue result → source_at self.now.sources number ≡ Some node }
    {
        match self.sources()[number] {
            Some(at) => is_same(at, node),
            None => false,
        }
    }

    /// The number of the last source at a node.
    fn last_source_at(&self, node: Node) -> Option<usize>
        ensures there { IfSome result (λ number. source_at self.now.sources number ≡ Some node) }
        ensures known { IfSome result (λ number. number < length self.now.sources) }
    {
        for number in (0..self.sources().len()).rev() {
            if self.is_source_at(number, node) {
                return Some(number);
            }
        }
        None
    }

    /// Adds a source at a node.
    fn push_source(&mut self, node: Node) -> Result<(), AllocError>
        ensures pushed { OnOk result (self.new ≡ with_source node self.old) }
        ensures edges { OnOk result (edges_of self.new ≡ edges_of self.old) }
    {
        self.sources.push(Some(node))?;
        Ok(())
    }

    /// The number of a new source at a node.
    fn new_source(&mut self, node: Node) -> Result<usize, AllocError>
        ensures there { IfOk result (λ number. source_at self.new.sources number ≡ Some node) }
        ensures known { IfOk result (λ number. number < length self.new.sources) }
        ensures more { OnOk result (HasMoreSources self.old.sources self.new.sources) }
        ensures kept { OnOk result ((self.new.provenances ≡ self.old.provenances) × (self.new.references ≡ self.old.references)) }
        ensures edges { OnOk result (edges_of self.new ≡ edges_of self.old) }
    {
        let number = self.sources().len();
        self.push_source(node)?;
        Ok(number)
    }

    /// The number of a source at a node: of the last one there, or of a new one.
    pub(super) fn source(&mut self, node: Node) -> Result<usize, AllocError>
        ensures there { IfOk result (λ number. source_at self.new.sources number ≡ Some node) }
        ensures known { IfOk result (λ number. number < length self.new.sources) }
        ensures more { OnOk result (HasMoreSources self.old.sources self.new.sources) }
        ensures kept { OnOk result ((self.new.provenances ≡ self.old.provenances) × (self.new.references ≡ self.old.references)) }
        ensures edges { OnOk result (edges_of self.new ≡ edges_of self.old) }
    {
        match self.last_source_at(node) {
            Some(number) => Ok(number),
            None => self.new_source(node),
        }
    }

    /// The number of the last source, if it is at the node, or of a new one.
    pub(super) fn source_behind(&mut self, node: Node) -> Result<usize, AllocError>
        ensures there { IfOk result (λ number. source_at self.new.sources number ≡ Some node) }
        ensures known { IfOk result (λ number. number < length self.new.sources) }
        ensures more { OnOk result (HasMoreSources self.old.sources self.new.sources) }
        ensures edges { OnOk result (edges_of self.new ≡ edges_of self.old) }
    {
        let count = self.sources().len();
        if count > 0 && self.is_source_at(count - 1, node) {
            return Ok(count - 1);
        }
        self.new_source(node)
    }

    /// Adds a provenance, and returns its place. Beyond `MOST_PROVENANCES` it fails as if an allocation had failed.
    pub(super) fn push_provenance(&mut self, provenance: Provenance) -> Result<usize, AllocError>
        requires below { IsTrue (goes_below (length self.old.provenances) provenance) }
        requires known { IsTrue (is_known (length self.old.sources) provenance) }
        ensures place { IfOk result (λ place. place ≡ length self.old.provenances) }
        ensures pushed { OnOk result (self.new ≡ with_provenance provenance self.old) }
        ensures edges { OnOk result (edges_of self.new ≡ edges_of self.old) }
    {
        let place = self.provenances.len();
        if place >= MOST_PROVENANCES {
            return Err(AllocError);
        }
        self.provenances.push(provenance)?;
        Ok(place)
    }

    /// Adds a reference by a provenance that there is.
    pub(super) fn push_reference(&mut self, node: Node, provenance: usize) -> Result<(), AllocError>
        requires { provenance < length self.old.provenances }
        ensures { OnOk result (self.new ≡ with_reference node provenance self.old) }
    {
        self.references.push(Reference { node, provenance })?;
        Ok(())
    }

    /// Adds references by provenances that there are.
    pub(super) fn push_references(&mut self, references: &[Reference]) -> Result<(), AllocError>
        requires { IsTrue (are_below (length self.old.provenances) references.now) }
        ensures { OnOk result (self.new ≡ with_references references.now self.old) }
    {
        for r in references {
            self.push_reference(r.node(), r.provenance())?;
        }
        Ok(())
    }

    /// Adds a reference that came about so.
    pub(super) fn refer(&mut self, node: Node, provenance: Provenance) -> Result<(), AllocError>
        requires below { IsTrue (goes_below (length self.old.provenances) provenance) }
        requires known { IsTrue (is_known (length self.old.sources) provenance) }
        ensures referred { OnOk result (self.new ≡ referred node provenance self.old) }
        ensures edges { OnOk result (edges_of self.new ≡ edges_of self.old
            ++ flat_map (origin_edges self.old.sources node) (origins_of (all_origins self.old.provenances) provenance)) }
    {
        let place = self.push_provenance(provenance)?;
        self.push_reference(node, place)
    }
}
