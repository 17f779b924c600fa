// What becomes of a graph of provenances where references are handed to functions.
ghost use Rattle.std.specs.Prelude.{◌≡◌, ◌<◌, ◌++◌, ◌∷◌, [], fold, length, flat_map, nat_lt, slice_index_or, IfOk, IfSome, OnOk, IsTrue};
ghost use Rattle.std.specs.List.{list_all};
ghost use Rattle.mv_edges.specs.Edges.{opened, without_each};
ghost use Rattle.mv_ways.specs.Graph.{Reborrow as ReborrowRecord, taken_over};
ghost use Rattle.mv_edges.specs.Sorted.{sorted};
ghost use Rattle.mv_ways.specs.Provenances.{HasMoreProvenances, IsGivenBy, added_once, all_origins, are_below, changed_origins, edges_of, origins_at, reference_edges, provenances_at};

use super::super::graph::Reborrow;
use super::super::nodes::{All, Each};
use super::{Provenance, ProvenanceGraph, Reference};
use mv_edges::is_same;
use mv_move_types::Node;
use std::alloc::{AllocError, Global};

/// Adds a provenance to others, unless it is there.
fn add_once(provenances: &mut Vec<usize>, provenance: usize) -> Result<(), AllocError>
    ensures { OnOk result (provenances.new.items ≡ added_once provenances.old.items provenance) }
{
    if !provenances.contains(&provenance) {
        provenances.push(provenance)?;
    }
    Ok(())
}

/// Whether these are the same nodes, in the same order.
fn are_same(a: &[Node], b: &[Node]) -> bool
    ensures { IsTrue result → a.now ≡ b.now }
{
    if a.len() != b.len() {
        return false;
    }
    for i in 0..a.len() {
        if !is_same(a[i], b[i]) {
            return false;
        }
    }
    true
}

/// The first of the reborrows before one that take over of the same nodes.
fn first_alike(reborrows: &[Reborrow<'_>], place: usize) -> Option<usize>
    requires { place < length reborrows.now }
    ensures before { IfSome result (λ k. k < place) }
    ensures alike { IfSome result (λ k. (d : ReborrowRecord) → (slice_index_or reborrows.now k d).givers ≡ (slice_index_or reborrows.now place d).givers) }
{
    for k in 0..place {
        if are_same(reborrows[k].givers(), reborrows[place].givers()) {
            return Some(k);
        }
    }
    None
}

/// Adds the provenances of a node to others, each once.
fn add_provenances_of(
    references: &[Reference],
    n: Node,
    provenances: &mut Vec<usize>,
) -> Result<(), AllocError>
    ensures { OnOk result (provenances.new.items ≡ fold added_once provenances.old.items (provenances_at n references.now)) }
{
    for r in references {
        if is_same(r.node(), n) {
            add_once(provenances, r.provenance())?;
        }
    }
    Ok(())
}

impl ProvenanceGraph {
    /// The provenances of some nodes, each once.
    fn provenances_of(&self, alloc: Global, nodes: &[Node]) -> Result<Vec<usize>, AllocError>
        ensures provenances { IfOk result (λ provenances. provenances.items ≡ fold added_once [] (flat_map (λ n. provenances_at n self.now.references) nodes.now)) }
        ensures below { IfOk result (λ provenances. IsTrue (list_all (λ k. nat_lt k (length self.now.provenances)) provenances.items)) }
    {
        let references = self.references();
        let mut provenances = Vec::new(alloc);
        for n in nodes {
            add_provenances_of(references, *n, &mut provenances)?;
        }
        Ok(provenances)
    }

    /// The only one of these provenances, if a function returned what it leads to.
    fn handed_on(&self, provenances: &[usize]) -> Option<usize>
        requires { IsTrue (list_all (λ k. nat_lt k (length self.now.provenances)) provenances.now) }
        ensures only { IfSome result (λ provenance. provenances.now ≡ provenance ∷ []) }
        ensures below { IfSome result (λ provenance. provenance < length self.now.provenances) }
        ensures opened { IfSome result (λ provenance. changed_origins opened (origins_at (all_origins self.now.provenances) provenance)
            ≡ origins_at (all_origins self.now.provenances) provenance) }
    {
        match provenances {
            [provenance] => if self.is_returned(*provenance) {
                Some(*provenance)
            } else {
                None
            },
            _ => None,
        }
    }

    /// The provenance of what a function returns when it is given some nodes. If these have a single provenance, and it leads to what a
    /// function returned, that provenance is used again.
    fn returned(&mut self, alloc: Global, givers: &[Node]) -> Result<usize, AllocError>
        ensures more { OnOk result (HasMoreProvenances self.old self.new) }
        ensures kept { OnOk result (edges_of self.new ≡ edges_of self.old) }
        ensures given { IfOk result (λ provenance. IsGivenBy self.old self.new givers.now provenance) }
    {
        let provenances = self.provenances_of(alloc, givers)?;
        match self.handed_on(&provenances) {
            Some(provenance) => Ok(provenance),
            None => {
                let provenance = self.push_provenance(Provenance::Returned(provenances))?;
                Ok(provenance)
            }
        }
    }

    /// The references of reborrows. Those that take over of the same nodes have one provenance.
    fn inherited_by(
        &mut self,
        alloc: Global,
        reborrows: &[Reborrow<'_>],
    ) -> Result<Vec<Reference>, AllocError>
        ensures kept { OnOk result (edges_of self.new ≡ edges_of self.old) }
        ensures below { IfOk result (λ new. IsTrue (are_below (length self.new.provenances) new.items)) }
        ensures edges { IfOk result (λ new. sorted (flat_map (reference_edges self.new.sources (all_origins self.new.provenances)) new.items)
            ≡ sorted (taken_over reborrows.now (edges_of self.old))) }
    {
        let mut new: Vec<Reference> = Vec::new(alloc);
        for place in 0..reborrows.len() {
            let provenance = match first_alike(reborrows, place) {
                Some(before) => new[before].provenance(),
                None => self.returned(alloc, reborrows[place].givers())?,
            };
            let node = reborrows[place].node();
            new.push(Reference { node, provenance })?;
        }
        Ok(new)
    }

    /// Takes some nodes, and lets reborrows take over what leads into their givers, opened.
    pub(crate) fn tie(
        &mut self,
        alloc: Global,
        taken: &[Node],
        reborrows: &[Reborrow<'_>],
    ) -> Result<(), AllocError>
        ensures { OnOk result (sorted (edges_of self.new) ≡ sorted (without_each taken.now (edges_of self.old) ++ taken_over reborrows.now (edges_of self.old))) }
    {
        if self.any_between(&Each(taken), None, &All) {
            return self.tie_anew(alloc, taken, reborrows);
        }
        let new = self.inherited_by(alloc, reborrows)?;
        self.remove_each(taken);
        self.push_references(&new)?;
        self.trim();
        Ok(())
    }
}
