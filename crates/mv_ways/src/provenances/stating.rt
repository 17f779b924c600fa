// The odd cases, which no typed function meets: a reference that leads to itself is made one to a field, or a node that lends is
// handed to a function. What leads to the new reference is listed before the nodes go, and then stated anew.
ghost use Rattle.std.specs.Prelude.{◌≡◌, ◌++◌, ◌∷◌, [], length, map, flat_map, nat_lt, IfOk, OnOk, IsTrue};
ghost use Rattle.std.specs.List.{list_all};
ghost use Rattle.mv_move_types.specs.declared.borrow.Node.{Node as NodeRecord};
ghost use Rattle.mv_edges.specs.Edges.{an_edge, changed, extended, inherited, into, without, without_each};
ghost use Rattle.mv_ways.specs.Graph.{taken_over};
ghost use Rattle.mv_ways.specs.Origins.{Origin as OriginRecord};
ghost use Rattle.mv_edges.specs.Sorted.{sorted};
ghost use Rattle.mv_ways.specs.Provenances.{edges_of, origin_edges, opened_into};

use super::super::graph::Reborrow;
use super::{Origin, Provenance, ProvenanceGraph};
use mv_edges::{Change, Edge, Edges};
use mv_move_types::Node;
use std::alloc::{AllocError, Global};

impl ProvenanceGraph {
    /// Adds where an edge comes from, with a change made to its label.
    fn push_origin(
        &mut self,
        alloc: Global,
        change: Change,
        e: &Edge,
        origins: &mut Vec<Origin>,
    ) -> Result<(), AllocError>
        requires { IsTrue (list_all (λ (l : OriginRecord). nat_lt l.source (length self.old.sources)) origins.old.items) }
        ensures known { OnOk result (IsTrue (list_all (λ (l : OriginRecord). nat_lt l.source (length self.new.sources)) origins.new.items)) }
        ensures kept { OnOk result ((self.new.provenances ≡ self.old.provenances) × (self.new.references ≡ self.old.references)) }
        ensures edges { OnOk result (edges_of self.new ≡ edges_of self.old) }
        ensures origins { OnOk result ((to : NodeRecord) → flat_map (origin_edges self.new.sources to) origins.new.items
            ≡ flat_map (origin_edges self.old.sources to) origins.old.items ++ an_edge e.now.from (changed change e.now.label) to ∷ []) }
    {
        let source = self.source(e.from())?;
        let label = e.label().changed(alloc, change)?;
        let number = origins.len();
        origins.push(Origin {
            source,
            label,
            number,
        })?;
        Ok(())
    }

    /// Where edges come from, with a change made to their labels.
    fn origins(
        &mut self,
        alloc: Global,
        change: Change,
        edges: &[Edge],
    ) -> Result<Vec<Origin>, AllocError>
        ensures known { IfOk result (λ origins. IsTrue (list_all (λ (l : OriginRecord). nat_lt l.source (length self.new.sources)) origins.items)) }
        ensures kept { OnOk result ((self.new.provenances ≡ self.old.provenances) × (self.new.references ≡ self.old.references)) }
        ensures edges { OnOk result (edges_of self.new ≡ edges_of self.old) }
        ensures origins { IfOk result (λ origins. (to : NodeRecord) → flat_map (origin_edges self.new.sources to) origins.items
            ≡ map (λ e. an_edge e.from (changed change e.label) to) edges.now) }
    {
        let mut origins = Vec::new(alloc);
        for e in edges {
            self.push_origin(alloc, change, e, &mut origins)?;
        }
        Ok(origins)
    }

    /// States of a node what edges lead into it, with a change made to their labels.
    fn state(
        &mut self,
        alloc: Global,
        change: Change,
        to: Node,
        edges: &Edges,
    ) -> Result<(), AllocError>
        ensures { OnOk result (edges_of self.new ≡ edges_of self.old ++ map (λ e. an_edge e.from (changed change e.label) to) edges.now) }
    {
        let origins = self.origins(alloc, change, edges.as_slice())?;
        self.refer(to, Provenance::Stated(origins))
    }

    /// Makes of a reference one to a field, where something leads from it to itself.
    pub(super) fn extend_anew(
        &mut self,
        alloc: Global,
        position: u8,
        n: Node,
    ) -> Result<(), AllocError>
        ensures { OnOk result (sorted (edges_of self.new) ≡ sorted (without n (edges_of self.old) ++ inherited (extended position) n n (edges_of self.old))) }
    {
        let edges = self.led_into(alloc, &[n])?;
        self.remove(n);
        self.state(alloc, Change::Extended(position), n, &edges)
    }

    /// What leads into each reborrow's givers.
    fn given_to(&self, alloc: Global, reborrows: &[Reborrow<'_>]) -> Result<Vec<Edges>, AllocError>
        ensures { IfOk result (λ given. given.items ≡ map (λ h. sorted (flat_map (λ n. into n (edges_of self.now)) h.givers)) reborrows.now) }
    {
        let mut given = Vec::new(alloc);
        for reborrow in reborrows {
            let edges = self.led_into(alloc, reborrow.givers())?;
            given.push(edges)?;
        }
        Ok(given)
    }

    /// States of each reborrow what was given to it, opened.
    fn state_each(
        &mut self,
        alloc: Global,
        reborrows: &[Reborrow<'_>],
        given: &[Edges],
    ) -> Result<(), AllocError>
        requires { length given.now ≡ length reborrows.now }
        ensures { OnOk result (edges_of self.new ≡ edges_of self.old ++ opened_into reborrows.now given.now) }
    {
        for place in 0..reborrows.len() {
            self.state(
                alloc,
                Change::Opened,
                reborrows[place].node(),
                &given[place],
            )?;
        }
        Ok(())
    }

    /// Takes some nodes, out of which something leads, and lets reborrows take over what leads into their givers, opened.
    pub(super) fn tie_anew(
        &mut self,
        alloc: Global,
        taken: &[Node],
        reborrows: &[Reborrow<'_>],
    ) -> Result<(), AllocError>
        ensures { OnOk result (sorted (edges_of self.new) ≡ sorted (without_each taken.now (edges_of self.old) ++ taken_over reborrows.now (edges_of self.old))) }
    {
        let given = self.given_to(alloc, reborrows)?;
        self.remove_each(taken);
        self.state_each(alloc, reborrows, &given)
    }
}
