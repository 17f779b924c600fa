// Whether an edge leads from some nodes to others.
ghost use Rattle.std.specs.Prelude.{◌≡◌, ◌≤◌, ◌<◌, nat_lt, ◌∷◌, [], ◌&&◌, length, flat_map, false, None, Some, IsTrue};
ghost use Rattle.std.specs.List.{list_any, list_all};
ghost use Rattle.mv_ways.specs.Between.{any_between};
ghost use Rattle.mv_edges.specs.Edges.{here, opened};
ghost use Rattle.mv_ways.specs.Provenances.{an_origin, all_origins, are_below, changed_origins, edges_of, goes_below, origins_at, origins_of};
ghost use Rattle.mv_ways.specs.Asking.{AreNoted, SaysOf, comes_from, extended_passing, is_asked, larger, origins_pass, lets_pass_here, opened_passing};
ghost use Rattle.mv_ways.specs.Provenances.{source_at};
ghost use Rattle.std.specs.Option.{option_map_or};

use super::super::nodes::NodeSet;
use super::{FEW_PROVENANCES, MOST_PROVENANCES, Origin, Provenance, ProvenanceGraph, Reference};
use mv_move_types::Node;
use std::mem::size_of;

/// What leads to a provenance from the nodes that are asked for.
#[derive(Clone, Copy, Debug)]
pub(super) enum Passing {
    /// Nothing that passes, and nothing of which more could be borrowed that passes.
    Never,
    /// The place itself: it passes, and so does a field of it if it agrees with the position.
    Here,
    /// Something that passes, whatever is borrowed of it.
    Always,
}

// Of each provenance one byte is noted.
const _: () = prove!(size_of::<Passing>() == 1);

impl Passing {
    /// The larger of two.
    fn larger(self, other: Passing) -> Passing
        ensures { result ≡ larger self other }
    {
        match self {
            Passing::Never => other,
            Passing::Here => match other {
                Passing::Never | Passing::Here => Passing::Here,
                Passing::Always => Passing::Always,
            },
            Passing::Always => Passing::Always,
        }
    }

    /// Whether something passes, whatever is borrowed of it.
    fn is_always(self) -> bool
        ensures { IsTrue result → self ≡ Passing.Always }
    {
        match self {
            Passing::Never | Passing::Here => false,
            Passing::Always => true,
        }
    }

    /// What leads to a field of what this leads to.
    fn extended(self, position: u8, asked: Option<u8>) -> Passing
        ensures { result ≡ extended_passing asked position self }
    {
        match self {
            Passing::Never => Passing::Never,
            Passing::Here => {
                if is_asked(asked, position) {
                    Passing::Always
                } else {
                    Passing::Never
                }
            }
            Passing::Always => Passing::Always,
        }
    }

    /// What leads to anything below what this leads to.
    fn opened(self) -> Passing
        ensures { result ≡ opened_passing self }
    {
        match self {
            Passing::Never => Passing::Never,
            Passing::Here | Passing::Always => Passing::Always,
        }
    }
}

/// Whether a position is the one that is asked for, if one is.
fn is_asked(asked: Option<u8>, position: u8) -> bool
    ensures { result ≡ is_asked asked position }
{
    match asked {
        Some(asked) => position == asked,
        None => true,
    }
}

impl ProvenanceGraph {
    /// Where a source is, if it is still there.
    pub(super) fn source_at(&self, source: usize) -> Option<Node>
        ensures { result ≡ source_at self.now.sources source }
    {
        match self.sources().get(source) {
            Some(node) => *node,
            None => None,
        }
    }

    /// Whether a source is still there, and one of these nodes.
    fn comes_from<P: NodeSet>(&self, source: usize, from: &P) -> bool
        ensures { result ≡ comes_from self.now.sources (P.test from.now) source }
    {
        match self.source_at(source) {
            Some(node) => from.has(node),
            None => false,
        }
    }

    /// What leads by a label, from a source that is one of these nodes.
    #[tactic(auto, using(crate::proofs::ProvenanceGraph::Passes::says_never, crate::proofs::ProvenanceGraph::Passes::says_here, crate::proofs::ProvenanceGraph::Passes::says_always, crate::proofs::ProvenanceGraph::Passes::says_not))]
    fn origin_passing<P: NodeSet>(&self, origin: &Origin, from: &P, position: Option<u8>) -> Passing
        ensures { SaysOf self.now.sources (P.test from.now) position result (origin.now ∷ []) }
    {
        if !self.comes_from(origin.source(), from) {
            return Passing::Never;
        }
        if origin.label().is_here() {
            return Passing::Here;
        }
        if origin.label().agrees_if(position) {
            Passing::Always
        } else {
            Passing::Never
        }
    }

    /// What leads by any of these labels. Where something passes whatever is borrowed of it, the others aren't looked at.
    fn origins_passing<P: NodeSet>(
        &self,
        origins: &[Origin],
        from: &P,
        position: Option<u8>,
    ) -> Passing
        ensures { SaysOf self.now.sources (P.test from.now) position result origins.now }
    {
        let mut passing = Passing::Never;
        for origin in origins {
            passing = passing.larger(self.origin_passing(origin, from, position));
            if passing.is_always() {
                return passing;
            }
        }
        passing
    }
}

impl ProvenanceGraph {
    /// What leads from a source with no label, if it is one of these nodes.
    #[tactic(auto, using(crate::proofs::ProvenanceGraph::Passes::source_says_never, crate::proofs::ProvenanceGraph::Passes::source_says_here))]
    fn source_passing<P: NodeSet>(&self, source: usize, from: &P, position: Option<u8>) -> Passing
        ensures { SaysOf self.now.sources (P.test from.now) position result (an_origin source here ∷ []) }
    {
        if self.comes_from(source, from) {
            Passing::Here
        } else {
            Passing::Never
        }
    }

    /// What leads to one of these provenances, opened, by what is noted of them.
    fn returned_passing<P: NodeSet>(
        &self,
        provenances: &[usize],
        place: usize,
        noted: &[Passing],
        from: &P,
        position: Option<u8>,
    ) -> Passing
        requires below { IsTrue (list_all (λ k. nat_lt k place) provenances.now) }
        requires room { place ≤ length noted.now }
        requires noted { AreNoted self.now (P.test from.now) position place noted.now }
        ensures { SaysOf self.now.sources (P.test from.now) position result
            (flat_map (λ over. changed_origins opened (origins_at (all_origins self.now.provenances) over)) provenances.now) }
    {
        let mut passing = Passing::Never;
        for over in provenances {
            passing = passing.larger(noted[*over].opened());
        }
        passing
    }

    /// What leads to a provenance, by what is noted of those before a place, over which alone it goes.
    fn provenance_passing<P: NodeSet>(
        &self,
        provenance: &Provenance,
        place: usize,
        noted: &[Passing],
        from: &P,
        position: Option<u8>,
    ) -> Passing
        requires below { IsTrue (goes_below place provenance.now) }
        requires room { place ≤ length noted.now }
        requires noted { AreNoted self.now (P.test from.now) position place noted.now }
        ensures { SaysOf self.now.sources (P.test from.now) position result (origins_of (all_origins self.now.provenances) provenance.now) }
    {
        match provenance {
            Provenance::Stated(origins) => self.origins_passing(origins, from, position),
            Provenance::Lent { source, over } => {
                let own = self.source_passing(*source, from, position);
                match over {
                    Some(over) => noted[*over].larger(own),
                    None => own,
                }
            }
            Provenance::Field {
                over,
                position: field,
            } => noted[*over].extended(*field, position),
            Provenance::Returned(provenances) => self.returned_passing(
                provenances,
                place,
                noted,
                from,
                position,
            ),
        }
    }
}

impl ProvenanceGraph {
    /// Notes of each provenance what leads to it.
    fn note<P: NodeSet>(&self, noted: &mut [Passing], from: &P, position: Option<u8>)
        requires { length self.now.provenances ≤ length noted.old }
        ensures count { length noted.new ≡ length noted.old }
        ensures noted { AreNoted self.now (P.test from.now) position (length self.now.provenances) noted.new }
    {
        for place in 0..self.provenances().len() {
            let found = self.provenance_passing(
                &self.provenances()[place],
                place,
                noted,
                from,
                position,
            );
            noted[place] = found;
        }
    }

    /// Whether what is noted lets something pass.
    fn passes(noted: Passing) -> bool
        ensures { result ≡ lets_pass_here noted }
    {
        match noted {
            Passing::Never => false,
            Passing::Here | Passing::Always => true,
        }
    }

    /// Whether an edge to a reference's node passes, if that is one of these.
    #[tactic(auto, using(crate::proofs::ProvenanceGraph::Noted::noted_here))]
    fn is_passed<P: NodeSet, Q: NodeSet>(
        &self,
        noted: &[Passing],
        r: Reference,
        from: &P,
        position: Option<u8>,
        to: &Q,
    ) -> bool
        requires room { length self.now.provenances ≤ length noted.now }
        requires below { r.provenance < length self.now.provenances }
        requires noted { AreNoted self.now (P.test from.now) position (length self.now.provenances) noted.now }
        ensures { result ≡ (Q.test to.now r.node && origins_pass self.now.sources (P.test from.now) position here (origins_at (all_origins self.now.provenances) r.provenance)) }
    {
        to.has(r.node()) && ProvenanceGraph::passes(noted[r.provenance()])
    }

    /// Whether an edge leads from one of the nodes to one of the others, with room for notes of all provenances.
    fn any_noted<P: NodeSet, Q: NodeSet>(
        &self,
        noted: &mut [Passing],
        from: &P,
        position: Option<u8>,
        to: &Q,
    ) -> bool
        requires { length self.now.provenances ≤ length noted.old }
        ensures { result ≡ any_between (P.test from.now) position (Q.test to.now) (edges_of self.now) }
    {
        self.note(noted, from, position);
        for r in self.references() {
            if self.is_passed(noted, *r, from, position, to) {
                return true;
            }
        }
        false
    }
}

impl ProvenanceGraph {
    /// Whether a source that is still there is one of these nodes.
    fn has_source<P: NodeSet>(&self, from: &P) -> bool
        ensures { result ≡ list_any (λ source. option_map_or (P.test from.now) source false) self.now.sources }
    {
        self.sources().iter().any(|source| match source {
            Some(node) => from.has(*node),
            None => false,
        })
    }

    /// Whether no node refers to anything, so that there are no edges.
    pub(crate) fn has_no_reference(&self) -> bool
        ensures { IsTrue result → edges_of self.now ≡ [] }
    {
        self.references().is_empty()
    }

    /// Whether a reference is one of these nodes.
    pub(super) fn has_reference<Q: NodeSet>(&self, to: &Q) -> bool
        ensures value { result ≡ list_any (λ r. Q.test to.now r.node) self.now.references }
        ensures below { IsTrue (are_below (length self.now.provenances) self.now.references) }
    {
        self.references().iter().any(|r| to.has(r.node()))
    }

    /// Whether an edge leads from one of the nodes to one of the others, in a small graph.
    #[inline(never)]
    fn any_by_few<P: NodeSet, Q: NodeSet>(&self, from: &P, position: Option<u8>, to: &Q) -> bool
        requires { length self.now.provenances ≤ FEW_PROVENANCES }
        ensures { result ≡ any_between (P.test from.now) position (Q.test to.now) (edges_of self.now) }
    {
        self.any_noted(&mut [Passing::Never; FEW_PROVENANCES], from, position, to)
    }

    /// Whether an edge leads from one of the nodes to one of the others, in any graph.
    #[inline(never)]
    fn any_by_many<P: NodeSet, Q: NodeSet>(&self, from: &P, position: Option<u8>, to: &Q) -> bool
        requires { length self.now.provenances ≤ MOST_PROVENANCES }
        ensures { result ≡ any_between (P.test from.now) position (Q.test to.now) (edges_of self.now) }
    {
        self.any_noted(&mut [Passing::Never; MOST_PROVENANCES], from, position, to)
    }

    /// Whether an edge leads from one of the nodes to one of the others, and agrees with a position, if one is asked for. Where no
    /// source is at one of the nodes, or no reference is one of the others, provenances aren't looked at.
    pub(crate) fn any_between<P: NodeSet, Q: NodeSet>(
        &self,
        from: &P,
        position: Option<u8>,
        to: &Q,
    ) -> bool
        ensures { result ≡ any_between (P.test from.now) position (Q.test to.now) (edges_of self.now) }
    {
        if !self.has_source(from) || !self.has_reference(to) {
            return false;
        }
        if self.provenances().len() <= FEW_PROVENANCES {
            self.any_by_few(from, position, to)
        } else {
            self.any_by_many(from, position, to)
        }
    }
}
