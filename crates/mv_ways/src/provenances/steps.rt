// What becomes of a graph of provenances where references are copied, borrowed from, moved and released.
ghost use Rattle.std.specs.Prelude.{◌≡◌, ◌<◌, ◌≤◌, ◌++◌, ◌-◌, ◌∷◌, [], length, take, map, filter, not, option_map, slice_get, Some, IfSome, OnOk, IsTrue};
ghost use Rattle.std.specs.Option.{option_map_or};
ghost use Rattle.mv_ways.specs.Between.{but_at};
ghost use Rattle.mv_edges.specs.Edges.{an_edge, but_out_of, here, inherited, renamed, renamed_node, same_node, without};
ghost use Rattle.mv_edges.specs.Sorted.{sorted};
ghost use Rattle.mv_ways.specs.Provenances.{a_reference, are_below, copied, edges_of, gone, gone_each, moved, moved_reference, severed, with_references};

use super::{Provenance, ProvenanceGraph, Reference};
use mv_edges::{is_same, renamed};
use mv_move_types::Node;
use std::alloc::AllocError;

/// What is left of a source where a node goes.
fn left_of(source: Option<Node>, n: Node) -> Option<Node>
    ensures { result ≡ but_at n source }
{
    source.filter(|at| !is_same(*at, n))
}

/// The source, with the new node in place of the old one.
fn renamed_source(source: Option<Node>, old: Node, new: Node) -> Option<Node>
    ensures { result ≡ option_map (renamed_node old new) source }
{
    source.map(|at| renamed(at, old, new))
}

/// Takes away the sources that are at a node.
fn remove_sources(sources: &mut [Option<Node>], n: Node)
    ensures { sources.new ≡ map (but_at n) sources.old }
{
    for source in sources.iter_mut() {
        *source = left_of(*source, n);
    }
}

/// Takes away a node's references.
fn remove_references(references: &mut Vec<Reference>, n: Node)
    ensures { references.new.items ≡ filter (λ r. not (same_node r.node n)) references.old.items }
{
    references.retain(|r| !is_same(r.node, n));
}

/// Puts one node in place of another among sources.
fn rename_sources(sources: &mut [Option<Node>], old: Node, new: Node)
    ensures { sources.new ≡ map (option_map (renamed_node old new)) sources.old }
{
    for source in sources.iter_mut() {
        *source = renamed_source(*source, old, new);
    }
}

/// Puts one node in place of another among those that refer to something.
#[tactic(auto, using(crate::proofs::InPlace::in_place))]
fn rename_references(references: &mut [Reference], old: Node, new: Node)
    ensures { references.new ≡ map (moved_reference old new) references.old }
{
    for r in references.iter_mut() {
        r.node = renamed(r.node, old, new);
    }
}

impl ProvenanceGraph {
    /// Takes away the sources at a node.
    fn sever(&mut self, n: Node)
        ensures { self.new ≡ severed n self.old }
    {
        remove_sources(&mut self.sources, n);
    }

    /// Takes away the sources and the references at a node.
    pub(super) fn remove(&mut self, n: Node)
        ensures { self.new ≡ gone n self.old }
    {
        remove_sources(&mut self.sources, n);
        remove_references(&mut self.references, n);
    }

    /// Takes away the sources and the references at some nodes.
    pub(super) fn remove_each(&mut self, nodes: &[Node])
        ensures { self.new ≡ gone_each nodes.now self.old }
    {
        for n in nodes {
            self.remove(*n);
        }
    }

    /// How many provenances there are up to the last one that a reference has.
    fn count_used(&self) -> usize
        ensures most { result ≤ length self.now.provenances }
        ensures below { IsTrue (are_below result self.now.references) }
    {
        let mut count = 0;
        for r in self.references() {
            if r.provenance() >= count {
                count = r.provenance() + 1;
            }
        }
        count
    }

    /// Forgets the provenances but the first ones, among which are all that references have.
    fn keep_provenances(&mut self, count: usize)
        requires most { count ≤ length self.old.provenances }
        requires below { IsTrue (are_below count self.old.references) }
        ensures { self.new ≡ record { sources = self.old.sources; provenances = take count self.old.provenances; references = self.old.references } }
    {
        self.provenances.truncate(count);
    }

    /// Forgets all sources, where there are no provenances.
    fn forget_sources(&mut self)
        requires { self.old.provenances ≡ [] }
        ensures { self.new ≡ record { sources = []; provenances = self.old.provenances; references = self.old.references } }
    {
        self.sources.clear();
    }

    /// Forgets the last provenances, up to one that a reference has, and all sources where no reference is left.
    pub(super) fn trim(&mut self)
        ensures { edges_of self.new ≡ edges_of self.old }
    {
        let count = self.count_used();
        self.keep_provenances(count);
        if count == 0 {
            self.forget_sources();
        }
    }

    /// Takes away the edges that lead out of a node.
    #[tactic(auto, using(crate::proofs::ProvenanceGraph::Changed::edges_severed))]
    pub(crate) fn remove_out_of(&mut self, n: Node)
        ensures { edges_of self.new ≡ but_out_of n (edges_of self.old) }
    {
        self.sever(n);
    }

    /// Takes away the edges at a node.
    #[tactic(auto, using(crate::proofs::ProvenanceGraph::Changed::edges_gone))]
    pub(crate) fn remove_at(&mut self, n: Node)
        ensures { edges_of self.new ≡ without n (edges_of self.old) }
    {
        self.remove(n);
        self.trim();
    }

    /// Puts one node in place of another at sources and references.
    fn move_nodes(&mut self, old: Node, new: Node)
        ensures { self.new ≡ moved old new self.old }
    {
        rename_sources(&mut self.sources, old, new);
        rename_references(&mut self.references, old, new);
    }

    /// Puts one node in place of another.
    #[tactic(auto, using(crate::proofs::ProvenanceGraph::Changed::edges_moved))]
    pub(crate) fn rename(&mut self, old: Node, new: Node)
        ensures { edges_of self.new ≡ renamed old new (edges_of self.old) }
    {
        self.move_nodes(old, new);
    }

    /// Adds the references of a node for another one.
    fn copy_references(&mut self, old: Node, new: Node) -> Result<(), AllocError>
        ensures { OnOk result (self.new ≡ with_references (copied old new self.old.references) self.old) }
    {
        for place in 0..self.references().len() {
            let r = self.references()[place];
            if is_same(r.node(), old) {
                self.push_reference(new, r.provenance())?;
            }
        }
        Ok(())
    }

    /// Adds the edges that lead into a node for another one.
    #[tactic(auto, using(crate::proofs::ProvenanceGraph::Changed::edges_shared))]
    pub(crate) fn share(&mut self, old: Node, new: Node) -> Result<(), AllocError>
        ensures { OnOk result (sorted (edges_of self.new) ≡ sorted (edges_of self.old ++ inherited (λ label. label) old new (edges_of self.old))) }
    {
        self.copy_references(old, new)
    }

    /// The provenance of the last reference, if it is one of a node.
    fn last_provenance_of(&self, n: Node) -> Option<usize>
        ensures { IfSome result (λ provenance. slice_get self.now.references (length self.now.references - 1) ≡ Some (a_reference n provenance)) }
    {
        let r = self.references().last()?;
        if is_same(r.node(), n) {
            Some(r.provenance())
        } else {
            None
        }
    }

    /// Takes away the last reference.
    fn pop_reference(&mut self, n: Node, provenance: usize)
        requires { slice_get self.old.references (length self.old.references - 1) ≡ Some (a_reference n provenance) }
        ensures below { provenance < length self.new.provenances }
        ensures popped { self.old ≡ record { sources = self.new.sources; provenances = self.new.provenances; references = self.new.references ++ a_reference n provenance ∷ [] } }
    {
        self.references.pop();
    }

    /// Takes away the last reference, if it is one of a node, and says its provenance.
    fn pop_provenance_of(&mut self, n: Node) -> Option<usize>
        ensures below { IfSome result (λ provenance. provenance < length self.new.provenances) }
        ensures popped { self.old ≡ record {
          sources = self.new.sources;
          provenances = self.new.provenances;
          references = self.new.references
              ++ option_map_or (λ provenance. a_reference n provenance ∷ []) result [];
        } }
    {
        let provenance = self.last_provenance_of(n)?;
        self.pop_reference(n, provenance);
        Some(provenance)
    }

    /// Adds an edge from what is borrowed to the new reference to it. Where the last reference is one of that node, its provenance goes
    /// over what it was, so that a mutable copy has one provenance.
    pub(crate) fn lend(&mut self, from: Node, to: Node) -> Result<(), AllocError>
        ensures { OnOk result (sorted (edges_of self.new) ≡ sorted (edges_of self.old ++ an_edge from here to ∷ [])) }
    {
        let source = self.source(from)?;
        let over = self.pop_provenance_of(to);
        self.refer(to, Provenance::Lent { source, over })
    }
}
