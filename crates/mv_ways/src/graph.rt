// A borrow graph on its way through a block.
ghost use Rattle.std.specs.Prelude.{◌≡◌, ◌++◌, ◌∷◌, [], length, nat_le, IfOk, OnOk, IsTrue};
ghost use Rattle.std.specs.List.{list_all};
ghost use Rattle.mv_edges.specs.Ascending.{are_ascending};
ghost use Rattle.mv_edges.specs.Edges.{an_edge, but_out_of, edges_leq, extended, here, inherited, renamed, without, without_each};
ghost use Rattle.mv_edges.specs.Sorted.{sorted};
ghost use Rattle.mv_ways.specs.Between.{any_between};
ghost use Rattle.mv_ways.specs.Counting.{is_short};
ghost use Rattle.mv_ways.specs.Graph.{taken_over};

use super::nodes::NodeSet;
use super::provenances::ProvenanceGraph;
use super::provenances::every::EdgeTest;
use mv_edges::Edges;
use mv_move_types::Node;
use std::alloc::{AllocError, Global};
use std::marker::Model;

/// A result of a call that is a reference: it takes over the edges that lead into the arguments, its givers, with their labels opened.
#[derive(Drop)]
pub struct Reborrow<'a> {
    node: Node,
    givers: &'a [Node],
}

impl<'a> Model for Reborrow<'a> {
    ghost use Rattle.mv_ways.specs.Graph.{Reborrow as ReborrowRecord};

    ghost Value = { ReborrowRecord };

    ghost view = { λ h. record { node = h.node; givers = h.givers.now } };
}

impl<'a> Reborrow<'a> {
    /// This node takes over what leads into the others.
    pub fn new(node: Node, givers: &'a [Node]) -> Self
        ensures { result ≡ record { node = node; givers = givers.now } }
    {
        Reborrow { node, givers }
    }

    /// The node.
    pub(crate) fn node(&self) -> Node
        ensures { result ≡ self.now.node }
    {
        self.node
    }

    /// The nodes that it takes over from.
    pub(crate) fn givers(&self) -> &'a [Node]
        ensures { result.now ≡ self.now.givers }
    {
        self.givers
    }
}

/// The edges of a borrow graph on its way through a block. Its model is the list of the edges in their order. It doesn't store that
/// list: it records for each reference how it came about, so that a change costs the same however many edges there are.
#[derive(Drop, Debug)]
pub struct Graph {
    provenances: Box<ProvenanceGraph>,
}

impl Model for Graph {
    ghost use Rattle.std.specs.Prelude.{List};
    ghost use Rattle.mv_edges.specs.Edges.{Edge as EdgeRecord};
    ghost use Rattle.mv_edges.specs.Sorted.{sorted};
    ghost use Rattle.mv_ways.specs.Provenances.{edges_of};

    ghost Value = { List EdgeRecord };

    ghost view = { λ g. sorted (edges_of g.provenances.value) };
}

impl Graph {
    /// The same edges.
    pub fn of_edges(alloc: Global, edges: &Edges) -> Result<Self, AllocError>
        ensures { IfOk result (λ g. g ≡ edges.now) }
    {
        let provenances = Box::new(alloc, ProvenanceGraph::of_edges(alloc, edges)?)?;
        Ok(Graph { provenances })
    }

    /// The edges as a list.
    pub fn to_edges(&self, alloc: Global) -> Result<Edges, AllocError>
        ensures { IfOk result (λ s. s ≡ self.now) }
    {
        self.provenances.to_edges(alloc)
    }

    /// For the prover: the edges ascend.
    #[tactic(auto, using(crate::proofs::Held::held_ascending))]
    pub(crate) fn ascend(&self)
        ensures { IsTrue (are_ascending self.now) }
    {
        let _provenances = &self.provenances;
    }

    /// Whether no node refers to anything, so that there are no edges.
    pub(crate) fn has_no_reference(&self) -> bool
        ensures { IsTrue result → self.now ≡ [] }
    {
        self.provenances.has_no_reference()
    }

    /// Whether all edges pass a test.
    #[tactic(auto, using(crate::proofs::Held::held_passing))]
    pub(crate) fn all_pass<T: EdgeTest>(&self, test: &T) -> bool
        ensures { result ≡ list_all (T.test test.now) self.now }
    {
        self.provenances.all_pass(test)
    }

    /// Whether there are at most so many edges, whose labels are short.
    #[tactic(auto, using(crate::proofs::Held::held_passing))]
    pub(crate) fn are_at_most(&self, most: usize) -> bool
        requires { IsTrue (list_all is_short self.now) }
        ensures { result ≡ nat_le (length self.now) most }
    {
        self.provenances.are_at_most(most)
    }

    /// Takes away the edges at a node.
    #[tactic(auto, using(crate::proofs::Held::held_gone, crate::proofs::Held::held_gone_in_order))]
    pub fn remove_at(&mut self, n: Node)
        ensures edges { self.new ≡ without n self.old }
        ensures sorted { self.new ≡ sorted (without n self.old) }
    {
        self.provenances.remove_at(n);
    }

    /// Takes away the edges that lead out of a node.
    #[tactic(auto, using(crate::proofs::Held::held_severed, crate::proofs::Held::held_severed_in_order))]
    pub fn remove_out_of(&mut self, n: Node)
        ensures edges { self.new ≡ but_out_of n self.old }
        ensures sorted { self.new ≡ sorted (but_out_of n self.old) }
    {
        self.provenances.remove_out_of(n);
    }

    /// Puts one node in place of another.
    #[tactic(auto, using(crate::proofs::Held::held_moved))]
    pub fn rename(&mut self, old: Node, new: Node)
        ensures { self.new ≡ sorted (renamed old new self.old) }
    {
        self.provenances.rename(old, new);
    }

    /// Adds an edge from what is borrowed to the new reference to it.
    #[tactic(auto, using(crate::proofs::Held::held_lent))]
    pub fn lend(&mut self, from: Node, to: Node) -> Result<(), AllocError>
        ensures { OnOk result (self.new ≡ sorted (self.old ++ an_edge from here to ∷ [])) }
    {
        self.provenances.lend(from, to)
    }

    /// Adds the edges that lead into a node for another one.
    #[tactic(auto, using(crate::proofs::Held::held_shared))]
    pub fn share(&mut self, old: Node, new: Node) -> Result<(), AllocError>
        ensures { OnOk result (self.new ≡ sorted (self.old ++ inherited (λ label. label) old new self.old)) }
    {
        self.provenances.share(old, new)
    }

    /// Turns a reference into one to a field: the edges that lead into it lead one position further, and none leads out of it.
    #[tactic(auto, using(crate::proofs::Held::held_extended))]
    pub fn extend(&mut self, alloc: Global, position: u8, n: Node) -> Result<(), AllocError>
        ensures { OnOk result (self.new ≡ sorted (without n self.old ++ inherited (extended position) n n self.old)) }
    {
        self.provenances.extend(alloc, position, n)
    }

    /// Removes the `taken` nodes, and lets each reborrow take over what leads into its givers, with labels opened.
    #[tactic(auto, using(crate::proofs::Held::held_tied))]
    pub fn tie(
        &mut self,
        alloc: Global,
        taken: &[Node],
        reborrows: &[Reborrow<'_>],
    ) -> Result<(), AllocError>
        ensures { OnOk result (self.new ≡ sorted (without_each taken.now self.old ++ taken_over reborrows.now self.old)) }
    {
        self.provenances.tie(alloc, taken, reborrows)
    }

    /// Whether an edge leads from some nodes to others, and agrees with a position, if one is asked for.
    #[tactic(auto, using(crate::proofs::Held::held_between))]
    pub fn any_between<P: NodeSet, Q: NodeSet>(
        &self,
        from: &P,
        position: Option<u8>,
        to: &Q,
    ) -> bool
        ensures { result ≡ any_between (P.test from.now) position (Q.test to.now) self.now }
    {
        self.provenances.any_between(from, position, to)
    }

    /// Whether each edge is below one of the others. It takes no memory but tables on the stack.
    #[tactic(auto, using(crate::proofs::Held::held_under))]
    pub fn is_under(&self, others: &Edges) -> bool
        ensures { result ≡ edges_leq self.now others.now }
    {
        self.provenances.is_under(others)
    }
}
