// An edge, and the order of edges.
ghost use Rattle.std.specs.Prelude.{◌≡◌, ◌≤◌, length, true, IfOk};
ghost use Rattle.std.specs.Ordering.{ordering_then, nat_cmp, bool_cmp};
ghost use Rattle.std.specs.Cmp.Lexicographic.{slice_cmp};
ghost use Rattle.mv_edges.specs.Edges.{an_edge, same_node, renamed_node, edge_leq, opened_at};
ghost use Rattle.mv_edges.specs.Ascending.{node_code, nodes_code, edge_before, edge_order};

use super::Label;
use mv_move_types::Node;
use std::alloc::{AllocError, Global};
use std::cmp::Ordering;
use std::marker::Model;

/// Whether two nodes are one.
pub fn is_same(a: Node, b: Node) -> bool
    ensures { result ≡ same_node a b }
{
    a == b
}

/// The new node, if this is the old one; otherwise this one.
pub fn renamed(at: Node, old: Node, new: Node) -> Node
    ensures { result ≡ renamed_node old new at }
{
    if is_same(at, old) { new } else { at }
}

/// An edge: its label leads from what the first node is or refers to, to what the second node refers to.
#[derive(Drop, Debug)]
pub struct Edge {
    from: Node,
    to: Node,
    label: Label,
}

impl Model for Edge {
    ghost use Rattle.mv_edges.specs.Edges.{Edge as EdgeRecord};

    ghost Value = { EdgeRecord };

    ghost view = { λ e. record { from = e.from; label = e.label; to = e.to } };
}

impl PartialEq for Edge {
    ghost use Rattle.mv_edges.specs.Edges.{same_edge};
    ghost use Rattle.mv_edges.specs.Equality.{same_edge_equiv};
    ghost use Rattle.std.specs.Cmp.{partial_equiv_from_equiv};

    ghost eq = { same_edge };

    ghost laws = { partial_equiv_from_equiv same_edge_equiv };

    fn eq(&self, other: &Self) -> bool {
        is_same(self.from, other.from) && self.label == other.label && is_same(self.to, other.to)
    }
}

impl Eq for Edge {
    ghost use Rattle.mv_edges.specs.Equality.{same_edge_equiv};

    ghost laws = { same_edge_equiv };
}

/// A node as two numbers, by which nodes are ordered.
pub(crate) fn node_numbers(node: Node) -> [u32; 2]
    ensures { result ≡ node_code node }
{
    match node {
        Node::Slot(local) => [0, u32::from(local)],
        Node::Own(local) => [1, u32::from(local)],
        Node::Glob(definition) => [2, u32::from(definition)],
        Node::Temp(place) => [3, u32::from(place)],
    }
}

impl Edge {
    /// The edge between these nodes.
    pub fn new(from: Node, label: Label, to: Node) -> Self
        ensures { result ≡ an_edge from label to }
    {
        Edge { from, label, to }
    }

    /// The node that the edge leads out of.
    pub fn from(&self) -> Node
        ensures { result ≡ self.now.from }
    {
        self.from
    }

    /// Where the second node lies from the first.
    pub fn label(&self) -> &Label
        ensures { result.now ≡ self.now.label }
    {
        &self.label
    }

    /// The node that the edge leads to.
    pub fn to(&self) -> Node
        ensures { result ≡ self.now.to }
    {
        self.to
    }

    /// Whether the edge leads out of the node.
    pub fn starts_at(&self, n: Node) -> bool
        ensures { result ≡ same_node self.now.from n }
    {
        is_same(self.from, n)
    }

    /// Whether the edge leads to the node.
    pub fn ends_at(&self, n: Node) -> bool
        ensures { result ≡ same_node self.now.to n }
    {
        is_same(self.to, n)
    }

    /// An equal edge.
    pub fn copy(&self, alloc: Global) -> Result<Self, AllocError>
        ensures { IfOk result (λ e. e ≡ self.now) }
    {
        Ok(Edge::new(self.from, self.label.copy(alloc)?, self.to))
    }

    /// Whether the other has the same nodes and a label above this one's.
    pub fn is_below(&self, other: &Edge) -> bool
        ensures { result ≡ edge_leq self.now other.now }
    {
        is_same(self.from, other.from)
            && is_same(self.to, other.to)
            && self.label.is_below(&other.label)
    }

    /// The edge, with its positions where they are.
    pub(crate) fn view(&self) -> EdgeView<'_>
        ensures { result ≡ self.now }
    {
        EdgeView {
            from: self.from,
            path: self.label.path(),
            is_open: self.label.is_open(),
            to: self.to,
        }
    }

    /// Which of two edges comes first: by the nodes, then by the labels.
    #[inline(always)]
    pub(crate) fn order(&self, other: &Edge) -> Ordering
        ensures { result ≡ edge_order self.now other.now }
    {
        self.view().order(&other.view())
    }

    /// Whether the edge comes before another.
    #[tactic(auto, using(crate::proofs::Comparisons::order_before))]
    pub fn is_before(&self, other: &Edge) -> bool
        ensures { result ≡ edge_before self.now other.now }
    {
        self.order(other).is_lt()
    }
}

/// An edge whose positions stand elsewhere.
#[derive(Drop)]
pub(crate) struct EdgeView<'a> {
    from: Node,
    path: &'a [u8],
    is_open: bool,
    to: Node,
}

impl<'a> Model for EdgeView<'a> {
    ghost use Rattle.mv_edges.specs.Edges.{Edge as EdgeRecord};

    ghost Value = { EdgeRecord };

    ghost view = { λ e. record { from = e.from; label = record { path = e.path.now; is_open = e.is_open }; to = e.to } };
}

impl<'a> EdgeView<'a> {
    /// How many positions the label has.
    pub(crate) fn depth(&self) -> usize
        ensures { result ≡ length self.now.label.path }
    {
        self.path.len()
    }

    /// The edge whose label is open, and has the first positions alone.
    pub(crate) fn opened_at(&self, count: usize) -> EdgeView<'a>
        requires { count ≤ length self.now.label.path }
        ensures { result ≡ opened_at count self.now }
    {
        EdgeView {
            from: self.from,
            path: &self.path[..count],
            is_open: true,
            to: self.to,
        }
    }

    /// The numbers of the nodes.
    pub(crate) fn nodes(&self) -> [u32; 4]
        ensures { result ≡ nodes_code self.now }
    {
        let [from_kind, from_index] = node_numbers(self.from);
        let [to_kind, to_index] = node_numbers(self.to);
        [from_kind, from_index, to_kind, to_index]
    }

    /// Which of two edges comes first by the nodes.
    #[tactic(auto, using(crate::proofs::Comparisons::order_of_same_nodes))]
    #[inline(always)]
    fn nodes_order(&self, other: &EdgeView<'_>) -> Ordering
        ensures { result ≡ slice_cmp nat_cmp (nodes_code self.now) (nodes_code other.now) }
    {
        if is_same(self.from, other.from) && is_same(self.to, other.to) {
            return Ordering::Equal;
        }
        self.nodes().cmp(&other.nodes())
    }

    /// Which of two labels comes first: by the positions, then exact before open.
    #[inline(always)]
    fn label_order(&self, other: &EdgeView<'_>) -> Ordering
        ensures { result ≡ ordering_then (slice_cmp nat_cmp self.now.label.path other.now.label.path) (bool_cmp self.now.label.is_open other.now.label.is_open) }
    {
        let paths = self.path.cmp(other.path);
        paths.then(self.is_open.cmp(&other.is_open))
    }

    /// Which of two edges comes first: by the nodes, then by the positions, then exact before open.
    #[inline(always)]
    pub(crate) fn order(&self, other: &EdgeView<'_>) -> Ordering
        ensures { result ≡ edge_order self.now other.now }
    {
        match self.nodes_order(other) {
            Ordering::Less => Ordering::Less,
            Ordering::Equal => self.label_order(other),
            Ordering::Greater => Ordering::Greater,
        }
    }
}
