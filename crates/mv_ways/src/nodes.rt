// Sets of nodes, by a test.
ghost use Rattle.std.specs.Prelude.{◌≡◌};

use mv_move_types::Node;

/// A set of nodes.
pub trait NodeSet {
    ghost use Rattle.std.specs.Prelude.{◌≡◌, Bool};
    ghost use Rattle.mv_move_types.specs.declared.borrow.Node.{Node as NodeRecord};

    /// Whether a node is in the set.
    ghost test: { Self → NodeRecord → Bool };

    /// Whether a node is in the set.
    fn has(&self, node: Node) -> bool
        ensures { result ≡ test self.now node };
}

/// The set of one node.
#[derive(Drop, Clone, Copy)]
pub struct One(pub Node);

impl NodeSet for One {
    ghost use Rattle.mv_edges.specs.Edges.{same_node};

    ghost test = { λ s n. same_node n s.0 };

    fn has(&self, node: Node) -> bool {
        node == self.0
    }
}

/// The set of some nodes.
#[derive(Drop, Clone, Copy)]
pub(crate) struct Each<'a>(pub(crate) &'a [Node]);

impl<'a> NodeSet for Each<'a> {
    ghost use Rattle.std.specs.List.{list_any};
    ghost use Rattle.mv_edges.specs.Edges.{same_node};

    ghost test = { λ s n. list_any (λ m. same_node m n) s.0.now };

    fn has(&self, node: Node) -> bool {
        self.0.iter().any(|n| *n == node)
    }
}

/// The set of all nodes.
#[derive(Drop, Clone, Copy)]
pub struct All;

impl NodeSet for All {
    ghost use Rattle.std.specs.Prelude.{true};

    ghost test = { λ s n. true };

    fn has(&self, _node: Node) -> bool {
        true
    }
}
