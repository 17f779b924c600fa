// What references lead into, as a state.
ghost use Rattle.std.specs.Prelude.{◌≡◌, ◌++◌, ◌&&◌, nat_le, [], length, not, true, IfOk, IfSome, IsTrue};
ghost use Rattle.std.specs.List.{list_all};
ghost use Rattle.mv_move_types.specs.Limits.{most_edges, most_positions};
ghost use Rattle.mv_edges.specs.Ascending.{are_ascending};
ghost use Rattle.mv_edges.specs.Edges.{edges_leq};
ghost use Rattle.mv_edges.specs.Joins.{IsJoin};
ghost use Rattle.mv_edges.specs.Sorted.{sorted};
ghost use Rattle.mv_ways.specs.Between.{any_between};
ghost use Rattle.mv_ways.specs.Borrows.{are_related, has_related, is_related};
ghost use Rattle.mv_ways.specs.Counting.{is_short};

use super::graph::Graph;
use super::nodes::NodeSet;
use super::provenances::along::are_below;
use super::provenances::every::EdgeTest;
use super::provenances::told::Told;
use mv_edges::{Edge, Edges};
use mv_move_types::limits::{MOST_EDGES, MOST_POSITIONS};
use std::alloc::{AllocError, Global};
use std::marker::Model;

/// Where the edges of a state are.
#[derive(Drop, Debug)]
pub(crate) enum Form<'s> {
    /// There are none.
    Nothing,
    /// In a list that stands elsewhere: a certificate's.
    Stated(&'s Edges),
    /// In a list.
    Listed(Box<Edges>),
    /// In a graph of provenances.
    Grown(Graph),
}

/// How one edge is related to another.
#[derive(Drop, Clone, Copy, Debug)]
pub(crate) enum Relation {
    /// They are one.
    Same,
    /// The other one is above it.
    Below,
}

/// What references lead into: a list of edges as it is stated, or a graph as instructions make it. Its model is the list of the edges
/// in their order, whatever form they have.
#[derive(Drop, Debug)]
pub struct Borrows<'s> {
    form: Form<'s>,
}

impl<'s> Model for Borrows<'s> {
    ghost use Rattle.std.specs.Prelude.{List};
    ghost use Rattle.mv_edges.specs.Edges.{Edge as EdgeRecord};
    ghost use Rattle.mv_ways.specs.Borrows.{edges_in};

    ghost Value = { List EdgeRecord };

    ghost view = { λ s. edges_in s.form };
}

/// Whether the second edge is the first one, or above it.
fn is_related(relation: Relation, a: &Told<'_>, b: &Told<'_>) -> bool
    ensures { result ≡ is_related relation a.now b.now }
{
    match relation {
        Relation::Same => a.is_same(b),
        Relation::Below => a.is_below(b),
    }
}

/// Whether an edge is one of a list's, or one of them is above it.
fn has_in(edges: &[Edge], relation: Relation, e: &Told<'_>) -> bool
    ensures { result ≡ has_related relation edges.now e.now }
{
    edges
        .iter()
        .any(|other| is_related(relation, e, &Told::of(other)))
}

/// Whether each edge is one of a state's, or below one of them.
fn are_within(edges: &[Edge], relation: Relation, other: &Borrows<'_>) -> bool
    ensures { result ≡ are_related relation edges.now other.now }
{
    edges.iter().all(|e| other.has(relation, &Told::of(e)))
}

/// Whether an edge of a list leads from some nodes to others, and agrees with a position, if one is asked for.
fn any_listed<P: NodeSet, Q: NodeSet>(
    edges: &[Edge],
    from: &P,
    position: Option<u8>,
    to: &Q,
) -> bool
    ensures { result ≡ any_between (P.test from.now) position (Q.test to.now) edges.now }
{
    edges.iter().any(|e| from.has(e.from()) && e.label().agrees_if(position) && to.has(e.to()))
}

/// Whether a label has at most `MOST_POSITIONS` positions.
fn is_short(e: &Told<'_>) -> bool
    ensures { result ≡ is_short e.now }
{
    e.depth() <= MOST_POSITIONS
}

/// Whether each label has at most `MOST_POSITIONS` positions.
fn are_short(edges: &[Edge]) -> bool
    ensures { result ≡ list_all is_short edges.now }
{
    edges.iter().all(|e| is_short(&Told::of(e)))
}

/// Whether there are at most `MOST_EDGES` edges, each with a label of at most `MOST_POSITIONS` positions.
fn are_few(edges: &[Edge]) -> bool
    ensures { result ≡ (nat_le (length edges.now) most_edges && list_all is_short edges.now) }
{
    edges.len() <= MOST_EDGES && are_short(edges)
}

/// Whether a label has at most `MOST_POSITIONS` positions.
#[derive(Drop)]
struct Short;

impl EdgeTest for Short {
    ghost use Rattle.mv_ways.specs.Counting.{is_short};

    ghost test = { λ t e. is_short e };

    fn passes(&self, e: &Told<'_>) -> bool {
        is_short(e)
    }
}

/// Whether a graph has at most `MOST_EDGES` edges, each with a label of at most `MOST_POSITIONS` positions.
fn are_few_in(graph: &Graph) -> bool
    ensures { result ≡ (nat_le (length graph.now) most_edges && list_all is_short graph.now) }
{
    graph.all_pass(&Short) && graph.are_at_most(MOST_EDGES)
}

/// Whether an edge isn't another one, or the other one isn't above it.
#[derive(Drop)]
struct Apart<'a, 'e> {
    e: &'a Told<'e>,
    relation: Relation,
}

impl<'a, 'e> EdgeTest for Apart<'a, 'e> {
    ghost use Rattle.std.specs.Prelude.{not};
    ghost use Rattle.mv_ways.specs.Borrows.{is_related};

    ghost test = { λ t other. not (is_related t.relation t.e.now other) };

    fn passes(&self, other: &Told<'_>) -> bool {
        !is_related(self.relation, self.e, other)
    }
}

/// Whether an edge is one of a graph's, or one of them is above it.
fn has_in_graph(graph: &Graph, relation: Relation, e: &Told<'_>) -> bool
    ensures { result ≡ has_related relation graph.now e.now }
{
    !graph.all_pass(&Apart { e, relation })
}

/// Whether an edge is one of a state's, or one of them is above it.
#[derive(Drop)]
struct Among<'a, 's> {
    other: &'a Borrows<'s>,
    relation: Relation,
}

impl<'a, 's> EdgeTest for Among<'a, 's> {
    ghost use Rattle.mv_ways.specs.Borrows.{has_related};

    ghost test = { λ t e. has_related t.relation t.other.now e };

    fn passes(&self, e: &Told<'_>) -> bool {
        self.other.has(self.relation, e)
    }
}

impl<'s> PartialEq for Borrows<'s> {
    ghost use Rattle.std.specs.Cmp.Lexicographic.{pointwise, lists_per};
    ghost use Rattle.std.specs.Cmp.{partial_equiv_from_equiv};
    ghost use Rattle.mv_edges.specs.Edges.{same_edge};
    ghost use Rattle.mv_edges.specs.Equality.{same_edge_equiv};

    ghost eq = { pointwise same_edge };

    ghost laws = { lists_per (partial_equiv_from_equiv same_edge_equiv) };

    fn eq(&self, other: &Self) -> bool {
        match (self.list(), other.list()) {
            (Some(own), Some(others)) => own == others,
            (_, _) => {
                self.ascend();
                other.ascend();
                self.is_within(Relation::Same, other) && other.is_within(Relation::Same, self)
            }
        }
    }
}

impl<'s> Eq for Borrows<'s> {
    ghost use Rattle.std.specs.Cmp.Lexicographic.{lists_equiv};
    ghost use Rattle.mv_edges.specs.Equality.{same_edge_equiv};

    ghost laws = { lists_equiv same_edge_equiv };
}

impl<'s> Borrows<'s> {
    /// No edges.
    pub fn nothing() -> Self
        ensures { result ≡ [] }
    {
        Borrows {
            form: Form::Nothing,
        }
    }

    /// The edges of a list that stands elsewhere.
    pub fn of_stated(edges: &'s Edges) -> Self
        ensures edges { result ≡ edges.entry.now }
        ensures ascending { IsTrue (are_ascending result) }
    {
        let _edges = edges.as_slice();
        Borrows {
            form: Form::Stated(edges),
        }
    }

    /// The edges of a list.
    pub fn of_list(alloc: Global, edges: Edges) -> Result<Self, AllocError>
        ensures edges { IfOk result (λ s. s ≡ edges) }
        ensures ascending { IfOk result (λ s. IsTrue (are_ascending s)) }
    {
        let _edges = edges.as_slice();
        Ok(Borrows {
            form: Form::Listed(Box::new(alloc, edges)?),
        })
    }

    /// The edges of a graph, which isn't copied.
    pub fn of_graph(graph: Graph) -> Self
        ensures edges { result ≡ graph }
        ensures ascending { IsTrue (are_ascending result) }
    {
        graph.ascend();
        Borrows {
            form: Form::Grown(graph),
        }
    }

    /// The edges as a graph, to be changed. It is made of a list, unless there is one.
    #[inline(always)]
    pub fn grown(self, alloc: Global) -> Result<Graph, AllocError>
        ensures { IfOk result (λ g. g ≡ self.entry) }
    {
        match self.form {
            Form::Nothing => Graph::of_edges(alloc, &Edges::new(alloc)),
            Form::Stated(edges) => Graph::of_edges(alloc, edges),
            Form::Listed(edges) => Graph::of_edges(alloc, &edges),
            Form::Grown(graph) => Ok(graph),
        }
    }

    /// The edges as a list. One that stands elsewhere is copied.
    pub fn into_list(self, alloc: Global) -> Result<Edges, AllocError>
        ensures { IfOk result (λ s. s ≡ self.entry) }
    {
        match self.form {
            Form::Listed(edges) => Ok(Box::into_inner(edges)),
            form => Borrows { form }.listed(alloc),
        }
    }

    /// Equal edges. A list that stands elsewhere isn't copied; a graph is listed.
    pub fn copy(&self, alloc: Global) -> Result<Borrows<'s>, AllocError>
        ensures equal { IfOk result (λ s. s ≡ self.now) }
        ensures ascending { IfOk result (λ s. IsTrue (are_ascending s)) }
    {
        match &self.form {
            Form::Nothing => Ok(Borrows::nothing()),
            Form::Stated(edges) => Ok(Borrows::of_stated(edges)),
            Form::Listed(edges) => Borrows::of_list(alloc, edges.copy(alloc)?),
            Form::Grown(graph) => Borrows::of_list(alloc, graph.to_edges(alloc)?),
        }
    }

    /// Whether it is plain that there are no edges. Where it isn't, there may be none all the same: sources of a graph may be gone.
    #[inline(always)]
    pub fn are_plainly_none(&self) -> bool
        ensures { IsTrue result → self.now ≡ [] }
    {
        match &self.form {
            Form::Nothing => true,
            Form::Stated(edges) => edges.as_slice().is_empty(),
            Form::Listed(edges) => edges.as_slice().is_empty(),
            Form::Grown(graph) => graph.has_no_reference(),
        }
    }

    /// The list of the edges, if they are in one.
    fn list(&self) -> Option<&Edges>
        ensures { IfSome result (λ edges. edges.now ≡ self.now) }
    {
        match &self.form {
            Form::Stated(edges) => Some(edges),
            Form::Listed(edges) => Some(edges),
            Form::Nothing | Form::Grown(_) => None,
        }
    }

    /// The edges ascend.
    fn ascend(&self)
        ensures { IsTrue (are_ascending self.now) }
    {
        match &self.form {
            Form::Nothing => {}
            Form::Stated(edges) => {
                let _edges = edges.as_slice();
            }
            Form::Listed(edges) => {
                let _edges = edges.as_slice();
            }
            Form::Grown(graph) => graph.ascend(),
        }
    }

    /// Whether an edge is one of them, or one of them is above it.
    pub(crate) fn has(&self, relation: Relation, e: &Told<'_>) -> bool
        ensures { result ≡ has_related relation self.now e.now }
    {
        match &self.form {
            Form::Nothing => false,
            Form::Stated(edges) => has_in(edges.as_slice(), relation, e),
            Form::Listed(edges) => has_in(edges.as_slice(), relation, e),
            Form::Grown(graph) => has_in_graph(graph, relation, e),
        }
    }

    /// Whether each edge is one of the other's, or below one of them.
    fn is_within(&self, relation: Relation, other: &Borrows<'_>) -> bool
        ensures { result ≡ are_related relation self.now other.now }
    {
        match &self.form {
            Form::Nothing => true,
            Form::Stated(edges) => are_within(edges.as_slice(), relation, other),
            Form::Listed(edges) => are_within(edges.as_slice(), relation, other),
            Form::Grown(graph) => graph.all_pass(&Among { other, relation }),
        }
    }

    /// Whether an edge leads from some nodes to others, and agrees with a position, if one is asked for.
    pub fn any_between<P: NodeSet, Q: NodeSet>(
        &self,
        from: &P,
        position: Option<u8>,
        to: &Q,
    ) -> bool
        ensures { result ≡ any_between (P.test from.now) position (Q.test to.now) self.now }
    {
        match &self.form {
            Form::Nothing => false,
            Form::Stated(edges) => any_listed(edges.as_slice(), from, position, to),
            Form::Listed(edges) => any_listed(edges.as_slice(), from, position, to),
            Form::Grown(graph) => graph.any_between(from, position, to),
        }
    }

    /// Whether each edge is below one of the other's.
    pub fn leq(&self, other: &Borrows<'_>) -> bool
        ensures { result ≡ edges_leq self.now other.now }
    {
        if self.are_plainly_none() {
            return true;
        }
        match (&self.form, other.list()) {
            (Form::Nothing, _) => true,
            (Form::Stated(edges), Some(others)) => are_below(edges, others),
            (Form::Listed(edges), Some(others)) => are_below(edges, others),
            (Form::Grown(graph), Some(others)) => graph.is_under(others),
            (_, None) => self.is_within(Relation::Below, other),
        }
    }

    /// The edges of both, which are the least above both.
    pub fn join(alloc: Global, a: &Borrows<'_>, b: &Borrows<'_>) -> Result<Self, AllocError>
        ensures union { IfOk result (λ s. s ≡ sorted (a.now ++ b.now)) }
        ensures least { IfOk result (λ s. IsJoin a.now b.now s) }
        ensures ascending { IfOk result (λ s. IsTrue (are_ascending s)) }
    {
        let edges = match (a.list(), b.list()) {
            (Some(left), Some(right)) => Edges::join(alloc, left, right)?,
            (Some(left), None) => Edges::join(alloc, left, &b.listed(alloc)?)?,
            (None, Some(right)) => Edges::join(alloc, &a.listed(alloc)?, right)?,
            (None, None) => Edges::join(alloc, &a.listed(alloc)?, &b.listed(alloc)?)?,
        };
        Borrows::of_list(alloc, edges)
    }

    /// The edges as a list of their own.
    fn listed(&self, alloc: Global) -> Result<Edges, AllocError>
        ensures { IfOk result (λ s. s ≡ self.now) }
    {
        match &self.form {
            Form::Nothing => Ok(Edges::new(alloc)),
            Form::Stated(edges) => edges.copy(alloc),
            Form::Listed(edges) => edges.copy(alloc),
            Form::Grown(graph) => graph.to_edges(alloc),
        }
    }

    /// Whether there are at most `MOST_EDGES` edges, each with a label of at most `MOST_POSITIONS` positions.
    pub fn are_few(&self) -> bool
        ensures { result ≡ (nat_le (length self.now) most_edges && list_all (λ e. nat_le (length e.label.path) most_positions) self.now) }
    {
        match &self.form {
            Form::Nothing => true,
            Form::Stated(edges) => are_few(edges.as_slice()),
            Form::Listed(edges) => are_few(edges.as_slice()),
            Form::Grown(graph) => are_few_in(graph),
        }
    }
}
