// Binary search, and the order of edges.
ghost use Rattle.std.specs.Prelude.{◌≡◌, ◌+◌, ◌*◌, ◌<◌, ◌≤◌, min, Some, length, take, drop, slice_get, IfOk, IfErr, IsTrue};
ghost use Rattle.std.specs.List.{list_all, list_any};
ghost use Rattle.mv_move_types.specs.Limits.{most_edges, most_positions};
ghost use Rattle.mv_edges.specs.Edges.{same_edge, edge_leq, edges_leq, longest};
ghost use Rattle.mv_edges.specs.Ascending.{edge_before, edge_order, are_ascending};
ghost use Rattle.mv_edges.specs.Counts.{IsWithin, IsCounted, counted};

use super::edge::EdgeView;
use super::{Edge, Edges};
use std::cmp::Ordering;

/// The smaller of two numbers.
fn smaller(a: usize, b: usize) -> usize
    ensures { result ≡ min a b }
{
    if a < b { a } else { b }
}

/// Compares two edges, and counts it.
fn counted_order(a: &EdgeView<'_>, b: &EdgeView<'_>, comparisons: &mut u64) -> Ordering
    ensures order { result ≡ edge_order a.now b.now }
    ensures count { comparisons.new ≡ counted 1 comparisons.old }
    ensures kept { comparisons.old ≤ comparisons.new }
{
    *comparisons = comparisons.saturating_add(1);
    a.order(b)
}

/// The place of an edge among ascending ones, or, as an `Err`, the place where it would stand.
fn place_of(items: &[Edge], e: &EdgeView<'_>, comparisons: &mut u64) -> Result<usize, usize>
    requires { IsTrue (are_ascending items.now) }
    ensures found { IfOk result (λ place. slice_get items.now place ≡ Some e.now) }
    ensures within { IfErr result (λ place. place ≤ length items.now) }
    ensures before { IfErr result (λ place. IsTrue (list_all (λ x. edge_before x e.now) (take place items.now))) }
    ensures after { IfErr result (λ place. IsTrue (list_all (edge_before e.now) (drop place items.now))) }
    ensures count { IsWithin (length items.now) 1 comparisons.old comparisons.new }
    ensures counted { IsCounted (length items.now) comparisons.old comparisons.new }
{
    let mut low = 0;
    let mut high = items.len();
    while low < high {
        let middle = low + (high - low) / 2;
        match counted_order(&items[middle].view(), e, comparisons) {
            Ordering::Less => low = middle + 1,
            Ordering::Equal => return Ok(middle),
            Ordering::Greater => high = middle,
        }
    }
    Err(low)
}

impl Edges {
    /// The place of an edge, or, as an `Err`, the place where it would stand.
    pub(crate) fn search(&self, e: &EdgeView<'_>, comparisons: &mut u64) -> Result<usize, usize>
        ensures found { IfOk result (λ place. slice_get self.now place ≡ Some e.now) }
        ensures within { IfErr result (λ place. place ≤ length self.now) }
        ensures before { IfErr result (λ place. IsTrue (list_all (λ x. edge_before x e.now) (take place self.now))) }
        ensures after { IfErr result (λ place. IsTrue (list_all (edge_before e.now) (drop place self.now))) }
        ensures count { IsWithin (length self.now) 1 comparisons.old comparisons.new }
        ensures counted { IsCounted (length self.now) comparisons.old comparisons.new }
    {
        place_of(self.as_slice(), e, comparisons)
    }

    /// Whether an edge is one of them.
    fn has(&self, e: &EdgeView<'_>, comparisons: &mut u64) -> bool
        ensures value { result ≡ list_any (same_edge e.now) self.now }
        ensures count { IsWithin (length self.now) 1 comparisons.old comparisons.new }
        ensures counted { IsCounted (length self.now) comparisons.old comparisons.new }
    {
        self.search(e, comparisons).is_ok()
    }

    /// Whether one of the edges is above another: that edge itself, or the open one of a prefix of its list. The longest list
    /// among the labels has `deepest` positions.
    fn reach(&self, e: &EdgeView<'_>, deepest: usize, comparisons: &mut u64) -> bool
        requires { deepest ≡ longest self.now }
        ensures value { result ≡ list_any (edge_leq e.now) self.now }
        ensures count { IsWithin (length self.now) (longest self.now + 2) comparisons.old comparisons.new }
        ensures counted { IsCounted (length self.now) comparisons.old comparisons.new }
    {
        if self.has(e, comparisons) {
            return true;
        }
        let most = smaller(e.depth(), deepest);
        for count in 0..most {
            if self.has(&e.opened_at(count), comparisons) {
                return true;
            }
        }
        let last = e.opened_at(most);
        self.has(&last, comparisons)
    }

    /// Whether each edge is below one of the other's.
    pub fn leq(&self, other: &Edges) -> bool
        ensures { result ≡ edges_leq self.now other.now }
    {
        leq_counted(self, other, &mut 0)
    }
}

/// Whether each edge of `a` is below one of `b`. Each comparison of two edges adds one to the count, which stops at
/// `u64::MAX`.
///
/// If `b` has at most 1,024 edges, with at most 8 positions each, at most 110 are added for each edge of `a`: 10 searches of
/// at most 11 comparisons. If `b` has an edge, at least one is added for each edge of `a` that is looked up; all of them are
/// looked up if each is below one of `b`.
pub fn leq_counted(a: &Edges, b: &Edges, comparisons: &mut u64) -> bool
    ensures value { result ≡ edges_leq a.now b.now }
    ensures each { IsTrue result → 0 < length b.now → counted (length a.now) comparisons.old ≤ comparisons.new }
    ensures some { 0 < length a.now → 0 < length b.now → counted 1 comparisons.old ≤ comparisons.new }
    ensures count { length b.now ≤ most_edges → longest b.now ≤ most_positions → comparisons.new ≤ comparisons.old + 110 * length a.now }
{
    let deepest = b.longest();
    for e in a.as_slice() {
        if !b.reach(&e.view(), deepest, comparisons) {
            return false;
        }
    }
    true
}
