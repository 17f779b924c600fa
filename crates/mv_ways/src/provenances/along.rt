// Whether each edge of a list is below one of another's, where most are in both.
ghost use Rattle.std.specs.Prelude.{◌≡◌, IsTrue};
ghost use Rattle.std.specs.List.{list_any};
ghost use Rattle.mv_edges.specs.Edges.{edge_leq, edges_leq};

use super::sinks::has_above;
use super::told::Told;
use mv_edges::{Edge, Edges};

/// How many edges are searched for one by one. Of more, all are searched for as `Edges` does it, whose time has a bound.
const MOST_SEARCHED: usize = 16;

/// Whether one of ascending edges, from a place on, is above another one and is the first that isn't before it. The place goes on to
/// that one, or behind it if it is above no other.
fn is_next_above(others: &[Edge], at: &mut usize, e: &Edge) -> bool
    ensures { IsTrue result → IsTrue (list_any (edge_leq e.now) others.now) }
{
    for place in *at..others.len() {
        let other = &others[place];
        *at = place;
        if e.is_below(other) {
            if !other.label().is_open() {
                *at = place + 1;
            }
            return true;
        }
        if !other.is_before(e) {
            return false;
        }
    }
    false
}

/// Whether each edge is below one of the others. It goes along both lists, since most edges are in both, and searches for the rest.
pub(crate) fn are_below(edges: &Edges, others: &Edges) -> bool
    ensures { result ≡ edges_leq edges.now others.now }
{
    let mut at = 0;
    let mut searched = 0;
    for e in edges.as_slice() {
        if !is_next_above(others.as_slice(), &mut at, e) {
            if searched == MOST_SEARCHED {
                return edges.leq(others);
            }
            searched += 1;
            if !has_above(others, &Told::of(e)) {
                return false;
            }
        }
    }
    true
}
