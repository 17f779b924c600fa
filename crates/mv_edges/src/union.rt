// Edges of two lists as one.
ghost use Rattle.std.specs.Prelude.{◌≡◌, ◌++◌, IfOk, OnOk, IsTrue};
ghost use Rattle.mv_edges.specs.Ascending.{are_ascending};
ghost use Rattle.mv_edges.specs.Sorted.{sorted};
ghost use Rattle.mv_edges.specs.Joins.{IsJoin};

use super::{Edge, Edges};
use std::alloc::{AllocError, Global};
use std::cmp::Ordering;

/// Adds equal edges at the end.
fn push_copies(alloc: Global, items: &mut Vec<Edge>, more: &[Edge]) -> Result<(), AllocError>
    ensures { OnOk result (items.new.items ≡ items.old.items ++ more.now) }
{
    for e in more {
        items.push(e.copy(alloc)?)?;
    }
    Ok(())
}

/// The edges of two ascending lists, in order, each once.
pub(crate) fn merged(alloc: Global, a: &[Edge], b: &[Edge]) -> Result<Vec<Edge>, AllocError>
    requires left { IsTrue (are_ascending a.now) }
    requires right { IsTrue (are_ascending b.now) }
    ensures { IfOk result (λ v. v.items ≡ sorted (a.now ++ b.now)) }
{
    let mut items = Vec::with_capacity(alloc, a.len().saturating_add(b.len()))?;
    let mut i = 0;
    let mut j = 0;
    while i < a.len() && j < b.len() {
        let x = &a[i];
        let y = &b[j];
        match x.view().order(&y.view()) {
            Ordering::Less => {
                items.push(x.copy(alloc)?)?;
                i += 1;
            }
            Ordering::Equal => {
                items.push(x.copy(alloc)?)?;
                i += 1;
                j += 1;
            }
            Ordering::Greater => {
                items.push(y.copy(alloc)?)?;
                j += 1;
            }
        }
    }
    push_copies(alloc, &mut items, &a[i..])?;
    push_copies(alloc, &mut items, &b[j..])?;
    Ok(items)
}

impl Edges {
    /// The edges of both, which are the least above both.
    pub fn join(alloc: Global, a: &Edges, b: &Edges) -> Result<Self, AllocError>
        ensures union { IfOk result (λ s. s ≡ sorted (a.now ++ b.now)) }
        ensures least { IfOk result (λ s. IsJoin a.now b.now s) }
        ensures ascending { IfOk result (λ s. IsTrue (are_ascending s)) }
    {
        let left = a.as_slice();
        let right = b.as_slice();
        let items = merged(alloc, left, right)?;
        Ok(Edges::of_items(items))
    }
}
