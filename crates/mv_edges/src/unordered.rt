// Edges in any order, put in theirs.
ghost use Rattle.std.specs.Prelude.{◌≡◌, ◌++◌, OnOk, OnErr, IsTrue, true};
ghost use Rattle.mv_edges.specs.Ascending.{are_ascending};
ghost use Rattle.mv_edges.specs.Sorted.{sorted};

use super::Edge;
use super::union::merged;
use std::alloc::AllocError;

/// Whether edges ascend.
#[tactic(auto, using(crate::proofs::Passed::ascending_whole))]
fn ascend(items: &[Edge]) -> bool
    ensures { IsTrue result → are_ascending items.now ≡ true }
{
    let mut place = 1;
    while place < items.len() {
        if !items[place - 1].is_before(&items[place]) {
            return false;
        }
        place += 1;
    }
    true
}

/// Puts edges in their order, each once.
///
/// Edges that ascend already take one pass, and two lists that do, one after the other, take two more.
pub(crate) fn put_in_order(items: &mut Vec<Edge>) -> Result<(), AllocError>
    ensures ok { OnOk result (items.new.items ≡ sorted items.old.items) }
    ensures err { OnErr result (items.new.items ≡ items.old.items) }
{
    if ascend(items) {
        return Ok(());
    }
    items.sort_by(|a, b| a.order(b))?;
    items.dedup();
    Ok(())
}

/// Whether edges go behind others, so that all of them ascend.
#[tactic(auto, using(crate::proofs::Sorting::ascending_behind, crate::proofs::Sorting::ascending_behind_none, crate::proofs::Sorting::ascending_before_none))]
fn follow(items: &[Edge], more: &[Edge]) -> bool
    requires items { IsTrue (are_ascending items.now) }
    requires more { IsTrue (are_ascending more.now) }
    ensures { IsTrue result → are_ascending (items.now ++ more.now) ≡ true }
{
    let Some(last) = items.last() else {
        return true;
    };
    let Some(first) = more.first() else {
        return true;
    };
    last.is_before(first)
}

/// Adds edges to others, in order, each once: behind the others if they belong there, otherwise in one pass over both.
#[tactic(auto, using(crate::proofs::Sorting::sorted_behind))]
pub(crate) fn add_in_order(items: &mut Vec<Edge>, mut more: Vec<Edge>) -> Result<(), AllocError>
    requires items { IsTrue (are_ascending items.old.items) }
    requires more { IsTrue (are_ascending more.items) }
    ensures ok { OnOk result (items.new.items ≡ sorted (items.old.items ++ more.items)) }
    ensures err { OnErr result (items.new.items ≡ items.old.items) }
{
    if follow(items, &more) {
        items.append(&mut more)?;
        return Ok(());
    }
    let alloc = *items.allocator();
    *items = merged(alloc, items, &more)?;
    Ok(())
}
