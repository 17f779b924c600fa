// Whether a graph has a cycle: nodes without an edge to them are removed as long as there are any.
ghost use Rattle.std.specs.Prelude.{◌≡◌, ◌+◌, ◌*◌, ◌^◌, ◌≤◌, ◌<◌, ◌↔◌, ℕ, length, map, slice_index, vec_len, IsTrue, IfOk, OnOk, nat_lt, ◌==◌, []};
ghost use Rattle.std.specs.List.{list_all};
ghost use Rattle.mv_bounds.specs.Cycles.{IsAcyclic};
ghost use Rattle.mv_bounds.specs.Removal.{edges_to, Released};
ghost use Rattle.mv_bound_rules.specs.Times.{times, is_zero};

use std::alloc::{AllocError, Global};

/// Adds to each node's count how often it stands among the targets.
fn count(counts: &mut [u128], targets: &[usize])
    requires { (j : ℕ) → j < length counts.old → slice_index counts.old j + 2 ^ 64 < 2 ^ 128 }
    ensures { (j : ℕ) → j < length counts.old → slice_index counts.new j ≡ slice_index counts.old j + times j targets.now }
{
    for target in targets {
        if *target < counts.len() {
            counts[*target] += 1;
        }
    }
}

/// How many edges lead to each node. The lengths of many lists need not add up to a `usize`.
fn incoming(alloc: Global, graph: &[Vec<usize>]) -> Result<Vec<u128>, AllocError>
    ensures len { IfOk result (λ v. vec_len v ≡ length graph.now) }
    ensures counts { IfOk result (λ v. (j : ℕ) → j < length graph.now → slice_index v.items j ≡ edges_to (map (λ s. s.items) graph.now) [] j) }
{
    let mut counts = vec![in alloc; 0u128; graph.len()]?;
    for targets in graph {
        count(&mut counts, targets);
    }
    Ok(counts)
}

/// The nodes that no edge leads to.
fn sources(alloc: Global, waiting: &[u128]) -> Result<Vec<usize>, AllocError>
    ensures below { IfOk result (λ v. IsTrue (list_all (λ x. nat_lt x (length waiting.now)) v.items)) }
    ensures ready { IfOk result (λ v. (j : ℕ) → j < length waiting.now → times j v.items ≡ is_zero (slice_index waiting.now j)) }
{
    let mut ready = Vec::new(alloc);
    for node in 0..waiting.len() {
        if waiting[node] == 0 {
            ready.push(node)?;
        }
    }
    Ok(ready)
}

/// Takes the edges to these targets away, and adds the nodes that no edge leads to any more.
fn release(
    waiting: &mut [u128],
    ready: &mut Vec<usize>,
    targets: &[usize],
) -> Result<(), AllocError>
    requires { (j : ℕ) → j < length waiting.old → times j targets.now ≤ slice_index waiting.old j }
    ensures { OnOk result (Released (length waiting.old) waiting.old waiting.new ready.old.items ready.new.items targets.now) }
{
    for target in targets {
        if *target < waiting.len() {
            waiting[*target] -= 1;
            if waiting[*target] == 0 {
                ready.push(*target)?;
            }
        }
    }
    Ok(())
}

/// Whether all marks are set.
fn all_marked(marks: &[bool]) -> bool
    ensures { result ≡ list_all (λ r. r) marks.now }
{
    marks.iter().all(|mark| *mark)
}

/// Whether no edge leads anywhere.
fn has_no_edges(graph: &[Vec<usize>]) -> bool
    ensures { result ≡ list_all (λ s. length s.items == 0) graph.now }
{
    graph.iter().all(|targets| targets.is_empty())
}

/// Whether no node of a graph leads to itself: all are removed.
fn can_be_emptied(alloc: Global, graph: &[Vec<usize>]) -> Result<bool, AllocError>
    ensures { IfOk result (λ b. IsTrue b ↔ IsAcyclic (map (λ s. s.items) graph.now)) }
{
    let mut waiting = incoming(alloc, graph)?;
    let mut ready = sources(alloc, &waiting)?;
    let mut removed = vec![in alloc; false; graph.len()]?;
    while let Some(node) = ready.pop() {
        removed[node] = true;
        release(&mut waiting, &mut ready, &graph[node])?;
    }
    Ok(all_marked(&removed))
}

/// Whether no node of a graph, given by each node's successors, leads to itself. A successor that isn't a node leads
/// nowhere. The time is linear in the number of nodes and edges.
///
/// # Errors
///
/// If an allocation failed.
#[tactic(auto, using(crate::proofs::EdgeLemmas::acyclic_without_edges))]
pub fn is_acyclic(alloc: Global, graph: &[Vec<usize>]) -> Result<bool, AllocError>
    ensures { IfOk result (λ b. IsTrue b ↔ IsAcyclic (map (λ s. s.items) graph.now)) }
{
    if has_no_edges(graph) {
        return Ok(true);
    }
    can_be_emptied(alloc, graph)
}
