// Whether what is stated of a function's blocks is a closed flow.
ghost use Rattle.std.specs.Prelude.{◌≡◌, ℕ, ◌<◌, ◌≤◌, ◌↔◌, Option, length, IsTrue, IfOk, OnOk, IsErrOf, All};
ghost use Rattle.mv_cfg.specs.Graph.{IsGraph};
ghost use Rattle.mv_lattice.specs.Flow.{IsFlow, IsClosed, IsClosedAt, IsBelowEach, IsStated, through};

use crate::{Domain, StepError};
use mv_cfg::{Block, Cfg};
use std::alloc::Global;

/// What a block makes of a state. A state that is refused is dropped.
pub(crate) fn carry<D: Domain>(
    alloc: Global,
    d: &D,
    block: &Block,
    mut s: D::State,
) -> Result<D::State, StepError>
    requires state { (D.order d.now).is_state s }
    requires order { block.now.first ≤ block.now.last }
    requires inside { block.now.last < (D.order d.now).size }
    ensures state { IfOk result (λ t. (D.order d.now).is_state t) }
    ensures ok { IfOk result (λ t. through (D.order d.now).steps block.now s ≡ Option.Some t) }
    ensures need { IsErrOf result StepError.Need → through (D.order d.now).steps block.now s ≡ Option.None }
{
    for at in block.first..=block.last {
        s = d.step(alloc, s, at)?;
    }
    Ok(s)
}

/// Whether a state is below each one that is stated for one of the blocks.
fn is_below_each<D: Domain>(
    d: &D,
    t: &D::State,
    blocks: &[usize],
    flow: &[Option<D::State>],
) -> bool
    requires state { (D.order d.now).is_state t.now }
    requires states { (k : ℕ) (u : D.State) → IsStated flow.now k u → (D.order d.now).is_state u }
    requires inside { All (λ n. n < length flow.now) blocks.now }
    ensures { IsTrue result ↔ IsBelowEach (D.order d.now) flow.now blocks.now t.now }
{
    for n in blocks {
        if let Some(u) = &flow[*n] {
            if !d.leq(t, u) {
                return false;
            }
        }
    }
    true
}

/// Whether the block carries the state to one that is below each one stated for a successor.
fn check_block<D: Domain>(
    alloc: Global,
    d: &D,
    block: &Block,
    s: &D::State,
    flow: &[Option<D::State>],
) -> Result<(), StepError>
    requires state { (D.order d.now).is_state s.now }
    requires order { block.now.first ≤ block.now.last }
    requires inside { block.now.last < (D.order d.now).size }
    requires states { (k : ℕ) (u : D.State) → IsStated flow.now k u → (D.order d.now).is_state u }
    requires successors { All (λ n. n < length flow.now) block.now.successors.items }
    ensures ok { OnOk result (IsClosedAt (D.order d.now) flow.now block.now s.now) }
    ensures need { IsErrOf result StepError.Need → ¬ IsClosedAt (D.order d.now) flow.now block.now s.now }
{
    let begin = d.copy(alloc, s)?;
    let t = carry(alloc, d, block, begin)?;
    if is_below_each(d, &t, &block.successors, flow) {
        Ok(())
    } else {
        Err(StepError::Need)
    }
}

/// Accepts exactly the closed flows: the state that is stated for block 0 is above the start state, and each stated state
/// is carried through its block, every need met, to a state that is below each one stated for a successor.
///
/// # Errors
/// `Need` for each other flow; `Memory` if an allocation failed.
pub fn check_flow<D: Domain>(
    alloc: Global,
    d: &D,
    g: &Cfg,
    start: &D::State,
    stated: &[Option<D::State>],
) -> Result<(), StepError>
    requires graph { IsGraph g.now (D.order d.now).size }
    requires start { (D.order d.now).is_state start.now }
    requires flow { IsFlow (D.order d.now) g.now stated.now }
    ensures ok { OnOk result (IsClosed (D.order d.now) g.now start.now stated.now) }
    ensures need { IsErrOf result StepError.Need → ¬ IsClosed (D.order d.now) g.now start.now stated.now }
{
    if let Some(entry) = &stated[0] {
        if !d.leq(start, entry) {
            return Err(StepError::Need);
        }
    }
    for (k, block) in g.blocks.iter().enumerate() {
        if let Some(s) = &stated[k] {
            check_block(alloc, d, block, s, stated)?;
        }
    }
    Ok(())
}
