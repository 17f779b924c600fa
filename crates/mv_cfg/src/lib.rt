//! Phase 7 of publishing, and the flow graph of a function: its blocks, and which blocks follow which.
//!
//! ```
//! use mv_move_types::Refusal;
//! use std::alloc::Global;
//!
//! /// How many blocks a module's first function has, if there is one.
//! fn example(alloc: Global, bytes: &[u8]) -> Result<usize, Refusal> {
//!     let module = mv_binary_format::decode(alloc, bytes)?;
//!     let bounded = mv_bounds::check(alloc, module)?;
//!     if bounded.module().functions().is_empty() {
//!         return Ok(0);
//!     }
//!     let graph = mv_cfg::blocks(alloc, &bounded, 0)?;
//!     Ok(graph.blocks.len())
//! }
//! ```
#![tactic(auto)]

ghost use Rattle.std.specs.Prelude.{◌≡◌, ◌+◌, ◌<◌, length, map, All, IfOk, IfErr, IfSome, slice_get, slice_index, slice_index_or, IsTrue};
ghost use Rattle.mv_move_types.specs.Flow.{exit_ends_block, exit_falls_through};
ghost use Rattle.mv_move_types.specs.Refusals.{IsRefusedIn};
ghost use Rattle.mv_cfg.specs.Blocks.{ends_well, leads_to};
ghost use Rattle.mv_cfg.specs.FlowGraph.{IsFlowGraph};
ghost use Rattle.mv_cfg.specs.Steps.{starts as starts_of, BranchesInside, IsTargetMarks, IsPlaced, IsSplit, IsLinked, IsReachedMarks, IsMarkedAs};

use mv_bound_rules::Bounded;
use mv_move_types::{Exit, Instruction, Refusal};
use std::alloc::{AllocError, Global};

/// A basic block: instructions one after the other, which control enters only at the first.
#[derive(Drop)]
pub struct Block {
    /// The first instruction.
    pub first: usize,
    /// The last instruction.
    pub last: usize,
    /// The blocks at which control can go on, by their place in the list of blocks.
    pub successors: Vec<usize>,
    /// Whether a path of blocks leads here from the first block.
    pub reached: bool,
}

/// The blocks of a function, in the order of their first instructions.
#[derive(Drop)]
pub struct Cfg {
    pub blocks: Vec<Block>,
}

/// Whether this exit does anything but fall through to the next instruction.
fn ends_block(exit: Exit) -> bool
    ensures { result ≡ exit_ends_block exit }
{
    !matches!(exit, Exit::Next)
}

/// Whether control may come to the next instruction by this exit.
fn falls_through(exit: Exit) -> bool
    ensures { result ≡ exit_falls_through exit }
{
    matches!(exit, Exit::Next | Exit::Fork(_))
}

/// Whether there is a last instruction, and control never goes on after it.
fn is_ended(code: &[Instruction]) -> bool
    ensures { result ≡ ends_well code.now }
{
    match code.last() {
        Some(last) => !falls_through(last.exit()),
        None => false,
    }
}

/// For each instruction, whether a branch leads to it.
fn branch_targets(alloc: Global, code: &[Instruction]) -> Result<Vec<bool>, AllocError>
    requires { BranchesInside code.now }
    ensures { IfOk result (λ marks. IsTargetMarks code.now marks.items) }
{
    let mut marks = vec![in alloc; false; code.len()]?;
    for instruction in code {
        match instruction.exit() {
            Exit::Fork(target) | Exit::Jump(target) => marks[usize::from(target)] = true,
            Exit::Next | Exit::Leave => {}
        }
    }
    Ok(marks)
}

/// The first instructions of the blocks, in order: the code's first one, those that a branch leads to, and those after
/// an instruction that ends a block.
fn starts(alloc: Global, code: &[Instruction], is_target: &[bool]) -> Result<Vec<usize>, AllocError>
    requires { IsTargetMarks code.now is_target.now }
    ensures { IfOk result (λ firsts. firsts.items ≡ starts_of code.now) }
{
    let mut firsts = Vec::new(alloc);
    let mut begins = true;
    for (i, instruction) in code.iter().enumerate() {
        if begins || is_target[i] {
            firsts.push(i)?;
        }
        begins = ends_block(instruction.exit());
    }
    Ok(firsts)
}

/// For each of so many instructions at which a block begins, which of the blocks it is.
fn places(alloc: Global, size: usize, firsts: &[usize]) -> Result<Vec<usize>, AllocError>
    requires { All (λ i. i < size) firsts.now }
    ensures { IfOk result (λ places. IsPlaced size firsts.now places.items) }
{
    let mut places = vec![in alloc; 0; size]?;
    for (k, first) in firsts.iter().enumerate() {
        places[*first] = k;
    }
    Ok(places)
}

/// The blocks at which control can go on after this instruction.
fn link(
    alloc: Global,
    code: &[Instruction],
    places: &[usize],
    last: usize,
) -> Result<Vec<usize>, AllocError>
    requires inside { last < length code.now }
    requires next { All (λ n. n < length places.now) (leads_to code.now last) }
    ensures { IfOk result (λ next. next.items ≡ map (slice_index places.now) (leads_to code.now last)) }
{
    match code[last].exit() {
        Exit::Next => Ok(vec![in alloc; places[last + 1]]?),
        Exit::Fork(target) => { Ok(vec![in alloc; places[usize::from(target)], places[last + 1]]?) }
        Exit::Jump(target) => Ok(vec![in alloc; places[usize::from(target)]]?),
        Exit::Leave => Ok(Vec::new(alloc)),
    }
}

/// Where the block at `k` ends: at the first instruction of the next one, or with the code.
fn end_of(firsts: &[usize], k: usize, size: usize) -> usize
    requires { k < length firsts.now }
    ensures { result ≡ slice_index_or firsts.now (k + 1) size }
{
    firsts.get(k + 1).copied().unwrap_or(size)
}

/// The blocks that begin at these instructions, none of them marked as reached.
fn split(
    alloc: Global,
    code: &[Instruction],
    firsts: &[usize],
    places: &[usize],
) -> Result<Vec<Block>, AllocError>
    requires ends { IsTrue (ends_well code.now) }
    requires inside { BranchesInside code.now }
    requires firsts { firsts.now ≡ starts_of code.now }
    requires places { IsPlaced (length code.now) firsts.now places.now }
    ensures { IfOk result (λ blocks. IsSplit code.now firsts.now places.now blocks.items) }
{
    let mut blocks = Vec::with_capacity(alloc, firsts.len())?;
    for (k, first) in firsts.iter().enumerate() {
        let last = end_of(firsts, k, code.len()) - 1;
        let successors = link(alloc, code, places, last)?;
        blocks.push(Block {
            first: *first,
            last,
            successors,
            reached: false,
        })?;
    }
    Ok(blocks)
}

/// For each block, whether a path leads to it from the first one: each enters the worklist at most once.
fn reached(alloc: Global, g: &Cfg) -> Result<Vec<bool>, AllocError>
    requires { IsLinked g.now }
    ensures { IfOk result (λ marks. IsReachedMarks g.now marks.items) }
{
    let mut marks = vec![in alloc; false; g.blocks.len()]?;
    let mut worklist = Vec::new(alloc);
    marks[0] = true;
    worklist.push(0)?;
    while let Some(k) = worklist.pop() {
        for next in &g.blocks[k].successors {
            if !marks[*next] {
                marks[*next] = true;
                worklist.push(*next)?;
            }
        }
    }
    Ok(marks)
}

/// Marks the blocks as reached by a path or not.
fn mark(blocks: &mut [Block], marks: &[bool])
    requires { length marks.now ≡ length blocks.old }
    ensures { IsMarkedAs blocks.old marks.now blocks.new }
{
    for k in 0..marks.len() {
        let block = &mut blocks[k];
        block.reached = marks[k];
    }
}

/// The flow graph of code that ends well.
fn graph(alloc: Global, code: &[Instruction]) -> Result<Cfg, AllocError>
    requires ends { IsTrue (ends_well code.now) }
    requires inside { BranchesInside code.now }
    ensures { IfOk result (λ g. IsFlowGraph code.now g) }
{
    let is_target = branch_targets(alloc, code)?;
    let firsts = starts(alloc, code, &is_target)?;
    let places = places(alloc, code.len(), &firsts)?;
    let mut g = Cfg {
        blocks: split(alloc, code, &firsts, &places)?,
    };
    let marks = reached(alloc, &g)?;
    mark(&mut g.blocks, &marks);
    Ok(g)
}

/// The flow graph of function `f`.
///
/// # Errors
/// `Phase(7)` exactly where the function has no instruction, or control may go on after its last one; `Memory` if an
/// allocation failed.
pub fn blocks(alloc: Global, m: &Bounded<'_>, f: usize) -> Result<Cfg, Refusal>
    requires { f < length m.now.functions }
    ensures ok { IfOk result (λ g. IfSome (slice_get m.now.functions f) (λ d. IsFlowGraph d.code g)) }
    ensures refused { IfErr result (λ e. IfSome (slice_get m.now.functions f) (λ d. IsRefusedIn 7 (IsTrue (ends_well d.code)) e)) }
{
    let code = m.code(f);
    if !is_ended(code) {
        return Err(Refusal::Phase(7));
    }
    // For the prover: branches lead into the code.
    let _module = m.module();
    Ok(graph(alloc, code)?)
}
