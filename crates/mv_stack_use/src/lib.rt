//! The height of the operand stack in a function's blocks, which is a part of phase 8 of publishing.
//!
//! ```
//! use mv_bound_rules::Bounded;
//! use mv_move_types::Instruction;
//!
//! /// Whether Add takes two operands and gives one. The module has a function.
//! fn example(m: &Bounded<'_>) -> bool {
//!     match mv_stack_use::effect(m, 0, Instruction::Add) {
//!         Some(effect) => effect.takes() == 2 && effect.gives() == 1,
//!         None => false,
//!     }
//! }
//! ```
#![tactic(auto)]

ghost use Rattle.std.specs.Prelude.{◌≡◌, ◌<◌, length, slice_get, IfSome, OnOk, IfErr, IsTrue, option_and_then};
ghost use Rattle.mv_move_types.specs.Refusals.{IsRefusedIn};
ghost use Rattle.mv_cfg.specs.FlowGraph.{IsFlowGraph};
ghost use Rattle.mv_stack_use.specs.Heights.{function_is_level, effect, effect_of, call_effect, return_effect, pack_effect, unpack_effect, height_through, raised};

use mv_bound_rules::{Bounded, FunctionDefinition};
use mv_cfg::Cfg;
use mv_move_types::limits::MOST_OPERANDS;
use mv_move_types::{Instruction, Refusal};
use std::marker::Model;

/// How many operands an instruction takes, and how many it gives.
#[derive(Clone, Copy)]
pub struct StackEffect {
    takes: usize,
    gives: usize,
}

impl Model for StackEffect {
    ghost use Rattle.mv_stack_use.specs.Heights.{StackEffect as Effect};

    ghost Value = { Effect };

    ghost view = { λ e. record { takes = e.takes; gives = e.gives } };

    ghost inverse = { λ e. record { takes = e.takes; gives = e.gives } };
}

impl StackEffect {
    /// How many operands the instruction takes.
    pub fn takes(&self) -> usize
        ensures { result ≡ self.now.takes }
    {
        self.takes
    }

    /// How many operands the instruction gives.
    pub fn gives(&self) -> usize
        ensures { result ≡ self.now.gives }
    {
        self.gives
    }
}

/// Accepts function `f` exactly if, in each of its blocks, the stack is empty at the start and at the end, never holds fewer
/// operands than an instruction takes, and never more than 128. `g` is the function's flow graph.
///
/// # Errors
///
/// `Phase(8)` if one of these fails.
pub fn check(m: &Bounded<'_>, f: usize, g: &Cfg) -> Result<(), Refusal>
    requires function { f < length m.now.functions }
    requires graph { IfSome (slice_get m.now.functions f) (λ d. IsFlowGraph d.code g.now) }
    ensures ok { OnOk result (IfSome (slice_get m.now.functions f) (λ d. IsTrue (function_is_level m.now d))) }
    ensures refused { IfErr result (λ e. IfSome (slice_get m.now.functions f) (λ d. IsRefusedIn 8 (IsTrue (function_is_level m.now d)) e)) }
    ensures phase { IfErr result (λ e. e ≡ Refusal.Phase 8) }
{
    if are_blocks_level(m, &m.module().functions()[f], m.code(f), g) {
        Ok(())
    } else {
        Err(Refusal::Phase(8))
    }
}

/// What an instruction of function `f` does to the height of the stack. None where the function or what the
/// instruction names isn't there.
pub fn effect(m: &Bounded<'_>, f: usize, i: Instruction) -> Option<StackEffect>
    ensures { result ≡ option_and_then (λ d. effect_of m.now d i) (slice_get m.now.functions f) }
{
    effect_in(m, m.module().functions().get(f)?, i)
}

/// What an instruction of a function does to the height of the stack, where what it names is there.
fn effect_in(m: &Bounded<'_>, d: &FunctionDefinition, i: Instruction) -> Option<StackEffect>
    ensures { result ≡ effect_of m.now d.now i }
{
    match i {
        Instruction::Ret => of_return(m, d),
        Instruction::Call(handle) => of_call(m, handle),
        Instruction::Pack(definition) => of_pack(m, definition),
        Instruction::Unpack(definition) => of_unpack(m, definition),
        Instruction::Branch(_) | Instruction::Nop => takes_gives(0, 0),
        Instruction::LdU64(_)
        | Instruction::LdConst(_)
        | Instruction::LdTrue
        | Instruction::LdFalse
        | Instruction::CopyLoc(_)
        | Instruction::MoveLoc(_)
        | Instruction::MutBorrowLoc(_)
        | Instruction::ImmBorrowLoc(_)
        | Instruction::LdU8(_)
        | Instruction::LdU128(_)
        | Instruction::LdU16(_)
        | Instruction::LdU32(_) => takes_gives(0, 1),
        Instruction::Pop
        | Instruction::BrTrue(_)
        | Instruction::BrFalse(_)
        | Instruction::StLoc(_)
        | Instruction::Abort => takes_gives(1, 0),
        Instruction::MutBorrowField(_)
        | Instruction::ImmBorrowField(_)
        | Instruction::ReadRef
        | Instruction::Not
        | Instruction::Exists(_)
        | Instruction::MutBorrowGlobal(_)
        | Instruction::ImmBorrowGlobal(_)
        | Instruction::MoveFrom(_)
        | Instruction::FreezeRef
        | Instruction::CastU8
        | Instruction::CastU64
        | Instruction::CastU128
        | Instruction::CastU16
        | Instruction::CastU32 => takes_gives(1, 1),
        Instruction::WriteRef | Instruction::MoveTo(_) => takes_gives(2, 0),
        Instruction::Add
        | Instruction::Sub
        | Instruction::Mul
        | Instruction::Mod
        | Instruction::Div
        | Instruction::BitOr
        | Instruction::BitAnd
        | Instruction::Xor
        | Instruction::Or
        | Instruction::And
        | Instruction::Eq
        | Instruction::Neq
        | Instruction::Lt
        | Instruction::Gt
        | Instruction::Le
        | Instruction::Ge
        | Instruction::Shl
        | Instruction::Shr => takes_gives(2, 1),
    }
}

/// An instruction takes so many operands, and gives so many.
fn takes_gives(takes: usize, gives: usize) -> Option<StackEffect>
    ensures { result ≡ effect takes gives }
{
    Some(StackEffect { takes, gives })
}

/// A call takes the parameters and gives the results.
fn of_call(m: &Bounded<'_>, handle: u16) -> Option<StackEffect>
    ensures { result ≡ call_effect m.now handle }
{
    let module = m.module();
    let handle = module.function_handles().get(usize::from(handle))?;
    let parameters = module.signature(usize::from(handle.parameters))?;
    let results = module.signature(usize::from(handle.results))?;
    takes_gives(parameters.len(), results.len())
}

/// A return takes the results.
fn of_return(m: &Bounded<'_>, d: &FunctionDefinition) -> Option<StackEffect>
    ensures { result ≡ return_effect m.now d.now }
{
    let module = m.module();
    let handle = module.function_handles().get(usize::from(d.handle()))?;
    let results = module.signature(usize::from(handle.results))?;
    takes_gives(results.len(), 0)
}

/// A struct is made of its fields.
fn of_pack(m: &Bounded<'_>, definition: u16) -> Option<StackEffect>
    ensures { result ≡ pack_effect m.now definition }
{
    let structure = m.module().structs().get(usize::from(definition))?;
    takes_gives(structure.fields().len(), 1)
}

/// A struct is taken apart into its fields.
fn of_unpack(m: &Bounded<'_>, definition: u16) -> Option<StackEffect>
    ensures { result ≡ unpack_effect m.now definition }
{
    let structure = m.module().structs().get(usize::from(definition))?;
    takes_gives(1, structure.fields().len())
}

/// The height after an effect, where there is as much as it takes and the stack never has more than 128.
fn height_by(height: usize, e: StackEffect) -> Option<usize>
    ensures { result ≡ raised height e }
{
    let after = height.checked_sub(e.takes)?.checked_add(e.gives)?;
    (after <= MOST_OPERANDS).then_some(after)
}

/// Whether every block begins and ends with nothing on the stack. `code` is the function's code.
fn are_blocks_level(m: &Bounded<'_>, d: &FunctionDefinition, code: &[Instruction], g: &Cfg) -> bool
    requires code { code.now ≡ d.now.code }
    requires graph { IsFlowGraph d.now.code g.now }
    ensures { result ≡ function_is_level m.now d.now }
{
    for block in &g.blocks {
        match height_after(m, d, &code[block.first..=block.last]) {
            Some(0) => {}
            _ => return false,
        }
    }
    true
}

/// The height that these instructions leave on an empty stack. None where some instruction can't be run.
fn height_after(m: &Bounded<'_>, d: &FunctionDefinition, code: &[Instruction]) -> Option<usize>
    ensures { result ≡ height_through m.now d.now code.now 0 }
{
    let mut height = 0;
    for i in code {
        height = height_by(height, effect_in(m, d, *i)?)?;
    }
    Some(height)
}
