// A function, and what each of its instructions does to the types on the stack.
ghost use Rattle.std.specs.Prelude.{◌<◌, length, reverse};
ghost use Rattle.mv_type_rules.specs.TypeRules.{types_after};
ghost use Rattle.mv_type_states.specs.Answers.{Follows};
ghost use Rattle.mv_type_states.specs.Scopes.{IsScope, IsScopeOf};

use crate::rules::{control, globals, locals, numbers, references, structs};
use crate::stack::{BOOLEAN, exchange, exchange_two, number, pop, push};
use mv_binary_format::FunctionDefinition;
use mv_bound_rules::Bounded;
use mv_move_types::{Instruction, Refusal, Token, Width};

/// A function of a module, by its place. On a stack the last type is the topmost.
#[derive(Drop)]
pub struct Scope<'s, 'a> {
    pub module: &'s Bounded<'a>,
    pub place: usize,
    pub function: &'s FunctionDefinition<'a>,
    /// The types of its parameters.
    pub parameters: &'s [Token],
    /// The types of its other locals.
    pub others: &'s [Token],
}

/// The scope of function `f`.
pub fn scope_of<'s, 'a>(m: &'s Bounded<'a>, f: usize) -> Scope<'s, 'a>
    requires { f < length m.now.functions }
    ensures { IsScopeOf m.now f result }
{
    Scope {
        module: m,
        place: f,
        function: &m.module().functions()[f],
        parameters: m.parameters(f),
        others: m.other_locals(f),
    }
}

impl<'s, 'a> Scope<'s, 'a> {
    /// Puts the types after an instruction in place of those before it; refused in phase 8 where they aren't what it needs.
    #[tactic(auto, unfolding(mv_type_rules::specs::TypeRules::types_after))]
    pub fn step(&self, instruction: Instruction, stack: &mut Vec<Token>) -> Result<(), Refusal>
        requires { IsScope self.now }
        ensures { Follows result (types_after self.now.module.now self.now.function.now instruction (reverse stack.old.items)) (reverse stack.new.items) }
    {
        let m = self.module;
        match instruction {
            Instruction::LdU64(_) => push(stack, number(Width::U64)),
            Instruction::LdConst(constant) => numbers::constant(m, constant, stack),
            Instruction::LdTrue | Instruction::LdFalse => push(stack, BOOLEAN),
            Instruction::Add
            | Instruction::Sub
            | Instruction::Mul
            | Instruction::Mod
            | Instruction::Div
            | Instruction::BitOr
            | Instruction::BitAnd
            | Instruction::Xor => numbers::arithmetic(stack),
            Instruction::Or | Instruction::And => exchange_two(stack, BOOLEAN, BOOLEAN),
            Instruction::Not => exchange(stack, BOOLEAN, BOOLEAN),
            Instruction::Eq | Instruction::Neq => numbers::equality(m, stack),
            Instruction::Lt | Instruction::Gt | Instruction::Le | Instruction::Ge => {
                numbers::comparison(stack)
            }
            Instruction::Shl | Instruction::Shr => numbers::shift(stack),
            Instruction::LdU8(_) => push(stack, number(Width::U8)),
            Instruction::LdU128(_) => push(stack, number(Width::U128)),
            Instruction::CastU8 => numbers::cast(Width::U8, stack),
            Instruction::CastU64 => numbers::cast(Width::U64, stack),
            Instruction::CastU128 => numbers::cast(Width::U128, stack),
            Instruction::LdU16(_) => push(stack, number(Width::U16)),
            Instruction::LdU32(_) => push(stack, number(Width::U32)),
            Instruction::CastU16 => numbers::cast(Width::U16, stack),
            Instruction::CastU32 => numbers::cast(Width::U32, stack),
            Instruction::Pop => locals::pop_any(m, stack),
            Instruction::Ret => self.ret(stack),
            Instruction::BrTrue(_) | Instruction::BrFalse(_) => pop(stack, BOOLEAN),
            Instruction::Branch(_) | Instruction::Nop => Ok(()),
            Instruction::Call(function) => control::call(m, function, stack),
            Instruction::Abort => pop(stack, number(Width::U64)),
            Instruction::CopyLoc(local) => self.copy_local(local, stack),
            Instruction::MoveLoc(local) => self.move_local(local, stack),
            Instruction::StLoc(local) => self.store_local(local, stack),
            Instruction::MutBorrowLoc(local) => self.borrow_local_mutably(local, stack),
            Instruction::ImmBorrowLoc(local) => self.borrow_local(local, stack),
            Instruction::Pack(definition) => structs::pack(m, definition, stack),
            Instruction::Unpack(definition) => structs::unpack(m, definition, stack),
            Instruction::MutBorrowField(field) => references::borrow_field_mutably(m, field, stack),
            Instruction::ImmBorrowField(field) => references::borrow_field(m, field, stack),
            Instruction::ReadRef => references::read(m, stack),
            Instruction::WriteRef => references::write(m, stack),
            Instruction::FreezeRef => references::freeze(stack),
            Instruction::Exists(definition) => globals::exists(m, definition, stack),
            Instruction::MutBorrowGlobal(definition) => {
                globals::borrow_global_mutably(m, definition, stack)
            }
            Instruction::ImmBorrowGlobal(definition) => globals::borrow_global(
                m, definition, stack,
            ),
            Instruction::MoveFrom(definition) => globals::move_from(m, definition, stack),
            Instruction::MoveTo(definition) => globals::move_to(m, definition, stack),
        }
    }
}
