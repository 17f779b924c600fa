// Structs: made of their fields and taken apart.
ghost use Rattle.std.specs.Prelude.{reverse};
ghost use Rattle.mv_type_rules.specs.TypeRules.{of_pack, of_unpack};
ghost use Rattle.mv_type_states.specs.Answers.{Follows};

use crate::stack::{pop, pop_fields, push, push_fields};
use mv_bound_rules::Bounded;
use mv_move_types::{Refusal, Token, ValueType};

/// Takes the fields, and gives the struct.
pub fn pack(m: &Bounded<'_>, index: u16, stack: &mut Vec<Token>) -> Result<(), Refusal>
    ensures { Follows result (of_pack m.now index (reverse stack.old.items)) (reverse stack.new.items) }
{
    let Some(definition) = m.module().structs().get(usize::from(index)) else {
        return Err(Refusal::Phase(8));
    };
    pop_fields(stack, definition.fields())?;
    push(
        stack,
        Token::Plain(ValueType::OfStruct(definition.handle())),
    )
}

/// Takes the struct, and gives the fields.
pub fn unpack(m: &Bounded<'_>, index: u16, stack: &mut Vec<Token>) -> Result<(), Refusal>
    ensures { Follows result (of_unpack m.now index (reverse stack.old.items)) (reverse stack.new.items) }
{
    let Some(definition) = m.module().structs().get(usize::from(index)) else {
        return Err(Refusal::Phase(8));
    };
    pop(
        stack,
        Token::Plain(ValueType::OfStruct(definition.handle())),
    )?;
    push_fields(stack, definition.fields())
}
