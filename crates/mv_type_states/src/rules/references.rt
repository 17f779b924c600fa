// References: to fields, read, written and frozen.
ghost use Rattle.std.specs.Prelude.{reverse, IfErr, ◌≡◌};
ghost use Rattle.mv_type_rules.specs.TypeRules.{target_of, mutable_target_of, field_types as types_of_field, of_mutable_field, of_immutable_field, of_read, of_write, of_freeze};
ghost use Rattle.mv_type_states.specs.Answers.{Follows, Finds};

use crate::rules::numbers::plain;
use crate::stack::{abilities, exchange, pop, push, take_top};
use mv_bound_rules::Bounded;
use mv_move_types::{Refusal, Token, ValueType};

/// Takes a mutable reference to a struct, and gives one to its field.
pub fn borrow_field_mutably(
    m: &Bounded<'_>,
    index: u16,
    stack: &mut Vec<Token>,
) -> Result<(), Refusal>
    ensures { Follows result (of_mutable_field m.now index (reverse stack.old.items)) (reverse stack.new.items) }
{
    let (structure, field) = field_types(m, index)?;
    exchange(
        stack,
        Token::MutableReference(structure),
        Token::MutableReference(field),
    )
}

/// Takes either reference to a struct, and gives an immutable one to its field.
pub fn borrow_field(m: &Bounded<'_>, index: u16, stack: &mut Vec<Token>) -> Result<(), Refusal>
    ensures { Follows result (of_immutable_field m.now index (reverse stack.old.items)) (reverse stack.new.items) }
{
    let (structure, field) = field_types(m, index)?;
    let token = take_top(stack)?;
    if target(token)? == structure {
        push(stack, Token::Reference(field))
    } else {
        Err(Refusal::Phase(8))
    }
}

/// Takes a reference, and gives what it refers to, which may be copied.
pub fn read(m: &Bounded<'_>, stack: &mut Vec<Token>) -> Result<(), Refusal>
    ensures { Follows result (of_read m.now (reverse stack.old.items)) (reverse stack.new.items) }
{
    let token = take_top(stack)?;
    let value = Token::Plain(target(token)?);
    let abilities = abilities(m, value)?;
    if abilities.copy {
        push(stack, value)
    } else {
        Err(Refusal::Phase(8))
    }
}

/// Takes a mutable reference, and below it a value of the type that it refers to, which has to have drop.
pub fn write(m: &Bounded<'_>, stack: &mut Vec<Token>) -> Result<(), Refusal>
    ensures types { Follows result (of_write m.now (reverse stack.old.items)) (reverse stack.new.items) }
    ensures phase { IfErr result (λ e. e ≡ Refusal.Phase 8) }
{
    let token = take_top(stack)?;
    let value = Token::Plain(mutable_target(token)?);
    let abilities = abilities(m, value)?;
    pop(stack, value)?;
    if abilities.drop {
        Ok(())
    } else {
        Err(Refusal::Phase(8))
    }
}

/// A mutable reference becomes an immutable one.
pub fn freeze(stack: &mut Vec<Token>) -> Result<(), Refusal>
    ensures { Follows result (of_freeze (reverse stack.old.items)) (reverse stack.new.items) }
{
    let token = take_top(stack)?;
    let target = mutable_target(token)?;
    push(stack, Token::Reference(target))
}

/// The struct type and the field's type of a field handle.
fn field_types(m: &Bounded<'_>, index: u16) -> Result<(ValueType, ValueType), Refusal>
    ensures { Finds result (types_of_field m.now index) }
{
    let module = m.module();
    let Some(handle) = module.field_handles().get(usize::from(index)) else {
        return Err(Refusal::Phase(8));
    };
    let Some(definition) = module.structs().get(usize::from(handle.definition)) else {
        return Err(Refusal::Phase(8));
    };
    let Some(field) = definition.fields().get(usize::from(handle.position)) else {
        return Err(Refusal::Phase(8));
    };
    let field = plain(field.token)?;
    Ok((ValueType::OfStruct(definition.handle()), field))
}

/// What a reference type refers to.
fn target(token: Token) -> Result<ValueType, Refusal>
    ensures { Finds result (target_of token) }
{
    match token {
        Token::Reference(target) | Token::MutableReference(target) => Ok(target),
        Token::Plain(_) => Err(Refusal::Phase(8)),
    }
}

/// What a mutable reference type refers to.
fn mutable_target(token: Token) -> Result<ValueType, Refusal>
    ensures { Finds result (mutable_target_of token) }
{
    match token {
        Token::MutableReference(target) => Ok(target),
        Token::Plain(_) | Token::Reference(_) => Err(Refusal::Phase(8)),
    }
}
