// Numbers and bools: constants, arithmetic, tests, shifts and casts.
ghost use Rattle.std.specs.Prelude.{reverse, IfErr, ◌≡◌};
ghost use Rattle.mv_type_rules.specs.TypeRules.{boolean, number as number_type, width_of, plain_of, top_width as top_width_of, of_constant, of_two_numbers, of_equality, of_shift, of_cast};
ghost use Rattle.mv_type_states.specs.Answers.{Follows, Finds};

use crate::stack::{BOOLEAN, abilities, exchange, exchange_two, number, pop, push, take_top};
use mv_bound_rules::Bounded;
use mv_move_types::{LeafKind, Refusal, Token, ValueType, Width};

/// Gives a constant's type.
pub fn constant(m: &Bounded<'_>, index: u16, stack: &mut Vec<Token>) -> Result<(), Refusal>
    ensures { Follows result (of_constant m.now index (reverse stack.old.items)) (reverse stack.new.items) }
{
    match m.module().constants().get(usize::from(index)) {
        Some(constant) => push(stack, constant.token()),
        None => Err(Refusal::Phase(8)),
    }
}

/// Two numbers of one width give another.
pub fn arithmetic(stack: &mut Vec<Token>) -> Result<(), Refusal>
    ensures { Follows result (of_two_numbers number_type (reverse stack.old.items)) (reverse stack.new.items) }
{
    let number = number(top_width(stack)?);
    exchange_two(stack, number, number)
}

/// Two numbers of one width give a bool.
pub fn comparison(stack: &mut Vec<Token>) -> Result<(), Refusal>
    ensures { Follows result (of_two_numbers (λ w. boolean) (reverse stack.old.items)) (reverse stack.new.items) }
{
    let number = number(top_width(stack)?);
    exchange_two(stack, number, BOOLEAN)
}

/// Two values of one type that are no references and may be dropped give a bool.
pub fn equality(m: &Bounded<'_>, stack: &mut Vec<Token>) -> Result<(), Refusal>
    ensures { Follows result (of_equality m.now (reverse stack.old.items)) (reverse stack.new.items) }
{
    let token = take_top(stack)?;
    plain(token)?;
    let abilities = abilities(m, token)?;
    if abilities.drop {
        exchange(stack, token, BOOLEAN)
    } else {
        Err(Refusal::Phase(8))
    }
}

/// A number and an amount of 8 bits give a number.
pub fn shift(stack: &mut Vec<Token>) -> Result<(), Refusal>
    ensures types { Follows result (of_shift (reverse stack.old.items)) (reverse stack.new.items) }
    ensures phase { IfErr result (λ e. e ≡ Refusal.Phase 8) }
{
    pop(stack, number(Width::U8))?;
    top_width(stack)?;
    Ok(())
}

/// A number becomes one of this width.
pub fn cast(width: Width, stack: &mut Vec<Token>) -> Result<(), Refusal>
    ensures { Follows result (of_cast width (reverse stack.old.items)) (reverse stack.new.items) }
{
    let token = take_top(stack)?;
    width_of_number(token)?;
    push(stack, number(width))
}

/// The width of the topmost number.
fn top_width(stack: &[Token]) -> Result<Width, Refusal>
    ensures { Finds result (top_width_of (reverse stack.now)) }
{
    match stack.last() {
        Some(token) => width_of_number(*token),
        None => Err(Refusal::Phase(8)),
    }
}

/// The width of a number type.
fn width_of_number(token: Token) -> Result<Width, Refusal>
    ensures { Finds result (width_of token) }
{
    match token {
        Token::Plain(ValueType::OfLeaf(LeafKind::Number(width))) => Ok(width),
        _ => Err(Refusal::Phase(8)),
    }
}

/// What a type that is no reference is of.
pub fn plain(token: Token) -> Result<ValueType, Refusal>
    ensures { Finds result (plain_of token) }
{
    match token {
        Token::Plain(value) => Ok(value),
        Token::Reference(_) | Token::MutableReference(_) => Err(Refusal::Phase(8)),
    }
}
