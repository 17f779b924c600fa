// The types on a stack, the topmost last: what is put there and taken away.
ghost use Rattle.std.specs.Prelude.{◌≡◌, ◌++◌, ◌∷◌, [], map, reverse, Some, IfErr};
ghost use Rattle.mv_move_types.specs.Tokens.{same_token};
ghost use Rattle.mv_abilities.specs.Abilities.{token_abilities};
ghost use Rattle.mv_type_rules.specs.TypeRules.{taken, takes_gives, number as number_type};
ghost use Rattle.mv_type_states.specs.Answers.{Follows, Finds, TakesTop};

use mv_bound_rules::Bounded;
use mv_move_types::{Abilities, Field, LeafKind, Refusal, Token, ValueType, Width};

/// The type of a bool.
pub const BOOLEAN: Token = Token::Plain(ValueType::OfLeaf(LeafKind::Boolean));

/// The type of an address.
pub const ADDRESS: Token = Token::Plain(ValueType::OfLeaf(LeafKind::Address));

/// The type of a number of this width.
pub fn number(width: Width) -> Token
    ensures { result ≡ number_type width }
{
    Token::Plain(ValueType::OfLeaf(LeafKind::Number(width)))
}

/// Puts a type on top of the stack.
#[inline(always)]
pub fn push(stack: &mut Vec<Token>, token: Token) -> Result<(), Refusal>
    ensures { Follows result (Some (token ∷ reverse stack.old.items)) (reverse stack.new.items) }
{
    match stack.push(token) {
        Ok(()) => Ok(()),
        Err(_) => Err(Refusal::Memory),
    }
}

/// Puts these types on top of the stack, the last of them topmost.
pub fn push_all(stack: &mut Vec<Token>, given: &[Token]) -> Result<(), Refusal>
    ensures { Follows result (Some (reverse given.now ++ reverse stack.old.items)) (reverse stack.new.items) }
{
    match stack.extend_from_slice(given) {
        Ok(()) => Ok(()),
        Err(_) => Err(Refusal::Memory),
    }
}

/// Puts the types of these fields on top of the stack, the last of them topmost.
pub fn push_fields(stack: &mut Vec<Token>, fields: &[Field]) -> Result<(), Refusal>
    ensures { Follows result (Some (reverse (map (λ f. f.token) fields.now) ++ reverse stack.old.items)) (reverse stack.new.items) }
{
    for field in fields {
        push(stack, field.token)?;
    }
    Ok(())
}

/// Takes the topmost type.
#[inline(always)]
pub fn take_top(stack: &mut Vec<Token>) -> Result<Token, Refusal>
    ensures { TakesTop result (reverse stack.old.items) (reverse stack.new.items) }
{
    match stack.pop() {
        Some(token) => Ok(token),
        None => Err(Refusal::Phase(8)),
    }
}

/// Takes the topmost type, which has to be this one.
#[inline(always)]
pub fn pop(stack: &mut Vec<Token>, wanted: Token) -> Result<(), Refusal>
    ensures types { Follows result (taken (wanted ∷ []) (reverse stack.old.items)) (reverse stack.new.items) }
    ensures phase { IfErr result (λ e. e ≡ Refusal.Phase 8) }
{
    match stack.pop() {
        Some(found) if found == wanted => Ok(()),
        _ => Err(Refusal::Phase(8)),
    }
}

/// Takes these types, the last of them topmost.
pub fn pop_all(stack: &mut Vec<Token>, wanted: &[Token]) -> Result<(), Refusal>
    ensures types { Follows result (taken wanted.now (reverse stack.old.items)) (reverse stack.new.items) }
    ensures phase { IfErr result (λ e. e ≡ Refusal.Phase 8) }
{
    let mut left = wanted;
    while let Some((last, others)) = left.split_last() {
        pop(stack, *last)?;
        left = others;
    }
    Ok(())
}

/// Takes the types of these fields, the last of them topmost.
pub fn pop_fields(stack: &mut Vec<Token>, fields: &[Field]) -> Result<(), Refusal>
    ensures types { Follows result (taken (map (λ f. f.token) fields.now) (reverse stack.old.items)) (reverse stack.new.items) }
    ensures phase { IfErr result (λ e. e ≡ Refusal.Phase 8) }
{
    let mut left = fields;
    while let Some((last, others)) = left.split_last() {
        pop(stack, last.token)?;
        left = others;
    }
    Ok(())
}

/// Whether a type is this one.
#[inline(always)]
fn is_type(found: Token, wanted: Token) -> bool
    ensures { result ≡ same_token found wanted }
{
    found == wanted
}

/// Replaces the topmost type, which has to be `wanted`, with `given`.
#[inline(always)]
pub fn exchange(stack: &mut Vec<Token>, wanted: Token, given: Token) -> Result<(), Refusal>
    ensures types { Follows result (takes_gives (wanted ∷ []) (given ∷ []) (reverse stack.old.items)) (reverse stack.new.items) }
    ensures phase { IfErr result (λ e. e ≡ Refusal.Phase 8) }
{
    match stack.last_mut() {
        Some(found) if is_type(*found, wanted) => {
            *found = given;
            Ok(())
        }
        _ => Err(Refusal::Phase(8)),
    }
}

/// Replaces the two topmost types, which both have to be `wanted`, with `given`.
#[inline(always)]
pub fn exchange_two(stack: &mut Vec<Token>, wanted: Token, given: Token) -> Result<(), Refusal>
    ensures types { Follows result (takes_gives (wanted ∷ wanted ∷ []) (given ∷ []) (reverse stack.old.items)) (reverse stack.new.items) }
    ensures phase { IfErr result (λ e. e ≡ Refusal.Phase 8) }
{
    pop(stack, wanted)?;
    exchange(stack, wanted, given)
}

/// The abilities of a type.
pub fn abilities(m: &Bounded<'_>, token: Token) -> Result<Abilities, Refusal>
    ensures { Finds result (token_abilities m.now token) }
{
    match mv_abilities::find(m, token) {
        Some(abilities) => Ok(abilities),
        None => Err(Refusal::Phase(8)),
    }
}
