// Values in the storage, by a struct definition that has key.
ghost use Rattle.std.specs.Prelude.{reverse, IfErr, ◌≡◌};
ghost use Rattle.mv_type_rules.specs.TypeRules.{boolean, keyed_type, of_global, of_move_to};
ghost use Rattle.mv_type_states.specs.Answers.{Follows, Finds};

use crate::stack::{ADDRESS, BOOLEAN, exchange, pop_all};
use mv_bound_rules::Bounded;
use mv_move_types::{LeafKind, Refusal, Token, ValueType};

/// Takes an address, and gives a bool.
pub fn exists(m: &Bounded<'_>, index: u16, stack: &mut Vec<Token>) -> Result<(), Refusal>
    ensures { Follows result (of_global (λ t. boolean) m.now index (reverse stack.old.items)) (reverse stack.new.items) }
{
    keyed(m, index)?;
    exchange(stack, ADDRESS, BOOLEAN)
}

/// Takes an address, and gives a mutable reference to the struct.
pub fn borrow_global_mutably(
    m: &Bounded<'_>,
    index: u16,
    stack: &mut Vec<Token>,
) -> Result<(), Refusal>
    ensures { Follows result (of_global Token.MutableReference m.now index (reverse stack.old.items)) (reverse stack.new.items) }
{
    let stored = keyed(m, index)?;
    exchange(stack, ADDRESS, Token::MutableReference(stored))
}

/// Takes an address, and gives an immutable reference to the struct.
pub fn borrow_global(m: &Bounded<'_>, index: u16, stack: &mut Vec<Token>) -> Result<(), Refusal>
    ensures { Follows result (of_global Token.Reference m.now index (reverse stack.old.items)) (reverse stack.new.items) }
{
    let stored = keyed(m, index)?;
    exchange(stack, ADDRESS, Token::Reference(stored))
}

/// Takes an address, and gives the struct.
pub fn move_from(m: &Bounded<'_>, index: u16, stack: &mut Vec<Token>) -> Result<(), Refusal>
    ensures { Follows result (of_global Token.Plain m.now index (reverse stack.old.items)) (reverse stack.new.items) }
{
    let stored = keyed(m, index)?;
    exchange(stack, ADDRESS, Token::Plain(stored))
}

/// Takes a reference to a signer, and the struct above it.
pub fn move_to(m: &Bounded<'_>, index: u16, stack: &mut Vec<Token>) -> Result<(), Refusal>
    ensures types { Follows result (of_move_to m.now index (reverse stack.old.items)) (reverse stack.new.items) }
    ensures phase { IfErr result (λ e. e ≡ Refusal.Phase 8) }
{
    let stored = keyed(m, index)?;
    let signer = Token::Reference(ValueType::OfLeaf(LeafKind::Signer));
    pop_all(stack, &[signer, Token::Plain(stored)])
}

/// The type of a struct definition that has key.
fn keyed(m: &Bounded<'_>, index: u16) -> Result<ValueType, Refusal>
    ensures { Finds result (keyed_type m.now index) }
{
    let module = m.module();
    let Some(definition) = module.structs().get(usize::from(index)) else {
        return Err(Refusal::Phase(8));
    };
    match module
        .struct_handles()
        .get(usize::from(definition.handle()))
    {
        Some(handle) if handle.abilities.key => Ok(ValueType::OfStruct(definition.handle())),
        _ => Err(Refusal::Phase(8)),
    }
}
