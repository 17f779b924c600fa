// Values that are taken away, and locals: copied, moved, stored and borrowed.
ghost use Rattle.std.specs.Prelude.{reverse, slice_get, IfErr, ◌≡◌, ◌++◌};
ghost use Rattle.mv_move_types.specs.Module.{local_type};
ghost use Rattle.mv_type_rules.specs.TypeRules.{of_copy, of_pop, of_borrow_local, types_after};
ghost use Rattle.mv_type_states.specs.Answers.{Follows, Finds};
ghost use Rattle.mv_type_states.specs.Scopes.{IsScope};

use crate::rules::numbers::plain;
use crate::scope::Scope;
use crate::stack::{abilities, pop, push, take_top};
use mv_bound_rules::Bounded;
use mv_move_types::{Instruction, Refusal, Token};

/// Takes a value that may be dropped.
pub fn pop_any(m: &Bounded<'_>, stack: &mut Vec<Token>) -> Result<(), Refusal>
    ensures types { Follows result (of_pop m.now (reverse stack.old.items)) (reverse stack.new.items) }
    ensures phase { IfErr result (λ e. e ≡ Refusal.Phase 8) }
{
    let token = take_top(stack)?;
    let abilities = abilities(m, token)?;
    if abilities.drop {
        Ok(())
    } else {
        Err(Refusal::Phase(8))
    }
}

/// The type at an index of two lists, one after the other.
fn among(first: &[Token], second: &[Token], index: usize) -> Option<Token>
    ensures { result ≡ slice_get (first.now ++ second.now) index }
{
    match index.checked_sub(first.len()) {
        None => first.get(index).copied(),
        Some(beyond) => second.get(beyond).copied(),
    }
}

impl<'s, 'a> Scope<'s, 'a> {
    /// The type of a local.
    fn local(&self, index: u16) -> Result<Token, Refusal>
        requires { IsScope self.now }
        ensures { Finds result (local_type self.now.module.now self.now.function.now index) }
    {
        match among(self.parameters, self.others, usize::from(index)) {
            Some(token) => Ok(token),
            None => Err(Refusal::Phase(8)),
        }
    }

    /// Gives the type of a local that may be copied.
    pub fn copy_local(&self, index: u16, stack: &mut Vec<Token>) -> Result<(), Refusal>
        requires { IsScope self.now }
        ensures { Follows result (of_copy self.now.module.now self.now.function.now index (reverse stack.old.items)) (reverse stack.new.items) }
    {
        let token = self.local(index)?;
        let abilities = abilities(self.module, token)?;
        if abilities.copy {
            push(stack, token)
        } else {
            Err(Refusal::Phase(8))
        }
    }

    /// Gives the type of a local.
    #[tactic(auto, unfolding(mv_type_rules::specs::TypeRules::types_after))]
    pub fn move_local(&self, index: u16, stack: &mut Vec<Token>) -> Result<(), Refusal>
        requires { IsScope self.now }
        ensures { Follows result (types_after self.now.module.now self.now.function.now (Instruction.MoveLoc index) (reverse stack.old.items)) (reverse stack.new.items) }
    {
        let token = self.local(index)?;
        push(stack, token)
    }

    /// Takes the type of a local.
    #[tactic(auto, unfolding(mv_type_rules::specs::TypeRules::types_after))]
    pub fn store_local(&self, index: u16, stack: &mut Vec<Token>) -> Result<(), Refusal>
        requires { IsScope self.now }
        ensures types { Follows result (types_after self.now.module.now self.now.function.now (Instruction.StLoc index) (reverse stack.old.items)) (reverse stack.new.items) }
        ensures phase { IfErr result (λ e. e ≡ Refusal.Phase 8) }
    {
        let token = self.local(index)?;
        pop(stack, token)
    }

    /// Gives a mutable reference to a local that is no reference.
    pub fn borrow_local_mutably(&self, index: u16, stack: &mut Vec<Token>) -> Result<(), Refusal>
        requires { IsScope self.now }
        ensures { Follows result (of_borrow_local Token.MutableReference self.now.module.now self.now.function.now index (reverse stack.old.items)) (reverse stack.new.items) }
    {
        let token = self.local(index)?;
        let lent = plain(token)?;
        push(stack, Token::MutableReference(lent))
    }

    /// Gives an immutable reference to a local that is no reference.
    pub fn borrow_local(&self, index: u16, stack: &mut Vec<Token>) -> Result<(), Refusal>
        requires { IsScope self.now }
        ensures { Follows result (of_borrow_local Token.Reference self.now.module.now self.now.function.now index (reverse stack.old.items)) (reverse stack.new.items) }
    {
        let token = self.local(index)?;
        let lent = plain(token)?;
        push(stack, Token::Reference(lent))
    }
}
