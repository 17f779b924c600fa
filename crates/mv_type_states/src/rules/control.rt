// Returns and calls.
ghost use Rattle.std.specs.Prelude.{reverse, IfErr, ◌≡◌};
ghost use Rattle.mv_type_rules.specs.TypeRules.{of_return, of_call};
ghost use Rattle.mv_type_states.specs.Answers.{Follows};
ghost use Rattle.mv_type_states.specs.Scopes.{IsScope};

use crate::scope::Scope;
use crate::stack::{pop_all, push_all};
use mv_bound_rules::Bounded;
use mv_move_types::{Refusal, Token};

/// Takes the parameters of a called function, and gives its results.
pub fn call(m: &Bounded<'_>, index: u16, stack: &mut Vec<Token>) -> Result<(), Refusal>
    ensures { Follows result (of_call m.now index (reverse stack.old.items)) (reverse stack.new.items) }
{
    let module = m.module();
    let Some(handle) = module.function_handles().get(usize::from(index)) else {
        return Err(Refusal::Phase(8));
    };
    let Some(parameters) = module.signature(usize::from(handle.parameters)) else {
        return Err(Refusal::Phase(8));
    };
    let Some(results) = module.signature(usize::from(handle.results)) else {
        return Err(Refusal::Phase(8));
    };
    pop_all(stack, parameters)?;
    push_all(stack, results)
}

impl<'s, 'a> Scope<'s, 'a> {
    /// Takes the results, where nothing else is on the stack.
    pub fn ret(&self, stack: &mut Vec<Token>) -> Result<(), Refusal>
        requires { IsScope self.now }
        ensures types { Follows result (of_return self.now.module.now self.now.function.now (reverse stack.old.items)) (reverse stack.new.items) }
        ensures phase { IfErr result (λ e. e ≡ Refusal.Phase 8) }
    {
        pop_all(stack, self.module.results(self.place))?;
        if stack.is_empty() {
            Ok(())
        } else {
            Err(Refusal::Phase(8))
        }
    }
}
