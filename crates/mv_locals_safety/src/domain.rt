// A function's locals as a domain of states.
ghost use Rattle.std.specs.Prelude.{◌≡◌, ◌<◌, [], ◌++◌, length, slice_get, zip, Option, Some, option_map, IfOk, IfSome, OnOk, IsErrOf};
ghost use Rattle.std.specs.List.{list_all};
ghost use Rattle.mv_move_types.specs.Module.{local_tokens, local_type, parameter_tokens};
ghost use Rattle.mv_certificate_rules.specs.LocalsRules.{leave_known, store_known, locals_after, start_locals};
ghost use Rattle.mv_locals_safety.specs.Domain.{may_stay, IsOfLocals, Follows, locals_step};
ghost use Rattle.mv_type_rules.specs.TypesHold.{point_at};

use super::Availabilities;
use mv_binary_format::{FunctionDefinition, Module};
use mv_bound_rules::Bounded;
use mv_lattice::{Domain, StepError};
use mv_move_types::{Availability, Instruction, Token};
use mv_type_rules::Typed;
use std::alloc::{AllocError, Global};
use std::marker::Model;

/// The types of a function's parameters, and of its other locals.
fn signatures_of<'t>(
    home: &'t Module<'_>,
    function: &FunctionDefinition,
) -> Option<(&'t [Token], &'t [Token])>
    ensures parameters { IfSome result (λ p. parameter_tokens home.entry.now function.now ≡ Some p.0.now) }
    ensures locals { option_map (λ p. p.0.now ++ p.1.now) result ≡ local_tokens home.entry.now function.now }
{
    let handle = home.function_handles().get(usize::from(function.handle()))?;
    let parameters = home.signature(usize::from(handle.parameters))?;
    let others = home.signature(usize::from(function.locals()))?;
    Some((parameters, others))
}

/// The definition of function `f`.
fn function_at<'t, 'm>(home: &'t Module<'m>, f: usize) -> &'t FunctionDefinition<'m>
    requires { f < length home.now.functions }
    ensures { slice_get home.entry.now.functions f ≡ Some result.now }
{
    &home.functions()[f]
}

/// The type at an index of two lists, one after the other.
fn among(first: &[Token], second: &[Token], index: usize) -> Option<Token>
    ensures { result ≡ slice_get (first.now ++ second.now) index }
{
    match index.checked_sub(first.len()) {
        None => first.get(index).copied(),
        Some(beyond) => second.get(beyond).copied(),
    }
}

/// Whether a local may be left behind: it holds nothing, or its value may be dropped.
fn may_remain(m: &Bounded<'_>, token: Token, a: Availability) -> bool
    ensures { result ≡ may_stay m.now token a }
{
    match a {
        Availability::Unavailable => true,
        Availability::Available | Availability::Maybe => mv_abilities::of(m, token).drop,
    }
}

/// Whether each local may be left behind.
fn may_each_remain(m: &Bounded<'_>, locals: &[Token], s: &[Availability]) -> bool
    ensures { result ≡ list_all (λ q. may_stay m.now q.0 q.1) (zip locals.now s.now) }
{
    locals
        .iter()
        .zip(s)
        .all(|(token, a)| may_remain(m, *token, *a))
}

/// Whether each parameter and each other local may be left behind.
fn may_all_remain(
    m: &Bounded<'_>,
    parameters: &[Token],
    others: &[Token],
    s: &[Availability],
) -> bool
    ensures { result ≡ list_all (λ q. may_stay m.now q.0 q.1) (zip (parameters.now ++ others.now) s.now) }
{
    let count = parameters.len();
    if s.len() <= count {
        return may_each_remain(m, parameters, s);
    }
    let (first, rest) = s.split_at(count);
    may_each_remain(m, parameters, first) && may_each_remain(m, others, rest)
}

/// What each local of a function holds before each of its instructions.
#[derive(Drop)]
pub struct LocalsDomain<'t, 'm> {
    bounded: &'t Bounded<'m>,
    function: &'t FunctionDefinition<'m>,
    code: &'t [Instruction],
    parameters: &'t [Token],
    others: &'t [Token],
}

impl<'t, 'm> Model for LocalsDomain<'t, 'm> {
    ghost use Rattle.std.specs.Prelude.{◌≡◌, ◌++◌, Some};
    ghost use Rattle.mv_move_types.specs.Module.{local_tokens, parameter_tokens};
    ghost use Rattle.mv_locals_safety.specs.Domain.{Function};

    ghost Value = { Function };

    ghost view = { λ d. record { home = d.bounded.now; function = d.function.now } };

    ghost invariant = { λ d. (d.code.now ≡ d.function.now.code)
        × (parameter_tokens d.bounded.now d.function.now ≡ Some d.parameters.now)
        × (local_tokens d.bounded.now d.function.now ≡ Some (d.parameters.now ++ d.others.now)) };
}

impl<'t, 'm> LocalsDomain<'t, 'm> {
    /// The domain of function `f`. It takes no memory.
    pub fn of_function(_alloc: Global, m: &'t Typed<'m>, f: usize) -> Result<Self, AllocError>
        requires { f < length m.now.functions }
        ensures home { IfOk result (λ d. d.home ≡ m.entry.now) }
        ensures function { IfOk result (λ d. slice_get m.entry.now.functions f ≡ Some d.function) }
    {
        let bounded = m.bounded();
        let module = bounded.module();
        let function = function_at(module, f);
        let (parameters, others) = signatures_of(module, function).unwrap();
        Ok(LocalsDomain {
            bounded,
            function,
            code: bounded.code(f),
            parameters,
            others,
        })
    }

    /// What is known where the function begins: parameters hold values, and other locals hold none.
    #[tactic(auto, using(crate::proofs::Tables::start_is, crate::proofs::Tables::state_is))]
    pub fn start(&self, alloc: Global) -> Result<Availabilities, AllocError>
        ensures start { IfOk result (λ s. start_locals self.now.home self.now.function ≡ Some s) }
        ensures state { IfOk result (λ s. IsOfLocals self.now.home self.now.function s) }
    {
        let mut all = Availabilities::none();
        all.push_times(alloc, Availability::Available, self.parameters.len())?;
        all.push_times(alloc, Availability::Unavailable, self.others.len())?;
        Ok(all)
    }

    /// Leaves the function, which changes nothing; refused where a local may hold what can't be dropped.
    fn leave(&self, s: &Availabilities) -> Result<(), StepError>
        ensures { Follows result s.now (leave_known (point_at self.now.home self.now.function []) s.now) }
    {
        if !may_all_remain(self.bounded, self.parameters, self.others, s.as_slice()) {
            return Err(StepError::Need);
        }
        Ok(())
    }

    /// Puts a value into a local; refused where one may still stand there that can't be dropped.
    fn store(&self, local: u16, s: &mut Availabilities) -> Result<(), StepError>
        ensures { Follows result s.new (store_known (point_at self.now.home self.now.function []) local s.old) }
    {
        let Some(token) = self.local(local) else {
            return Err(StepError::Need);
        };
        let Some(a) = s.get(local) else {
            return Err(StepError::Need);
        };
        if may_remain(self.bounded, token, a) {
            s.fill(local);
            Ok(())
        } else {
            Err(StepError::Need)
        }
    }

    /// The type of a local, if it is there.
    fn local(&self, local: u16) -> Option<Token>
        ensures { result ≡ local_type self.now.home self.now.function local }
    {
        among(self.parameters, self.others, usize::from(local))
    }

    /// The instruction at a place, if there is one.
    fn instruction(&self, at: usize) -> Option<Instruction>
        ensures { result ≡ slice_get self.now.function.code at }
    {
        self.code.get(at).copied()
    }

    /// Changes the availabilities as an instruction does.
    #[tactic(auto, unfolding(mv_certificate_rules::specs::LocalsRules::locals_after))]
    #[inline(always)]
    fn apply(&self, instruction: Instruction, s: &mut Availabilities) -> Result<(), StepError>
        ensures { Follows result s.new (locals_after (point_at self.now.home self.now.function []) instruction s.old) }
    {
        match instruction {
            Instruction::Ret => self.leave(s),
            Instruction::CopyLoc(local)
            | Instruction::MutBorrowLoc(local)
            | Instruction::ImmBorrowLoc(local) => s.borrow(local),
            Instruction::MoveLoc(local) => s.take(local),
            Instruction::StLoc(local) => self.store(local, s),
            _ => Ok(()),
        }
    }

    /// Changes the availabilities as the instruction at a place does.
    #[inline(always)]
    fn change(&self, s: &mut Availabilities, at: usize) -> Result<(), StepError>
        ensures ok { OnOk result (locals_step self.now.home self.now.function at s.old ≡ Option.Some s.new) }
        ensures need { IsErrOf result StepError.Need → locals_step self.now.home self.now.function at s.old ≡ Option.None }
        ensures memory { ¬ IsErrOf result StepError.Memory }
    {
        match self.instruction(at) {
            Some(instruction) => self.apply(instruction, s),
            None => Err(StepError::Need),
        }
    }
}

impl<'t, 'm> Domain for LocalsDomain<'t, 'm> {
    ghost use Rattle.mv_locals_safety.specs.Domain.{locals_order};
    ghost use Rattle.mv_locals_safety.specs.Laws.{locals_lawful};

    type State = Availabilities;

    ghost order = { λ d. locals_order d.home d.function };

    ghost laws = { λ d. locals_lawful d.home d.function };

    fn copy(&self, alloc: Global, s: &Availabilities) -> Result<Availabilities, AllocError> {
        s.copy(alloc)
    }

    fn leq(&self, a: &Availabilities, b: &Availabilities) -> bool {
        a.is_below(b)
    }

    fn join(
        &self,
        alloc: Global,
        a: &Availabilities,
        b: &Availabilities,
    ) -> Result<Availabilities, AllocError> {
        a.join(alloc, b)
    }

    /// No step takes memory.
    #[inline(always)]
    fn step(
        &self,
        _alloc: Global,
        mut s: Availabilities,
        at: usize,
    ) -> Result<Availabilities, StepError> {
        self.change(&mut s, at)?;
        Ok(s)
    }

    fn fits(&self, _s: &Availabilities) -> bool {
        true
    }
}
