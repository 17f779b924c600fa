// A function's borrow graph as a domain of states.
ghost use Rattle.std.specs.Prelude.{◌≡◌, ◌<◌, List, [], length, slice_get, Option, Some, option_map, IsTrue, IfOk, IsErrOf, IsSome};
ghost use Rattle.std.specs.List.{list_all};
ghost use Rattle.mv_edges.specs.Ascending.{are_ascending};
ghost use Rattle.mv_edges.specs.Edges.{Edge as EdgeRecord};
ghost use Rattle.mv_type_rules.specs.Sound.{types_before};
ghost use Rattle.mv_type_rules.specs.TypesHold.{TypesHold, point_at};
ghost use Rattle.mv_borrow_graph.specs.Domain.{is_low, edges_step};

use super::site::{Scope, Site, leaves_edges};
use mv_binary_format::FunctionDefinition;
use mv_lattice::{Domain, StepError};
use mv_move_types::{Instruction, Node, Token};
use mv_type_rules::{StackTypes, Typed};
use mv_ways::Borrows;
use std::alloc::{AllocError, Global};
use std::marker::Model;

/// The types of the whole stack before each instruction of function `f`, whose definition is given.
fn stacks_of<'t>(m: &'t Typed<'_>, f: usize, function: &FunctionDefinition) -> &'t StackTypes
    requires known { slice_get m.now.functions f ≡ Some function.now }
    requires typed { TypesHold m.now }
    ensures before { result.now ≡ types_before m.entry.now function.now }
    ensures each { length (types_before m.entry.now function.now) ≡ length function.now.code }
    ensures low { IsTrue (list_all is_low (types_before m.entry.now function.now)) }
{
    m.stack_types(f)
}

/// The instruction at a place of code.
#[inline(always)]
fn instruction_in(code: &[Instruction], at: usize) -> &Instruction
    requires { at < length code.now }
    ensures { slice_get code.now at ≡ Some result.now }
{
    &code[at]
}

/// What the references of a function lead into before each of its instructions.
#[derive(Drop)]
pub struct BorrowDomain<'t, 'm> {
    scope: Scope<'t, 'm>,
    code: &'t [Instruction],
    stacks: &'t StackTypes,
}

impl<'t, 'm> Model for BorrowDomain<'t, 'm> {
    ghost use Rattle.std.specs.Prelude.{◌≡◌, ◌++◌, length, Some, IsTrue};
    ghost use Rattle.mv_move_types.specs.Module.{local_tokens};
    ghost use Rattle.std.specs.List.{list_all};
    ghost use Rattle.mv_type_rules.specs.Sound.{types_before};
    ghost use Rattle.mv_borrow_graph.specs.Domain.{Function, is_low};

    ghost Value = { Function };

    ghost view = { λ d. record { home = d.scope.module.now; function = d.scope.function.now } };

    ghost invariant = { λ d. (local_tokens d.scope.module.now d.scope.function.now ≡ Some (d.scope.parameters.now ++ d.scope.others.now))
        × (d.code.now ≡ d.scope.function.now.code)
        × (d.stacks.now ≡ types_before d.scope.module.now d.scope.function.now)
        × (length (types_before d.scope.module.now d.scope.function.now) ≡ length d.scope.function.now.code)
        × IsTrue (list_all is_low (types_before d.scope.module.now d.scope.function.now)) };
}

impl<'t, 'm> BorrowDomain<'t, 'm> {
    /// The domain of function `f`.
    pub fn of_function(m: &'t Typed<'m>, f: usize) -> Self
        requires { f < length m.now.functions }
        ensures home { result.home ≡ m.entry.now }
        ensures function { slice_get m.entry.now.functions f ≡ Some result.function }
    {
        let module = m.bounded();
        let function = &module.module().functions()[f];
        BorrowDomain {
            scope: Scope {
                module,
                function,
                parameters: module.parameters(f),
                others: module.other_locals(f),
            },
            code: module.code(f),
            stacks: stacks_of(m, f, function),
        }
    }

    /// The instruction at a place.
    #[inline(always)]
    fn instruction(&self, at: usize) -> &Instruction
        requires { at < length self.now.function.code }
        ensures { slice_get self.now.function.code at ≡ Some result.now }
    {
        instruction_in(self.code, at)
    }

    /// Where the instruction at a place stands.
    #[inline(always)]
    fn site(&self, at: usize) -> Site<'_, 'm>
        requires { at < length self.now.function.code }
        ensures { Some result ≡ option_map (point_at self.now.home self.now.function) (slice_get (types_before self.now.home self.now.function) at) }
    {
        Site {
            scope: &self.scope,
            stack: self.stacks.before(at),
        }
    }

    /// Whether the instruction at a place leaves all edges as they are.
    #[inline(always)]
    #[tactic(auto, using(crate::proofs::Stacks::step_left))]
    fn leaves_edges(&self, at: usize) -> bool
        requires { at < length self.now.function.code }
        ensures { IsTrue result → (s : List EdgeRecord) → IsTrue (are_ascending s) → edges_step self.now.home self.now.function at s ≡ Option.Some s }
    {
        // For the prover: the types before each instruction are known.
        let _site = self.site(at);
        leaves_edges(self.instruction(at))
    }

    /// Whether the instruction at a place needs nothing and leaves no edges, where there are none.
    #[inline(always)]
    #[tactic(auto, using(crate::proofs::Stacks::step_of_none))]
    fn leaves_none(&self, at: usize) -> bool
        requires { at < length self.now.function.code }
        ensures { IsTrue result → edges_step self.now.home self.now.function at [] ≡ Option.Some [] }
    {
        self.site(at).leaves_none(self.instruction(at))
    }

    /// What the instruction at a place makes of the edges. `Memory` is answered only if no need fails. It is inlined, so that `step`
    /// makes room for an answer only where it comes to this.
    #[inline(always)]
    #[tactic(auto, using(crate::proofs::Stacks::step_ok, crate::proofs::Stacks::step_need, crate::proofs::Stacks::step_meets))]
    fn changed(&self, alloc: Global, s: Borrows<'t>, at: usize) -> Result<Borrows<'t>, StepError>
        requires ascending { IsTrue (are_ascending s) }
        requires inside { at < length self.now.function.code }
        ensures ok { IfOk result (λ t. edges_step self.now.home self.now.function at s.entry ≡ Option.Some t) }
        ensures need { IsErrOf result StepError.Need → edges_step self.now.home self.now.function at s.entry ≡ Option.None }
        ensures meets { IsErrOf result StepError.Memory → IsSome (edges_step self.now.home self.now.function at s.entry) }
    {
        self.site(at).step(alloc, self.instruction(at), s)
    }

    /// What is known where the function begins: no edges.
    pub fn start(&self) -> Borrows<'t>
        ensures { result ≡ [] }
    {
        Borrows::nothing()
    }
}

impl<'t, 'm> Domain for BorrowDomain<'t, 'm> {
    ghost use Rattle.mv_borrow_graph.specs.Domain.{edges_order};
    ghost use Rattle.mv_borrow_graph.specs.Laws.{edges_lawful};

    type State = Borrows<'t>;

    ghost order = { λ d. edges_order d.home d.function };

    ghost laws = { λ d. edges_lawful d.home d.function };

    fn copy(&self, alloc: Global, s: &Borrows<'t>) -> Result<Borrows<'t>, AllocError> {
        s.copy(alloc)
    }

    fn leq(&self, a: &Borrows<'t>, b: &Borrows<'t>) -> bool {
        a.leq(b)
    }

    /// The edges of both, each of them.
    fn join(
        &self,
        alloc: Global,
        a: &Borrows<'t>,
        b: &Borrows<'t>,
    ) -> Result<Borrows<'t>, AllocError> {
        Borrows::join(alloc, a, b)
    }

    /// An instruction that needs nothing and leaves all edges, or no edges where there are none, gives back what it got at once.
    #[inline(always)]
    fn step(&self, alloc: Global, s: Borrows<'t>, at: usize) -> Result<Borrows<'t>, StepError> {
        if self.leaves_edges(at) || s.are_plainly_none() && self.leaves_none(at) {
            return Ok(s);
        }
        self.changed(alloc, s, at)
    }

    fn fits(&self, s: &Borrows<'t>) -> bool {
        s.are_few()
    }
}
