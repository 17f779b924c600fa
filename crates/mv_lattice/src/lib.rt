//! Flows of states over a graph of blocks, for any domain of states.
//!
//! ```
//! use mv_lattice::{SolveError, solve};
//! use mv_locals_safety::LocalsDomain;
//! use mv_type_rules::Typed;
//! use std::alloc::Global;
//!
//! /// In how many blocks of a function availabilities are stated by the least flow. The function has to be there.
//! fn example(alloc: Global, m: &Typed<'_>, f: usize) -> Result<usize, SolveError> {
//!     let domain = LocalsDomain::of_function(alloc, m, f)?;
//!     let stated = solve(alloc, &domain, m.graph(f), &domain.start(alloc)?)?;
//!     Ok(stated.iter().filter(|state| state.is_some()).count())
//! }
//! ```
#![tactic(auto)]

ghost use Rattle.std.specs.Prelude.{◌≡◌, ◌<◌, ◌↔◌, Option, IsTrue, IfOk, IsErrOf};
ghost use Rattle.mv_lattice.specs.Laws.{IsLawful, IsLeastAbove};
ghost use Rattle.mv_lattice.specs.Order.{Order};

mod flow;
mod search;

pub use flow::check_flow;
pub use search::{SolveError, search_is_least, solve};
use std::alloc::{AllocError, Global};
use thiserror::Error;

/// Why a state cannot be carried through an instruction, or a flow is not accepted.
#[derive(Drop, Clone, Copy, PartialEq, Eq, Debug, Error)]
pub enum StepError {
    /// A need of an instruction fails, or a stated state is not above what flows into it.
    #[error("a need fails")]
    Need,
    /// An allocation failed.
    #[error("out of memory")]
    Memory,
}

impl From<AllocError> for StepError {
    ghost use Rattle.mv_lattice.specs.declared.StepError.TheVariants.{Memory};

    ghost from_gives = { λ _ e. e ≡ Memory };

    fn from(_: AllocError) -> Self {
        StepError::Memory
    }
}

/// What is known of a function before each of its instructions: the states, their order, and what
/// an instruction makes of a state.
pub trait Domain {
    type State: PartialEq + Drop;

    /// The states of the function, their order, and what its instructions make of them.
    ghost order: { Self → Order Self.State };

    /// An equal state. What steps make of a state may have a form of its own; a copy has the form of what is stated.
    fn copy(&self, alloc: Global, s: &Self::State) -> Result<Self::State, AllocError>
        requires { (order self.now).is_state s.now }
        ensures { IfOk result (λ t. t ≡ s.now) };

    /// Whether the first state is below the second.
    fn leq(&self, a: &Self::State, b: &Self::State) -> bool
        requires a { (order self.now).is_state a.now }
        requires b { (order self.now).is_state b.now }
        ensures { IsTrue result ↔ (order self.now).below a.now b.now };

    /// The join of both, which is the least state above both.
    fn join(
        &self,
        alloc: Global,
        a: &Self::State,
        b: &Self::State,
    ) -> Result<Self::State, AllocError>
        requires a { (order self.now).is_state a.now }
        requires b { (order self.now).is_state b.now }
        ensures join { IfOk result (λ c. c ≡ (order self.now).joined a.now b.now) }
        ensures least { IfOk result (IsLeastAbove (order self.now) a.now b.now) }
        ensures begins { IfOk result (λ c. (order self.now).may_begin a.now → (order self.now).may_begin b.now → (order self.now).may_begin c) };

    /// What the instruction at `at` makes of a state. A state that is refused is dropped.
    ///
    /// # Errors
    /// `Need` where a need of the instruction fails of the state; `Memory` if an allocation failed.
    fn step(&self, alloc: Global, s: Self::State, at: usize) -> Result<Self::State, StepError>
        requires state { (order self.now).is_state s }
        requires inside { at < (order self.now).size }
        ensures ok { IfOk result (λ t. (order self.now).steps at s ≡ Option.Some t) }
        ensures need { IsErrOf result StepError.Need → (order self.now).steps at s ≡ Option.None };

    /// Whether the state is small enough to be stated by a search.
    fn fits(&self, s: &Self::State) -> bool
        requires { (order self.now).is_state s.now }
        ensures { IsTrue result ↔ (order self.now).is_small s.now };

    /// The laws of the order, of the join and of the steps.
    ghost laws: { (d : Self) → IsLawful (order d) };
}
