//! Which locals of a function hold a value before each instruction, as a domain of states.
//!
//! ```
//! use mv_lattice::{SolveError, solve};
//! use mv_locals_safety::LocalsDomain;
//! use mv_type_rules::Typed;
//! use std::alloc::Global;
//!
//! /// How many locals, parameters included, a function has where its first block begins. The function has to be there.
//! fn example(alloc: Global, m: &Typed<'_>, f: usize) -> Result<usize, SolveError> {
//!     let domain = LocalsDomain::of_function(alloc, m, f)?;
//!     let stated = solve(alloc, &domain, m.graph(f), &domain.start(alloc)?)?;
//!     Ok(match stated.first() {
//!         Some(Some(state)) => state.as_slice().len(),
//!         _ => 0,
//!     })
//! }
//! ```
#![tactic(auto)]

mod domain;
mod few;
mod states;

pub use domain::LocalsDomain;
pub use states::Availabilities;
