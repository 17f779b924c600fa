//! Which references lead into which values before each instruction of a function, as a domain of states.
//!
//! ```
//! use mv_borrow_graph::BorrowDomain;
//! use mv_lattice::{SolveError, solve};
//! use mv_type_rules::Typed;
//! use std::alloc::Global;
//!
//! /// Whether the search finds edges that show the borrows of a function to be safe. The function has to be there.
//! fn example(alloc: Global, m: &Typed<'_>, f: usize) -> bool {
//!     let domain = BorrowDomain::of_function(m, f);
//!     match solve(alloc, &domain, m.graph(f), &domain.start()) {
//!         Ok(_) => true,
//!         Err(SolveError::Need | SolveError::TooComplex | SolveError::Memory) => false,
//!     }
//! }
//! ```
#![tactic(auto)]

mod domain;
mod needed;
mod nodes;
mod rules;
mod site;

pub use domain::BorrowDomain;
