//! What holds of each run of the machine over accepted modules: definitions, laws and their proofs, and no code.
//!
//! Over accepted modules a typed state stays typed, and no step meets a fault of types or of links (`every_step_is_typed`).
//! In every frame the edges of its certificate cover the live references, so what the rules on borrows call free is free.
//! So no run meets a fault (`runs_are_faultless`), and each state that it comes to is as the certificates say (`states_hold`).
//! A typed storage and its words determine each other. `mv_interpreter` proves that linked code over words does the same.
//!
//! ```
//! use mv_soundness::runs_are_faultless;
//!
//! /// A law is a function that does nothing: its contract says what holds.
//! fn example() {
//!     runs_are_faultless();
//! }
//! ```
#![tactic(auto)]

mod laws;
mod soundness;

pub use crate::laws::{runs_are_faultless, states_hold};
pub use crate::soundness::every_step_is_typed;
