//! The ledger as a static library for C: `bindings/c/moveledger.h` declares its calls.
//!
//! Each call tests its arguments, makes one call of the libraries below, and states what that call does by its clauses. What owns
//! memory goes to C as a pointer in a struct of C's own: a ledger in a `Holder`, a save in a `SavingHolder`, bytes in a `Bytes`.
#![tactic(auto)]

mod blocks;
mod bytes;
mod changes;
mod holder;
mod ledgers;
mod modules;
mod parts;
mod questions;
mod records;
mod saving;
mod saving_holder;
mod shows;
mod status;
mod texts;

pub use bytes::Bytes;
pub use holder::Holder;
pub use saving_holder::SavingHolder;
