//! Tests of how a saved ledger takes its file's place, by the calls of mv_commands. They are a crate of their own, so that none of its
//! functions is proved once more with them, and need no other crate, so that they are proved early.
#![tactic(auto)]

#[cfg(test)]
mod tests;
