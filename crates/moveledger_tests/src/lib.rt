//! Tests of the engine over whole inputs, by the calls of moveledger.
//! They are a crate of their own, so that they are proved beside the program, and none of its functions once more with them.
#![tactic(auto)]

#[cfg(test)]
mod tests;
