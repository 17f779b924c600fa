//! Tests of the command line, of certificates that are made and checked, of saved ledgers, and of how the program ends, by the calls of
//! moveledger. They are a crate of their own, so that the program isn't proved once more with them.
#![tactic(auto)]

#[cfg(test)]
mod tests;
