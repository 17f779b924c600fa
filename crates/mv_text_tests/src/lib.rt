//! Tests of the libraries that read and write numbers, entries and whole modules, with ample memory, by the calls that each library
//! offers. They are a crate of their own, so that they are proved as soon as mv_binary_format is (see mv_tests).
#![tactic(auto)]

#[cfg(test)]
mod tests;
