//! Tests of the storage and of blocks of it, with ample memory, by the calls that mv_storage offers. They are a crate of their own, so that
//! they are proved as soon as mv_storage is (see mv_tests).
#![tactic(auto)]

#[cfg(test)]
mod tests;
