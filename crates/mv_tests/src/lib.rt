//! Tests of the libraries' functions with ample memory, by the calls that each library offers. They are a crate of their own, so that
//! no library is proved once more with them, and so that they are proved beside the crates that the longest chain waits for. Those
//! that need only the lower libraries stand in mv_text_tests, mv_edge_tests and mv_storage_tests, which are proved sooner.
#![tactic(auto)]

#[cfg(test)]
mod tests;
