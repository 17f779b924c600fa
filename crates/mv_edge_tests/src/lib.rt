//! Tests of edges and of graphs of edges, with ample memory, by the calls that mv_edges and mv_ways offer. They are a crate of their own,
//! so that they are proved as soon as these two are (see mv_tests).
#![tactic(auto)]

#[cfg(test)]
mod tests;
