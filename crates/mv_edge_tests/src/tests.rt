// Edges, lists of them and graphs, with ample memory, and graphs beside lists.

mod edges;
mod graphs;
mod lists;
mod states;
